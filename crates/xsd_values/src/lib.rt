//! Laws and worked cases of the primitive types of XML Schema: decimals, floats, octets, moments, durations, URIs.
//!
//! XML Schema Part 2, Second Edition, section 3.2. The definitions of the types are in `rng_model/specs/xsd`. No code is here.
#![tactic(auto)]
