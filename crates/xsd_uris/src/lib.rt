//! Texts that are URI references: `anyURI`.
//!
//! XML Schema Part 2, Second Edition, section 3.2.17; RFC 2396 and RFC 2732. The definition is `is_uri` in
//! `rng_model/specs/xsd/Uris.antt`. No call allocates memory.
#![tactic(auto)]

mod address;
mod authority;
mod characters;
mod reference;
mod splits;
mod trims;

pub use reference::is_uri;
