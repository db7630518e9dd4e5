//! Texts that write octets: `hexBinary` and `base64Binary`.
//!
//! XML Schema Part 2, Second Edition, sections 3.2.15 and 3.2.16. The definitions are in
//! `rng_model/specs/xsd/primitives/Octets.antt`. No call allocates memory.
#![tactic(auto)]

mod base64_binary;
mod hex_binary;

pub use base64_binary::{base64_binary_len, is_same_base64_binary};
pub use hex_binary::{hex_binary_len, is_same_hex_binary};
