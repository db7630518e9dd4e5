//! Texts that write floating-point numbers: `float` and `double`.
//!
//! XML Schema Part 2, Second Edition, sections 3.2.4 and 3.2.5. The definitions are in
//! `rng_model/specs/xsd/primitives/Floats.antt`. No call allocates memory.
#![tactic(auto)]

mod kind;
mod numbers;
mod numerals;
mod value;

pub use kind::FloatKind;
pub use value::FloatValue;
