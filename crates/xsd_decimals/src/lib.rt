//! Decimal numbers of any number of digits, as XML Schema writes them.
//!
//! XML Schema Part 2, Second Edition, section 3.2.3. Each call follows `rng_model/specs/xsd/primitives/Decimals.antt`. A number that a
//! text writes is read and compared without memory, as slices of the text.
#![tactic(auto)]

mod bound;
mod decimal;
mod digits;
mod number;
mod reading;

pub use bound::{DecimalBound, Decimals};
pub use decimal::Decimal;
