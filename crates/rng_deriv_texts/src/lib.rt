//! What is left of a numbered pattern after a string, and after the attributes of a start tag; and whether an except has a
//! text.
//!
//! The ways of the pattern (`rng_deriv_ways`) say which leaf may take the string or the attribute, and what is
//! left then. The leaves are tested. What is left takes what may follow, by the rules of matching (RELAX NG
//! Specification, section 6.2). This holds for every grammar that obeys the restrictions of section 7.
#![tactic(auto)]

mod after;
mod first;
mod joined_sides;
mod leaf_tests;
mod plans;
mod settled;
mod texts;
mod value_index;

pub use after::{after_attribute, after_tag, after_text};
pub use texts::is_excepted;
