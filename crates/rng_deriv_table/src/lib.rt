//! The patterns that a matcher makes, in one table that only grows. Equal patterns have one number. The patterns that
//! are still needed can be copied into a table of their own.
//!
//! A number represents a tree in simple form (RELAX NG Specification, section 5). The rules about notAllowed (4.20) and
//! about empty (4.21) are applied as patterns are made. A pattern takes what its parts say by the rules of matching
//! (section 6.2), as `rng_deriv_laws` defines them.
#![tactic(auto)]

mod choosing;
mod copies;
mod covering;
mod deep_parts;
mod grammar;
mod joining;
mod making;
mod pattern;
mod pattern_table;
mod regrouping;
mod selecting;
mod skips;
mod uses;

pub use deep_parts::Step;
pub use pattern::{Facts, Pattern, PatternNumber, Span};
pub use pattern_table::PatternTable;
pub use skips::{FEW_MEMBERS, Skip, Skips};
