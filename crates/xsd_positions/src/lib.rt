//! The positions of a regular expression of XML Schema: the parts of the expression with its counts written out, and for
//! each part what has to match behind it.
//!
//! XML Schema Part 2, Second Edition, appendix F. `specs/plain/Positions.antt` of `xsd_regex` says what positions are. An
//! expression is refused if it is too large with its counts written out. Each call fails only when out of memory.
#![tactic(auto)]

mod drafts;
mod links;
mod making;
mod places;
mod position;

pub use making::{MOST_POSITIONS, positions};
pub use position::{Part, Position, Positions};
