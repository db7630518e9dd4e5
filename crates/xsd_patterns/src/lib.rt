//! The facet `pattern` of XML Schema: which texts match regular expressions as a whole (XML Schema Part 2, Second Edition,
//! section 4.3.4 and appendix F).
//!
//! `rng_model/specs/regexes` says what expressions are, and what they match.
#![tactic(auto)]

mod fault;
mod parameters;
mod pattern;
mod patterns;

pub use fault::PatternFault;
pub use parameters::{have_no_pattern, other_parameters};
pub use pattern::Pattern;
pub use patterns::Patterns;
pub use xsd_automaton::WhiteSpace;
