//! A matcher that takes the events of a document one by one, and reports whether the document is valid by a simple
//! grammar.
//!
//! `Matcher::new` makes a matcher for a grammar that breaks none of the restrictions. `Matcher` takes events (`Events`
//! of `rng_model`), and `finish` returns the outcome. It is the matcher of `rng_deriv_events` over the derivatives of a
//! grammar, `GrammarDerivatives`. Its patterns are in a table, where equal patterns have one number. What is left of a
//! pattern is another pattern (`rng_deriv_ways`), which takes exactly what may follow (RELAX NG Specification,
//! sections 6.2 and 7). If there are too many patterns, those that no open element holds are freed.
#![tactic(auto)]

mod grammar_derivatives;
mod learned;
mod matcher;
mod matcher_state;
mod pattern_renewal;
mod starts;
mod state_reasons;

pub use matcher::Matcher;
pub use matcher_state::MatcherState;
pub use rng_model::Outcome;
