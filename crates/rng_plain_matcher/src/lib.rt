//! Whether a document is valid by a simple grammar, by derivatives of owned trees of patterns.
//!
//! `PlainMatcher` takes the events of a document one by one. Its outcome is `Valid` exactly if the document is valid by
//! the rules of matching (RELAX NG Specification, sections 6.2 and 6.3), and otherwise the line of the first event after
//! which nothing is left. It serves every grammar that obeys the restrictions (section 7). It keeps no table and no memo:
//! each event makes new trees by the definitions of `rng_deriv_laws`. So it is a reference for tests, and what it keeps
//! may double with each event.
#![tactic(auto)]

mod context;
mod datatypes;
mod derivatives;
mod excepts;
mod first;
mod grammar_trees;
mod matcher;
mod position;
mod state;
mod tree;
mod ways;

pub use matcher::PlainMatcher;
