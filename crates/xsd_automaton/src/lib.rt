//! An automaton that says which texts a regular expression of XML Schema matches (XML Schema Part 2, Second Edition,
//! appendix F).
//!
//! A text is judged by the positions of the expression, without memory and in one pass. The positions that it may be at
//! are closed by a work list, each at most once. A table has such sets of positions, so that a byte mostly costs one
//! look-up.
#![tactic(auto)]

mod alike;
mod automaton;
mod closing;
mod found_sets;
mod past_ascii;
mod reached;
mod sets;
mod steps;
mod treated;
mod white_space;

pub use automaton::Automaton;
pub use white_space::WhiteSpace;
