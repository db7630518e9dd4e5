//! Simple grammars from rows of cases, with any tables, for the programs that call a crate on them.
#![tactic(auto)]

mod grammar_builder;
mod written_tables;

pub use written_tables::read_grammar;
