//! The simple form of the schema of some files, for the programs of cases that begin with it.
#![tactic(auto)]

mod simplifying;

pub use simplifying::simplified;
