//! The restrictions on schemas, section 7 of the specification, checked on a simple grammar.
//!
//! `restrict` returns `Ok` exactly if the start and the bodies of the listed elements break none of the clauses S18 to
//! S27. Otherwise it returns the least clause that is broken, or it is out of memory.
#![tactic(auto)]

mod broken;
mod content;
mod facts;
mod held;
mod kind;
mod names_meet;
mod names_meet_groups;
mod names_meet_heads;
mod names_meet_joins;
mod names_meet_labels;
mod names_meet_reach;
mod names_meet_rows;
mod names_meet_search;
mod names_meet_sides;
mod restrictions;
mod wildcard;

pub use restrictions::restrict;
