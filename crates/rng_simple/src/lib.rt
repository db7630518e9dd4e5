//! From a schema, or from its graph, to its simple form (RELAX NG Specification, sections 4.12 to 4.21).
//!
//! The result is a grammar in the simple syntax of section 5. It is the simple form of the schema, which is unique up
//! to the numbers of its elements. A schema that breaks one of the clauses 11 to 17 has none, and the call fails with
//! the least of them. A graph always has a simple form. The only other failure is out of memory.
#![tactic(auto)]

mod copying;
mod graph;
mod joining;
mod name_class;
mod reaching;
mod row_table;
mod rows;
mod schema_form;
mod schema_simplification;
mod simple_parts;
mod simple_rows;
mod worklist;

pub use schema_simplification::{simplify, simplify_with};
