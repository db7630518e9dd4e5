//! From the files of a schema to its grammars at their places, or to the first clause that the files break.
#![tactic(auto)]

mod component_names;
mod fault;
mod gathering;
mod includes;
mod loading;
mod mentioned;
mod open_components;
mod order;
mod paths;
mod pattern_rows;
mod put;
mod reading;
mod reading_names;
mod reading_patterns;
mod schema;
mod schema_reader;

pub use loading::load;
pub use schema::Schema;
