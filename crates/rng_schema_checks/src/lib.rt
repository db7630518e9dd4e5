//! Checks of the components of a schema, each by itself: its name classes, its datatypes, how components of one name
//! are combined, and whether refs have definitions (RELAX NG Specification, sections 4.16 to 4.18).
//!
//! The components at all places are checked, whether reached from the start or not.
#![tactic(auto)]

mod checking;
mod combinations;
mod datatypes;
mod definitions;
mod name_classes;
mod patterns;

pub use checking::check_components;
