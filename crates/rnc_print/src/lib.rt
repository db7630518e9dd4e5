//! The text of a simple grammar: a line for each namespace, then one for the start, for each element and for each
//! pattern with parts.
//!
//! The text is the one that the definition gives (`rncv_model/specs/printed/PrintedText.antt`). Each grammar has one,
//! whatever the numbers of its elements (RELAX NG Specification, section 5; Compact Syntax, "Syntax").
#![tactic(auto)]

mod datatype;
mod items;
mod laws;
mod lines;
mod literal;
mod name_class;
mod prefixes;
mod printing;
mod tree_numbers;

pub use laws::printing_laws;
pub use printing::{print, printed_text};
pub use rncv_model::PrintFault;
