//! Checks the calls by which a parser tells a document, and hands out the events of the document.
//!
//! `ElementEvents` takes the start and the end of each element and each text, by names that are expanded already. It
//! joins texts that follow each other, and refuses a call exactly if no document begins with the calls so far.
#![tactic(auto)]

mod attributes;
mod characters;
mod elements;
mod fault;
mod good_name;
mod known;
mod names;
mod namespaces;
mod repeats;
mod spares;
mod state;
mod tag;

pub use elements::ElementEvents;
pub use fault::EventFault;
pub use names::{Attribute, ExpandedName};
