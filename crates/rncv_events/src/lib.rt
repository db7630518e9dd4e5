//! Judges a document that a parser tells by calls, event after event, without any other form between.
//!
//! `EventDocument::new` begins a document by the schema of a validator. `start`, `text` and `end` tell it, by names that
//! are expanded already, and `finish` returns whether it is valid, and the validator for the next document. The calls
//! are checked by `element_events`. RELAX NG Specification, sections 2 and 6.
#![tactic(auto)]

mod copies;
mod document;
mod settling;
mod telling;

pub use document::EventDocument;
pub use element_events::{Attribute, EventFault, ExpandedName};
pub use rng_expected::{Expected, ExpectedTag};
pub use rng_model::Outcome;
