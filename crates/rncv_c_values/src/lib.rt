//! What the library for C passes to C and takes from it: names, files, texts, statuses and reports, without handles.
//!
//! The structs are those that `rncv.h` declares. A text of C is a pointer with a length, and may be no UTF-8.
#![tactic(auto)]

mod attributes;
mod datatypes;
mod files;
mod mentioned;
mod places;
mod reasons;
mod status;
mod texts;
mod told;

pub use attributes::{AttributeBytes, NameBytes, text_attributes, text_name, text_of};
pub use datatypes::set_of_number;
pub use files::{SchemaFile, are_named, copied_files};
pub use mentioned::mentions;
pub use places::datatype_place;
pub use reasons::{ReasonNumbers, reason_to_tell};
pub use status::Status;
pub use texts::copied;
pub use told::{Judgement, Refusal, judgement_to_tell, refusal_to_tell};
