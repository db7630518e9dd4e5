//! What the crates of `rncv` share: names, patterns as written and in simple form, documents, and devices.
//!
//! The definitions that the contracts of all other crates cite are in this crate's `specs/`: which names a class holds,
//! which documents a pattern matches, and which lines are a document. Its own calls keep the invariants of the tables
//! of a simple grammar. They count the failed calls of a reader or a writer, and write a whole slice to a device.
#![tactic(auto)]

mod blanks;
mod character;
mod component;
mod datatype;
mod device;
mod device_writing;
mod document;
mod event;
mod fault;
mod grammar;
mod hashed_text;
mod method;
mod name;
mod namespace;
mod outcome;
mod place;
mod place_numbers;
mod pyx_fault;
mod regex_mode;
mod schema_pattern;
mod simple;
mod type_set;

pub use blanks::{Pieces, collapse, split_blanks};
pub use character::{is_name_char, is_name_start, is_ncname, is_xml_char};
pub use component::Component;
pub use datatype::{Datatype, DatatypeValue};
pub use device::{Device, DeviceFault};
pub use device_writing::write_whole;
pub use document::{Attr, Item};
pub use event::{Event, EventKind, Events};
pub use fault::{OutOfMemory, SchemaFault};
pub use grammar::SimpleGrammar;
pub use method::Method;
pub use name::{Name, NameClass};
pub use namespace::Namespace;
pub use outcome::Outcome;
pub use place::Place;
pub use pyx_fault::PyxFault;
pub use regex_mode::{ClassPlace, RegexMode};
pub use schema_pattern::{SchemaPattern, SchemaRow};
pub use simple::{ElementId, PatternId, Simple};
pub use type_set::TypeSet;
