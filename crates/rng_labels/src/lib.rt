//! Codes of name classes, datatypes and values: the parts by which each is written. Two labels have the same code
//! exactly if they are equal. For name classes this holds once the members of each choice are nested in twos (RELAX NG
//! Specification, section 4.12).
//!
//! So a table finds what has a label by hashing. Each call fails only when out of memory.
#![tactic(auto)]

mod label_codes;

pub use label_codes::{LabelPart, place_of_code, put, put_class, put_datatype, put_value};
