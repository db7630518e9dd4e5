//! The datatypes of schemas: which texts each allows, and which texts are equal in it.
//!
//! Each datatype follows the table of `rng_model/specs/datatypes/Datatypes.antt` and proves the laws of `Datatype`:
//! equal texts are allowed, and equality of allowed texts is an equivalence. No call allocates memory.
#![tactic(auto)]

mod builtin;
mod collapsed;
mod datatype;
mod lengths;
mod numerals;
mod parameters;
mod plain;
mod runs;
mod texts;
mod values;
mod words;

pub use builtin::{Builtin, TypeFault};
pub use collapsed::{char_count, only_piece};
pub use datatype::{Datatype, are_all_equal};
pub use lengths::Lengths;
pub use numerals::{Bounds, are_digits, digits_len, without_sign};
pub use parameters::{is_once, value_named};
pub use plain::{PlainString, PlainToken};
pub use runs::{is_blank, is_same_collapsed, past_blanks};
pub use texts::{NcName, NmToken, XsdString, XsdToken, is_nmtoken};
pub use values::{Boolean, Integer};
pub use words::{are_word_bytes, ascii_word, starts_name};
