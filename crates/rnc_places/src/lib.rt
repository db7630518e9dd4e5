//! What a schema file says by itself: where it breaks a clause, and which other files it mentions.
//!
//! `place_of` reads a file again that breaks a clause from 3 to 8. It returns the offset, the line and the column where
//! the file breaks it. `datatype_place_of` returns where the first datatype in a file breaks clause 12, for a set of
//! datatypes. `mentioned_names` reads a file, and returns the names of the files that it mentions, or the
//! clause that it breaks with its place. RELAX NG Compact Syntax, "Lexical structure" and "Syntax"; RELAX NG
//! Specification, sections 4.6 and 4.7.
#![tactic(auto)]

mod datatype_uses;
mod datatypes;
mod declarations;
mod fault;
mod mentions;
mod nesting;
mod places;
mod prefixes;

pub use fault::FileFault;
pub use mentions::mentioned_names;
pub use places::{datatype_place_of, place_of};
pub use rnc_model::FilePlace;
