//! The text of what may come next in a document, a line for each name class, value and datatype, and of what a tag may have.
//!
//! It is for programs in other languages. Its definition is `expected_text/specs/ExpectationText.antt`. What the lines
//! mean, RELAX NG Specification, section 6.2, is said at `rng_expected`.
#![tactic(auto)]

mod class_parts;
mod fields;
mod lines;
mod parts;
mod tag_lines;

pub use lines::expected_text;
pub use tag_lines::tag_text;
