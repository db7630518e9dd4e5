//! Laws of what is printed for a schema: the text is read back, breaks no clause and has the same simple form. So the
//! answer of `simple` for this text is the text itself (RELAX NG Specification, sections 4.12 to 4.21 and 7; RELAX NG
//! Compact Syntax).
//!
//! The crate has no code that runs. Each call does nothing, and its contract is laws.
//!
//! - `reading_back_laws`: consider a simple grammar whose names are NCNames and whose texts are made of Chars. Its text
//!   breaks no clause of the compact syntax, except possibly that of its size. Its file tree is that of its lines.
//! - `printable_laws`: each simple grammar of a schema that breaks no clause is such a grammar.
//! - `reprinting_laws` and `printed_file_laws`: the schema of the lines of a printed grammar breaks no clause, and the
//!   same text is printed for it.
//! - `printed_again_laws`: the same for answers.
//!
//! Order of reading, in `specs/`:
//!
//! - `Printable`: which grammars.
//! - `LinesTree`: which tree.
//! - `ReadBack`: what it means to be read.
//! - `LinesSchema`: which schema the lines are.
//! - `HandedIn`: what it means to hand a text in again.
//!
//! The others in `specs/` are for the proofs:
//!
//! - `PrintedMarks`, `MarkLexemes`, `LinesSyntax`: the marks of a text, their tokens, and the tree of these with its
//!   prefixes. `marks_laws` of `rnc_text` says that separated marks are cut into their pieces and represent their
//!   characters.
//! - `WellSpelledFiles`, `WellSpelledSchemas`: the notion of printable for the tree of a file and for the components of
//!   a schema.
//!
//! `proofs/README.md` names the top of each law, and the groups of lemmas in `proofs/`.
#![tactic(auto)]

mod printable;
mod printed_again;
mod reading_back;
mod reprinting;

pub use printable::printable_laws;
pub use printed_again::printed_again_laws;
pub use reading_back::reading_back_laws;
pub use reprinting::{printed_file_laws, reprinting_laws};
