//! From the bytes of a schema in compact syntax to characters and tokens.
//!
//! `read_text` decodes the bytes and replaces escapes. It fails at the first offset where the bytes are not UTF-8 or
//! not characters that XML allows. `tokens` cuts the decoded text into tokens, each the longest that begins at its
//! offset. It fails at the first offset where no piece begins. `place_at` and `place_of_decoded` return the line and
//! the column of an offset. `marks_laws` does nothing: its contract is a theorem about which tokens a text has that is
//! made of words, names, segments, signs, spaces and line ends.
//!
//! Order of reading: in `rnc_model/specs`, `Characters` and `Decoding` (the decoded text of bytes), `Tokens` and `Cut`
//! (its tokens); in `specs/`, `Answers` (what a call returns) and `Marks` (texts that are made of tokens). The others
//! are for the proofs.
#![tactic(auto)]

mod character;
mod cursor;
mod cutting;
mod decoding;
mod fault;
mod hexadecimal;
mod laws;
mod placing;
mod scanning;
mod table;
mod text;

pub use cutting::tokens;
pub use decoding::read_text;
pub use fault::TextFault;
pub use laws::marks_laws;
pub use placing::{place_at, place_of_decoded};
pub use rnc_model::{Character, FilePlace, Keyword, Sign, Token, TokenKind};
pub use text::Text;
