//! What a reader has to believe about the compact syntax and about loading: definitions, and the types that they use.
//!
//! The definitions are in `specs/`: characters, tokens, productions, declarations, and which schema some files are. The
//! contracts of `rng_load` and of the crates that it uses are written in them.
#![tactic(auto)]

mod character;
mod file_place;
mod token;

pub use character::Character;
pub use file_place::FilePlace;
pub use token::{Keyword, Sign, Token, TokenKind};
