//! Tests of `rnc_text`: short texts against a plain program that follows the definitions, and a long text.
//!
//! They are in a crate of their own, because the tests of a crate are proved with the whole crate once more. Single
//! cases are rows of `parts_cases`.
#![tactic(auto)]

#[cfg(test)]
mod characters;
#[cfg(test)]
mod pieces;
#[cfg(test)]
mod walks;
