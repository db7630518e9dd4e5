//! From the tokens of a schema file to its syntax tree, as it is written.
//!
//! `read_syntax` returns the tree exactly if the tokens are a sentence of the grammar of the compact syntax and nest
//! within 128 brackets. A sentence has one tree. For other tokens the call fails. If they are no sentence, the fault has
//! the number of a token: some sentence begins with the tokens before it, and none with those up to and including it.
//! Declarations and prefixes are not checked, and annotations are skipped. The only other failure is out of memory.
#![tactic(auto)]

mod annotations;
mod atoms;
mod fault;
mod files;
mod literals;
mod names;
mod nesting;
mod patterns;
mod reading;
mod sentence;
mod syntax_tree;

pub use fault::SyntaxFault;
pub use rng_model::Method;
pub use sentence::read_syntax;
pub use syntax_tree::{
    Body, Component, DatatypeName, Declaration, File, Literal, Mention, NameClass, Parameter,
    Pattern, QualifiedName, Uri,
};
