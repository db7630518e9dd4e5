//! From the tokens of a schema file to its tree, with its declarations applied.
//!
//! `parse` returns the tree exactly if the tokens are a sentence of the grammar, nest within 128 brackets, and declare
//! and use their prefixes by the rules. Such tokens have one tree. For other tokens it reports the clause that they
//! break: 7 before 6 before 8, and the token for clause 6. `resolve` returns the file tree of a syntax tree.
//! `FileTree::grammar` returns the components of a file that is a grammar. `FileTree::mentioned_files` returns which
//! other files a file mentions, in the order of their tokens. `Scope` applies declarations one by one and returns what a
//! prefix is declared as. The only other failure is out of memory.
#![tactic(auto)]

mod fault;
mod file_tree;
mod mentions;
mod parsing;
mod resolving;
mod scope;

pub use fault::ParseFault;
pub use file_tree::{
    Component, Datatype, DatatypeName, DatatypeValue, ExpandedName, FileTree, Mention, NameClass,
    Namespace, Pattern,
};
pub use mentions::MentionedFile;
pub use parsing::{parse, resolve};
pub use rng_model::Method;
pub use scope::{Scope, ScopeFault};
