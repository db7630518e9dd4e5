//! What a reader has to believe about the program: definitions, and the types that they use.
//!
//! The definitions are in `specs/`: the text of a simple grammar, and the answers. The contracts of `rnc_print` and of
//! `run` are written in them.
#![tactic(auto)]

mod command;
mod print_fault;
mod run_fault;
mod status;
mod verdict;

pub use command::Command;
pub use print_fault::PrintFault;
pub use run_fault::RunFault;
pub use status::Status;
pub use verdict::Verdict;
