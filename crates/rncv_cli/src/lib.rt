//! What is around `run` in the program `rncv`: its words, its files, its faults and its exit status.
//!
//! `run_program` is the whole program, over the words, the function that opens files and the devices that it is handed.
//! It answers as `answer_command_line` does, which writes the answer of `run` for the words of the command line and for
//! what is read of their files, and flushes it. The first file is the main one. After a fault, at most a beginning of
//! that answer is written. `words` accepts exactly the words of a command line. A `Fault` is printed as its line on
//! standard error. `exit_of` returns the exit status of each answer.
#![tactic(auto)]

mod answering;
mod command_line;
mod exit_code;
mod fault;
mod invocation;
mod program;
mod schema_files;

pub use answering::answer_command_line;
pub use command_line::{words, words_given};
pub use exit_code::exit_of;
pub use fault::Fault;
pub use invocation::Words;
pub use program::run_program;
pub use schema_files::read_files;
