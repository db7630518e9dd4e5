//! From schema files and a document to one line: `valid`, `invalid line N`, `malformed Pk line N`, `refused Sk file
//! NAME` or `refused Sk`.
//!
//! `run` reads the document and the files that the first file reaches. It reports the first clause that the files
//! break, or judges the document by the schema that they are, and writes the line. This holds for all bytes, however
//! the reader splits them. `run` succeeds only if no device failed. After a fault, at most a beginning of a line is
//! written.
//!
//! `answer_laws` does nothing. Its contract is the laws of answers: files are at most one schema, a schema has at most
//! one simple form, and a run has at most one answer, except for the line of an invalid document.
#![tactic(auto)]

mod answer;
mod document_input;
mod laws;
mod running;

pub use laws::answer_laws;
pub use rncv_model::{Command, RunFault, Status};
pub use running::run;
