// The answer of a run.
ghost use Rattle.std.specs.Prelude.{◌≡◌, IfOk, string_bytes};
ghost use Rattle.rncv_model.specs.answers.Answer as answer;
ghost use Rattle.rncv_model.specs.answers.Answer.{output_of, status_of};
ghost use Rattle.rncv_run.specs.views.AnswerView.{answer_of};

use rncv_model::{Status, Verdict};
use std::alloc::{AllocError, Global};

/// The answer of a run.
#[derive(Drop)]
pub enum Answer {
    /// The schema breaks this clause.
    Refused(u8),
    /// The file of this name breaks this clause.
    RefusedFile { clause: u8, name: String },
    /// The schema breaks no clause.
    SchemaOk,
    /// The simple form of the schema, printed.
    Printed(Vec<u8>),
    Judged(Verdict),
}

impl Answer {
    /// Returns the status of the answer. Allocates nothing.
    pub fn status(&self) -> Status
        ensures { result ≡ status_of (answer_of self.now) }
    {
        match self {
            Answer::Refused(_) | Answer::RefusedFile { .. } => Status::Refused,
            Answer::SchemaOk | Answer::Printed(_) | Answer::Judged(Verdict::Valid) => Status::Good,
            Answer::Judged(Verdict::Invalid(_)) => Status::Invalid,
            Answer::Judged(Verdict::Malformed { .. }) => Status::Malformed,
        }
    }

    /// Returns what is written: one line, ended by a line feed, or the printed text. Fails only when out of memory.
    pub fn into_output(self, alloc: Global) -> Result<Vec<u8>, AllocError>
        ensures { IfOk result (λ output. output.items ≡ output_of (answer_of self)) }
    {
        let line = match self {
            Answer::Printed(text) => return Ok(text),
            Answer::Refused(clause) => format!(in alloc; "refused S{clause}\n")?,
            Answer::RefusedFile { clause, name } => {
                refused_file_line(alloc, clause, name.as_str())?
            }
            Answer::SchemaOk => String::from_str(alloc, "schema ok\n")?,
            Answer::Judged(Verdict::Valid) => String::from_str(alloc, "valid\n")?,
            Answer::Judged(Verdict::Invalid(line)) => format!(in alloc; "invalid line {line}\n")?,
            Answer::Judged(Verdict::Malformed { clause, line }) => {
                malformed_line(alloc, clause, line)?
            }
        };
        Ok(line.into_bytes())
    }
}

fn malformed_line(alloc: Global, clause: u8, line: u64) -> Result<String, AllocError>
    ensures { IfOk result (λ text. string_bytes text ≡ output_of (answer.judged (Verdict.Malformed clause line))) }
{
    format!(in alloc; "malformed P{clause} line {line}\n")
}

fn refused_file_line(alloc: Global, clause: u8, name: &str) -> Result<String, AllocError>
    ensures { IfOk result (λ text. string_bytes text ≡ output_of (answer.refused_file clause name.now)) }
{
    format!(in alloc; "refused S{clause} file {name}\n")
}
