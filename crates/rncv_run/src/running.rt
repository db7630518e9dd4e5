// From files and a document to an answer.
ghost use Rattle.std.specs.Prelude.{◌≡◌, ◌≢◌, ◌-◌, ◌^◌, ◌<◌, List, Some, length, IfOk, IfErr, OnOk, IsErrOf};
ghost use Rattle.rng_model.specs.devices.Device.{device_inner, device_failures};
ghost use Rattle.rncv_run.specs.views.AnswerView.{answer_of, refusal_of};
ghost use Rattle.rnc_model.specs.loading.SchemaFile.{named_files, FileName, NamedFile};
ghost use Rattle.rncv_validator.specs.views.Validators.{IsOneFor};
ghost use Rattle.rncv_model.specs.declared.command.Command.{Command};
ghost use Rattle.rncv_model.specs.answers.Run.{IsAnswer, JudgesDocument, WritesAnswer, WrittenAfter, main_name};

use crate::answer::Answer;
use crate::document_input::{JudgeFault, judge};
use rncv_model::{Command, RunFault, Status};
use rncv_validator::{CompileFault, Validator};
use rng_model::{Device, OutOfMemory, write_whole};
use std::alloc::Global;
use std::io::{Read, Write};

/// Runs the command on the schema of these files, the first of which is the main one, and writes the answer. The answer
/// is one line, or a simple form. The output is not flushed.
///
/// The line is one of these, the first that applies:
///
/// - `refused Sk file NAME`: a file breaks a clause by itself. NAME is the first such file in load order, and Sk the
///   first clause that it breaks, 1 to 8.
/// - `refused S9` or `refused S10`: the files together break that clause, S9 before S10.
/// - `refused Sk`: the least clause that their schema breaks, 11 to 27.
/// - For `Check`, `schema ok`. For `Simple`, the simple form of the schema instead of a line, as `printed_text` of
///   `rnc_print` prints it.
/// - For `Valid`, the verdict on the document that `input` has left: `malformed Pk line N` with its first fault if it
///   is no document. Otherwise `valid` exactly if it matches the schema by the rules of section 6 of the RELAX NG
///   Specification, applied to the files as they are written. Otherwise `invalid line N`: no document that begins with
///   its lines up to line N is valid. No start that is reported before line N has a name that no element of the
///   schema's simple form may have.
///
/// A line feed ends the line. If the schema is refused, the input is not read. The bytes of files that the main one
/// does not reach are ignored. Requires at least one file, and devices that have each counted fewer than 2^64 - 1
/// failed calls.
///
/// Fails with `RunFault::Read` or `RunFault::Write` only if that device counted a failed call, and with
/// `RunFault::Memory` only if neither did. After `Read` and `Memory` nothing is written. After `Write` a beginning of
/// the answer is written.
///
/// The document is read to its end, unless it is malformed. Only a tag, a text, the open elements, and what the matcher
/// keeps are held of it. The files are held whole. Costs the time of
/// `load`, then of `simplify` and `restrict`, and of `Matcher` for each event.
pub fn run<R: Read, W: Write>(
    alloc: Global,
    command: Command,
    files: &[(String, Vec<u8>)],
    input: &mut Device<R>,
    output: &mut Device<W>,
) -> Result<Status, RunFault>
    requires files { 0 < length files.now }
    requires input { device_failures input.old < 2 ^ 64 - 1 }
    requires output { device_failures output.old < 2 ^ 64 - 1 }

    // If the run succeeds, no call failed, and exactly the answer is written.
    ensures calm_input { OnOk result (device_failures input.new ≡ device_failures input.old) }
    ensures calm_output { OnOk result (device_failures output.new ≡ device_failures output.old) }
    ensures answer { IfOk result (λ status. WritesAnswer
        (IsAnswer command (named_files files.now) (main_name files.now) (R.remaining (device_inner input.old)) (R.remaining (device_inner input.new)))
        status (W.contents (device_inner output.old)) (W.contents (device_inner output.new))) }

    // Unless a document is to be judged, none is read.
    ensures unread { ¬ (JudgesDocument command (named_files files.now) (main_name files.now)) → input.new ≡ input.old }

    // The run fails with a fault of a device only if that device counted one.
    ensures read { IsErrOf result RunFault.Read → device_failures input.old < device_failures input.new }
    ensures write { IsErrOf result RunFault.Write → device_failures output.old < device_failures output.new }
    ensures memory { IsErrOf result RunFault.Memory →
        (device_failures input.new ≡ device_failures input.old) × (device_failures output.new ≡ device_failures output.old) }
    ensures written { IfErr result (λ fault. WrittenAfter
        (IsAnswer command (named_files files.now) (main_name files.now) (R.remaining (device_inner input.old)) (R.remaining (device_inner input.new)))
        fault (W.contents (device_inner output.old)) (W.contents (device_inner output.new))) }
{
    let answer = answer_for(alloc, command, files, input)?;
    let status = answer.status();
    let Ok(text) = answer.into_output(alloc) else {
        return Err(RunFault::Memory);
    };
    if write_whole(output, text.as_slice()).is_err() {
        return Err(RunFault::Write);
    }
    Ok(status)
}

/// Returns the answer for the files, the first of which is the main one, and for the document.
fn answer_for<R: Read>(
    alloc: Global,
    command: Command,
    files: &[(String, Vec<u8>)],
    input: &mut Device<R>,
) -> Result<Answer, JudgeFault>
    requires files { 0 < length files.now }
    requires input { device_failures input.old < 2 ^ 64 - 1 }
    ensures calm { OnOk result (device_failures input.new ≡ device_failures input.old) }
    ensures unread { ¬ (JudgesDocument command (named_files files.now) (main_name files.now)) → input.new ≡ input.old }
    ensures read { IsErrOf result JudgeFault.Read → device_failures input.old < device_failures input.new }
    ensures memory { IsErrOf result JudgeFault.Memory → device_failures input.new ≡ device_failures input.old }
    ensures answer { IfOk result (λ answer. IsAnswer command (named_files files.now) (main_name files.now) (R.remaining (device_inner input.old)) (R.remaining (device_inner input.new)) (answer_of answer)) }
{
    match Validator::compile(alloc, files) {
        Ok(validator) => answer_by(alloc, command, validator, input),
        Err(fault) => Ok(refusal(fault)?),
    }
}

/// Returns the answer for a schema that breaks no clause, and for the document.
fn answer_by<R: Read>(
    alloc: Global,
    command: Command,
    validator: Validator,
    input: &mut Device<R>,
) -> Result<Answer, JudgeFault>
    requires { device_failures input.old < 2 ^ 64 - 1 }
    ensures calm { OnOk result (device_failures input.new ≡ device_failures input.old) }
    ensures unread { command ≢ Command.Valid → input.new ≡ input.old }
    ensures read { IsErrOf result JudgeFault.Read → device_failures input.old < device_failures input.new }
    ensures memory { IsErrOf result JudgeFault.Memory → device_failures input.new ≡ device_failures input.old }
    ensures answer { IfOk result (λ answer. (files : List NamedFile) (main : FileName) → IsOneFor files main validator
        → IsAnswer command files main (R.remaining (device_inner input.old)) (R.remaining (device_inner input.new)) (answer_of answer)) }
{
    match command {
        Command::Check => Ok(Answer::SchemaOk),
        Command::Simple => Ok(Answer::Printed(validator.simple_text(alloc)?)),
        Command::Valid => Ok(Answer::Judged(judge(alloc, validator, input)?)),
    }
}

/// Returns the answer that reports a fault of a schema.
fn refusal(fault: CompileFault) -> Result<Answer, OutOfMemory>
    ensures { IfOk result (λ answer. refusal_of fault ≡ Some (answer_of answer)) }
{
    match fault {
        CompileFault::File { clause, name } => Ok(Answer::RefusedFile { clause, name }),
        CompileFault::Clause(clause) => Ok(Answer::Refused(clause)),
        CompileFault::Memory => Err(OutOfMemory),
    }
}
