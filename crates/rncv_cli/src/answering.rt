// From the words of a command line to one answer.
ghost use Rattle.std.specs.Prelude.{◌≡◌, ◌≢◌, ◌-◌, ◌^◌, ◌<◌, List, Err, IfOk, IfErr, IsErrOf, length, map, string_bytes};
ghost use Rattle.std.specs.IoError.{error_kind};
ghost use Rattle.rng_model.specs.devices.Device.{device_failures};
ghost use Rattle.rnc_model.specs.loading.SchemaFile.{named_files};
ghost use Rattle.rncv_model.specs.answers.Run.{IsAnswer, main_name};
ghost use Rattle.rncv_cli.specs.plain.Answering.{IsAnswerTo, IsReadBy, IsUnreadBy};
ghost use Rattle.rncv_cli.specs.plain.CommandLine.{IsGivenLine, Text};
ghost use Rattle.rncv_cli.specs.views.Faults.{IsFaultOfRun, IsFaultTo, IsMemoryOrUsage};
ghost use Rattle.rncv_cli.specs.views.ProgramEnds.{HasEnded, IsUntouched};

use crate::command_line::words_given;
use crate::fault::{Fault, fault_of_words};
use crate::invocation::Words;
use crate::schema_files::read_files;
use rncv_run::{Command, Status, run};
use rng_model::Device;
use std::alloc::Global;
use std::env::Args;
use std::io;
use std::io::{ErrorKind, Read, Write};

/// Runs the command that the words after the program's name ask for, on the files that they name and with an input that
/// has the document. Writes the answer, flushes the output, and returns the status of the answer.
///
/// The words are those that `std::env::args` returns, the program's name first. `open_file` opens the file with a name,
/// as `std::fs::open` does. The answer and the status are those of `run` for the command and for what is read of the
/// files. The first file is the main one. Requires devices that have each counted fewer than 2^64 - 1 failed calls.
///
/// Fails with `Usage` if the words are no command line, or if `args` returned an error in their place, as for a word
/// that is not UTF-8. Fails with `File` and the first file that cannot be read. After these two, neither device was
/// called. Fails with `Read` only if the input counted a failed call, with `Write` only if the output did, which it also
/// does for a failed flush. Fails with `Memory` when out of memory, also if `args` was, and then no device counted a
/// failed call. If `args` returned an error, neither device was called. After `Write`, a beginning of the answer is
/// written, or all of it; after any other fault nothing is. Costs what `words`, `read_files` and `run` cost, and copies
/// of the words.
pub fn answer_command_line<O: Fn(&str) -> io::Result<T>, T: Read + Drop, R: Read, W: Write>(
    alloc: Global,
    given: io::Result<Args>,
    open_file: O,
    input: &mut Device<R>,
    output: &mut Device<W>,
) -> Result<Status, Fault>
    requires opener { O.IsAlwaysCallable open_file }
    requires input { device_failures input.old < 2 ^ 64 - 1 }
    requires output { device_failures output.old < 2 ^ 64 - 1 }
    ensures end { HasEnded input.old input.new output.old output.new R.remaining W.contents
        (IsAnswerTo (IsReadBy O.Fn open_file T.remaining) (IsGivenLine given))
        (IsFaultTo (IsReadBy O.Fn open_file T.remaining) (IsUnreadBy O.Fn open_file) (IsGivenLine given)) result }
    // The words are not given.
    ensures none { IfErr given (λ error. error_kind error ≢ ErrorKind.OutOfMemory → result ≡ Err Fault.Usage) }
    ensures memory { IfErr given (λ error. error_kind error ≡ ErrorKind.OutOfMemory → result ≡ Err Fault.Memory) }
    ensures untouched { IfErr given (λ error. IsUntouched input.old input.new output.old output.new) }
{
    let Words { command, files } = words_of(alloc, given)?;
    let files = read_files(alloc, files, open_file)?;
    answer_and_flush(alloc, command, files.as_slice(), input, output)
}

/// Returns the command line of the words that were given.
fn words_of(alloc: Global, given: io::Result<Args>) -> Result<Words, Fault>
    ensures ok { IfOk result (λ w. IsGivenLine given w.command (map string_bytes w.files.items)) }
    ensures usage { IsErrOf result Fault.Usage → (command : Command) (files : List Text) → IsGivenLine given command files → ⊥ }
    ensures fault { IfErr result IsMemoryOrUsage }
    ensures none { IfErr given (λ error. error_kind error ≢ ErrorKind.OutOfMemory → result ≡ Err Fault.Usage) }
    ensures memory { IfErr given (λ error. error_kind error ≡ ErrorKind.OutOfMemory → result ≡ Err Fault.Memory) }
{
    match given {
        Ok(all) => words_given(alloc, all),
        Err(error) => Err(fault_of_words(&error)),
    }
}

/// Runs the command on the files, and flushes the output.
fn answer_and_flush<R: Read, W: Write>(
    alloc: Global,
    command: Command,
    files: &[(String, Vec<u8>)],
    input: &mut Device<R>,
    output: &mut Device<W>,
) -> Result<Status, Fault>
    requires files { 0 < length files.now }
    requires input { device_failures input.old < 2 ^ 64 - 1 }
    requires output { device_failures output.old < 2 ^ 64 - 1 }
    ensures { HasEnded input.old input.new output.old output.new R.remaining W.contents
        (IsAnswer command (named_files files.now) (main_name files.now)) IsFaultOfRun result }
{
    let status = match run(alloc, command, files, input, output) {
        Ok(status) => status,
        Err(fault) => return Err(Fault::from(fault)),
    };
    match output.flush() {
        Ok(()) => Ok(status),
        Err(_) => Err(Fault::Write),
    }
}
