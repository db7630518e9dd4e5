// The program, over what it is handed.
ghost use Rattle.std.specs.Prelude.{◌≡◌, ◌≢◌, ◌-◌, ◌^◌, ◌<◌, IfErr, Result};
ghost use Rattle.std.specs.IoError.{error_kind};
ghost use Rattle.std.specs.Process.{exit_status};
ghost use Rattle.rng_model.specs.devices.Device.{device_failures};
ghost use Rattle.rncv_cli.specs.plain.Answering.{IsAnswerTo, IsReadBy, IsUnreadBy};
ghost use Rattle.rncv_cli.specs.plain.CommandLine.{IsGivenLine};
ghost use Rattle.rncv_cli.specs.views.ExitStatus.{exit_status_of};
ghost use Rattle.rncv_cli.specs.views.Faults.{IsFaultTo};
ghost use Rattle.rncv_cli.specs.views.ProgramEnds.{HasEnded, IsUntouched};

use crate::answering::answer_command_line;
use crate::exit_code::exit_of;
use crate::fault::Fault;
use rncv_run::Status;
use rng_model::Device;
use std::env::Args;
use std::io;
use std::io::{Eprint, ErrorKind, Read, Write};
use std::process::ExitCode;

/// Answers the command line as `answer_command_line` does, prints the line of a fault on the standard error of `rt`,
/// and returns the exit status of the answer (`exit_of`).
///
/// The exit status is that of an end of the program by `HasEnded`: after 0 to 3 exactly the answer of that status is
/// written and flushed. If the words are not given, no device is called. No contract says what is printed on standard
/// error. Costs what `answer_command_line` costs.
pub fn run_program<O: Fn(&str) -> io::Result<T>, T: Read + Drop, R: Read, W: Write>(
    rt: &(impl Eprint + AllocGlobal),
    given: io::Result<Args>,
    open_file: O,
    input: &mut Device<R>,
    output: &mut Device<W>,
) -> ExitCode
    requires opener { O.IsAlwaysCallable open_file }
    requires input { device_failures input.old < 2 ^ 64 - 1 }
    requires output { device_failures output.old < 2 ^ 64 - 1 }
    ensures end { (end : Result Status Fault) × (exit_status result ≡ exit_status_of end)
        × HasEnded input.old input.new output.old output.new R.remaining W.contents
        (IsAnswerTo (IsReadBy O.Fn open_file T.remaining) (IsGivenLine given))
        (IsFaultTo (IsReadBy O.Fn open_file T.remaining) (IsUnreadBy O.Fn open_file) (IsGivenLine given)) end }
    // The words are not given.
    ensures none { IfErr given (λ error. error_kind error ≢ ErrorKind.OutOfMemory → exit_status result ≡ 5) }
    ensures memory { IfErr given (λ error. error_kind error ≡ ErrorKind.OutOfMemory → exit_status result ≡ 4) }
    ensures untouched { IfErr given (λ error. IsUntouched input.old input.new output.old output.new) }
{
    let answer = answer_command_line(rt.alloc(), given, open_file, input, output);
    print_fault(rt, &answer);
    exit_of(&answer)
}

/// Prints the line of a fault, if there is one, on standard error.
fn print_fault(rt: &impl Eprint, answer: &Result<Status, Fault>) {
    if let Err(fault) = answer {
        // If standard error fails too, only the exit status reports the fault.
        let _ = eprintln!(rt; "{fault}");
    }
}
