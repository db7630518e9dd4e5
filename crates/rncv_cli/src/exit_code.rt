// The exit status of the program.
ghost use Rattle.std.specs.Prelude.{◌≡◌};
ghost use Rattle.std.specs.Process.{exit_status};
ghost use Rattle.rncv_cli.specs.views.ExitStatus.{exit_status_of};

use crate::fault::Fault;
use rncv_run::Status;
use std::process::ExitCode;

/// Returns the exit status: 0 to 3 by the status of a run that succeeded, otherwise the one of the fault
/// (`Fault::status`). Allocates nothing.
pub fn exit_of(answer: &Result<Status, Fault>) -> ExitCode
    ensures { exit_status result ≡ exit_status_of answer.now }
{
    let status: u8 = match answer {
        Ok(Status::Good) => 0,
        Ok(Status::Invalid) => 1,
        Ok(Status::Malformed) => 2,
        Ok(Status::Refused) => 3,
        Err(fault) => fault.status(),
    };
    ExitCode::from(status)
}
