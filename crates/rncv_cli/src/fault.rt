// Why the program ends without an answer.
ghost use Rattle.std.specs.Prelude.{◌≡◌, ◌≢◌, ◌↔◌, IsTrue};
ghost use Rattle.std.specs.IoError.{error_kind};
ghost use Rattle.rncv_cli.specs.views.ExitStatus.{fault_status};
ghost use Rattle.rncv_cli.specs.views.Faults.{IsMemoryOrUsage, fault_of_run};

use rncv_run::RunFault;
use std::io;
use std::io::ErrorKind;
use thiserror::Error;

/// Why the program ends without an answer. It is printed as a line on standard error. No contract says what the line
/// is.
#[derive(Debug, Drop, Error)]
pub enum Fault {
    /// The program ran out of memory.
    #[error("rncv: out of memory")]
    Memory,
    /// A read of the document failed.
    #[error("rncv: read failed")]
    Read,
    /// A write of the answer failed, or a flush of it.
    #[error("rncv: write failed")]
    Write,
    /// The file of this name cannot be read. The name is printed as it is, also an LF in it.
    #[error("rncv: cannot read file {0}")]
    File(String),
    /// The words are no command line of the program.
    #[error("usage: rncv valid|check|simple FILES..")]
    Usage,
}

impl Fault {
    /// Returns the exit status of a program that ends with the fault: 5 if the words are no command line, otherwise 4.
    /// Allocates nothing.
    pub fn status(&self) -> u8
        ensures { result ≡ fault_status self.now }
    {
        match self {
            Fault::Usage => 5,
            Fault::Memory | Fault::Read | Fault::Write | Fault::File(_) => 4,
        }
    }
}

impl From<RunFault> for Fault {
    ghost from_gives = { λ cause fault. fault ≡ fault_of_run cause };

    fn from(cause: RunFault) -> Fault {
        match cause {
            RunFault::Memory => Fault::Memory,
            RunFault::Read => Fault::Read,
            RunFault::Write => Fault::Write,
        }
    }
}

/// Returns why there are no words: `Memory` if the error is out of memory, otherwise `Usage`.
pub fn fault_of_words(error: &io::Error) -> Fault
    ensures memory { error_kind error.now ≡ ErrorKind.OutOfMemory → result ≡ Fault.Memory }
    ensures usage { error_kind error.now ≢ ErrorKind.OutOfMemory → result ≡ Fault.Usage }
    ensures either { IsMemoryOrUsage result }
{
    if is_want_of_memory(error) {
        return Fault::Memory;
    }
    Fault::Usage
}

/// Returns whether a call failed because it ran out of memory.
pub fn is_want_of_memory(error: &io::Error) -> bool
    ensures { IsTrue result ↔ (error_kind error.now ≡ ErrorKind.OutOfMemory) }
{
    matches!(error.kind(), ErrorKind::OutOfMemory)
}
