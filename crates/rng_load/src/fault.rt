// Why one file has no tree, and why the files of a schema cannot all be read.
ghost use Rattle.std.specs.Prelude.{◌≡◌};
ghost use Rattle.rnc_grammar.specs.views.Fault as parsing;
ghost use Rattle.rng_load.specs.views.FileFaults.{fault_of_parse, fault_of_text};
ghost use Rattle.rng_load.specs.declared.fault.ReadingFault.TheVariants as readings;

use rnc_grammar::ParseFault;
use rnc_syntax::SyntaxFault;
use rnc_text::TextFault;
use rng_model::OutOfMemory;

/// Why one file has no tree.
#[derive(Clone, Copy)]
pub enum FileFault {
    /// The file breaks this clause, 1 to 8.
    Clause(u8),
    /// Out of memory.
    Memory,
}

impl From<TextFault> for FileFault {
    ghost from_gives = { λ cause fault. fault ≡ fault_of_text cause };

    fn from(cause: TextFault) -> FileFault {
        match cause {
            TextFault::At { clause, .. } => FileFault::Clause(clause),
            TextFault::Memory => FileFault::Memory,
        }
    }
}

impl From<ParseFault> for FileFault {
    ghost from_gives = { λ cause fault. fault ≡ fault_of_parse cause };

    fn from(cause: ParseFault) -> FileFault {
        match cause {
            ParseFault::At { clause, .. } | ParseFault::Clause(clause) => FileFault::Clause(clause),
            ParseFault::Memory => FileFault::Memory,
        }
    }
}

impl From<SyntaxFault> for FileFault {
    ghost from_gives = { λ cause fault. fault ≡ fault_of_parse (parsing.fault_of cause) };

    fn from(cause: SyntaxFault) -> FileFault {
        FileFault::from(ParseFault::from(cause))
    }
}

/// Why the files of a schema cannot all be read.
#[derive(Drop)]
pub enum ReadingFault {
    /// The file of this name is the first that breaks a clause by itself. The clause, 1 to 8, is the first that it
    /// breaks.
    File { clause: u8, name: String },
    /// Out of memory.
    Memory,
}

impl<E: Drop> From<E> for ReadingFault
where
    OutOfMemory: From<E>,
{
    ghost from_gives = { λ _ e. e ≡ readings.Memory };

    fn from(_e: E) -> ReadingFault {
        ReadingFault::Memory
    }
}
