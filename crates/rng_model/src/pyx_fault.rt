// Faults of documents.
ghost use Rattle.std.specs.Prelude.{◌≡◌};
ghost use Rattle.rng_model.specs.declared.pyx_fault.PyxFault.TheVariants as faults;

use crate::fault::OutOfMemory;

/// Why reading a document fails.
#[derive(Clone, Copy)]
pub enum PyxFault {
    /// The call, or the taker of events, ran out of memory.
    Memory,
    /// The clause, 1 to 13, is broken at this line, counted from 1. The line is 0 for a document without lines.
    At { clause: u8, line: u64 },
}

impl<E: Drop> From<E> for PyxFault
where
    OutOfMemory: From<E>,
{
    ghost from_gives = { λ _ e. e ≡ faults.Memory };

    fn from(_e: E) -> PyxFault {
        PyxFault::Memory
    }
}
