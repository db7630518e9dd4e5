// Why a call fails.
ghost use Rattle.std.specs.Prelude.{◌≡◌};
ghost use Rattle.rng_model.specs.declared.fault.SchemaFault.TheVariants as faults;

use std::alloc::{AllocError, AllocFailed};

/// A call ran out of memory.
#[derive(Clone, Copy, Debug, PartialEq, Eq)]
pub struct OutOfMemory;

impl From<AllocError> for OutOfMemory {
    fn from(_e: AllocError) -> OutOfMemory {
        OutOfMemory
    }
}

impl<T: Drop> From<AllocFailed<T>> for OutOfMemory {
    fn from(_e: AllocFailed<T>) -> OutOfMemory {
        OutOfMemory
    }
}

/// Why a call on a schema fails.
#[derive(Debug, Drop)]
pub enum SchemaFault {
    /// The schema file of this name is the first file that breaks a clause by itself. `clause` is the first clause that
    /// it breaks, from 1 to 8.
    File { clause: u8, name: String },
    /// The first clause that the schema breaks, 9 or more.
    Clause(u8),
    /// The call ran out of memory.
    Memory,
}

impl<E: Drop> From<E> for SchemaFault
where
    OutOfMemory: From<E>,
{
    ghost from_gives = { λ _ e. e ≡ faults.Memory };

    fn from(_e: E) -> SchemaFault {
        SchemaFault::Memory
    }
}
