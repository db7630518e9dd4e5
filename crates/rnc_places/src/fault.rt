// Why a schema file has no tree.
ghost use Rattle.std.specs.Prelude.{◌≡◌};
ghost use Rattle.rnc_places.specs.declared.fault.FileFault.TheVariants as faults;

use rnc_model::FilePlace;
use rng_model::OutOfMemory;

/// Why a schema file has no tree.
#[derive(Clone, Copy)]
pub enum FileFault {
    /// The file breaks this clause, from 3 to 8, at this place (`place_of`), and no other of these clauses.
    Broken { clause: u8, place: FilePlace },
    /// Out of memory.
    Memory,
}

impl<E: Drop> From<E> for FileFault
where
    OutOfMemory: From<E>,
{
    ghost from_gives = { λ _ e. e ≡ faults.Memory };

    fn from(_e: E) -> FileFault {
        FileFault::Memory
    }
}
