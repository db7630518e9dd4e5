// What is wrong with a document.
ghost use Rattle.std.specs.Prelude.{◌≡◌};
ghost use Rattle.pyx.specs.declared.fault.LineFault.TheVariants as lines;

use rng_model::OutOfMemory;

/// A fault of one line or of one tag.
#[derive(Drop)]
pub enum LineFault {
    /// Out of memory.
    Memory,
    /// The clause that is broken.
    Clause(u8),
}

impl<E: Drop> From<E> for LineFault
where
    OutOfMemory: From<E>,
{
    ghost from_gives = { λ _ e. e ≡ lines.Memory };

    fn from(_e: E) -> LineFault {
        LineFault::Memory
    }
}
