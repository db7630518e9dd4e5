// Why the reading of an expression stops.
ghost use Rattle.std.specs.Prelude.{◌≡◌};
ghost use Rattle.xsd_regex.specs.declared.fault.ReadFault.TheVariants as faults;

use rng_model::OutOfMemory;

/// Why the reading of an expression stops.
#[derive(Drop)]
pub(crate) enum ReadFault {
    /// The text is no expression.
    NoExpression,
    /// Out of memory.
    Memory,
}

impl<E: Drop> From<E> for ReadFault
where
    OutOfMemory: From<E>,
{
    ghost from_gives = { λ _ e. e ≡ faults.Memory };

    fn from(_e: E) -> ReadFault {
        ReadFault::Memory
    }
}
