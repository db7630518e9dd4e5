// Why a text is not ready to be matched.
ghost use Rattle.std.specs.Prelude.{◌≡◌};
ghost use Rattle.xsd_patterns.specs.declared.fault.PatternFault.TheVariants as faults;

use rng_model::OutOfMemory;

/// Why a text was not made ready to be matched.
#[derive(Clone, Copy, Debug)]
pub enum PatternFault {
    /// The text is no expression.
    NoExpression,
    /// The expression is too large: its size with its counts written out is above 4,096.
    TooLarge,
    /// Out of memory.
    Memory,
}

impl<E: Drop> From<E> for PatternFault
where
    OutOfMemory: From<E>,
{
    ghost from_gives = { λ _ e. e ≡ faults.Memory };

    fn from(_e: E) -> PatternFault {
        PatternFault::Memory
    }
}
