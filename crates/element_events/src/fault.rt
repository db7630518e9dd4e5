// Why a call fails.
ghost use Rattle.std.specs.Prelude.{◌≡◌};
ghost use Rattle.element_events.specs.declared.fault.EventFault.TheVariants as faults;

use rng_model::OutOfMemory;

/// Why a call that tells a part of a document fails.
#[derive(Clone, Copy, Debug, PartialEq, Eq)]
pub enum EventFault {
    /// The call, or the taker of events, ran out of memory.
    Memory,
    /// No document begins with the calls so far. At the end: they are no document.
    NotWellFormed,
}

impl<E: Drop> From<E> for EventFault
where
    OutOfMemory: From<E>,
{
    ghost from_gives = { λ _ e. e ≡ faults.Memory };

    fn from(_e: E) -> EventFault {
        EventFault::Memory
    }
}
