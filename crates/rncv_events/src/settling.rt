// What a document keeps after a call.
ghost use Rattle.std.specs.Prelude.{◌≡◌, Some, None};
ghost use Rattle.rncv_events.specs.views.Settled.{IsSettled};

use element_events::EventFault;
use rng_deriv::{Matcher, MatcherState};

/// Puts a state into its place.
#[inline(always)]
fn put_back(place: &mut Option<MatcherState>, state: MatcherState)
    ensures { place.new ≡ Some state }
{
    *place = Some(state);
}

/// Puts what a matcher keeps back into its place, unless the call ran out of memory, and keeps the fault of the call, if
/// it has one. Returns the result of the call. Allocates nothing.
#[inline(always)]
pub fn settle(
    answer: Result<(), EventFault>,
    matcher: Matcher<'_>,
    place: &mut Option<MatcherState>,
    fault: &mut Option<EventFault>,
) -> Result<(), EventFault>
    requires { place.old ≡ None }
    ensures same { result ≡ answer }
    ensures settled { IsSettled answer matcher.entry fault.old place.new fault.new }
{
    match answer {
        Ok(()) => {
            put_back(place, matcher.into_state());
            Ok(())
        }
        Err(EventFault::NotWellFormed) => {
            put_back(place, matcher.into_state());
            *fault = Some(EventFault::NotWellFormed);
            Err(EventFault::NotWellFormed)
        }
        Err(EventFault::Memory) => {
            *fault = Some(EventFault::Memory);
            Err(EventFault::Memory)
        }
    }
}
