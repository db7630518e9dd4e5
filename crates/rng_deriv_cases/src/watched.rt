// A matcher that takes a document, and is called again after it runs out of memory.
use pyx::Reader;
use rng_deriv::Matcher;
use rng_model::{Event, EventKind, Events, OutOfMemory, PyxFault};
use std::alloc::Global;
use std::io;

/// The most bytes that a document may have.
const DOCUMENT_LIMIT: usize = 1 << 30;

/// A matcher, and whether it ran out of memory.
#[derive(Drop)]
struct Watched<'a> {
    matcher: Matcher<'a>,
    has_run_out: bool,
}

impl Events for Watched<'_> {
    ghost stands = { λ first taker events. Unit {0} };

    fn event(&mut self, event: Event<'_>) -> Result<(), OutOfMemory> {
        let taken = self.matcher.event(event);
        self.has_run_out = taken.is_err();
        taken
    }
}

/// Returns a matcher that has taken the events of a document.
///
/// The error is `OutOfMemory`, or `InvalidData` if the bytes are no document. It is `Other` if the matcher ran out of
/// memory and a later call did not fail, the last one being `begin_anew` or `finish`.
pub fn taken<'a>(
    alloc: Global,
    matcher: Matcher<'a>,
    document: &[u8],
    anew: bool,
) -> io::Result<Matcher<'a>> {
    let mut watched = Watched {
        matcher,
        has_run_out: false,
    };
    let end = read(alloc, document, &mut watched);
    let Watched {
        matcher,
        has_run_out,
    } = watched;
    match end {
        Ok(()) => Ok(matcher),
        Err(PyxFault::At { .. }) => Err(io::Error::from(io::ErrorKind::InvalidData)),
        Err(PyxFault::Memory) => {
            let fails = !has_run_out || fails_again(matcher, anew);
            let kind = if fails {
                io::ErrorKind::OutOfMemory
            } else {
                io::ErrorKind::Other
            };
            Err(io::Error::from(kind))
        }
    }
}

/// Reads a document, and passes its events to a matcher.
pub fn read<E: Events>(alloc: Global, document: &[u8], matcher: &mut E) -> Result<(), PyxFault> {
    let mut reader = Reader::new(alloc);
    if document.len() > DOCUMENT_LIMIT {
        return Err(PyxFault::Memory);
    }
    reader.feed(document, matcher)?;
    reader.finish(matcher)
}

/// Returns whether a matcher that ran out of memory fails again, by `outcome`, `event`, and then `finish`. If it is to
/// begin anew, it fails or has an outcome.
fn fails_again(mut matcher: Matcher<'_>, anew: bool) -> bool {
    let end = Event {
        kind: EventKind::End,
        line: 1,
    };
    if matcher.outcome().is_ok() || matcher.event(end).is_ok() || matcher.outcome().is_ok() {
        return false;
    }
    if anew {
        return match matcher.begin_anew() {
            Ok(matcher) => matcher.outcome().is_ok(),
            Err(OutOfMemory) => true,
        };
    }
    matcher.finish().is_err()
}
