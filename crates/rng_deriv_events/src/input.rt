// What a matcher takes.

use rng_model::EventKind;

/// What a matcher takes: an event, or a string of which only this is known: whether it is blank.
#[derive(Clone, Copy)]
pub enum Input<'e> {
    Event(EventKind<'e>),
    AnyText { blank: bool },
}
