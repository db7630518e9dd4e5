// The events of a document.
ghost use Rattle.std.specs.Prelude.{List, [], ◌∷◌, ◌++◌, OnOk};
ghost use Rattle.rng_model.specs.documents.PyxTrees as trees;
ghost use Rattle.rng_model.specs.documents.EventViews.{event_of};

use crate::document::Attr;
use crate::fault::OutOfMemory;
use crate::name::Name;

/// An event of a document, and the line that reports it, counted from 1.
///
/// The start of an element has the first line after its tag. A string has the next line that is a start tag or an end
/// tag. The end of an element has its own line.
#[derive(Clone, Copy)]
pub struct Event<'a> {
    pub line: u64,
    pub kind: EventKind<'a>,
}

/// What happens in a document: an element starts, a string comes, or the innermost element ends.
///
/// RELAX NG Specification, section 2. No string is empty, and no two are adjacent. The attributes are in the order in
/// which they are written, without declarations of namespaces.
#[derive(Clone, Copy)]
pub enum EventKind<'a> {
    Start { name: &'a Name, attrs: &'a [Attr] },
    Text(&'a str),
    End,
}

/// A taker of the events of a document, one after another.
pub trait Events {
    /// `stands first now events`: the taker `now` represents the list `events`, which led to it from the taker `first`.
    ghost stands: { Self → Self → List trees.Event → Type 0 };

    /// Takes the next event. If this returns `Ok`, the taker represents each list that it represented, with this event
    /// appended, from the same first taker.
    ///
    /// Fails only when out of memory.
    fn event(&mut self, event: Event<'_>) -> Result<(), OutOfMemory>
        ensures { OnOk result ((first : Self) (events : List trees.Event) → stands first self.old events
            → stands first self.new (events ++ event_of event.entry ∷ [])) };
}
