// The checker of calls.
ghost use Rattle.std.specs.Prelude.{◌≡◌, ℕ, [], List, OnOk, IfErr, IfSome, IfNone, IsErrOf, Some, None, Err, false, length, true, unwrap_or};
ghost use Rattle.rng_model.specs.documents.EventViews.{Hands};
ghost use Rattle.rng_model.specs.documents.PyxTrees.{Event, a_string, an_end};
ghost use Rattle.rng_model.specs.documents.Telling.{BeginToTell};
ghost use Rattle.element_events.specs.views.Kept.{Adds, Extends, IsVerdict, Kept, Stands, state_of};
ghost use Rattle.element_events.specs.views.Told.{UnlessOutOfMemory, call, start_told};

use crate::fault::EventFault;
use crate::names::{Attribute, ExpandedName};
use crate::state::State;
use rng_model::Events;
use std::alloc::Global;
use std::marker::Model;

/// Checks the calls by which a parser tells a document, and hands out its events.
///
/// The start and the end of an element have the place of their call, and a string has the place of the start or end that
/// follows it. Texts that follow each other are one string, and an empty one is none. Where no element is open, white
/// space is passed over. There is no limit but memory on how deep elements nest, how many attributes a tag has and how
/// long a text is. More than 2^64 - 1 open elements count as out of memory. Only the text that is joined, the number of
/// open elements, up to 255 names and buffers are kept. The buffers are those of the last tag and the longest text, and
/// small ones for names and for 64 attributes.
///
/// A call fails with `EventFault::NotWellFormed` exactly if no document begins with the calls so far: characters are
/// those of XML, local names are NCNames, the attributes of a tag have distinct expanded names, ends match starts, and
/// there is one root with white space alone around it. After an error every call returns the same error.
///
/// RELAX NG Specification, section 2; XML 1.0, sections 2.1, 2.2, 2.8 and 3.1; Namespaces in XML 1.0, sections 3 and 6.3.
#[derive(Drop)]
pub struct ElementEvents {
    state: State,
    fault: Option<EventFault>,
}

impl Model for ElementEvents {
    ghost Value = { Kept };

    ghost view = { λ e. record { state = state_of e.state; passed = e.state.passed; fault = e.fault } };
}

impl ElementEvents {
    /// Creates a checker that has had no call. Allocates nothing.
    pub fn new(alloc: Global) -> Self
        ensures stands { Stands result [] [] }
        ensures passed { result.passed ≡ None }
        ensures held { result.state.text ≡ [] }
        ensures fault { result.fault ≡ None }
    {
        ElementEvents {
            state: State::new(alloc),
            fault: None,
        }
    }

    /// Takes the start of an element, with a place that the caller chooses. Hands out the string before it, if there is
    /// one, and the start.
    ///
    /// Fails with `EventFault::NotWellFormed` exactly if no document begins with the calls so far, or with
    /// `EventFault::Memory`. Costs one pass over the names and values, and one look-up by hashing for each of more than
    /// 16 attributes. Takes memory only for those look-ups, for a name that was not told lately, and where a name, a value
    /// or a namespace does not fit the buffers that are there. RELAX NG Specification, section 2.
    pub fn start<E: Events>(
        &mut self,
        place: u64,
        name: ExpandedName<'_>,
        attributes: &[Attribute<'_>],
        events: &mut E,
    ) -> Result<(), EventFault>
        ensures stands { UnlessOutOfMemory result
            (Extends (Hands E.stands events.old events.new) self.old self.new (call place (start_told name.entry attributes.now))) }
        ensures begins { OnOk result ((calls sent : List Event) → Stands self.new calls sent → BeginToTell calls sent) }
        ensures fault { IfErr result (λ f. self.new.fault ≡ Some f) }
        ensures passed { OnOk result (self.new.passed ≡ None) }
        ensures held { OnOk result (self.new.state.text ≡ []) }
        ensures working { OnOk result (self.new.fault ≡ None) }
        ensures sticky { IfSome self.old.fault (λ f. (result ≡ Err f) × (self.new ≡ self.old)) }
    {
        if let Some(fault) = self.fault {
            return Err(fault);
        }
        match self.state.start(place, name, attributes, events) {
            Ok(()) => Ok(()),
            Err(fault) => {
                self.fault = Some(fault);
                Err(fault)
            }
        }
    }

    /// Takes a text. It may be empty, and may be a part of a string. It needs no place, and hands out nothing.
    ///
    /// Fails with `EventFault::NotWellFormed` exactly if no document begins with the calls so far, or with
    /// `EventFault::Memory`. Costs one pass over the text, which is copied into a buffer. RELAX NG Specification,
    /// section 2.
    pub fn text(&mut self, text: &str) -> Result<(), EventFault>
        ensures stands { (place : ℕ) → UnlessOutOfMemory result (Adds self.old self.new (call place (a_string text.now))) }
        ensures kept { self.old.passed ≡ None → self.new.passed ≡ None }
        ensures begins { OnOk result ((calls sent : List Event) → Stands self.new calls sent → BeginToTell calls sent) }
        ensures fault { IfErr result (λ f. self.new.fault ≡ Some f) }
        ensures working { OnOk result (self.new.fault ≡ None) }
        ensures sticky { IfSome self.old.fault (λ f. (result ≡ Err f) × (self.new ≡ self.old)) }
    {
        self.take_text(text, true)
    }

    /// Takes a text as `text` does, and keeps nothing of it but whether it is blank, unless it is behind a text that is
    /// kept. The string that it belongs to is not handed out: before the next start or end, `passed` tells of it.
    ///
    /// Fails as `text` does. Costs one pass over the text. Allocates nothing, unless it is behind a text that is kept.
    pub fn pass_text(&mut self, text: &str) -> Result<(), EventFault>
        ensures stands { (place : ℕ) → UnlessOutOfMemory result (Adds self.old self.new (call place (a_string text.now))) }
        ensures held { OnOk result (self.old.state.text ≡ [] → self.new.state.text ≡ []) }
        ensures begins { OnOk result ((calls sent : List Event) → Stands self.new calls sent → BeginToTell calls sent) }
        ensures fault { IfErr result (λ f. self.new.fault ≡ Some f) }
        ensures working { OnOk result (self.new.fault ≡ None) }
        ensures sticky { IfSome self.old.fault (λ f. (result ≡ Err f) × (self.new ≡ self.old)) }
    {
        self.take_text(text, false)
    }

    /// Returns whether the string that was passed over since the last start or end is blank. Returns `None` if no
    /// character was passed over. Allocates nothing.
    pub fn passed(&self) -> Option<bool>
        ensures { result ≡ self.now.passed }
    {
        self.state.passed()
    }

    /// Returns how many bytes are held of the text behind the last start or end. They grow with the document. None are held
    /// of a text that was passed over. Allocates nothing.
    pub fn held(&self) -> usize
        ensures { result ≡ length self.now.state.text }
    {
        self.state.held()
    }

    /// Takes a text, and keeps it or passes over it.
    #[inline(always)]
    fn take_text(&mut self, text: &str, keeps: bool) -> Result<(), EventFault>
        ensures stands { (place : ℕ) → UnlessOutOfMemory result (Adds self.old self.new (call place (a_string text.now))) }
        ensures kept { keeps ≡ true → self.old.passed ≡ None → self.new.passed ≡ None }
        ensures held { OnOk result (keeps ≡ false → self.old.state.text ≡ [] → self.new.state.text ≡ []) }
        ensures begins { OnOk result ((calls sent : List Event) → Stands self.new calls sent → BeginToTell calls sent) }
        ensures fault { IfErr result (λ f. self.new.fault ≡ Some f) }
        ensures working { OnOk result (self.new.fault ≡ None) }
        ensures sticky { IfSome self.old.fault (λ f. (result ≡ Err f) × (self.new ≡ self.old)) }
    {
        if let Some(fault) = self.fault {
            return Err(fault);
        }
        match self.state.text(text, keeps) {
            Ok(()) => Ok(()),
            Err(fault) => {
                self.fault = Some(fault);
                Err(fault)
            }
        }
    }

    /// Takes the end of the innermost element, with a place that the caller chooses. Hands out the string before it, if
    /// there is one, and the end.
    ///
    /// Fails with `EventFault::NotWellFormed` exactly if no document begins with the calls so far, or with
    /// `EventFault::Memory`. Allocates nothing itself. RELAX NG Specification, section 2.
    pub fn end<E: Events>(&mut self, place: u64, events: &mut E) -> Result<(), EventFault>
        ensures stands { UnlessOutOfMemory result (Extends (Hands E.stands events.old events.new) self.old self.new (call place an_end)) }
        ensures begins { OnOk result ((calls sent : List Event) → Stands self.new calls sent → BeginToTell calls sent) }
        ensures fault { IfErr result (λ f. self.new.fault ≡ Some f) }
        ensures passed { OnOk result (self.new.passed ≡ None) }
        ensures held { OnOk result (self.new.state.text ≡ []) }
        ensures working { OnOk result (self.new.fault ≡ None) }
        ensures sticky { IfSome self.old.fault (λ f. (result ≡ Err f) × (self.new ≡ self.old)) }
    {
        if let Some(fault) = self.fault {
            return Err(fault);
        }
        match self.state.end(place, events) {
            Ok(()) => Ok(()),
            Err(fault) => {
                self.fault = Some(fault);
                Err(fault)
            }
        }
    }

    /// Refuses a call that the caller cannot make: `EventFault::NotWellFormed` if no document has it, as one whose bytes are
    /// no text, or `EventFault::Memory`.
    ///
    /// Returns the error of every later call. It is this one, unless a call has failed before. Allocates nothing.
    pub fn refuse(&mut self, fault: EventFault) -> EventFault
        ensures fault { result ≡ unwrap_or self.old.fault fault }
        ensures kept { self.new.fault ≡ Some result }
        ensures passed { self.new.passed ≡ self.old.passed }
    {
        let fault = self.fault.unwrap_or(fault);
        self.fault = Some(fault);
        fault
    }

    /// Ends the calls.
    ///
    /// Returns `Ok` exactly if they tell a document. The events that were handed out are then the walk of its tree, and
    /// it is the only tree. Fails with `EventFault::NotWellFormed` exactly if they tell none, after an error with that
    /// error. Allocates nothing. RELAX NG Specification, section 2.
    pub fn finish(self) -> Result<(), EventFault>
        ensures document { (calls sent : List Event) → Stands self calls sent → IsVerdict result calls sent }
        ensures memory { IsErrOf result EventFault.Memory → self.fault ≡ Some EventFault.Memory }
        ensures sticky { IfSome self.fault (λ f. result ≡ Err f) }
    {
        if let Some(fault) = self.fault {
            return Err(fault);
        }
        if self.state.is_whole() {
            Ok(())
        } else {
            Err(EventFault::NotWellFormed)
        }
    }
}
