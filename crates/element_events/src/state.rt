// Calls one by one.
ghost use Rattle.std.specs.Prelude.{◌≡◌, ◌↔◌, ◌&&◌, ◌==◌, ℕ, [], ◌∷◌, IfOk, None, OnOk, false, length, true};
ghost use Rattle.rng_model.specs.documents.EventViews.{Hands};
ghost use Rattle.rng_model.specs.datatypes.Texts.{is_blank};
ghost use Rattle.rng_model.specs.documents.PyxTrees.{a_string, an_end};
ghost use Rattle.rng_model.specs.documents.Telling.{IsGood, string_at};
ghost use Rattle.element_events.specs.plain.Calls.{nothing_taken};
ghost use Rattle.element_events.specs.views.Known.{tag_name};
ghost use Rattle.element_events.specs.views.Told.{call, name_told, start_told};
ghost use Rattle.element_events.specs.views.Kept.{Takes, TakesText, passed_after, passes, state_of};

use crate::characters::{are_good_attributes, is_blank, is_good_text};
use crate::fault::EventFault;
use crate::names::{Attribute, ExpandedName};
use crate::repeats::are_distinct;
use crate::tag::Tag;
use rng_model::{Event, EventKind, Events, OutOfMemory};
use std::alloc::Global;

/// The state between two calls.
#[derive(Drop)]
pub struct State {
    alloc: Global,
    /// How many elements are open.
    depth: u64,
    /// Whether the root has begun.
    root: bool,
    /// The text behind which no start or end has come.
    text: String,
    /// Whether such a text that was passed over is blank. Then `text` is empty.
    passed: Option<bool>,
    tag: Tag,
}

impl State {
    /// Creates the state before the first call. Allocates nothing.
    pub fn new(alloc: Global) -> Self
        ensures state { state_of result ≡ nothing_taken }
        ensures passed { result.passed ≡ None }
    {
        State {
            alloc,
            depth: 0,
            root: false,
            text: String::new(alloc),
            passed: None,
            tag: Tag::new(alloc),
        }
    }

    /// Returns whether the root has ended.
    pub fn is_whole(&self) -> bool
        ensures { result ≡ ((state_of self.now).root && (state_of self.now).depth == 0) }
    {
        self.root && self.depth == 0
    }

    /// Returns whether the text that was passed over is blank, if one was since the last start or end.
    pub fn passed(&self) -> Option<bool>
        ensures { result ≡ self.now.passed }
    {
        self.passed
    }

    /// Returns how many bytes of the text are kept.
    pub fn held(&self) -> usize
        ensures { result ≡ length (state_of self.now).text }
    {
        self.text.len()
    }

    /// Hands out the text, unless it is empty, as a string with this place.
    fn end_text<E: Events>(&mut self, place: u64, events: &mut E) -> Result<(), OutOfMemory>
        ensures text { OnOk result (Hands E.stands events.old events.new (string_at place (state_of self.old).text)) }
        ensures state { OnOk result (state_of self.new ≡ record (state_of self.old) { text = [] }) }
        ensures name { OnOk result (tag_name self.new.tag ≡ tag_name self.old.tag) }
    {
        if !self.text.is_empty() {
            events.event(Event {
                line: place,
                kind: EventKind::Text(self.text.as_str()),
            })?;
            self.text.clear();
        }
        Ok(())
    }

    /// Hands out the start of an element, which is the tag, with these attributes.
    #[inline(always)]
    fn start_tag<E: Events>(
        &mut self,
        place: u64,
        name: ExpandedName<'_>,
        attributes: &[Attribute<'_>],
        events: &mut E,
    ) -> Result<(), OutOfMemory>
        requires { tag_name self.old.tag ≡ name_told name }
        ensures start { OnOk result (Hands E.stands events.old events.new (call place (start_told name.entry attributes.now) ∷ [])) }
        ensures state { state_of self.new ≡ state_of self.old }
    {
        self.tag.set_attributes(self.alloc, attributes)?;
        let kind = self.tag.start();
        events.event(Event { line: place, kind })
    }

    /// Returns whether a tag may be in a document. Then its name is that of the tag.
    fn is_good_tag(
        &mut self,
        name: ExpandedName<'_>,
        attributes: &[Attribute<'_>],
    ) -> Result<bool, OutOfMemory>
        ensures good { IfOk result (λ b. (b ≡ true) ↔ IsGood (start_told name.entry attributes.now)) }
        ensures name { IfOk result (λ b. b ≡ true → tag_name self.new.tag ≡ name_told name.entry) }
        ensures state { state_of self.new ≡ state_of self.old }
    {
        if !are_good_attributes(attributes) {
            return Ok(false);
        }
        if !are_distinct(self.alloc, attributes)? {
            return Ok(false);
        }
        self.tag.set_name(self.alloc, name)
    }

    /// Takes the start of an element.
    pub fn start<E: Events>(
        &mut self,
        place: u64,
        name: ExpandedName<'_>,
        attributes: &[Attribute<'_>],
        events: &mut E,
    ) -> Result<(), EventFault>
        ensures taken { Takes result (call place (start_told name.entry attributes.now)) (state_of self.old) (state_of self.new)
            (Hands E.stands events.old events.new) }
        ensures passed { OnOk result (self.new.passed ≡ None) }
    {
        if self.is_whole() {
            return Err(EventFault::NotWellFormed);
        }
        if !self.is_good_tag(name, attributes)? {
            return Err(EventFault::NotWellFormed);
        }
        let Some(depth) = self.depth.checked_add(1) else {
            return Err(EventFault::Memory);
        };
        self.end_text(place, events)?;
        self.start_tag(place, name, attributes, events)?;
        self.passed = None;
        self.depth = depth;
        self.root = true;
        Ok(())
    }

    /// Passes over a text within an element, which is blank or not.
    fn pass(&mut self, text: &str, blank: bool)
        ensures state { state_of self.new ≡ state_of self.old }
        ensures passed { blank ≡ is_blank text.now → self.new.passed ≡ passed_after text.now self.old.passed }
    {
        if !text.is_empty() {
            self.passed = Some(self.passed.unwrap_or(true) && blank);
        }
    }

    /// Returns whether a text is to be passed over: a text is kept whole or not at all.
    fn passes(&self, keeps: bool) -> bool
        ensures { result ≡ passes keeps self.now.passed (state_of self.now).text }
    {
        self.passed.is_some() || !keeps && self.text.is_empty()
    }

    /// Takes a text, and keeps it or passes over it.
    pub fn text(&mut self, text: &str, keeps: bool) -> Result<(), EventFault>
        ensures taken { (place : ℕ) → TakesText result (call place (a_string text.now)) self.old.passed (state_of self.old) self.new.passed (state_of self.new) }
        ensures kept { keeps ≡ true → self.old.passed ≡ None → self.new.passed ≡ None }
        ensures held { OnOk result (keeps ≡ false → (state_of self.old).text ≡ [] → (state_of self.new).text ≡ []) }
    {
        let blank = is_blank(text);
        if !is_good_text(text, blank) {
            return Err(EventFault::NotWellFormed);
        }
        if self.depth == 0 {
            return if blank {
                Ok(())
            } else {
                Err(EventFault::NotWellFormed)
            };
        }
        if self.passes(keeps) {
            self.pass(text, blank);
        } else {
            self.text.push_str(text)?;
        }
        Ok(())
    }

    /// Takes the end of the innermost element.
    pub fn end<E: Events>(&mut self, place: u64, events: &mut E) -> Result<(), EventFault>
        ensures taken { Takes result (call place an_end) (state_of self.old) (state_of self.new) (Hands E.stands events.old events.new) }
        ensures passed { OnOk result (self.new.passed ≡ None) }
    {
        if self.depth == 0 {
            return Err(EventFault::NotWellFormed);
        }
        self.end_text(place, events)?;
        events.event(Event {
            line: place,
            kind: EventKind::End,
        })?;
        self.passed = None;
        self.depth -= 1;
        Ok(())
    }
}
