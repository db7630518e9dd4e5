// The event after which no continuation is valid.
ghost use Rattle.std.specs.Prelude.{◌≡◌, IfOk, map, true};
ghost use Rattle.rng_model.specs.documents.EventViews.{attribute_of};
ghost use Rattle.rng_model.specs.documents.PyxTrees as trees;
ghost use Rattle.rng_model.specs.names.NameViews.{name_of};
ghost use Rattle.rng_deriv_events.specs.views.FailedEvents.{IsCopyOf, IsFailedEvent, IsKept, is_told};
ghost use Rattle.rng_deriv_events.specs.views.Inputs.{IsOf};

use crate::input::Input;
use rng_model::{Attr, EventKind, Name, OutOfMemory};
use rng_names::copy_of;
use std::alloc::Global;

/// The event after which no continuation of a document is valid.
///
/// RELAX NG Specification, section 2.
#[derive(Drop)]
pub enum FailedEvent {
    /// A start, for who asked for reasons.
    Start { name: Name, attrs: Vec<Attr> },
    /// A start of which nothing is kept.
    UnkeptStart,
    /// A string. What it says is not kept.
    Text,
    End,
}

impl FailedEvent {
    /// Returns a copy. Fails only when out of memory.
    pub fn copied(&self, alloc: Global) -> Result<FailedEvent, OutOfMemory>
        ensures copy { IfOk result (IsCopyOf self.now) }
        ensures told { IfOk result (λ copy. is_told copy ≡ is_told self.now) }
    {
        match self {
            FailedEvent::Start { name, attrs } => copied_start(alloc, name, attrs.as_slice()),
            FailedEvent::UnkeptStart => Ok(FailedEvent::UnkeptStart),
            FailedEvent::Text => Ok(FailedEvent::Text),
            FailedEvent::End => Ok(FailedEvent::End),
        }
    }
}

/// Returns a copy of a start.
fn copied_start(alloc: Global, name: &Name, attrs: &[Attr]) -> Result<FailedEvent, OutOfMemory>
    ensures event { IfOk result (λ event. IsFailedEvent event (trees.a_start (name_of name.now) (map attribute_of attrs.now))) }
    ensures told { IfOk result (λ event. is_told event ≡ true) }
    ensures whole { IfOk result (IsKept true) }
{
    let name = copy_of(alloc, name)?;
    let attrs = copied_attributes(alloc, attrs)?;
    Ok(FailedEvent::Start { name, attrs })
}

/// Returns what is kept of a start: a copy if `whole`, otherwise nothing of it.
fn failed_start(
    alloc: Global,
    name: &Name,
    attrs: &[Attr],
    whole: bool,
) -> Result<FailedEvent, OutOfMemory>
    ensures event { IfOk result (λ event. IsFailedEvent event (trees.a_start (name_of name.now) (map attribute_of attrs.now))) }
    ensures kept { IfOk result (IsKept whole) }
{
    if !whole {
        return Ok(FailedEvent::UnkeptStart);
    }
    copied_start(alloc, name, attrs)
}

/// Returns what is kept of what a matcher takes: a copy of a start if `whole`, otherwise nothing of it. Fails only when out of
/// memory.
pub fn failed_event(
    alloc: Global,
    input: Input<'_>,
    whole: bool,
) -> Result<FailedEvent, OutOfMemory>
    ensures event { IfOk result (λ event. (kind : trees.EventKind) → IsOf input.entry kind → IsFailedEvent event kind) }
    ensures kept { IfOk result (IsKept whole) }
{
    match input {
        Input::Event(EventKind::Start { name, attrs }) => failed_start(alloc, name, attrs, whole),
        Input::Event(EventKind::Text(_)) | Input::AnyText { .. } => Ok(FailedEvent::Text),
        Input::Event(EventKind::End) => Ok(FailedEvent::End),
    }
}

/// Returns a copy of an attribute.
fn copied_attribute(alloc: Global, attr: &Attr) -> Result<Attr, OutOfMemory>
    ensures { IfOk result (λ copy. attribute_of copy ≡ attribute_of attr.now) }
{
    let name = copy_of(alloc, &attr.name)?;
    let value = String::from_str(alloc, attr.value.as_str())?;
    Ok(Attr { name, value })
}

/// Returns copies of attributes, in their order.
fn copied_attributes(alloc: Global, attrs: &[Attr]) -> Result<Vec<Attr>, OutOfMemory>
    ensures { IfOk result (λ copies. map attribute_of copies.items ≡ map attribute_of attrs.now) }
{
    let mut copies = Vec::new(alloc);
    'attributes: for attr in attrs {
        copies.push(copied_attribute(alloc, attr)?)?;
    }
    Ok(copies)
}
