//! Calls on a handle with a document that comes as events.
ghost use Rattle.std.specs.Prelude.{◌≡◌, ◌≢◌, ◌↔◌, IfErr, IfNone, IfOk, IfSome, IsSomeAnd, IsUtf8, OnSome, ⊤, ℕ};
ghost use Rattle.std.specs.declared.option.Option.TheVariants.{None, Some};
ghost use Rattle.rng_model.specs.documents.PyxTrees.{a_string, an_end};
ghost use Rattle.element_events.specs.views.Told.{call};
ghost use Rattle.rncv_events.specs.views.Documents.{failed_since};
ghost use Rattle.rncv_c_values.specs.views.Attributes.{AreTexts, name_of, start_of};
ghost use Rattle.rncv_c_handles.specs.views.Events.{HasAnswered, HasBegun, HasEnded, HasTaken, HasTakenAnywhere, IsEndOf, IsInvalidSince, judgement_of, status_of_call, status_of_end, told_at_end};
ghost use Rattle.rncv_c_values.specs.views.Codes.{code_of};
ghost use Rattle.rncv_c_handles.specs.views.Held.{events_in, grammar_in, schema_in};

use crate::documents::validator_in;
use crate::handle::{Handle, Held};
use core::mem::replace_with;
use rncv_c_values::{
    AttributeBytes, Judgement, NameBytes, Status, text_attributes, text_name, text_of,
};
use rncv_events::{EventDocument, EventFault, Outcome};
use std::alloc::Global;

/// Begins a document of events by the schema of the handle. If a document is begun already, it is dropped.
///
/// Returns `Misuse` exactly if the handle holds no schema. Returns `Memory` when out of memory, and then no document is
/// begun. Costs what `EventDocument::new` costs, and if a document is dropped what its end costs.
pub fn begin(alloc: Global, schema: &mut Handle) -> Status
    ensures done { result ≡ Status.Done → IsSomeAnd (events_in schema.new.held) HasBegun }
    ensures memory { result ≡ Status.Memory → schema_in schema.new.held ≡ grammar_in schema.old.held }
    ensures misuse { (result ≡ Status.Misuse) ↔ (grammar_in schema.old.held ≡ None) }
    ensures others { result ≢ Status.Done → result ≢ Status.Misuse → result ≡ Status.Memory }
    ensures kept { grammar_in schema.new.held ≡ grammar_in schema.old.held }
{
    let Some(mut held) = schema.take(alloc) else {
        return Status::Misuse;
    };
    let status = replace_with(&mut *held, alloc, begun);
    schema.put(held);
    status
}

/// Returns a document of events by the schema that is held, or the schema when out of memory.
fn begun(held: Held, alloc: Global) -> (Held, Status)
    ensures done { result.1 ≡ Status.Done → IsSomeAnd (events_in (Some result.0)) HasBegun }
    ensures memory { result.1 ≢ Status.Done → (result.1 ≡ Status.Memory) × (schema_in (Some result.0) ≡ grammar_in (Some held)) }
    ensures kept { grammar_in (Some result.0) ≡ grammar_in (Some held) }
{
    let document = EventDocument::new(alloc, validator_in(held));
    match document.fault() {
        None => (Held::Events(document), Status::Done),
        Some(_) => {
            let (validator, _) = document.finish();
            (Held::Schema(validator), Status::Memory)
        }
    }
}

/// Returns the status of a call.
fn status_of(answer: Result<(), EventFault>) -> Status
    ensures status { result ≡ status_of_call answer }
    ensures not_misuse { result ≢ Status.Misuse }
{
    match answer {
        Ok(()) => Status::Done,
        Err(EventFault::NotWellFormed) => Status::Malformed,
        Err(EventFault::Memory) => Status::Memory,
    }
}

/// Passes the start of an element to the document.
///
/// Returns `Misuse` exactly if no document of events is begun; otherwise the status of `EventDocument::start`, and that of
/// `NotWellFormed` if a text is not UTF-8. Costs what `EventDocument::start` costs, and a list of the attributes.
pub fn start(
    alloc: Global,
    schema: &mut Handle,
    place: u64,
    name: NameBytes<'_>,
    attributes: &[AttributeBytes<'_>],
) -> Status
    ensures taken { IfSome (events_in schema.old.held) (λ d. IsSomeAnd (events_in schema.new.held)
        (HasTaken (AreTexts (name_of name.entry) attributes.now) (call place (start_of (name_of name.entry) attributes.now)) (code_of result) d)) }
    ensures misuse { (result ≡ Status.Misuse) ↔ (events_in schema.old.held ≡ None) }
    ensures failed { result ≡ Status.Misuse → schema.new.held ≡ schema.old.held }
{
    let Some(mut held) = schema.take(alloc) else {
        return Status::Misuse;
    };
    let status = match &mut *held {
        Held::Events(document) => status_of(tell_start(alloc, document, place, name, attributes)),
        Held::Schema(_) | Held::Document(_) => Status::Misuse,
    };
    schema.put(held);
    status
}

/// Tells the start of an element, unless a text is not UTF-8.
fn tell_start(
    alloc: Global,
    document: &mut EventDocument,
    place: u64,
    name: NameBytes<'_>,
    attributes: &[AttributeBytes<'_>],
) -> Result<(), EventFault>
    ensures { HasAnswered (AreTexts (name_of name.entry) attributes.now) (call place (start_of (name_of name.entry) attributes.now)) result document.old document.new }
{
    let name = match text_name(name) {
        Ok(name) => name,
        Err(fault) => return Err(document.refuse(fault)),
    };
    match text_attributes(alloc, attributes) {
        Ok(attributes) => document.start(place, name, attributes.as_slice()),
        Err(fault) => Err(document.refuse(fault)),
    }
}

/// Passes a text to the document.
///
/// Returns `Misuse` exactly if no document of events is begun; otherwise the status of `EventDocument::text`, and that of
/// `NotWellFormed` if the text is not UTF-8. One pass over the text.
pub fn text(alloc: Global, schema: &mut Handle, bytes: &[u8]) -> Status
    ensures taken { IfSome (events_in schema.old.held) (λ d. IsSomeAnd (events_in schema.new.held)
        (HasTakenAnywhere (IsUtf8 bytes.now) (a_string bytes.now) (code_of result) d)) }
    ensures misuse { (result ≡ Status.Misuse) ↔ (events_in schema.old.held ≡ None) }
    ensures failed { result ≡ Status.Misuse → schema.new.held ≡ schema.old.held }
{
    let Some(mut held) = schema.take(alloc) else {
        return Status::Misuse;
    };
    let status = match &mut *held {
        Held::Events(document) => status_of(tell_text(document, bytes)),
        Held::Schema(_) | Held::Document(_) => Status::Misuse,
    };
    schema.put(held);
    status
}

/// Tells a text, unless it is not UTF-8.
fn tell_text(document: &mut EventDocument, bytes: &[u8]) -> Result<(), EventFault>
    ensures answered { (place : ℕ) → HasAnswered (IsUtf8 bytes.now) (call place (a_string bytes.now)) result document.old document.new }
    ensures same { failed_since document.new ≡ failed_since document.old }
{
    match text_of(bytes) {
        Ok(text) => document.text(text),
        Err(fault) => Err(document.refuse(fault)),
    }
}

/// Passes the end of the innermost element to the document.
///
/// Returns `Misuse` exactly if no document of events is begun; otherwise the status of `EventDocument::end`.
pub fn end(alloc: Global, schema: &mut Handle, place: u64) -> Status
    ensures taken { IfSome (events_in schema.old.held) (λ d. IsSomeAnd (events_in schema.new.held)
        (HasTaken ⊤ (call place an_end) (code_of result) d)) }
    ensures misuse { (result ≡ Status.Misuse) ↔ (events_in schema.old.held ≡ None) }
    ensures failed { result ≡ Status.Misuse → schema.new.held ≡ schema.old.held }
{
    let Some(mut held) = schema.take(alloc) else {
        return Status::Misuse;
    };
    let status = match &mut *held {
        Held::Events(document) => status_of(document.end(place)),
        Held::Schema(_) | Held::Document(_) => Status::Misuse,
    };
    schema.put(held);
    status
}

/// Returns the place after which no continuation is valid, or 0 as long as it is not known.
///
/// Fails with `Misuse` exactly if no document of events is begun. Allocates nothing.
pub fn invalid_since(alloc: Global, schema: &mut Handle) -> Result<u64, Status>
    ensures value { IfOk result (λ place. IsSomeAnd (events_in schema.old.held) (IsInvalidSince place)) }
    ensures misuse { IfErr result (λ status. (status ≡ Status.Misuse) × (events_in schema.old.held ≡ None)) }
    ensures kept { schema.new.held ≡ schema.old.held }
{
    let Some(held) = schema.take(alloc) else {
        return Err(Status::Misuse);
    };
    let place = match held.as_ref() {
        Held::Events(document) => Ok(hopeless_place(document)),
        Held::Schema(_) | Held::Document(_) => Err(Status::Misuse),
    };
    schema.put(held);
    place
}

/// Returns the place after which no continuation is valid, or 0 as long as it is not known. Allocates nothing.
fn hopeless_place(document: &EventDocument) -> u64
    ensures { IsInvalidSince result document.now }
{
    document.invalid_since().unwrap_or(0)
}

/// Ends the document of events, and reports the verdict on it in `told`. Then the handle holds the schema.
///
/// Returns `Misuse` exactly if no document of events is begun. Returns `Memory` if a call for the document did, and then it
/// has ended too. Costs what `EventDocument::finish` costs.
pub fn finish(alloc: Global, schema: &mut Handle, told: &mut Judgement) -> Status
    ensures ended { IfSome (events_in schema.old.held) (λ d. HasEnded d (code_of result) told.old told.new) }
    ensures misuse { (result ≡ Status.Misuse) ↔ (events_in schema.old.held ≡ None) }
    ensures failed { result ≡ Status.Misuse → (schema.new.held ≡ schema.old.held) × (told.new ≡ told.old) }
    ensures kept { result ≢ Status.Misuse → schema_in schema.new.held ≡ grammar_in schema.old.held }
{
    let Some(mut held) = schema.take(alloc) else {
        return Status::Misuse;
    };
    let answer = replace_with(&mut *held, (), ended);
    schema.put(held);
    match answer {
        Some(answer) => tell(answer, told),
        None => Status::Misuse,
    }
}

/// Returns the schema of a document of events that has ended, and what `EventDocument::finish` returns. If what is held is
/// no such document, returns it.
fn ended(held: Held, _nothing: ()) -> (Held, Option<Result<Outcome, EventFault>>)
    ensures ended { IfSome (events_in (Some held)) (λ d. IsSomeAnd result.1 (IsEndOf d)) }
    ensures none { IfNone result.1 ((events_in (Some held) ≡ None) × (result.0 ≡ held)) }
    ensures some { OnSome result.1 (events_in (Some held) ≢ None) }
    ensures kept { OnSome result.1 (schema_in (Some result.0) ≡ grammar_in (Some held)) }
{
    match held {
        Held::Events(document) => {
            let (validator, answer) = document.finish();
            (Held::Schema(validator), Some(answer))
        }
        Held::Schema(validator) => (Held::Schema(validator), None),
        Held::Document(document) => (Held::Document(document), None),
    }
}

/// Returns the numbers of an outcome. Allocates nothing.
fn judgement_of(outcome: Outcome) -> Judgement
    ensures { result ≡ judgement_of outcome }
{
    match outcome {
        Outcome::Valid => Judgement {
            kind: 0,
            clause: 0,
            line: 0,
        },
        Outcome::Invalid(place) => Judgement {
            kind: 1,
            clause: 0,
            line: place,
        },
    }
}

/// Reports a verdict, if there is one.
fn tell(answer: Result<Outcome, EventFault>, told: &mut Judgement) -> Status
    ensures status { result ≡ status_of_end answer }
    ensures told { told.new ≡ told_at_end told.old answer }
    ensures not_misuse { result ≢ Status.Misuse }
{
    match answer {
        Ok(outcome) => {
            *told = judgement_of(outcome);
            Status::Done
        }
        Err(EventFault::NotWellFormed) => {
            *told = Judgement {
                kind: 2,
                clause: 0,
                line: 0,
            };
            Status::Done
        }
        Err(EventFault::Memory) => Status::Memory,
    }
}
