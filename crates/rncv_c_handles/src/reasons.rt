//! Why a start or an end leaves nothing of the document of events that a handle holds, and what is held of it.
ghost use Rattle.std.specs.Prelude.{◌≡◌, ◌≢◌, ◌↔◌, IfErr, IfOk, IfSome, IsErrOf, IsSomeAnd, OnOk, map, string_bytes};
ghost use Rattle.std.specs.declared.option.Option.TheVariants.{None};
ghost use Rattle.rncv_c_values.specs.views.Attributes.{AreTexts, attribute_of, name_of};
ghost use Rattle.rncv_c_values.specs.views.Texts.{IsTooLong, IsWritten};
ghost use Rattle.rncv_c_handles.specs.views.Expected.{HoldsNoDocument};
ghost use Rattle.rncv_c_handles.specs.views.Held.{document_in, events_in, grammar_in};
ghost use Rattle.rncv_c_handles.specs.views.Options.{StillHasTaken};
ghost use Rattle.rncv_c_handles.specs.views.Reasons.{IsHeldBy, IsReplacementText, StillHasBeenFed, TellsEndReason, TellsFedReason, TellsReason, TellsStartReason};
ghost use Rattle.rncv_c_handles.specs.views.Reasons.{WantsFedReasons, WantsReasons};

use crate::handle::{Handle, Held};
use expected_text::expected_text;
use rncv_c_values::{
    AttributeBytes, NameBytes, ReasonNumbers, Status, copied, reason_to_tell, text_attributes,
    text_name,
};
use rncv_events::{EventDocument, EventFault};
use rncv_validator::Document;
use rng_model::OutOfMemory;
use std::alloc::Global;

/// Reports why a start leaves nothing of the document that the handle holds.
///
/// Fails with `Misuse` exactly if no document of events is begun; otherwise with `Malformed` if a text is not UTF-8, and with
/// `Memory` when out of memory; then later calls for the document may return it too. Costs what
/// `EventDocument::start_reason` costs.
pub fn start_reason(
    alloc: Global,
    schema: &mut Handle,
    name: NameBytes<'_>,
    attributes: &[AttributeBytes<'_>],
) -> Result<ReasonNumbers, Status>
    ensures told { IfOk result (λ told. IfSome (events_in schema.old.held) (λ d. IsSomeAnd (events_in schema.new.held)
        (TellsStartReason (name_of name.entry) (map attribute_of attributes.now) told d))) }
    ensures texts { OnOk result (AreTexts (name_of name.entry) attributes.now) }
    ensures misuse { IfErr result (λ status. (status ≡ Status.Misuse) ↔ (events_in schema.old.held ≡ None)) }
    ensures begun { OnOk result (events_in schema.old.held ≢ None) }
    ensures malformed { IfErr result (λ status. status ≡ Status.Malformed → ¬ (AreTexts (name_of name.entry) attributes.now)) }
    ensures others { IfErr result (λ status. status ≢ Status.Misuse → status ≢ Status.Malformed → status ≡ Status.Memory) }
    ensures kept { grammar_in schema.new.held ≡ grammar_in schema.old.held }
    ensures taken { IfSome (events_in schema.old.held) (λ old. IsSomeAnd (events_in schema.new.held) (StillHasTaken old)) }
    ensures failed { IfErr result (λ status. status ≢ Status.Memory → schema.new.held ≡ schema.old.held) }
{
    let Some(mut held) = schema.take(alloc) else {
        return Err(Status::Misuse);
    };
    let told = match &mut *held {
        Held::Events(document) => start_numbers(alloc, document, name, attributes),
        Held::Schema(_) | Held::Document(_) => Err(Status::Misuse),
    };
    schema.put(held);
    told
}

/// Returns the numbers of why a start leaves nothing of what is left of a document.
fn start_numbers(
    alloc: Global,
    document: &mut EventDocument,
    name: NameBytes<'_>,
    attributes: &[AttributeBytes<'_>],
) -> Result<ReasonNumbers, Status>
    ensures told { IfOk result (λ told. TellsStartReason (name_of name.entry) (map attribute_of attributes.now) told document.old document.new) }
    ensures texts { OnOk result (AreTexts (name_of name.entry) attributes.now) }
    ensures malformed { IfErr result (λ status. status ≡ Status.Malformed → ¬ (AreTexts (name_of name.entry) attributes.now)) }
    ensures others { IfErr result (λ status. (status ≢ Status.Misuse) × (status ≢ Status.Malformed → status ≡ Status.Memory)) }
    ensures grammar { document.new.grammar ≡ document.old.grammar }
    ensures taken { StillHasTaken document.old document.new }
    ensures failed { IfErr result (λ status. status ≢ Status.Memory → document.new ≡ document.old) }
{
    let Ok(name) = text_name(name) else {
        return Err(Status::Malformed);
    };
    let attributes = match text_attributes(alloc, attributes) {
        Ok(attributes) => attributes,
        Err(EventFault::NotWellFormed) => return Err(Status::Malformed),
        Err(EventFault::Memory) => return Err(Status::Memory),
    };
    match document.start_reason(name, attributes.as_slice()) {
        Ok(reason) => Ok(reason_to_tell(reason)),
        Err(_) => Err(Status::Memory),
    }
}

/// Reports why an end leaves nothing of the document that the handle holds.
///
/// Fails with `Misuse` exactly if no document of events is begun; otherwise with `Memory` when out of memory; then later calls
/// for the document may return it. Costs what `EventDocument::end_reason` costs.
pub fn end_reason(alloc: Global, schema: &mut Handle) -> Result<ReasonNumbers, Status>
    ensures told { IfOk result (λ told. IfSome (events_in schema.old.held) (λ d. IsSomeAnd (events_in schema.new.held) (TellsEndReason told d))) }
    ensures misuse { IfErr result (λ status. (status ≡ Status.Misuse) ↔ (events_in schema.old.held ≡ None)) }
    ensures begun { OnOk result (events_in schema.old.held ≢ None) }
    ensures others { IfErr result (λ status. status ≢ Status.Misuse → status ≡ Status.Memory) }
    ensures kept { grammar_in schema.new.held ≡ grammar_in schema.old.held }
    ensures taken { IfSome (events_in schema.old.held) (λ old. IsSomeAnd (events_in schema.new.held) (StillHasTaken old)) }
    ensures failed { IfErr result (λ status. status ≢ Status.Memory → schema.new.held ≡ schema.old.held) }
{
    let Some(mut held) = schema.take(alloc) else {
        return Err(Status::Misuse);
    };
    let told = match &mut *held {
        Held::Events(document) => end_numbers(document),
        Held::Schema(_) | Held::Document(_) => Err(Status::Misuse),
    };
    schema.put(held);
    told
}

/// Returns the numbers of why an end leaves nothing of what is left of a document.
fn end_numbers(document: &mut EventDocument) -> Result<ReasonNumbers, Status>
    ensures told { IfOk result (λ told. TellsEndReason told document.old document.new) }
    ensures others { IfErr result (λ status. status ≡ Status.Memory) }
    ensures grammar { document.new.grammar ≡ document.old.grammar }
    ensures taken { StillHasTaken document.old document.new }
{
    match document.end_reason() {
        Ok(reason) => Ok(reason_to_tell(reason)),
        Err(_) => Err(Status::Memory),
    }
}

/// Asks for reasons of the document that the handle holds: from now on it keeps the start after which nothing is left, until it
/// ends.
///
/// Returns `Misuse` exactly if no document is begun. Allocates nothing.
pub fn want_reasons(alloc: Global, schema: &mut Handle) -> Status
    ensures events { result ≡ Status.Done → IfSome (events_in schema.old.held) (λ d. IsSomeAnd (events_in schema.new.held) (WantsReasons d)) }
    ensures document { result ≡ Status.Done → IfSome (document_in schema.old.held) (λ d. IsSomeAnd (document_in schema.new.held) (WantsFedReasons d)) }
    ensures misuse { (result ≡ Status.Misuse) ↔ HoldsNoDocument schema.old.held }
    ensures others { result ≢ Status.Misuse → result ≡ Status.Done }
    ensures kept { grammar_in schema.new.held ≡ grammar_in schema.old.held }
    ensures failed { result ≡ Status.Misuse → schema.new.held ≡ schema.old.held }
{
    let Some(mut held) = schema.take(alloc) else {
        return Status::Misuse;
    };
    let status = match &mut *held {
        Held::Events(document) => want_told_reasons(document),
        Held::Document(document) => want_fed_reasons(document),
        Held::Schema(_) => Status::Misuse,
    };
    schema.put(held);
    status
}

/// Asks for reasons of a document of events.
fn want_told_reasons(document: &mut EventDocument) -> Status
    ensures status { result ≡ Status.Done }
    ensures wants { WantsReasons document.old document.new }
{
    document.want_reasons();
    Status::Done
}

/// Asks for reasons of a document in PYX.
fn want_fed_reasons(document: &mut Document) -> Status
    ensures status { result ≡ Status.Done }
    ensures wants { WantsFedReasons document.old document.new }
{
    document.want_reasons();
    Status::Done
}

/// Reports why no continuation of the document that the handle holds is valid, if that is known, and if enough is kept of the
/// event: of a start, only if `want_reasons` was called before.
///
/// Fails with `Misuse` exactly if no document is begun; otherwise with `Memory` when out of memory, in this call or in an earlier
/// one for the document; then each later call fails too. Costs what `Document::reason` or `EventDocument::reason` costs.
pub fn fault_reason(alloc: Global, schema: &mut Handle) -> Result<ReasonNumbers, Status>
    ensures events { IfOk result (λ told. IfSome (events_in schema.old.held) (λ d. IsSomeAnd (events_in schema.new.held) (TellsReason told d))) }
    ensures document { IfOk result (λ told. IfSome (document_in schema.old.held) (λ d. IsSomeAnd (document_in schema.new.held) (TellsFedReason told d))) }
    ensures misuse { IsErrOf result Status.Misuse ↔ HoldsNoDocument schema.old.held }
    ensures others { IfErr result (λ status. status ≢ Status.Misuse → status ≡ Status.Memory) }
    ensures kept { grammar_in schema.new.held ≡ grammar_in schema.old.held }
    ensures taken { IfSome (events_in schema.old.held) (λ old. IsSomeAnd (events_in schema.new.held) (StillHasTaken old)) }
    ensures fed { IfSome (document_in schema.old.held) (λ old. IsSomeAnd (document_in schema.new.held) (StillHasBeenFed old)) }
    ensures failed { IfErr result (λ status. status ≢ Status.Memory → schema.new.held ≡ schema.old.held) }
{
    let Some(mut held) = schema.take(alloc) else {
        return Err(Status::Misuse);
    };
    let told = match &mut *held {
        Held::Events(document) => fault_numbers(document),
        Held::Document(document) => fed_fault_numbers(document),
        Held::Schema(_) => Err(Status::Misuse),
    };
    schema.put(held);
    told
}

/// Returns the numbers of why no continuation of a document of events is valid.
fn fault_numbers(document: &mut EventDocument) -> Result<ReasonNumbers, Status>
    ensures told { IfOk result (λ told. TellsReason told document.old document.new) }
    ensures others { IfErr result (λ status. status ≡ Status.Memory) }
    ensures grammar { document.new.grammar ≡ document.old.grammar }
    ensures taken { StillHasTaken document.old document.new }
{
    match document.reason() {
        Ok(reason) => Ok(reason_to_tell(reason)),
        Err(_) => Err(Status::Memory),
    }
}

/// Returns the numbers of why no continuation of a document in PYX is valid.
fn fed_fault_numbers(document: &mut Document) -> Result<ReasonNumbers, Status>
    ensures told { IfOk result (λ told. TellsFedReason told document.old document.new) }
    ensures others { IfErr result (λ status. status ≡ Status.Memory) }
    ensures grammar { document.new.grammar ≡ document.old.grammar }
    ensures fed { StillHasBeenFed document.old document.new }
{
    match document.reason() {
        Ok(reason) => Ok(reason_to_tell(reason)),
        Err(_) => Err(Status::Memory),
    }
}

/// Writes the text of what may come in place of the string since the last start or end to the buffer if it fits, and its
/// length to `count`.
///
/// Returns `Misuse` exactly if no document of events is begun; `Space` if the text does not fit; `Memory` when out of memory,
/// or if a call for the document was. Costs what `EventDocument::expected_in_place` costs, the text, and a copy of it.
pub fn expected_in_place(
    alloc: Global,
    schema: &mut Handle,
    buffer: &mut [u8],
    count: &mut usize,
) -> Status
    ensures done { result ≡ Status.Done → IfSome (events_in schema.old.held) (λ d. IsWritten (IsReplacementText d) count.new buffer.old buffer.new) }
    ensures space { result ≡ Status.Space → IfSome (events_in schema.old.held) (λ d. IsTooLong (IsReplacementText d) count.new buffer.old) }
    ensures misuse { (result ≡ Status.Misuse) ↔ (events_in schema.old.held ≡ None) }
    ensures others { (result ≢ Status.Refused) × (result ≢ Status.Malformed) }
    ensures failed { result ≢ Status.Done → buffer.new ≡ buffer.old }
    ensures untold { result ≢ Status.Done → result ≢ Status.Space → count.new ≡ count.old }
    ensures kept { schema.new.held ≡ schema.old.held }
{
    match text_in_place(alloc, schema) {
        Ok(text) => copied(text.as_bytes(), buffer, count),
        Err(status) => status,
    }
}

/// Returns that text. The handle still holds the document after the call.
fn text_in_place(alloc: Global, schema: &mut Handle) -> Result<String, Status>
    ensures value { IfOk result (λ text. IfSome (events_in schema.old.held) (λ d. IsReplacementText d (string_bytes text))) }
    ensures begun { OnOk result (events_in schema.old.held ≢ None) }
    ensures misuse { IfErr result (λ status. (status ≡ Status.Misuse) ↔ (events_in schema.old.held ≡ None)) }
    ensures others { IfErr result (λ status. status ≢ Status.Misuse → status ≡ Status.Memory) }
    ensures kept { schema.new.held ≡ schema.old.held }
{
    let Some(held) = schema.take(alloc) else {
        return Err(Status::Misuse);
    };
    let text = match held.as_ref() {
        Held::Events(document) => replacement_text(alloc, document).map_err(|_| Status::Memory),
        Held::Schema(_) | Held::Document(_) => Err(Status::Misuse),
    };
    schema.put(held);
    text
}

/// Returns that text of a document.
fn replacement_text(alloc: Global, document: &EventDocument) -> Result<String, OutOfMemory>
    ensures { IfOk result (λ text. IsReplacementText document.now (string_bytes text)) }
{
    let expected = document.expected_in_place()?;
    let text = expected_text(alloc, &expected)?;
    Ok(text)
}

/// Returns how many bytes are held of the text behind the last start or end.
///
/// Fails with `Misuse` exactly if no document of events is begun. Allocates nothing.
pub fn held(alloc: Global, schema: &mut Handle) -> Result<usize, Status>
    ensures value { IfOk result (λ count. IsSomeAnd (events_in schema.old.held) (IsHeldBy count)) }
    ensures misuse { IfErr result (λ status. (status ≡ Status.Misuse) × (events_in schema.old.held ≡ None)) }
    ensures kept { schema.new.held ≡ schema.old.held }
{
    let Some(held) = schema.take(alloc) else {
        return Err(Status::Misuse);
    };
    let count = match held.as_ref() {
        Held::Events(document) => Ok(document.held()),
        Held::Schema(_) | Held::Document(_) => Err(Status::Misuse),
    };
    schema.put(held);
    count
}
