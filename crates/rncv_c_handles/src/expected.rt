//! What may come next in the document that a handle holds, and what a tag may have.
ghost use Rattle.std.specs.Prelude.{◌≡◌, ◌≢◌, ◌↔◌, IfErr, IfOk, IfSome, IsErrOf, OnOk, string_bytes};
ghost use Rattle.std.specs.declared.option.Option.TheVariants.{None, Some};
ghost use Rattle.element_events.specs.views.Told.{name_told};
ghost use Rattle.rncv_c_values.specs.views.Attributes.{IsTextName, name_of};
ghost use Rattle.rncv_c_handles.specs.views.Expected.{HoldsNoDocument, IsExpectationIn, IsFaultOfTag, IsTagText};
ghost use Rattle.rncv_c_handles.specs.views.Held.{events_in};
ghost use Rattle.rncv_c_values.specs.views.Texts.{IsTooLong, IsWritten};
ghost use Rattle.rncv_c_handles.specs.declared.handle.Held.TheVariants as kinds;

use crate::handle::{Handle, Held};
use expected_text::{expected_text, tag_text};
use rncv_c_values::{NameBytes, Status, copied, text_name};
use rncv_events::{EventDocument, ExpandedName};
use rncv_validator::Document;
use rng_model::OutOfMemory;
use std::alloc::Global;

/// Writes the text of what may come next to the buffer if it fits, and its length to `count`.
///
/// Returns `Misuse` exactly if the handle holds no document; `Space` if the text does not fit; `Memory` when out of memory,
/// or if a call for the document was. Costs what `Document::expected` or `EventDocument::expected` costs, the text, and a
/// copy of it.
pub fn expected(alloc: Global, schema: &mut Handle, buffer: &mut [u8], count: &mut usize) -> Status
    ensures done { result ≡ Status.Done → IsWritten (IsExpectationIn schema.old.held) count.new buffer.old buffer.new }
    ensures space { result ≡ Status.Space → IsTooLong (IsExpectationIn schema.old.held) count.new buffer.old }
    ensures misuse { (result ≡ Status.Misuse) ↔ HoldsNoDocument schema.old.held }
    ensures others { (result ≢ Status.Refused) × (result ≢ Status.Malformed) }
    ensures failed { result ≢ Status.Done → buffer.new ≡ buffer.old }
    ensures untold { result ≢ Status.Done → result ≢ Status.Space → count.new ≡ count.old }
    ensures kept { schema.new.held ≡ schema.old.held }
{
    match text_in(alloc, schema) {
        Ok(text) => copied(text.as_bytes(), buffer, count),
        Err(status) => status,
    }
}

/// Returns the text of what may come next in the document that the handle holds, and still holds after the call.
fn text_in(alloc: Global, schema: &mut Handle) -> Result<String, Status>
    ensures value { IfOk result (λ text. IsExpectationIn schema.old.held (string_bytes text)) }
    ensures kept { schema.new.held ≡ schema.old.held }
    ensures fault { IfErr result (λ status. status ≢ Status.Misuse → status ≡ Status.Memory) }
    ensures misuse { IsErrOf result Status.Misuse ↔ HoldsNoDocument schema.old.held }
{
    let Some(held) = schema.take(alloc) else {
        return Err(Status::Misuse);
    };
    let text = text_of(alloc, held.as_ref());
    schema.put(held);
    text
}

/// Returns the text of what may come next in a document.
fn text_of(alloc: Global, held: &Held) -> Result<String, Status>
    ensures value { IfOk result (λ text. IsExpectationIn (Some held.now) (string_bytes text)) }
    ensures fault { IfErr result (λ status. status ≢ Status.Misuse → status ≡ Status.Memory) }
    ensures misuse { IsErrOf result Status.Misuse ↔ HoldsNoDocument (Some held.now) }
{
    match held {
        Held::Document(document) => fed_text(alloc, document).map_err(|_| Status::Memory),
        Held::Events(document) => told_text(alloc, document).map_err(|_| Status::Memory),
        Held::Schema(_) => Err(Status::Misuse),
    }
}

/// Returns the text of what may come next in a document in PYX.
fn fed_text(alloc: Global, document: &Document) -> Result<String, OutOfMemory>
    ensures { IfOk result (λ text. IsExpectationIn (Some (kinds.Document document.now)) (string_bytes text)) }
{
    let expected = document.expected()?;
    let text = expected_text(alloc, &expected)?;
    Ok(text)
}

/// Returns the text of what may come next in a document of events.
fn told_text(alloc: Global, document: &EventDocument) -> Result<String, OutOfMemory>
    ensures { IfOk result (λ text. IsExpectationIn (Some (kinds.Events document.now)) (string_bytes text)) }
{
    let expected = document.expected()?;
    let text = expected_text(alloc, &expected)?;
    Ok(text)
}

/// Writes the text of what the tag of a start of this name may have to the buffer if it fits, and its length to `count`.
///
/// Returns `Misuse` exactly if no document of events is begun; otherwise `Malformed` exactly if the name is not UTF-8;
/// `Space` if the text does not fit; `Memory` when out of memory, or if a call for the document was. Costs what
/// `EventDocument::expected_tag` costs, the text, and a copy of it.
pub fn expected_tag(
    alloc: Global,
    schema: &mut Handle,
    name: NameBytes<'_>,
    buffer: &mut [u8],
    count: &mut usize,
) -> Status
    ensures done { result ≡ Status.Done → IfSome (events_in schema.old.held) (λ d. IsWritten (IsTagText (name_of name.entry) d) count.new buffer.old buffer.new) }
    ensures space { result ≡ Status.Space → IfSome (events_in schema.old.held) (λ d. IsTooLong (IsTagText (name_of name.entry) d) count.new buffer.old) }
    ensures misuse { (result ≡ Status.Misuse) ↔ (events_in schema.old.held ≡ None) }
    ensures malformed { result ≡ Status.Malformed → ¬ (IsTextName (name_of name.entry)) }
    ensures named { result ≢ Status.Misuse → result ≢ Status.Malformed → IsTextName (name_of name.entry) }
    ensures others { result ≢ Status.Refused }
    ensures failed { result ≢ Status.Done → buffer.new ≡ buffer.old }
    ensures untold { result ≢ Status.Done → result ≢ Status.Space → count.new ≡ count.old }
    ensures kept { schema.new.held ≡ schema.old.held }
{
    match tag_text_in(alloc, schema, name) {
        Ok(text) => copied(text.as_bytes(), buffer, count),
        Err(status) => status,
    }
}

/// Returns the text of what a tag may have in the document of events that the handle holds, and still holds after the call.
fn tag_text_in(alloc: Global, schema: &mut Handle, name: NameBytes<'_>) -> Result<String, Status>
    ensures value { IfOk result (λ text. IfSome (events_in schema.old.held) (λ d. IsTagText (name_of name.entry) d (string_bytes text))) }
    ensures text { OnOk result (IsTextName (name_of name.entry)) }
    ensures kept { schema.new.held ≡ schema.old.held }
    ensures misuse { IsErrOf result Status.Misuse ↔ (events_in schema.old.held ≡ None) }
    ensures fault { IfErr result (λ status. status ≢ Status.Misuse → IsFaultOfTag (name_of name.entry) status) }
{
    let Some(held) = schema.take(alloc) else {
        return Err(Status::Misuse);
    };
    let text = match held.as_ref() {
        Held::Events(document) => tag_text_of(alloc, document, name),
        Held::Schema(_) | Held::Document(_) => Err(Status::Misuse),
    };
    schema.put(held);
    text
}

/// Returns the text of what a tag may have in a document of events.
fn tag_text_of(
    alloc: Global,
    document: &EventDocument,
    name: NameBytes<'_>,
) -> Result<String, Status>
    ensures value { IfOk result (λ text. IsTagText (name_of name.entry) document.now (string_bytes text)) }
    ensures text { OnOk result (IsTextName (name_of name.entry)) }
    ensures fault { IfErr result (IsFaultOfTag (name_of name.entry)) }
{
    match text_name(name) {
        Ok(name) => tag_text_told(alloc, document, name).map_err(|_| Status::Memory),
        Err(_) => Err(Status::Malformed),
    }
}

/// Returns the text of what the tag of a start of this name may have.
fn tag_text_told(
    alloc: Global,
    document: &EventDocument,
    name: ExpandedName<'_>,
) -> Result<String, OutOfMemory>
    ensures { IfOk result (λ text. IsTagText (name_told name.entry) document.now (string_bytes text)) }
{
    let tag = document.expected_tag(name)?;
    let text = tag_text(alloc, &tag)?;
    Ok(text)
}
