//! What a start tag may have after some attributes, in the document of events that a handle holds.
ghost use Rattle.std.specs.Prelude.{◌≡◌, ◌≢◌, ◌↔◌, IfErr, IfOk, IfSome, IsSomeAnd, OnOk, map, string_bytes};
ghost use Rattle.std.specs.Option.{option_map};
ghost use Rattle.std.specs.declared.option.Option.TheVariants.{None};
ghost use Rattle.element_events.specs.views.Told.{attribute_told, name_told};
ghost use Rattle.rng_reasons.specs.views.Options.{options_of};
ghost use Rattle.rncv_c_values.specs.views.Texts.{IsTooLong, IsWritten};
ghost use Rattle.rncv_c_handles.specs.views.Held.{events_in, grammar_in};
ghost use Rattle.rncv_c_handles.specs.views.Options.{HasNoOptions, IsOfTexts, IsOptionsText, StillHasTaken, TellsOptions, beginning_of, options_text};

use crate::handle::{Handle, Held};
use expected_text::{expected_text, tag_text};
use rncv_c_values::{AttributeBytes, NameBytes, Status, copied, text_attributes, text_name};
use rncv_events::{Attribute, EventDocument, EventFault, ExpandedName};
use rng_model::OutOfMemory;
use rng_reasons::TagOptions;
use std::alloc::Global;

/// The beginning of a start tag, and the name of the attribute that is asked for.
#[derive(Clone, Copy)]
pub struct TagBytes<'a> {
    /// The name of the tag.
    pub name: NameBytes<'a>,
    /// The attributes that it has.
    pub attributes: &'a [AttributeBytes<'a>],
    /// The name of the attribute whose value is asked for.
    pub named: NameBytes<'a>,
}

/// Writes the text of what a tag may have after its attributes, and of what the value of an attribute may be there, to the
/// buffer if it fits, and its length to `count`.
///
/// Returns `Misuse` exactly if no document of events is begun; otherwise `Malformed` if a text is not UTF-8; `Refused` if
/// nothing is left after the attributes; `Space` if the text does not fit; `Memory` when out of memory, and then later calls
/// for the document may return it too. Costs what `EventDocument::tag_options` costs, the text, and two copies of it.
pub fn tag_options(
    alloc: Global,
    schema: &mut Handle,
    tag: TagBytes<'_>,
    buffer: &mut [u8],
    count: &mut usize,
) -> Status
    ensures done { result ≡ Status.Done → IfSome (events_in schema.old.held) (λ old. IsSomeAnd (events_in schema.new.held)
        (λ new. IsWritten (IsOptionsText (beginning_of tag.entry) old new) count.new buffer.old buffer.new)) }
    ensures space { result ≡ Status.Space → IfSome (events_in schema.old.held) (λ old. IsSomeAnd (events_in schema.new.held)
        (λ new. IsTooLong (IsOptionsText (beginning_of tag.entry) old new) count.new buffer.old)) }
    ensures refused { result ≡ Status.Refused → IfSome (events_in schema.old.held) (λ old. IsSomeAnd (events_in schema.new.held)
        (HasNoOptions (beginning_of tag.entry) old)) }
    ensures misuse { (result ≡ Status.Misuse) ↔ (events_in schema.old.held ≡ None) }
    ensures malformed { result ≡ Status.Malformed → ¬ (IsOfTexts (beginning_of tag.entry)) }
    ensures texts { result ≢ Status.Misuse → result ≢ Status.Malformed → result ≢ Status.Memory → IsOfTexts (beginning_of tag.entry) }
    ensures failed { result ≢ Status.Done → buffer.new ≡ buffer.old }
    ensures untold { result ≢ Status.Done → result ≢ Status.Space → count.new ≡ count.old }
    ensures kept { grammar_in schema.new.held ≡ grammar_in schema.old.held }
    ensures taken { IfSome (events_in schema.old.held) (λ old. IsSomeAnd (events_in schema.new.held) (StillHasTaken old)) }
    ensures same_if_misuse { result ≡ Status.Misuse → schema.new.held ≡ schema.old.held }
    ensures same_if_malformed { result ≡ Status.Malformed → schema.new.held ≡ schema.old.held }
{
    match options_in(alloc, schema, tag) {
        Ok(text) => copied(text.as_bytes(), buffer, count),
        Err(status) => status,
    }
}

/// Returns that text for the document of events that the handle holds, and still holds after the call.
fn options_in(alloc: Global, schema: &mut Handle, tag: TagBytes<'_>) -> Result<String, Status>
    ensures value { IfOk result (λ text. IfSome (events_in schema.old.held) (λ old. IsSomeAnd (events_in schema.new.held)
        (λ new. IsOptionsText (beginning_of tag.entry) old new (string_bytes text)))) }
    ensures refused { IfErr result (λ status. status ≡ Status.Refused → IfSome (events_in schema.old.held) (λ old. IsSomeAnd (events_in schema.new.held)
        (HasNoOptions (beginning_of tag.entry) old))) }
    ensures misuse { IfErr result (λ status. (status ≡ Status.Misuse) ↔ (events_in schema.old.held ≡ None)) }
    ensures begun { OnOk result (events_in schema.old.held ≢ None) }
    ensures malformed { IfErr result (λ status. status ≡ Status.Malformed → ¬ (IsOfTexts (beginning_of tag.entry))) }
    ensures texts { OnOk result (IsOfTexts (beginning_of tag.entry)) }
    ensures no_text { IfErr result (λ status. status ≡ Status.Refused → IsOfTexts (beginning_of tag.entry)) }
    ensures others { IfErr result (λ status. (status ≢ Status.Done) × (status ≢ Status.Space)) }
    ensures kept { grammar_in schema.new.held ≡ grammar_in schema.old.held }
    ensures taken { IfSome (events_in schema.old.held) (λ old. IsSomeAnd (events_in schema.new.held) (StillHasTaken old)) }
    ensures same_if_misuse { IfErr result (λ status. status ≡ Status.Misuse → schema.new.held ≡ schema.old.held) }
    ensures same_if_malformed { IfErr result (λ status. status ≡ Status.Malformed → schema.new.held ≡ schema.old.held) }
{
    let Some(mut held) = schema.take(alloc) else {
        return Err(Status::Misuse);
    };
    let text = match &mut *held {
        Held::Events(document) => options_text_of(alloc, document, tag),
        Held::Schema(_) | Held::Document(_) => Err(Status::Misuse),
    };
    schema.put(held);
    text
}

/// Returns that text of a document.
fn options_text_of(
    alloc: Global,
    document: &mut EventDocument,
    tag: TagBytes<'_>,
) -> Result<String, Status>
    ensures value { IfOk result (λ text. IsOptionsText (beginning_of tag.entry) document.old document.new (string_bytes text)) }
    ensures refused { IfErr result (λ status. status ≡ Status.Refused → HasNoOptions (beginning_of tag.entry) document.old document.new) }
    ensures malformed { IfErr result (λ status. status ≡ Status.Malformed → ¬ (IsOfTexts (beginning_of tag.entry))) }
    ensures texts { OnOk result (IsOfTexts (beginning_of tag.entry)) }
    ensures no_text { IfErr result (λ status. status ≡ Status.Refused → IsOfTexts (beginning_of tag.entry)) }
    ensures others { IfErr result (λ status. (status ≢ Status.Done) × (status ≢ Status.Space) × (status ≢ Status.Misuse)) }
    ensures grammar { document.new.grammar ≡ document.old.grammar }
    ensures taken { StillHasTaken document.old document.new }
    ensures same { IfErr result (λ status. status ≡ Status.Malformed → document.new ≡ document.old) }
{
    let Ok(name) = text_name(tag.name) else {
        return Err(Status::Malformed);
    };
    let Ok(named) = text_name(tag.named) else {
        return Err(Status::Malformed);
    };
    let attributes = match text_attributes(alloc, tag.attributes) {
        Ok(attributes) => attributes,
        Err(EventFault::NotWellFormed) => return Err(Status::Malformed),
        Err(EventFault::Memory) => return Err(Status::Memory),
    };
    match text_told(alloc, document, name, attributes.as_slice(), named) {
        Ok(Some(text)) => Ok(text),
        Ok(None) => Err(Status::Refused),
        Err(_) => Err(Status::Memory),
    }
}

/// Returns that text for names and attributes that are UTF-8, or `None` if nothing is left after the attributes.
fn text_told(
    alloc: Global,
    document: &mut EventDocument,
    name: ExpandedName<'_>,
    attributes: &[Attribute<'_>],
    named: ExpandedName<'_>,
) -> Result<Option<String>, OutOfMemory>
    ensures told { IfOk result (λ text. TellsOptions (name_told name.entry) (map attribute_told attributes.now) (name_told named.entry)
        document.old document.new (option_map string_bytes text)) }
    ensures grammar { document.new.grammar ≡ document.old.grammar }
    ensures taken { StillHasTaken document.old document.new }
{
    let grammar = document.grammar()?;
    let Some(options) = document.tag_options(&grammar, name, attributes, named)? else {
        return Ok(None);
    };
    let text = written_options(alloc, &options)?;
    Ok(Some(text))
}

/// Returns the text of what a tag may have, and behind it that of what a value may be.
fn written_options(alloc: Global, options: &TagOptions<'_>) -> Result<String, OutOfMemory>
    ensures { IfOk result (λ text. string_bytes text ≡ options_text (options_of options.now)) }
{
    let mut text = tag_text(alloc, &options.tag)?;
    let value = expected_text(alloc, &options.value)?;
    text.push_str(value.as_str())?;
    Ok(text)
}
