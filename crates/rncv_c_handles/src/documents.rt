//! Calls on a handle with a document in PYX.
ghost use Rattle.std.specs.Prelude.{◌≡◌, ◌≢◌, ◌↔◌, [], IfErr, IfNone, IfOk, IfSome, IsSomeAnd, OnSome};
ghost use Rattle.std.specs.declared.option.Option.TheVariants.{None, Some};
ghost use Rattle.rncv_c_handles.specs.views.Calls.{HasBegun, HasEnded, HasTaken, IsEndOf, IsInvalidSince, status_of_end, told_at_end};
ghost use Rattle.rncv_c_values.specs.views.Codes.{code_of};
ghost use Rattle.rncv_c_handles.specs.views.Held.{document_in, grammar_in, schema_in};

use crate::handle::{Handle, Held};
use core::mem::replace_with;
use rncv_c_values::{Judgement, Status, judgement_to_tell};
use rncv_model::Verdict;
use rncv_validator::{Document, DocumentFault, Validator};
use rng_model::OutOfMemory;
use std::alloc::Global;

/// Begins a document by the schema of the handle. If one is begun already, it is dropped.
///
/// Returns `Misuse` exactly if the handle holds no schema. Returns `Memory` when out of memory, and then no document is
/// begun. Costs what `Validator::document` costs, and if a document is dropped what `Document::finish` costs.
pub fn begin(alloc: Global, schema: &mut Handle) -> Status
    ensures done { result ≡ Status.Done → IsSomeAnd (document_in schema.new.held) HasBegun }
    ensures memory { result ≡ Status.Memory → schema_in schema.new.held ≡ grammar_in schema.old.held }
    ensures misuse { (result ≡ Status.Misuse) ↔ (grammar_in schema.old.held ≡ None) }
    ensures others { result ≢ Status.Done → result ≢ Status.Misuse → result ≡ Status.Memory }
    ensures kept { grammar_in schema.new.held ≡ grammar_in schema.old.held }
{
    let Some(mut held) = schema.take(alloc) else {
        return Status::Misuse;
    };
    let status = replace_with(&mut *held, alloc, begun);
    schema.put(held);
    status
}

/// Returns a document by the schema that is held, or the schema when out of memory.
fn begun(held: Held, alloc: Global) -> (Held, Status)
    ensures done { result.1 ≡ Status.Done → IsSomeAnd (document_in (Some result.0)) HasBegun }
    ensures memory { result.1 ≢ Status.Done → (result.1 ≡ Status.Memory) × (schema_in (Some result.0) ≡ grammar_in (Some held)) }
    ensures kept { grammar_in (Some result.0) ≡ grammar_in (Some held) }
{
    let mut document = validator_in(held).document(alloc);
    // a piece without bytes fails only if the document is out of memory
    match document.feed(&[]) {
        Ok(()) => (Held::Document(document), Status::Done),
        Err(_) => {
            let (validator, _) = document.finish();
            (Held::Schema(validator), Status::Memory)
        }
    }
}

/// Returns the validator of a schema, or of a document that is dropped.
pub(crate) fn validator_in(held: Held) -> Validator
    ensures { grammar_in (Some held) ≡ Some result }
{
    match held {
        Held::Schema(validator) => validator,
        Held::Document(document) => {
            let (validator, _) = document.finish();
            validator
        }
        Held::Events(document) => {
            let (validator, _) = document.finish();
            validator
        }
    }
}

/// Passes the next piece to the document.
///
/// Returns `Misuse` exactly if no document in PYX is begun; otherwise the status of `Document::feed`. One pass over the piece.
pub fn feed(alloc: Global, schema: &mut Handle, bytes: &[u8]) -> Status
    ensures taken { IfSome (document_in schema.old.held) (λ d. IsSomeAnd (document_in schema.new.held) (HasTaken bytes.now (code_of result) d)) }
    ensures misuse { (result ≡ Status.Misuse) ↔ (document_in schema.old.held ≡ None) }
    ensures failed { result ≡ Status.Misuse → schema.new.held ≡ schema.old.held }
{
    let Some(mut held) = schema.take(alloc) else {
        return Status::Misuse;
    };
    let status = match &mut *held {
        Held::Document(document) => match document.feed(bytes) {
            Ok(()) => Status::Done,
            Err(DocumentFault::Malformed { .. }) => Status::Malformed,
            Err(DocumentFault::Memory) => Status::Memory,
        },
        Held::Schema(_) | Held::Events(_) => Status::Misuse,
    };
    schema.put(held);
    status
}

/// Returns the line after which no continuation is valid, or 0 as long as it is not known. It is one of the lines that
/// were fed. A start tag with a name that no element of the schema's simple form may have makes it known at the end of
/// the line after the tag, unless there was a fault.
///
/// Fails with `Misuse` exactly if no document in PYX is begun. Allocates nothing.
pub fn invalid_since(alloc: Global, schema: &mut Handle) -> Result<u64, Status>
    ensures value { IfOk result (λ line. IsSomeAnd (document_in schema.old.held) (IsInvalidSince line)) }
    ensures misuse { IfErr result (λ status. (status ≡ Status.Misuse) × (document_in schema.old.held ≡ None)) }
    ensures kept { schema.new.held ≡ schema.old.held }
{
    let Some(held) = schema.take(alloc) else {
        return Err(Status::Misuse);
    };
    let line = match held.as_ref() {
        Held::Document(document) => Ok(hopeless_line(document)),
        Held::Schema(_) | Held::Events(_) => Err(Status::Misuse),
    };
    schema.put(held);
    line
}

/// Returns the line after which no continuation is valid, or 0 as long as it is not known. Allocates nothing.
fn hopeless_line(document: &Document) -> u64
    ensures { IsInvalidSince result document.now }
{
    document.invalid_since().unwrap_or(0)
}

/// Ends the document in PYX, and reports the verdict on it in `told`. Then the handle holds the schema.
///
/// Returns `Misuse` exactly if no document in PYX is begun. Returns `Memory` when out of memory, and then the document has
/// ended too. Costs what `Document::finish` costs.
pub fn end(alloc: Global, schema: &mut Handle, told: &mut Judgement) -> Status
    ensures ended { IfSome (document_in schema.old.held) (λ d. HasEnded d (code_of result) told.old told.new) }
    ensures misuse { (result ≡ Status.Misuse) ↔ (document_in schema.old.held ≡ None) }
    ensures failed { result ≡ Status.Misuse → (schema.new.held ≡ schema.old.held) × (told.new ≡ told.old) }
    ensures kept { result ≢ Status.Misuse → schema_in schema.new.held ≡ grammar_in schema.old.held }
{
    let Some(mut held) = schema.take(alloc) else {
        return Status::Misuse;
    };
    let answer = replace_with(&mut *held, (), ended);
    schema.put(held);
    match answer {
        Some(answer) => tell(answer, told),
        None => Status::Misuse,
    }
}

/// Returns the schema of a document in PYX that has ended, and what `Document::finish` returns. If what is held is no
/// such document, returns it.
fn ended(held: Held, _nothing: ()) -> (Held, Option<Result<Verdict, OutOfMemory>>)
    ensures ended { IfSome (document_in (Some held)) (λ d. IsSomeAnd result.1 (IsEndOf d)) }
    ensures none { IfNone result.1 ((document_in (Some held) ≡ None) × (result.0 ≡ held)) }
    ensures some { OnSome result.1 (document_in (Some held) ≢ None) }
    ensures kept { OnSome result.1 (schema_in (Some result.0) ≡ grammar_in (Some held)) }
{
    match held {
        Held::Document(document) => {
            let (validator, answer) = document.finish();
            (Held::Schema(validator), Some(answer))
        }
        Held::Schema(validator) => (Held::Schema(validator), None),
        Held::Events(document) => (Held::Events(document), None),
    }
}

/// Reports a verdict, if there is one.
fn tell(answer: Result<Verdict, OutOfMemory>, told: &mut Judgement) -> Status
    ensures status { result ≡ status_of_end answer }
    ensures told { told.new ≡ told_at_end told.old answer }
    ensures not_misuse { result ≢ Status.Misuse }
{
    match answer {
        Ok(verdict) => {
            *told = judgement_to_tell(verdict);
            Status::Done
        }
        Err(_) => Status::Memory,
    }
}
