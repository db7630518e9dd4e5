//! The validator for C, as `rncv.h` declares it.
//!
//! A handle of C holds nothing, or a schema, or a document in progress, in PYX or of events. Each function here is one call, and returns its
//! status as a number. A call on a handle that does not hold what the call needs returns a status too. The numbers are
//! those of `code_of` of `rncv_c_values`.
#![tactic(auto)]

ghost use Rattle.std.specs.Prelude.{◌≡◌, ◌≢◌, ◌↔◌, pos, IfSome, IsSome, IsSomeAnd, IsUtf8, map, ⊤};
ghost use Rattle.std.specs.declared.option.Option.TheVariants.{None};
ghost use Rattle.rnc_model.specs.loading.DatatypePlaces.{HasBrokenDatatype};
ghost use Rattle.rnc_model.specs.loading.SchemaFile.{FileName};
ghost use Rattle.rng_model.specs.documents.PyxTrees.{a_string, an_end};
ghost use Rattle.element_events.specs.views.Told.{call};
ghost use Rattle.rncv_validator.specs.views.Validators.{IsOneFor, IsOneForWith};
ghost use Rattle.rncv_c_values.specs.views.Attributes.{AreTexts, IsTextName, attribute_of, name_in, start_of};
ghost use Rattle.rncv_c_handles.specs.views.Calls.{HasBegun, HasEnded, HasTaken, IsInvalidSince};
ghost use Rattle.rncv_c_values.specs.views.Datatypes.{set_of};
ghost use Rattle.rncv_c_handles.specs.views.Events as of_events;
ghost use Rattle.rncv_c_handles.specs.views.Expected.{HoldsNoDocument, IsExpectationIn, IsTagText};
ghost use Rattle.rncv_c_handles.specs.views.Options.{HasNoOptions, IsOfTexts, IsOptionsText, StillHasTaken, beginning_in};
ghost use Rattle.rncv_c_handles.specs.views.Reasons.{IsHeldBy, IsReplacementText, StillHasBeenFed, TellsEndReason, TellsFedReason, TellsReason, TellsStartReason};
ghost use Rattle.rncv_c_handles.specs.views.Reasons.{WantsFedReasons, WantsReasons};
ghost use Rattle.rncv_c_values.specs.views.Files.{AreNamed, files_of, main_of};
ghost use Rattle.rncv_c_handles.specs.views.Held.{document_in, events_in, grammar_in, schema_in};
ghost use Rattle.rncv_c_values.specs.views.Mentions.{AreMentionsOf, IsRefusedAlone};
ghost use Rattle.rncv_c_values.specs.views.Texts.{IsTextOf, IsTooLong, IsWritten};
ghost use Rattle.rncv_c_values.specs.views.Told.{AreRefused, AreRefusedWith, IsPlaceOfDatatype, IsRefusedName};

mod schemas;

use rncv_c_handles::options::TagBytes;
use rncv_c_handles::{Handle, documents, events, expected, options, reasons};
use rncv_c_values::{
    AttributeBytes, Judgement, NameBytes, ReasonNumbers, Refusal, SchemaFile, Status, set_of_number,
};
use std::alloc::Global;

/// Compiles the schema of these files, the first of which is the main one, with the datatypes of the profile, and puts it
/// into the handle. What the handle held is freed. It is `rncv_compile_with` of 0.
///
/// Returns 0 on success; 1 if the files break a clause, which `fault` reports; 3 when out of memory; 4 exactly if there
/// is no file or a name is not UTF-8. Costs what `Validator::compile` costs, and a copy of the files.
#[unsafe(no_mangle)]
pub extern "C" fn rncv_compile(
    alloc: Global,
    files: &[SchemaFile<'_>],
    schema: &mut Handle,
    fault: &mut Refusal,
) -> i32
    ensures done { result ≡ pos 0 → IsSomeAnd (schema_in schema.new.held) (IsOneFor (files_of files.now) (main_of files.now)) }
    ensures refused { result ≡ pos 1 → AreRefused files.now fault.new }
    ensures misuse { result ≡ pos 4 → ¬ (AreNamed files.now) }
    ensures named { result ≢ pos 4 → AreNamed files.now }
    ensures others { result ≢ pos 0 → result ≢ pos 1 → result ≢ pos 4 → result ≡ pos 3 }
    ensures failed { result ≢ pos 0 → schema.new ≡ schema.old }
    ensures untold { result ≢ pos 1 → fault.new ≡ fault.old }
{
    schemas::compile(alloc, files, schema, fault).code()
}

/// Compiles the schema of these files, as `rncv_compile` does, with a set of datatypes: 0 is that of the profile, and 1
/// that of XML Schema. The set decides clause 12, and which texts are values when documents are judged.
///
/// Returns 0 on success; 1 if the files break a clause, which `fault` reports; 3 when out of memory; 4 exactly if there
/// is no file, a name is not UTF-8, or `datatypes` is another number. Costs what `Validator::compile_with` costs, and a
/// copy of the files. RELAX NG Specification, section 4.16.
#[unsafe(no_mangle)]
pub extern "C" fn rncv_compile_with(
    alloc: Global,
    files: &[SchemaFile<'_>],
    datatypes: u32,
    schema: &mut Handle,
    fault: &mut Refusal,
) -> i32
    ensures done { IfSome (set_of datatypes) (λ types. result ≡ pos 0
        → IsSomeAnd (schema_in schema.new.held) (IsOneForWith types (files_of files.now) (main_of files.now))) }
    ensures refused { IfSome (set_of datatypes) (λ types. result ≡ pos 1 → AreRefusedWith types files.now fault.new) }
    ensures misuse { result ≡ pos 4 → ¬ (AreNamed files.now × IsSome (set_of datatypes)) }
    ensures named { result ≢ pos 4 → AreNamed files.now × IsSome (set_of datatypes) }
    ensures others { result ≢ pos 0 → result ≢ pos 1 → result ≢ pos 4 → result ≡ pos 3 }
    ensures failed { result ≢ pos 0 → schema.new ≡ schema.old }
    ensures untold { result ≢ pos 1 → fault.new ≡ fault.old }
{
    match set_of_number(datatypes) {
        Some(types) => schemas::compile_with(alloc, types, files, schema, fault).code(),
        None => Status::Misuse.code(),
    }
}

/// Writes the name of the file that breaks a clause by itself to the buffer if it fits, and reports its length in
/// `count`. It is the file of which `rncv_compile` reports the clause, whether or not it was handed in.
///
/// Returns 0 on success; 3 when out of memory; 4 if there is no file, a name is not UTF-8, or no file breaks a clause
/// by itself; 5 if the name does not fit, and then nothing is written to the buffer. Costs what `Validator::compile`
/// costs, and a copy of the files.
#[unsafe(no_mangle)]
pub extern "C" fn rncv_refused_name(
    alloc: Global,
    files: &[SchemaFile<'_>],
    buffer: &mut [u8],
    count: &mut usize,
) -> i32
    ensures done { result ≡ pos 0 → IsWritten (IsRefusedName files.now) count.new buffer.old buffer.new }
    ensures space { result ≡ pos 5 → IsTooLong (IsRefusedName files.now) count.new buffer.old }
    ensures misuse { result ≡ pos 4 → AreNamed files.now → (name : FileName) → ¬ (IsRefusedName files.now name) }
    ensures named { result ≢ pos 4 → AreNamed files.now }
    ensures others { result ≢ pos 0 → result ≢ pos 4 → result ≢ pos 5 → result ≡ pos 3 }
    ensures failed { result ≢ pos 0 → buffer.new ≡ buffer.old }
    ensures untold { result ≢ pos 0 → result ≢ pos 5 → count.new ≡ count.old }
{
    schemas::refused_name(alloc, files, buffer, count).code()
}

/// Writes the names of the files that a schema file mentions by `include` and `external` to the buffer if they fit, each
/// with a zero after it, in the order of the file. Reports their length, with the zeros, in `count`.
///
/// Returns 0 on success; 1 if the file breaks a clause from 3 to 8, which `fault` reports; 3 when out of memory; 5 if the
/// names do not fit, and then nothing is written to the buffer. Costs what `mentioned_names` costs, and two copies of
/// the names.
#[unsafe(no_mangle)]
pub extern "C" fn rncv_mentions(
    alloc: Global,
    file: &[u8],
    buffer: &mut [u8],
    count: &mut usize,
    fault: &mut Refusal,
) -> i32
    ensures done { result ≡ pos 0 → IsWritten (AreMentionsOf file.now) count.new buffer.old buffer.new }
    ensures refused { result ≡ pos 1 → IsRefusedAlone file.now fault.new }
    ensures space { result ≡ pos 5 → IsTooLong (AreMentionsOf file.now) count.new buffer.old }
    ensures others { result ≢ pos 0 → result ≢ pos 1 → result ≢ pos 5 → result ≡ pos 3 }
    ensures failed { result ≢ pos 0 → buffer.new ≡ buffer.old }
    ensures uncounted { result ≢ pos 0 → result ≢ pos 5 → count.new ≡ count.old }
    ensures untold { result ≢ pos 1 → fault.new ≡ fault.old }
{
    rncv_c_values::mentions(alloc, file, buffer, count, fault).code()
}

/// Reports in `place` where the first datatype in a schema file breaks clause 12 with a set of datatypes, as
/// `rncv_compile_with` has them. The place is that of the datatype's name. Other files do not count.
///
/// Returns 0 on success; 1 if the file has no such datatype, or breaks a clause from 3 to 8 by itself; 3 when out of memory;
/// 4 exactly if `datatypes` is no set. Costs what `datatype_place_of` costs. RELAX NG Specification, section 4.16.
#[unsafe(no_mangle)]
pub extern "C" fn rncv_datatype_place(
    alloc: Global,
    file: &[u8],
    datatypes: u32,
    place: &mut Refusal,
) -> i32
    ensures done { IfSome (set_of datatypes) (λ types. result ≡ pos 0 → IsPlaceOfDatatype types file.now place.new) }
    ensures refused { IfSome (set_of datatypes) (λ types. result ≡ pos 1 → ¬ (HasBrokenDatatype types file.now)) }
    ensures misuse { (result ≡ pos 4) ↔ (set_of datatypes ≡ None) }
    ensures others { result ≢ pos 0 → result ≢ pos 1 → result ≢ pos 4 → result ≡ pos 3 }
    ensures untold { result ≢ pos 0 → place.new ≡ place.old }
{
    match set_of_number(datatypes) {
        Some(types) => rncv_c_values::datatype_place(alloc, types, file, place).code(),
        None => Status::Misuse.code(),
    }
}

/// Makes `other` a second handle on the same schema, for another thread. What `other` held is freed.
///
/// Returns 0 on success; 3 when out of memory; 4 exactly if `schema` holds no schema or a document is begun. Allocates
/// a few bytes.
#[unsafe(no_mangle)]
pub extern "C" fn rncv_schema_share(alloc: Global, schema: &mut Handle, other: &mut Handle) -> i32
    ensures done { result ≡ pos 0 → schema_in other.new.held ≡ schema_in schema.old.held }
    ensures misuse { (result ≡ pos 4) ↔ (schema_in schema.old.held ≡ None) }
    ensures others { result ≢ pos 0 → result ≢ pos 4 → result ≡ pos 3 }
    ensures failed { result ≢ pos 0 → other.new ≡ other.old }
    ensures kept { schema.new.held ≡ schema.old.held }
{
    schemas::share(alloc, schema, other).code()
}

/// Frees what the handle holds, if it holds anything. Then it holds nothing, so a second call does nothing.
#[unsafe(no_mangle)]
pub extern "C" fn rncv_schema_free(alloc: Global, schema: &mut Handle)
    ensures { schema.new.held ≡ None }
{
    drop(schema.take(alloc));
}

/// Begins a document by the schema of the handle. If one is begun already, it is dropped, and what is known of the
/// schema is kept.
///
/// Returns 0 on success; 3 when out of memory, and then no document is begun; 4 exactly if the handle holds no schema.
/// Costs what `Validator::document` costs, and if a document is dropped what `Document::finish` costs.
#[unsafe(no_mangle)]
pub extern "C" fn rncv_document_begin(alloc: Global, schema: &mut Handle) -> i32
    ensures done { result ≡ pos 0 → IsSomeAnd (document_in schema.new.held) HasBegun }
    ensures memory { result ≡ pos 3 → schema_in schema.new.held ≡ grammar_in schema.old.held }
    ensures misuse { (result ≡ pos 4) ↔ (grammar_in schema.old.held ≡ None) }
    ensures others { result ≢ pos 0 → result ≢ pos 4 → result ≡ pos 3 }
    ensures kept { grammar_in schema.new.held ≡ grammar_in schema.old.held }
{
    documents::begin(alloc, schema).code()
}

/// Passes the next piece of the document in PYX, of any length.
///
/// Returns 0 on success; 2 if the document breaks a clause; 3 when out of memory; 4 exactly if no document in PYX is begun.
/// After 2 or 3, every later call of this function for the document returns the same. One pass over the piece.
#[unsafe(no_mangle)]
pub extern "C" fn rncv_document_feed(alloc: Global, schema: &mut Handle, bytes: &[u8]) -> i32
    ensures taken { IfSome (document_in schema.old.held) (λ d. IsSomeAnd (document_in schema.new.held) (HasTaken bytes.now result d)) }
    ensures misuse { (result ≡ pos 4) ↔ (document_in schema.old.held ≡ None) }
    ensures failed { result ≡ pos 4 → schema.new.held ≡ schema.old.held }
{
    documents::feed(alloc, schema, bytes).code()
}

/// Reports in `line` the line after which no continuation is valid, counted from 1, or 0 as long as it is not known. It
/// is one of the lines that were fed.
///
/// Returns 0 on success; 4 exactly if no document in PYX is begun. Allocates nothing.
#[unsafe(no_mangle)]
pub extern "C" fn rncv_document_invalid_since(
    alloc: Global,
    schema: &mut Handle,
    line: &mut u64,
) -> i32
    ensures done { IfSome (document_in schema.old.held) (IsInvalidSince line.new) }
    ensures misuse { (result ≡ pos 4) ↔ (document_in schema.old.held ≡ None) }
    ensures others { result ≢ pos 4 → result ≡ pos 0 }
    ensures untold { result ≢ pos 0 → line.new ≡ line.old }
    ensures kept { schema.new.held ≡ schema.old.held }
{
    match documents::invalid_since(alloc, schema) {
        Ok(since) => {
            *line = since;
            Status::Done.code()
        }
        Err(status) => status.code(),
    }
}

/// Ends the document in PYX, and reports the verdict on it in `verdict`. Then the handle holds the schema, with what is known
/// of it.
///
/// Returns 0 on success; 3 when out of memory, and then the document has ended without a verdict; 4 exactly if no
/// document in PYX is begun. Costs what `Document::finish` costs.
#[unsafe(no_mangle)]
pub extern "C" fn rncv_document_end(
    alloc: Global,
    schema: &mut Handle,
    verdict: &mut Judgement,
) -> i32
    ensures ended { IfSome (document_in schema.old.held) (λ d. HasEnded d result verdict.old verdict.new) }
    ensures misuse { (result ≡ pos 4) ↔ (document_in schema.old.held ≡ None) }
    ensures failed { result ≡ pos 4 → (schema.new.held ≡ schema.old.held) × (verdict.new ≡ verdict.old) }
    ensures kept { result ≢ pos 4 → schema_in schema.new.held ≡ grammar_in schema.old.held }
{
    documents::end(alloc, schema, verdict).code()
}

/// Begins a document of events by the schema of the handle. If a document is begun already, it is dropped, and what is
/// known of the schema is kept.
///
/// Returns 0 on success; 3 when out of memory, and then no document is begun; 4 exactly if the handle holds no schema.
/// Costs what `EventDocument::new` costs, and if a document is dropped what its end costs. RELAX NG Specification,
/// section 6.
#[unsafe(no_mangle)]
pub extern "C" fn rncv_events_begin(alloc: Global, schema: &mut Handle) -> i32
    ensures done { result ≡ pos 0 → IsSomeAnd (events_in schema.new.held) of_events.HasBegun }
    ensures memory { result ≡ pos 3 → schema_in schema.new.held ≡ grammar_in schema.old.held }
    ensures misuse { (result ≡ pos 4) ↔ (grammar_in schema.old.held ≡ None) }
    ensures others { result ≢ pos 0 → result ≢ pos 4 → result ≡ pos 3 }
    ensures kept { grammar_in schema.new.held ≡ grammar_in schema.old.held }
{
    events::begin(alloc, schema).code()
}

/// Passes the start of an element, with a place that the caller chooses.
///
/// Returns 0 on success; 2 if no document begins with the calls so far, also if a text is not UTF-8; 3 when out of memory;
/// 4 exactly if no document of events is begun. After 2 or 3, every later call that passes a part of the document returns
/// the same. Costs what `EventDocument::start` costs, and a list of the attributes. RELAX NG Specification, section 2.
#[unsafe(no_mangle)]
pub extern "C" fn rncv_events_start(
    alloc: Global,
    schema: &mut Handle,
    place: u64,
    uri: &[u8],
    local: &[u8],
    attributes: &[AttributeBytes<'_>],
) -> i32
    ensures taken { IfSome (events_in schema.old.held) (λ d. IsSomeAnd (events_in schema.new.held)
        (of_events.HasTaken (AreTexts (name_in uri.now local.now) attributes.now) (call place (start_of (name_in uri.now local.now) attributes.now)) result d)) }
    ensures misuse { (result ≡ pos 4) ↔ (events_in schema.old.held ≡ None) }
    ensures failed { result ≡ pos 4 → schema.new.held ≡ schema.old.held }
{
    events::start(alloc, schema, place, NameBytes { uri, local }, attributes).code()
}

/// Passes a text of the document. Texts that follow each other are one string, which has the place of the start or the end
/// behind it.
///
/// Returns what `rncv_events_start` returns. One pass over the text. RELAX NG Specification, section 2.
#[unsafe(no_mangle)]
pub extern "C" fn rncv_events_text(alloc: Global, schema: &mut Handle, bytes: &[u8]) -> i32
    ensures taken { IfSome (events_in schema.old.held) (λ d. IsSomeAnd (events_in schema.new.held)
        (of_events.HasTakenAnywhere (IsUtf8 bytes.now) (a_string bytes.now) result d)) }
    ensures misuse { (result ≡ pos 4) ↔ (events_in schema.old.held ≡ None) }
    ensures failed { result ≡ pos 4 → schema.new.held ≡ schema.old.held }
{
    events::text(alloc, schema, bytes).code()
}

/// Passes the end of the innermost element, with a place that the caller chooses.
///
/// Returns what `rncv_events_start` returns. RELAX NG Specification, section 2.
#[unsafe(no_mangle)]
pub extern "C" fn rncv_events_end(alloc: Global, schema: &mut Handle, place: u64) -> i32
    ensures taken { IfSome (events_in schema.old.held) (λ d. IsSomeAnd (events_in schema.new.held)
        (of_events.HasTaken ⊤ (call place an_end) result d)) }
    ensures misuse { (result ≡ pos 4) ↔ (events_in schema.old.held ≡ None) }
    ensures failed { result ≡ pos 4 → schema.new.held ≡ schema.old.held }
{
    events::end(alloc, schema, place).code()
}

/// Reports in `place` the place of the start or the end after which no continuation is valid, or 0 as long as it is not
/// known.
///
/// Returns 0 on success; 4 exactly if no document of events is begun. Allocates nothing. RELAX NG Specification, sections
/// 6.2 and 6.3.
#[unsafe(no_mangle)]
pub extern "C" fn rncv_events_invalid_since(
    alloc: Global,
    schema: &mut Handle,
    place: &mut u64,
) -> i32
    ensures done { IfSome (events_in schema.old.held) (of_events.IsInvalidSince place.new) }
    ensures misuse { (result ≡ pos 4) ↔ (events_in schema.old.held ≡ None) }
    ensures others { result ≢ pos 4 → result ≡ pos 0 }
    ensures untold { result ≢ pos 0 → place.new ≡ place.old }
    ensures kept { schema.new.held ≡ schema.old.held }
{
    match events::invalid_since(alloc, schema) {
        Ok(since) => {
            *place = since;
            Status::Done.code()
        }
        Err(status) => status.code(),
    }
}

/// Ends the document of events, and reports the verdict on it in `verdict`. Then the handle holds the schema, with what is
/// known of it.
///
/// Returns 0 on success; 3 if a call for the document returned it, and then the document has ended without a verdict; 4
/// exactly if no document of events is begun. Costs what `EventDocument::finish` costs. RELAX NG Specification, section 6.
#[unsafe(no_mangle)]
pub extern "C" fn rncv_events_finish(
    alloc: Global,
    schema: &mut Handle,
    verdict: &mut Judgement,
) -> i32
    ensures ended { IfSome (events_in schema.old.held) (λ d. of_events.HasEnded d result verdict.old verdict.new) }
    ensures misuse { (result ≡ pos 4) ↔ (events_in schema.old.held ≡ None) }
    ensures failed { result ≡ pos 4 → (schema.new.held ≡ schema.old.held) × (verdict.new ≡ verdict.old) }
    ensures kept { result ≢ pos 4 → schema_in schema.new.held ≡ grammar_in schema.old.held }
{
    events::finish(alloc, schema, verdict).code()
}

/// Writes what may come next in the document that the handle holds, as text, to the buffer if it fits, and reports its
/// length in `count`. `expected_text` has the lines. If no continuation is valid, it is what could have come before the
/// event that made it so.
///
/// Returns 0 on success; 3 when out of memory, or if a call for the document was; 4 exactly if no document is begun; 5 if
/// the text does not fit, and then nothing is written to the buffer. Costs what `expected` of the document costs, the
/// text, and a copy. RELAX NG Specification, sections 6.2 and 6.2.7.
#[unsafe(no_mangle)]
pub extern "C" fn rncv_expected(
    alloc: Global,
    schema: &mut Handle,
    buffer: &mut [u8],
    count: &mut usize,
) -> i32
    ensures done { result ≡ pos 0 → IsWritten (IsExpectationIn schema.old.held) count.new buffer.old buffer.new }
    ensures space { result ≡ pos 5 → IsTooLong (IsExpectationIn schema.old.held) count.new buffer.old }
    ensures misuse { (result ≡ pos 4) ↔ HoldsNoDocument schema.old.held }
    ensures others { result ≢ pos 0 → result ≢ pos 4 → result ≢ pos 5 → result ≡ pos 3 }
    ensures failed { result ≢ pos 0 → buffer.new ≡ buffer.old }
    ensures untold { result ≢ pos 0 → result ≢ pos 5 → count.new ≡ count.old }
    ensures kept { schema.new.held ≡ schema.old.held }
{
    expected::expected(alloc, schema, buffer, count).code()
}

/// Writes what the tag of a start of this name may have next in the document of events that the handle holds, as text, to
/// the buffer if it fits, and reports its length in `count`. `tag_text` of `expected_text` has the lines. If no
/// continuation is valid, it is what could have been in place of the event that made it so.
///
/// Returns 0 on success; 2 exactly if a document of events is begun and the name is not UTF-8; 3 when out of memory, or if
/// a call for the document was; 4 exactly if no document of events is begun; 5 if the text does not fit, and then nothing
/// is written to the buffer. Costs what `EventDocument::expected_tag` costs, the text, and a copy. RELAX NG Specification,
/// sections 6.2.7 and 6.2.8.
#[unsafe(no_mangle)]
pub extern "C" fn rncv_expected_tag(
    alloc: Global,
    schema: &mut Handle,
    uri: &[u8],
    local: &[u8],
    buffer: &mut [u8],
    count: &mut usize,
) -> i32
    ensures done { result ≡ pos 0 → IfSome (events_in schema.old.held) (λ d. IsWritten (IsTagText (name_in uri.now local.now) d) count.new buffer.old buffer.new) }
    ensures space { result ≡ pos 5 → IfSome (events_in schema.old.held) (λ d. IsTooLong (IsTagText (name_in uri.now local.now) d) count.new buffer.old) }
    ensures misuse { (result ≡ pos 4) ↔ (events_in schema.old.held ≡ None) }
    ensures malformed { result ≡ pos 2 → ¬ (IsTextName (name_in uri.now local.now)) }
    ensures named { result ≢ pos 4 → result ≢ pos 2 → IsTextName (name_in uri.now local.now) }
    ensures others { result ≢ pos 0 → result ≢ pos 2 → result ≢ pos 4 → result ≢ pos 5 → result ≡ pos 3 }
    ensures failed { result ≢ pos 0 → buffer.new ≡ buffer.old }
    ensures untold { result ≢ pos 0 → result ≢ pos 5 → count.new ≡ count.old }
    ensures kept { schema.new.held ≡ schema.old.held }
{
    expected::expected_tag(alloc, schema, NameBytes { uri, local }, buffer, count).code()
}

/// Writes what may come in place of the string since the last start or end of the document of events that the handle holds,
/// as text, to the buffer if it fits, and reports its length in `count`. `expected_text` has the lines. If no continuation is
/// valid, it is what could have come in place of the string before the event that made it so.
///
/// Returns what `rncv_expected` returns, and costs the same; 4 exactly if no document of events is begun. RELAX NG
/// Specification, sections 6.2 and 6.2.7.
#[unsafe(no_mangle)]
pub extern "C" fn rncv_expected_in_place(
    alloc: Global,
    schema: &mut Handle,
    buffer: &mut [u8],
    count: &mut usize,
) -> i32
    ensures done { result ≡ pos 0 → IfSome (events_in schema.old.held) (λ d. IsWritten (IsReplacementText d) count.new buffer.old buffer.new) }
    ensures space { result ≡ pos 5 → IfSome (events_in schema.old.held) (λ d. IsTooLong (IsReplacementText d) count.new buffer.old) }
    ensures misuse { (result ≡ pos 4) ↔ (events_in schema.old.held ≡ None) }
    ensures others { result ≢ pos 0 → result ≢ pos 4 → result ≢ pos 5 → result ≡ pos 3 }
    ensures failed { result ≢ pos 0 → buffer.new ≡ buffer.old }
    ensures untold { result ≢ pos 0 → result ≢ pos 5 → count.new ≡ count.old }
    ensures kept { schema.new.held ≡ schema.old.held }
{
    reasons::expected_in_place(alloc, schema, buffer, count).code()
}

/// Reports in `reason` why a start of this name with these attributes leaves nothing of what may come next in the document of
/// events that the handle holds, or that it leaves something. If no continuation is valid, it is about what could have come
/// before the event that made it so. `ReasonNumbers` has the numbers.
///
/// Returns 0 on success; 2 exactly if a document of events is begun and a text is not UTF-8; 3 when out of memory, and then
/// later calls for the document may return it; 4 exactly if no document of events is begun. Costs what
/// `EventDocument::start_reason` costs. RELAX NG Specification, sections 6.2.7 and 6.2.8.
#[unsafe(no_mangle)]
pub extern "C" fn rncv_events_start_reason(
    alloc: Global,
    schema: &mut Handle,
    uri: &[u8],
    local: &[u8],
    attributes: &[AttributeBytes<'_>],
    reason: &mut ReasonNumbers,
) -> i32
    ensures done { result ≡ pos 0 → IfSome (events_in schema.old.held) (λ d. IsSomeAnd (events_in schema.new.held)
        (TellsStartReason (name_in uri.now local.now) (map attribute_of attributes.now) reason.new d)) }
    ensures misuse { (result ≡ pos 4) ↔ (events_in schema.old.held ≡ None) }
    ensures malformed { result ≡ pos 2 → ¬ (AreTexts (name_in uri.now local.now) attributes.now) }
    ensures texts { result ≡ pos 0 → AreTexts (name_in uri.now local.now) attributes.now }
    ensures others { result ≢ pos 0 → result ≢ pos 2 → result ≢ pos 4 → result ≡ pos 3 }
    ensures untold { result ≢ pos 0 → reason.new ≡ reason.old }
    ensures kept { grammar_in schema.new.held ≡ grammar_in schema.old.held }
    ensures taken { IfSome (events_in schema.old.held) (λ old. IsSomeAnd (events_in schema.new.held) (StillHasTaken old)) }
    ensures failed { result ≢ pos 0 → result ≢ pos 3 → schema.new.held ≡ schema.old.held }
{
    match reasons::start_reason(alloc, schema, NameBytes { uri, local }, attributes) {
        Ok(told) => {
            *reason = told;
            Status::Done.code()
        }
        Err(status) => status.code(),
    }
}

/// Reports in `reason` why an end leaves nothing of what may come next in the document of events that the handle holds, or
/// that it may come. If no continuation is valid, it is about what could have come before the event that made it so.
///
/// Returns 0 on success; 3 when out of memory, and then later calls for the document may return it; 4 exactly if no document
/// of events is begun. Costs what `EventDocument::end_reason` costs. RELAX NG Specification, section 6.2.7.
#[unsafe(no_mangle)]
pub extern "C" fn rncv_events_end_reason(
    alloc: Global,
    schema: &mut Handle,
    reason: &mut ReasonNumbers,
) -> i32
    ensures done { result ≡ pos 0 → IfSome (events_in schema.old.held) (λ d. IsSomeAnd (events_in schema.new.held) (TellsEndReason reason.new d)) }
    ensures misuse { (result ≡ pos 4) ↔ (events_in schema.old.held ≡ None) }
    ensures others { result ≢ pos 0 → result ≢ pos 4 → result ≡ pos 3 }
    ensures untold { result ≢ pos 0 → reason.new ≡ reason.old }
    ensures kept { grammar_in schema.new.held ≡ grammar_in schema.old.held }
    ensures taken { IfSome (events_in schema.old.held) (λ old. IsSomeAnd (events_in schema.new.held) (StillHasTaken old)) }
    ensures failed { result ≡ pos 4 → schema.new.held ≡ schema.old.held }
{
    match reasons::end_reason(alloc, schema) {
        Ok(told) => {
            *reason = told;
            Status::Done.code()
        }
        Err(status) => status.code(),
    }
}

/// Asks for reasons of the document that the handle holds, in PYX or of events: from now on it keeps the start after which
/// nothing is left, with its name, attributes and values, until it ends.
///
/// Returns 0 on success; 4 exactly if no document is begun. Allocates nothing.
#[unsafe(no_mangle)]
pub extern "C" fn rncv_want_reasons(alloc: Global, schema: &mut Handle) -> i32
    ensures events { result ≡ pos 0 → IfSome (events_in schema.old.held) (λ d. IsSomeAnd (events_in schema.new.held) (WantsReasons d)) }
    ensures document { result ≡ pos 0 → IfSome (document_in schema.old.held) (λ d. IsSomeAnd (document_in schema.new.held) (WantsFedReasons d)) }
    ensures misuse { (result ≡ pos 4) ↔ HoldsNoDocument schema.old.held }
    ensures others { result ≢ pos 4 → result ≡ pos 0 }
    ensures kept { grammar_in schema.new.held ≡ grammar_in schema.old.held }
    ensures failed { result ≡ pos 4 → schema.new.held ≡ schema.old.held }
{
    reasons::want_reasons(alloc, schema).code()
}

/// Reports in `reason` why no continuation is valid of the document that the handle holds, in PYX or of events, or that none is
/// told: none is known to be, or nothing is kept of the start, since `rncv_want_reasons` was not called before. It is what the
/// call for that start or end reports, or kind 8 if it finds none.
///
/// Returns 0 on success; 3 when out of memory, in this call or in an earlier one for the document, and then each later call
/// returns it; 4 exactly if no document is begun. Costs what `Document::reason` or `EventDocument::reason` costs. RELAX NG
/// Specification, sections 6.2.7 and 6.2.8.
#[unsafe(no_mangle)]
pub extern "C" fn rncv_fault_reason(
    alloc: Global,
    schema: &mut Handle,
    reason: &mut ReasonNumbers,
) -> i32
    ensures events { result ≡ pos 0 → IfSome (events_in schema.old.held) (λ d. IsSomeAnd (events_in schema.new.held) (TellsReason reason.new d)) }
    ensures document { result ≡ pos 0 → IfSome (document_in schema.old.held) (λ d. IsSomeAnd (document_in schema.new.held) (TellsFedReason reason.new d)) }
    ensures misuse { (result ≡ pos 4) ↔ HoldsNoDocument schema.old.held }
    ensures others { result ≢ pos 0 → result ≢ pos 4 → result ≡ pos 3 }
    ensures untold { result ≢ pos 0 → reason.new ≡ reason.old }
    ensures kept { grammar_in schema.new.held ≡ grammar_in schema.old.held }
    ensures taken { IfSome (events_in schema.old.held) (λ old. IsSomeAnd (events_in schema.new.held) (StillHasTaken old)) }
    ensures fed { IfSome (document_in schema.old.held) (λ old. IsSomeAnd (document_in schema.new.held) (StillHasBeenFed old)) }
    ensures failed { result ≡ pos 4 → schema.new.held ≡ schema.old.held }
{
    match reasons::fault_reason(alloc, schema) {
        Ok(told) => {
            *reason = told;
            Status::Done.code()
        }
        Err(status) => status.code(),
    }
}

/// Writes what a start of this name may have after these attributes in the document of events that the handle holds, and behind
/// it what the value of an attribute of the other name may be there, as text, to the buffer if it fits, and reports its length
/// in `count`. `tag_text` of `expected_text` has the lines of the first, and `expected_text` those of the second: the first word
/// of a line tells which it is. If no continuation is valid, it is about what could have come before the event that made it so.
///
/// Returns 0 on success; 1 if nothing is left after the attributes; 2 only if a document of events is begun and a text is not
/// UTF-8; 3 when out of memory, and then later calls for the document may return it; 4 exactly if no document of events is
/// begun; 5 if the text does not fit, and then nothing is written to the buffer. Costs what `EventDocument::tag_options` costs,
/// the text, and two copies. RELAX NG Specification, sections 6.2.7 and 6.2.8.
#[unsafe(no_mangle)]
pub extern "C" fn rncv_events_tag_options(
    alloc: Global,
    schema: &mut Handle,
    uri: &[u8],
    local: &[u8],
    attributes: &[AttributeBytes<'_>],
    named_uri: &[u8],
    named_local: &[u8],
    buffer: &mut [u8],
    count: &mut usize,
) -> i32
    ensures done { result ≡ pos 0 → IfSome (events_in schema.old.held) (λ old. IsSomeAnd (events_in schema.new.held)
        (λ new. IsWritten (IsOptionsText (beginning_in (name_in uri.now local.now) attributes.now (name_in named_uri.now named_local.now)) old new)
        count.new buffer.old buffer.new)) }
    ensures space { result ≡ pos 5 → IfSome (events_in schema.old.held) (λ old. IsSomeAnd (events_in schema.new.held)
        (λ new. IsTooLong (IsOptionsText (beginning_in (name_in uri.now local.now) attributes.now (name_in named_uri.now named_local.now)) old new)
        count.new buffer.old)) }
    ensures refused { result ≡ pos 1 → IfSome (events_in schema.old.held) (λ old. IsSomeAnd (events_in schema.new.held)
        (HasNoOptions (beginning_in (name_in uri.now local.now) attributes.now (name_in named_uri.now named_local.now)) old)) }
    ensures misuse { (result ≡ pos 4) ↔ (events_in schema.old.held ≡ None) }
    ensures malformed { result ≡ pos 2 → ¬ (IsOfTexts (beginning_in (name_in uri.now local.now) attributes.now (name_in named_uri.now named_local.now))) }
    ensures texts { result ≢ pos 2 → result ≢ pos 3 → result ≢ pos 4
        → IsOfTexts (beginning_in (name_in uri.now local.now) attributes.now (name_in named_uri.now named_local.now)) }
    ensures others { result ≢ pos 0 → result ≢ pos 1 → result ≢ pos 2 → result ≢ pos 4 → result ≢ pos 5 → result ≡ pos 3 }
    ensures failed { result ≢ pos 0 → buffer.new ≡ buffer.old }
    ensures untold { result ≢ pos 0 → result ≢ pos 5 → count.new ≡ count.old }
    ensures kept { grammar_in schema.new.held ≡ grammar_in schema.old.held }
    ensures taken { IfSome (events_in schema.old.held) (λ old. IsSomeAnd (events_in schema.new.held) (StillHasTaken old)) }
    ensures same_if_misuse { result ≡ pos 4 → schema.new.held ≡ schema.old.held }
    ensures same_if_malformed { result ≡ pos 2 → schema.new.held ≡ schema.old.held }
{
    let tag = TagBytes {
        name: NameBytes { uri, local },
        attributes,
        named: NameBytes {
            uri: named_uri,
            local: named_local,
        },
    };
    options::tag_options(alloc, schema, tag, buffer, count).code()
}

/// Reports in `count` how many bytes the handle holds of the text behind the last start or end of its document of events. They
/// grow with the document. None are held where the schema does not test what a text says.
///
/// Returns 0 on success; 4 exactly if no document of events is begun. Allocates nothing.
#[unsafe(no_mangle)]
pub extern "C" fn rncv_events_held(alloc: Global, schema: &mut Handle, count: &mut usize) -> i32
    ensures done { IfSome (events_in schema.old.held) (IsHeldBy count.new) }
    ensures misuse { (result ≡ pos 4) ↔ (events_in schema.old.held ≡ None) }
    ensures others { result ≢ pos 4 → result ≡ pos 0 }
    ensures untold { result ≢ pos 0 → count.new ≡ count.old }
    ensures kept { schema.new.held ≡ schema.old.held }
{
    match reasons::held(alloc, schema) {
        Ok(held) => {
            *count = held;
            Status::Done.code()
        }
        Err(status) => status.code(),
    }
}

/// Writes the printed simple form of the schema to the buffer if it fits, and reports its length in `count`.
///
/// Returns 0 on success; 3 when out of memory; 4 exactly if the handle holds no schema or a document is begun; 5 if the
/// form does not fit, and then nothing is written to the buffer. Costs what `Validator::simple_text` costs, and a copy.
#[unsafe(no_mangle)]
pub extern "C" fn rncv_simple(
    alloc: Global,
    schema: &mut Handle,
    buffer: &mut [u8],
    count: &mut usize,
) -> i32
    ensures done { result ≡ pos 0 → IsSomeAnd (schema_in schema.old.held) (λ g. IsWritten (IsTextOf g) count.new buffer.old buffer.new) }
    ensures space { result ≡ pos 5 → IsSomeAnd (schema_in schema.old.held) (λ g. IsTooLong (IsTextOf g) count.new buffer.old) }
    ensures misuse { (result ≡ pos 4) ↔ (schema_in schema.old.held ≡ None) }
    ensures others { result ≢ pos 0 → result ≢ pos 4 → result ≢ pos 5 → result ≡ pos 3 }
    ensures failed { result ≢ pos 0 → buffer.new ≡ buffer.old }
    ensures untold { result ≢ pos 0 → result ≢ pos 5 → count.new ≡ count.old }
    ensures kept { schema.new.held ≡ schema.old.held }
{
    schemas::simple(alloc, schema, buffer, count).code()
}
