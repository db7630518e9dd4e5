// What name classes and datatypes of a grammar say of names and texts.
ghost use Rattle.std.specs.Prelude.{◌≡◌, IfOk, option_map, string_bytes};
ghost use Rattle.rng_model.specs.schema.Patterns.{without_parameters};
ghost use Rattle.rng_model.specs.datatypes.DatatypeViews.{datatype_of};
ghost use Rattle.rng_model.specs.datatypes.Texts.{is_blank};
ghost use Rattle.rng_model.specs.matching.GrammarMatching.{reading_of};
ghost use Rattle.rng_model.specs.names.NameViews.{class_of, name_of};
ghost use Rattle.rng_model.specs.xsd.TypeSets.{meaning_in};
ghost use Rattle.rng_names.specs.plain.Holding.{holds};
ghost use Rattle.xsd_types.specs.views.View.{known_meaning};

use crate::context::Context;
use rng_model::{Datatype, DatatypeValue, Name, NameClass, OutOfMemory};
use rng_names::contains;
use rng_types::Datatype as _;
use xsd_types::KnownDatatype;

/// Returns a datatype of the grammar, if its set has it. Fails only when out of memory.
fn named(context: &Context, datatype: &Datatype) -> Result<Option<KnownDatatype>, OutOfMemory>
    ensures { IfOk result (λ found. option_map known_meaning found ≡ meaning_in context.now.grammar.now.types (datatype_of datatype.now)) }
{
    KnownDatatype::find(
        context.alloc,
        context.grammar.types(),
        datatype.library.as_str(),
        datatype.name.as_str(),
        &datatype.parameters,
    )
}

/// Returns the datatype of a value, if the set of the grammar has it. Fails only when out of memory.
fn named_by_value(
    context: &Context,
    value: &DatatypeValue,
) -> Result<Option<KnownDatatype>, OutOfMemory>
    ensures { IfOk result (λ found. option_map known_meaning found
        ≡ meaning_in context.now.grammar.now.types (without_parameters (string_bytes value.now.library) (string_bytes value.now.name))) }
{
    KnownDatatype::find(
        context.alloc,
        context.grammar.types(),
        value.library.as_str(),
        value.name.as_str(),
        &[],
    )
}

/// Returns whether a datatype allows a text. An unknown one allows nothing. Fails only when out of memory.
///
/// RELAX NG Specification, section 6.2.8.
pub fn allows(context: &Context, datatype: &Datatype, text: &str) -> Result<bool, OutOfMemory>
    ensures { IfOk result (λ allows. allows ≡ (reading_of context.now.grammar.now).tests.allows (datatype_of datatype.now) text.now) }
{
    match named(context, datatype)? {
        Some(known) => Ok(known.allows(text)),
        None => Ok(false),
    }
}

/// Returns whether a text is equal to a value by its datatype. By an unknown one no texts are equal. Fails only when out
/// of memory.
///
/// RELAX NG Specification, section 6.2.9.
pub fn equals(context: &Context, value: &DatatypeValue, text: &str) -> Result<bool, OutOfMemory>
    ensures { IfOk result (λ equals. equals ≡ (reading_of context.now.grammar.now).tests.equals
        (without_parameters (string_bytes value.now.library) (string_bytes value.now.name)) (string_bytes value.now.text) text.now) }
{
    match named_by_value(context, value)? {
        Some(known) => Ok(known.equal(value.text.as_str(), text)),
        None => Ok(false),
    }
}

/// Returns whether a class has a name.
///
/// RELAX NG Specification, section 6.1.
pub fn has_name(class: &NameClass, name: &Name) -> bool
    ensures { result ≡ holds (class_of class.now) (name_of name.now) }
{
    contains(class, name)
}

/// Returns whether a text has only spaces, tabs and line ends.
pub fn is_blank(text: &str) -> bool
    ensures { result ≡ is_blank text.now }
{
    text.as_bytes()
        .iter()
        .all(|byte| matches!(*byte, b' ' | b'\t' | b'\n' | b'\r'))
}
