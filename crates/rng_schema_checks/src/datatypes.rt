// Unknown datatypes, and values that are not allowed.
ghost use Rattle.std.specs.Prelude.{◌≡◌, IfOk};
ghost use Rattle.rng_model.specs.datatypes.DatatypeViews.{datatype_of};
ghost use Rattle.rng_schema_checks.specs.plain.PatternTests.{is_refused, is_unknown};

use rng_model::{Datatype, OutOfMemory, TypeSet};
use rng_types::Datatype as _;
use std::alloc::Global;
use xsd_types::{KnownDatatype, takes_values_in};

/// Whether the set does not have the datatype, or the datatype does not take its parameters. Fails only when out of
/// memory: the search copies the texts of bounds, for the set `XmlSchema` alone.
///
/// RELAX NG Specification, section 4.16.
pub fn is_unknown(alloc: Global, types: TypeSet, datatype: &Datatype) -> Result<bool, OutOfMemory>
    ensures { IfOk result (λ unknown. unknown ≡ is_unknown types (datatype_of datatype.now)) }
{
    let found = KnownDatatype::find(
        alloc,
        types,
        datatype.library.as_str(),
        datatype.name.as_str(),
        &datatype.parameters,
    )?;
    Ok(found.is_none())
}

/// Whether the datatype of this library and name, without parameters, is unknown, takes no values or does not allow the
/// text. Fails only when out of memory.
///
/// RELAX NG Specification, sections 4.16 and 6.2.9.
pub fn is_refused(
    alloc: Global,
    types: TypeSet,
    library: &str,
    name: &str,
    text: &str,
) -> Result<bool, OutOfMemory>
    ensures { IfOk result (λ refused. refused ≡ is_refused types library.now name.now text.now) }
{
    if !takes_values_in(types, library, name) {
        return Ok(true);
    }
    match KnownDatatype::find(alloc, types, library, name, &[])? {
        Some(datatype) => Ok(!datatype.allows(text)),
        None => Ok(true),
    }
}
