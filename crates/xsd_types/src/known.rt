// The datatypes of a set, as a schema names them.
ghost use Rattle.std.specs.Prelude.{◌≡◌, IfOk, map, option_map};
ghost use Rattle.rng_model.specs.datatypes.DatatypeViews.{parameter_of};
ghost use Rattle.rng_model.specs.datatypes.Datatypes.{meaning_of, is_allowed_by, are_equal_by};
ghost use Rattle.rng_model.specs.schema.Patterns.{without_parameters};
ghost use Rattle.rng_model.specs.xsd.Datatypes.{complete_meaning_of};
ghost use Rattle.rng_model.specs.plain.NamedTypes.{meaning_named};
ghost use Rattle.rng_model.specs.xsd.TypeSets.{meaning_in, takes_values_in};
ghost use Rattle.rng_model.proofs.ValueLaws as laws;
ghost use Rattle.rng_types.specs.views.View.{datatype_at};
ghost use Rattle.xsd_types.specs.views.View.{known_meaning};

use crate::fault::TypeFault;
use crate::kind::takes_values;
use crate::xsd_type::XsdType;
use rng_model::{OutOfMemory, TypeSet};
use rng_types::{Builtin, Datatype};
use std::alloc::Global;

/// A datatype of one of the sets, with its parameters.
#[derive(Drop)]
pub enum KnownDatatype {
    /// A datatype of the profile, or one that is built into RELAX NG.
    Builtin(Builtin),
    /// A datatype of the library of XML Schema, by the set `XmlSchema`.
    Xsd(XsdType),
}

impl KnownDatatype {
    /// Returns the datatype of this library and name with these parameters, or `None` exactly if the set has none of that
    /// name, or it does not take the parameters.
    ///
    /// The built-in library has the empty URI, and the other one is `http://www.w3.org/2001/XMLSchema-datatypes`. Fails
    /// only when out of memory. RELAX NG Specification, section 4.16; XML Schema Part 2, section 4.3. Copies the texts of
    /// bounds, by the set `XmlSchema` only. The cost is a few passes over the parameters.
    pub fn find(
        alloc: Global,
        types: TypeSet,
        library: &str,
        name: &str,
        params: &[(String, String)],
    ) -> Result<Option<KnownDatatype>, OutOfMemory>
        ensures { IfOk result (λ found. option_map known_meaning found ≡ meaning_in types (datatype_at library.now name.now params.now)) }
    {
        match types {
            TypeSet::Profile => Ok(builtin(library, name, params)),
            TypeSet::XmlSchema => in_xml_schema(alloc, library, name, params),
        }
    }
}

// the datatype of the set `XmlSchema`
fn in_xml_schema(
    alloc: Global,
    library: &str,
    name: &str,
    params: &[(String, String)],
) -> Result<Option<KnownDatatype>, OutOfMemory>
    ensures { IfOk result (λ found. option_map known_meaning found ≡ complete_meaning_of (datatype_at library.now name.now params.now)) }
{
    match library {
        "" => Ok(builtin("", name, params)),
        "http://www.w3.org/2001/XMLSchema-datatypes" => xsd(alloc, name, params),
        _ => Ok(None),
    }
}

// the datatype of the profile, or the one that is built in
fn builtin(library: &str, name: &str, params: &[(String, String)]) -> Option<KnownDatatype>
    ensures { option_map known_meaning result ≡ meaning_of (datatype_at library.now name.now params.now) }
{
    match Builtin::find(library, name, params) {
        Ok(datatype) => Some(KnownDatatype::Builtin(datatype)),
        Err(_) => None,
    }
}

// the datatype of the library of XML Schema
fn xsd(
    alloc: Global,
    name: &str,
    params: &[(String, String)],
) -> Result<Option<KnownDatatype>, OutOfMemory>
    ensures { IfOk result (λ found. option_map known_meaning found ≡ meaning_named name.now (map parameter_of params.now)) }
{
    match XsdType::find(alloc, name, params) {
        Ok(datatype) => Ok(Some(KnownDatatype::Xsd(datatype))),
        Err(TypeFault::UnknownType | TypeFault::BadParameter) => Ok(None),
        Err(TypeFault::Memory) => Err(OutOfMemory),
    }
}

/// Returns whether texts may be given as values of the datatype of this library and name, by this set.
///
/// They may not in `QName` and `NOTATION` of the set `XmlSchema`: the value of a text depends on what its prefix is
/// declared as. XML Schema Part 2, sections 3.2.18 and 3.2.19. Allocates nothing.
pub fn takes_values_in(types: TypeSet, library: &str, name: &str) -> bool
    ensures { result ≡ takes_values_in types (without_parameters library.now name.now) }
{
    match types {
        TypeSet::Profile => true,
        TypeSet::XmlSchema => {
            library != "http://www.w3.org/2001/XMLSchema-datatypes" || takes_values(name)
        }
    }
}

impl Datatype for KnownDatatype {
    ghost allows = { λ d s. is_allowed_by (known_meaning d) s };

    ghost equal = { λ d v w. are_equal_by (known_meaning d) v w };

    ghost equal_allowed = { λ d v w e. laws.equal_allowed (known_meaning d) v w e };

    ghost equal_reflexive = { λ d v e. laws.equal_reflexive (known_meaning d) v e };

    ghost equal_symmetric = { λ d v w e. laws.equal_symmetric (known_meaning d) v w e };

    ghost equal_transitive = { λ d u v w e f. laws.equal_transitive (known_meaning d) u v w e f };

    fn allows(&self, text: &str) -> bool {
        match self {
            KnownDatatype::Builtin(datatype) => datatype.allows(text),
            KnownDatatype::Xsd(datatype) => datatype.allows(text),
        }
    }

    fn equal(&self, a: &str, b: &str) -> bool {
        match self {
            KnownDatatype::Builtin(datatype) => datatype.equal(a, b),
            KnownDatatype::Xsd(datatype) => datatype.equal(a, b),
        }
    }
}
