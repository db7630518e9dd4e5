// All datatypes, and how a schema names them.
ghost use Rattle.std.specs.Prelude.{◌≡◌, ◌↔◌, Some, map};
ghost use Rattle.rng_model.specs.datatypes.DatatypeViews.{parameter_of};
ghost use Rattle.rng_model.specs.datatypes.Datatypes.{Meaning, meaning_of, plain_types, xsd_types, without, is_allowed_by, are_equal_by};
ghost use Rattle.rng_model.specs.datatypes.Facets.{named};
ghost use Rattle.rng_model.proofs.ValueLaws as laws;
ghost use Rattle.rng_types.specs.views.View.{meaning_by, datatype_at, seen};
ghost use Rattle.rng_types.specs.views.Fault.{HasFault};
ghost use Rattle.rng_types.specs.views.Finding.{or_bad, chosen, find_type};

use crate::datatype::Datatype;
use crate::parameters::{bounds, lengths};
use crate::plain::{PlainString, PlainToken};
use crate::texts::{NcName, NmToken, XsdString, XsdToken};
use crate::values::{Boolean, Integer};

/// A datatype of one of the two libraries, with its parameters.
#[derive(Clone, Copy, Debug)]
pub enum Builtin {
    PlainString(PlainString),
    PlainToken(PlainToken),
    XsdString(XsdString),
    XsdToken(XsdToken),
    NcName(NcName),
    NmToken(NmToken),
    Boolean(Boolean),
    Integer(Integer),
}

/// Why a library, a name and parameters name no datatype.
#[derive(Clone, Copy, Debug)]
pub enum TypeFault {
    /// There is no library with that URI.
    UnknownLibrary,
    /// The library has no datatype with that name.
    UnknownType,
    /// The datatype does not take these parameters.
    BadParameter,
}

impl Builtin {
    /// Returns the datatype of this library and name, with these parameters.
    ///
    /// The built-in library has the empty URI, and the other one is `http://www.w3.org/2001/XMLSchema-datatypes`.
    /// Returns a datatype exactly if there is one; it gives texts the values that this one gives. Returns each fault
    /// exactly if it holds. No two faults hold of one datatype. RELAX NG Specification, section 4.16; XML Schema Part 2,
    /// section 4.3. Allocates nothing. The cost is a few passes over the parameters.
    pub fn find(lib: &str, name: &str, params: &[(String, String)]) -> Result<Builtin, TypeFault>
        ensures found { (meaning : Meaning) → (seen meaning_by result ≡ Ok meaning) ↔ (meaning_of (datatype_at lib.now name.now params.now) ≡ Some meaning) }
        ensures fault { (f : TypeFault) → (result ≡ Err f) ↔ HasFault f (datatype_at lib.now name.now params.now) }
    {
        find_type(lib, name, params)
    }
}

// the datatype, or the first fault
#[tactic(auto, unfolding(crate::specs::views::Finding::find_type))]
fn find_type(lib: &str, name: &str, params: &[(String, String)]) -> Result<Builtin, TypeFault>
    ensures { seen meaning_by result ≡ find_type lib.now name.now (map parameter_of params.now) }
{
    match lib {
        "" => plain(name, params),
        "http://www.w3.org/2001/XMLSchema-datatypes" => xsd(name, params),
        _ => Err(TypeFault::UnknownLibrary),
    }
}

// the datatype of the built-in library
fn plain(name: &str, params: &[(String, String)]) -> Result<Builtin, TypeFault>
    ensures { seen meaning_by result ≡ chosen (named name.now plain_types) (map parameter_of params.now) }
{
    match name {
        "string" => without_parameters(Builtin::PlainString(PlainString), params),
        "token" => without_parameters(Builtin::PlainToken(PlainToken), params),
        _ => Err(TypeFault::UnknownType),
    }
}

// the datatype of the XML Schema library
fn xsd(name: &str, params: &[(String, String)]) -> Result<Builtin, TypeFault>
    ensures { seen meaning_by result ≡ chosen (named name.now xsd_types) (map parameter_of params.now) }
{
    match name {
        "string" => Ok(Builtin::XsdString(XsdString {
            lengths: lengths(params)?,
        })),
        "token" => Ok(Builtin::XsdToken(XsdToken {
            lengths: lengths(params)?,
        })),
        "NCName" => Ok(Builtin::NcName(NcName {
            lengths: lengths(params)?,
        })),
        "NMTOKEN" => Ok(Builtin::NmToken(NmToken {
            lengths: lengths(params)?,
        })),
        "boolean" => without_parameters(Builtin::Boolean(Boolean), params),
        "integer" => Ok(Builtin::Integer(Integer {
            bounds: bounds(params)?,
        })),
        _ => Err(TypeFault::UnknownType),
    }
}

// the datatype, if there are no parameters
fn without_parameters(found: Builtin, params: &[(String, String)]) -> Result<Builtin, TypeFault>
    ensures { seen meaning_by result ≡ or_bad (without (meaning_by found) (map parameter_of params.now)) }
{
    if params.is_empty() {
        Ok(found)
    } else {
        Err(TypeFault::BadParameter)
    }
}

impl Datatype for Builtin {
    ghost allows = { λ d s. is_allowed_by (meaning_by d) s };

    ghost equal = { λ d v w. are_equal_by (meaning_by d) v w };

    ghost equal_allowed = { λ d v w e. laws.equal_allowed (meaning_by d) v w e };

    ghost equal_reflexive = { λ d v e. laws.equal_reflexive (meaning_by d) v e };

    ghost equal_symmetric = { λ d v w e. laws.equal_symmetric (meaning_by d) v w e };

    ghost equal_transitive = { λ d u v w e f. laws.equal_transitive (meaning_by d) u v w e f };

    fn allows(&self, text: &str) -> bool {
        match self {
            Builtin::PlainString(datatype) => datatype.allows(text),
            Builtin::PlainToken(datatype) => datatype.allows(text),
            Builtin::XsdString(datatype) => datatype.allows(text),
            Builtin::XsdToken(datatype) => datatype.allows(text),
            Builtin::NcName(datatype) => datatype.allows(text),
            Builtin::NmToken(datatype) => datatype.allows(text),
            Builtin::Boolean(datatype) => datatype.allows(text),
            Builtin::Integer(datatype) => datatype.allows(text),
        }
    }

    fn equal(&self, a: &str, b: &str) -> bool {
        match self {
            Builtin::PlainString(datatype) => datatype.equal(a, b),
            Builtin::PlainToken(datatype) => datatype.equal(a, b),
            Builtin::XsdString(datatype) => datatype.equal(a, b),
            Builtin::XsdToken(datatype) => datatype.equal(a, b),
            Builtin::NcName(datatype) => datatype.equal(a, b),
            Builtin::NmToken(datatype) => datatype.equal(a, b),
            Builtin::Boolean(datatype) => datatype.equal(a, b),
            Builtin::Integer(datatype) => datatype.equal(a, b),
        }
    }
}
