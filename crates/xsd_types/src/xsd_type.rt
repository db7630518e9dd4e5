// All datatypes of the set, and how a schema names them.
ghost use Rattle.std.specs.Prelude.{◌≡◌, Some, map, IfOk, IfErr};
ghost use Rattle.rng_model.specs.datatypes.DatatypeViews.{parameter_of};
ghost use Rattle.rng_model.specs.datatypes.Datatypes.{is_allowed_by, are_equal_by};
ghost use Rattle.rng_model.specs.regexes.Patterns.{other_parameters};
ghost use Rattle.rng_model.specs.plain.NamedTypes.{meaning_named};
ghost use Rattle.rng_model.proofs.ValueLaws as laws;
ghost use Rattle.xsd_automaton.specs.views.WhiteSpace.{treated};
ghost use Rattle.xsd_patterns.specs.Facet.{all_match, expressions_of};
ghost use Rattle.xsd_types.specs.views.View.{meaning_by, plain_meaning};
ghost use Rattle.xsd_types.specs.views.Kinds.{maker_of, plain_maker};
ghost use Rattle.xsd_types.specs.views.Finding.{HasFault, IsMade};

use crate::fault::TypeFault;
use crate::kind::{Kind, find_kind, white_space_of};
use crate::plain_type::{PlainType, plain_type};
use rng_types::Datatype;
use std::alloc::Global;
use xsd_patterns::{Patterns, have_no_pattern, other_parameters};

/// A datatype of XML Schema, with its parameters: its patterns, and all others.
#[derive(Drop)]
pub struct XsdType {
    pub plain: PlainType,
    pub patterns: Patterns,
}

impl XsdType {
    /// Returns the datatype of this name in the library of XML Schema, with these parameters.
    ///
    /// Returns a datatype exactly if the table has one, unless out of memory; it gives texts the values that this one
    /// gives. `UnknownType` is returned if the table has no type of that name. `BadParameter` is returned if it has one,
    /// and that does not take these parameters: it has no such parameter, one but `pattern` occurs twice, a text is no
    /// value of its parameter, a pattern is no expression or one whose size is above 4,096, or two exclude each other or
    /// are in the wrong order. RELAX NG Specification, section 4.16; XML Schema Part 2, section 4.3. The cost is a few
    /// passes over the parameters, and that of `Pattern::compile` for each pattern.
    pub fn find(
        alloc: Global,
        name: &str,
        params: &[(String, String)],
    ) -> Result<XsdType, TypeFault>
        ensures found { IfOk result (λ t. meaning_named name.now (map parameter_of params.now) ≡ Some (meaning_by t)) }
        ensures fault { IfErr result (λ f. HasFault f name.now (map parameter_of params.now)) }
    {
        match find_kind(name) {
            Some(kind) => made(alloc, kind, params),
            None => Err(TypeFault::UnknownType),
        }
    }
}

// the datatype of this kind with the parameters, if it takes them
fn made(alloc: Global, kind: Kind, params: &[(String, String)]) -> Result<XsdType, TypeFault>
    ensures { IsMade meaning_by (maker_of kind (map parameter_of params.now)) result }
{
    let white_space = white_space_of(&kind);
    let plain = without_patterns(alloc, kind, params)?;
    match Patterns::compile(alloc, white_space, params) {
        Ok(Some(patterns)) => Ok(XsdType { plain, patterns }),
        Ok(None) => Err(TypeFault::BadParameter),
        Err(_) => Err(TypeFault::Memory),
    }
}

// the datatype of this kind with the parameters that are no patterns, if it takes them
fn without_patterns(
    alloc: Global,
    kind: Kind,
    params: &[(String, String)],
) -> Result<PlainType, TypeFault>
    ensures { IsMade plain_meaning (plain_maker kind (other_parameters (map parameter_of params.now))) result }
{
    if have_no_pattern(params) {
        return plain_type(alloc, kind, params);
    }
    match other_parameters(alloc, params) {
        Ok(others) => plain_type(alloc, kind, others.as_slice()),
        Err(_) => Err(TypeFault::Memory),
    }
}

// whether the text matches each of the patterns; most datatypes have none, and then no room is made for a matcher
#[inline(always)]
fn match_all(patterns: &Patterns, text: &str) -> bool
    ensures { result ≡ all_match (expressions_of patterns.now.expressions.items) (treated patterns.now.white_space) text.now }
{
    patterns.expressions.as_slice().is_empty() || patterns.match_all(text)
}

impl Datatype for XsdType {
    ghost allows = { λ d s. is_allowed_by (meaning_by d) s };

    ghost equal = { λ d v w. are_equal_by (meaning_by d) v w };

    ghost equal_allowed = { λ d v w e. laws.equal_allowed (meaning_by d) v w e };

    ghost equal_reflexive = { λ d v e. laws.equal_reflexive (meaning_by d) v e };

    ghost equal_symmetric = { λ d v w e. laws.equal_symmetric (meaning_by d) v w e };

    ghost equal_transitive = { λ d u v w e f. laws.equal_transitive (meaning_by d) u v w e f };

    fn allows(&self, text: &str) -> bool {
        self.plain.allows(text) && match_all(&self.patterns, text)
    }

    fn equal(&self, a: &str, b: &str) -> bool {
        self.plain.equal(a, b) && match_all(&self.patterns, a) && match_all(&self.patterns, b)
    }
}
