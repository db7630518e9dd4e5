// The datatypes that a grammar names.
ghost use Rattle.std.specs.Prelude.{◌≡◌, ◌+◌, ◌<◌, ℕ, IfOk, OnOk, Some, option_map};
ghost use Rattle.rng_model.specs.datatypes.Datatypes.{known_allows, known_equates};
ghost use Rattle.rng_model.specs.datatypes.DatatypeViews.{datatype_of};
ghost use Rattle.rng_model.specs.xsd.TypeSets.{meaning_in};
ghost use Rattle.xsd_types.specs.views.View.{known_meaning};
ghost use Rattle.rng_deriv_ways.specs.views.Datatypes.{AreDatatypesOf, position_count, meaning_at, meaning_kept, meaning_named_by};

use rng_model::{Datatype, OutOfMemory, PatternId, Simple, SimpleGrammar, TypeSet};
use rng_types::Datatype as _;
use std::alloc::Global;
use xsd_types::KnownDatatype;

/// For each position of a grammar whose pattern names a datatype of its set, this datatype. So each is looked up by its
/// library and name only once.
#[derive(Drop)]
pub struct Datatypes {
    by_position: Vec<Option<Box<KnownDatatype>>>,
}

impl Datatypes {
    /// Creates the map of a grammar, with the datatypes of its set. Fails only when out of memory. The cost is one look-up
    /// for each data and each value.
    pub fn new(alloc: Global, grammar: &SimpleGrammar) -> Result<Self, OutOfMemory>
        ensures { IfOk result (AreDatatypesOf grammar.now) }
    {
        let mut datatypes = Datatypes {
            by_position: Vec::new(alloc),
        };
        'patterns: for position in 0..usize::MAX {
            let Some(pattern) = grammar.pattern(PatternId(position)) else {
                return Ok(datatypes);
            };
            datatypes.add(alloc, grammar.types(), pattern)?;
        }
        Err(OutOfMemory)
    }

    /// Adds what is kept at the next position, whose pattern this is. Fails only when out of memory.
    fn add(&mut self, alloc: Global, types: TypeSet, pattern: &Simple) -> Result<(), OutOfMemory>
        ensures count { OnOk result (position_count self.new ≡ position_count self.old + 1) }
        ensures own { OnOk result (meaning_at self.new (position_count self.old) ≡ meaning_named_by types pattern.now) }
        ensures others { OnOk result ((k : ℕ) → k < position_count self.old → meaning_at self.new k ≡ meaning_at self.old k) }
    {
        let datatype = named(alloc, types, pattern)?;
        let datatype = boxed(alloc, datatype)?;
        self.by_position.push(datatype)?;
        Ok(())
    }

    /// Returns the datatype that the pattern at a position names, if it names a known one. Allocates nothing.
    pub fn at(&self, position: PatternId) -> Option<&KnownDatatype>
        ensures { option_map (λ d. known_meaning d.now) result ≡ meaning_at self.now position.0 }
    {
        match self.by_position.get(position.0) {
            Some(Some(datatype)) => Some(datatype),
            _ => None,
        }
    }

    /// Returns whether the datatype that the pattern at a position names allows a text. Allocates nothing.
    ///
    /// RELAX NG Specification, section 6.2.8. An unknown datatype allows nothing.
    pub fn allow(&self, position: PatternId, text: &str) -> bool
        ensures { result ≡ known_allows (meaning_at self.now position.0) text.now }
    {
        match self.at(position) {
            Some(datatype) => datatype.allows(text),
            None => false,
        }
    }

    /// Returns whether a text is equal to a value, by the datatype that the pattern at a position names. Allocates
    /// nothing.
    ///
    /// RELAX NG Specification, sections 6.2.8 and 6.2.9. In an unknown datatype no texts are equal.
    pub fn equate(&self, position: PatternId, value: &str, text: &str) -> bool
        ensures { result ≡ known_equates (meaning_at self.now position.0) value.now text.now }
    {
        match self.at(position) {
            Some(datatype) => datatype.equal(value, text),
            None => false,
        }
    }
}

/// Puts a datatype into a box, if there is one. Fails only when out of memory.
fn boxed(
    alloc: Global,
    datatype: Option<KnownDatatype>,
) -> Result<Option<Box<KnownDatatype>>, OutOfMemory>
    ensures { IfOk result (λ boxed. meaning_kept (Some boxed) ≡ option_map known_meaning datatype) }
{
    match datatype {
        Some(datatype) => Ok(Some(Box::new(alloc, datatype)?)),
        None => Ok(None),
    }
}

/// Returns the datatype of a set that a pattern names, if it names one. Fails only when out of memory.
fn named(
    alloc: Global,
    types: TypeSet,
    pattern: &Simple,
) -> Result<Option<KnownDatatype>, OutOfMemory>
    ensures { IfOk result (λ found. option_map known_meaning found ≡ meaning_named_by types pattern.now) }
{
    match pattern {
        Simple::Data(datatype) => found(alloc, types, datatype),
        Simple::DataExcept(datatype, _) => found(alloc, types, datatype),
        Simple::Value(value) => KnownDatatype::find(
            alloc,
            types,
            value.library.as_str(),
            value.name.as_str(),
            &[],
        ),
        _ => Ok(None),
    }
}

/// Returns a datatype of a grammar, if the set has it. Fails only when out of memory.
fn found(
    alloc: Global,
    types: TypeSet,
    datatype: &Datatype,
) -> Result<Option<KnownDatatype>, OutOfMemory>
    ensures { IfOk result (λ found. option_map known_meaning found ≡ meaning_in types (datatype_of datatype.now)) }
{
    KnownDatatype::find(
        alloc,
        types,
        datatype.library.as_str(),
        datatype.name.as_str(),
        &datatype.parameters,
    )
}
