// Checking which clause of components a schema breaks.
ghost use Rattle.std.specs.Prelude.{◌≡◌, ◌↔◌, ℕ, IfOk, IsTrue, List, map};
ghost use Rattle.rng_model.specs.schema.Patterns as patterns;
ghost use Rattle.rng_model.specs.views.SchemaView.{place_of, schema_component_of};
ghost use Rattle.rng_model.specs.xsd.SchemasWith.{BreaksSchemaClauseWith};
ghost use Rattle.rng_load.specs.views.PlacedGrammars.{schema_of};
ghost use Rattle.rng_schema_checks.specs.plain.ClauseTests.{is_broken_at, number_of};
ghost use Rattle.rng_schema_checks.specs.views.Defined.{defines_in, finds};
ghost use Rattle.rng_schema_checks.specs.plain.GrammarTests.{defines, defines_if, some_has};
ghost use Rattle.rng_schema_checks.specs.plain.Judged.{AreComponentsJudged};
ghost use Rattle.rng_schema_checks.specs.plain.PatternTests.{datatype_test, ref_test};
ghost use Rattle.rng_schema_checks.specs.plain.RuleTests.{rule_test};

use crate::combinations::{breaks_combination, lacks_start};
use crate::definitions::{DefinedNames, Definitions, components_at};
use crate::patterns::{Datatypes, Rule, Scope};
use rng_load::Schema;
use rng_model::{Component, OutOfMemory, Place, SchemaFault, TypeSet};
use std::alloc::Global;

/// A clause about the components of a schema. Each grammar is checked by itself.
#[derive(Clone, Copy)]
enum ComponentClause {
    /// Clause 11.
    NameClasses,
    /// Clause 12.
    Datatypes,
    /// Clause 13.
    Combinations,
    /// Clause 14.
    Starts,
    /// Clause 15.
    Refs,
}

/// Checks the grammars of a schema.
#[derive(Clone, Copy)]
struct Judge<'a, 'd> {
    alloc: Global,
    types: TypeSet,
    schema: &'a Schema,
    definitions: &'d Definitions<'a>,
}

/// Checks that the components of a schema keep the clauses 11 to 15, at all places, whether reached from the start or
/// not. The schema may name the datatypes of this set.
///
/// Fails with `Clause` for the least clause that is broken:
///
/// - 11 if a name class is not allowed;
/// - 12 if a datatype is not one of the set, does not take its parameters, or does not take a value;
/// - 13 if two components of one name have `=`, or one has `|=` and one `&=`;
/// - 14 if a grammar has no start;
/// - 15 if a ref has no definition.
///
/// Fails with `Memory` only when out of memory. Takes time linear in the schema, apart from hash collisions. A search
/// for a datatype of the set `XmlSchema` copies the texts of bounds. Recurses as deep as name classes nest.
///
/// RELAX NG Specification, sections 4.16 to 4.18.
pub fn check_components(alloc: Global, types: TypeSet, schema: &Schema) -> Result<(), SchemaFault>
    ensures { AreComponentsJudged types (schema_of schema.now) result }
{
    let definitions = Definitions::of_schema(alloc, schema)?;
    let judge = Judge {
        alloc,
        types,
        schema,
        definitions: &definitions,
    };
    judge.check()
}

impl<'a, 'd> Judge<'a, 'd> {
    /// Fails with the least clause that is broken, if there is one.
    fn check(self) -> Result<(), SchemaFault>
        requires defined { (x : patterns.Place) (y : List ℕ) → defines_in self.definitions.now x y ≡ defines (schema_of self.schema.now) x y }
        ensures { AreComponentsJudged self.entry.types (schema_of self.entry.schema.now) result }
    {
        if self.breaks(ComponentClause::NameClasses)? {
            return Err(SchemaFault::Clause(11));
        }
        if self.breaks(ComponentClause::Datatypes)? {
            return Err(SchemaFault::Clause(12));
        }
        if self.breaks(ComponentClause::Combinations)? {
            return Err(SchemaFault::Clause(13));
        }
        if self.breaks(ComponentClause::Starts)? {
            return Err(SchemaFault::Clause(14));
        }
        if self.breaks(ComponentClause::Refs)? {
            return Err(SchemaFault::Clause(15));
        }
        Ok(())
    }

    /// Whether some grammar of the schema breaks the clause.
    fn breaks(self, clause: ComponentClause) -> Result<bool, OutOfMemory>
        requires defined { (x : patterns.Place) (y : List ℕ) → defines_in self.definitions.now x y ≡ defines (schema_of self.schema.now) x y }
        ensures { IfOk result (λ broken. IsTrue broken ↔ BreaksSchemaClauseWith self.entry.types (schema_of self.entry.schema.now) (number_of clause)) }
    {
        for place in self.schema.places() {
            if self.breaks_at(clause, place)? {
                return Ok(true);
            }
        }
        Ok(false)
    }

    /// Whether the grammar at this place breaks the clause.
    fn breaks_at(self, clause: ComponentClause, place: &'a Place) -> Result<bool, OutOfMemory>
        requires defined { (x : patterns.Place) (y : List ℕ) → defines_in self.definitions.now x y ≡ defines (schema_of self.schema.now) x y }
        ensures { IfOk result (λ broken. broken ≡ is_broken_at self.entry.types clause (schema_of self.entry.schema.now) (place_of place.now)) }
    {
        let components = components_at(self.schema, place);
        match clause {
            ComponentClause::NameClasses => break_rule(&Rule::NameClasses, components),
            ComponentClause::Datatypes => break_rule(&self.datatypes(), components),
            ComponentClause::Combinations => breaks_combination(self.alloc, components),
            ComponentClause::Starts => Ok(lacks_start(components)),
            ComponentClause::Refs => break_rule(&self.refs_at(place), components),
        }
    }

    /// The rule for datatypes and values.
    fn datatypes(self) -> Rule<'a, 'd>
        ensures { rule_test result ≡ datatype_test self.entry.types }
    {
        Rule::Datatypes(Datatypes {
            alloc: self.alloc,
            types: self.types,
        })
    }

    /// The rule for the refs of the grammar at this place.
    fn refs_at(self, place: &'a Place) -> Rule<'a, 'd>
        requires defined { (x : patterns.Place) (y : List ℕ) → defines_in self.definitions.now x y ≡ defines (schema_of self.schema.now) x y }
        ensures { rule_test result ≡ ref_test (defines (schema_of self.entry.schema.now) (place_of place.now)) (defines_if (schema_of self.entry.schema.now) ((schema_of self.entry.schema.now).outer (place_of place.now))) }
    {
        Rule::Refs(Scope {
            names: self.definitions.names_at(place),
            outer: self.names_around(place),
        })
    }

    /// The names that the grammar around the one at this place defines, if there is one.
    fn names_around(self, place: &'a Place) -> Option<&'d DefinedNames<'a>>
        requires defined { (x : patterns.Place) (y : List ℕ) → defines_in self.definitions.now x y ≡ defines (schema_of self.schema.now) x y }
        ensures { (y : List ℕ) → finds result y ≡ defines_if (schema_of self.entry.schema.now) ((schema_of self.entry.schema.now).outer (place_of place.now)) y }
    {
        match self.schema.outer(place) {
            Some(outer) => self.definitions.names_at(outer),
            None => None,
        }
    }
}

/// Whether some pattern in the components breaks the rule.
fn break_rule(rule: &Rule<'_, '_>, components: &[Component]) -> Result<bool, OutOfMemory>
    ensures { IfOk result (λ broken. broken ≡ some_has (rule_test rule.now) (map schema_component_of components.now)) }
{
    for component in components {
        if rule.is_broken_in(&component.pattern)? {
            return Ok(true);
        }
    }
    Ok(false)
}
