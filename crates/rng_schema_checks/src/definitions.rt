// The names that the grammars of a schema define.
ghost use Rattle.std.specs.Prelude.{◌≡◌, ◌||◌, ℕ, IfOk, List, OnOk, Some, if◌then◌else◌, map};
ghost use Rattle.std.specs.List.{list_any};
ghost use Rattle.std.specs.Str.{bytes_eq};
ghost use Rattle.rng_model.specs.schema.Patterns as patterns;
ghost use Rattle.rng_model.specs.views.SchemaView.{place_of, schema_component_of};
ghost use Rattle.rng_load.specs.views.PlacedGrammars.{schema_of};
ghost use Rattle.rng_schema_checks.specs.views.Defined.{defines_in, finds, has_name};
ghost use Rattle.rng_schema_checks.specs.plain.GrammarTests.{components_at, defines, is_named};

use indexmap::{IndexMap, IndexSet};
use rng_load::Schema;
use rng_model::{Component, OutOfMemory, Place};
use std::alloc::Global;

/// The names that the components of a grammar define.
#[derive(Drop)]
pub struct DefinedNames<'a> {
    names: IndexSet<&'a str>,
}

/// The names that each grammar of a schema defines, by its place.
#[derive(Drop)]
pub struct Definitions<'a> {
    by_place: IndexMap<&'a Place, DefinedNames<'a>>,
}

impl<'a> DefinedNames<'a> {
    /// Gathers the names that these components define.
    fn of_components(alloc: Global, components: &'a [Component]) -> Result<Self, OutOfMemory>
        ensures { IfOk result (λ names. (y : List ℕ) → has_name names y ≡ list_any (is_named (Some y)) (map schema_component_of components.now)) }
    {
        let mut names = DefinedNames {
            names: IndexSet::new(alloc),
        };
        for component in components {
            let Some(name) = &component.name else {
                continue;
            };
            names.add(name.as_str())?;
        }
        Ok(names)
    }

    /// Adds a name.
    fn add(&mut self, name: &'a str) -> Result<(), OutOfMemory>
        ensures { OnOk result ((y : List ℕ) → has_name self.new y ≡ (has_name self.old y || bytes_eq y name.now)) }
    {
        self.names.insert(name)?;
        Ok(())
    }

    /// Whether the name is one of them.
    pub fn has(&self, name: &str) -> bool
        ensures { result ≡ has_name self.now name.now }
    {
        self.names.contains(name)
    }
}

impl<'a> Definitions<'a> {
    /// Gathers the names of all grammars of a schema. Takes linear time, apart from hash collisions.
    pub fn of_schema(alloc: Global, schema: &'a Schema) -> Result<Self, OutOfMemory>
        ensures { IfOk result (λ all. (x : patterns.Place) (y : List ℕ) → defines_in all x y ≡ defines (schema_of schema.now) x y) }
    {
        let mut all = Definitions {
            by_place: IndexMap::new(alloc),
        };
        for place in schema.places() {
            let names = DefinedNames::of_components(alloc, components_at(schema, place))?;
            all.put(place, names)?;
        }
        Ok(all)
    }

    /// Puts the names that the grammar at this place defines, and replaces those that are there.
    fn put(&mut self, place: &'a Place, names: DefinedNames<'a>) -> Result<(), OutOfMemory>
        ensures { OnOk result ((x : patterns.Place) (y : List ℕ) → defines_in self.new x y ≡ (if bytes_eq x (place_of place.now) then has_name names.entry y else defines_in self.old x y)) }
    {
        self.by_place.insert(place, names)?;
        Ok(())
    }

    /// The names that the grammar at this place defines, or `None` if there is no grammar.
    pub fn names_at(&self, place: &'a Place) -> Option<&DefinedNames<'a>>
        ensures { (y : List ℕ) → finds result y ≡ defines_in self.now (place_of place.now) y }
    {
        self.by_place.get(&place)
    }
}

/// The components of the grammar at this place, or no components if there is no grammar.
pub fn components_at<'a>(schema: &'a Schema, place: &Place) -> &'a [Component]
    ensures { map schema_component_of result.now ≡ components_at (schema_of schema.now) (place_of place.now) }
{
    match schema.components(place) {
        Some(components) => components,
        None => &[],
    }
}
