// The components of the grammars of a schema, by definition.
ghost use Rattle.std.specs.Prelude.{◌≡◌, ◌∷◌, ◌++◌, [], IfOk, OnOk, ℕ, map, slice_index_or};
ghost use Rattle.rng_model.specs.schema.Schema as schemas;
ghost use Rattle.rng_model.specs.views.SchemaView.{place_of, schema_component_of};
ghost use Rattle.rng_load.specs.views.PlacedGrammars.{schema_of};
ghost use Rattle.rng_simple.specs.views.ComponentTable.{IsTable, components_of, schema_components, table_of, those_at};
ghost use Rattle.rng_simple.specs.views.Definitions.{definition_of};
ghost use Rattle.rng_simple.specs.plain.Graph.{number_of};
ghost use Rattle.rng_simple.specs.plain.Resolving.{with_definition};

use crate::graph::definitions::{Definition, number};
use indexmap::IndexSet;
use rng_load::Schema;
use rng_model::{Component, OutOfMemory, Place};
use std::alloc::Global;

/// The components of all grammars of a schema, by definition.
#[derive(Drop)]
pub(crate) struct ComponentTable<'a> {
    definitions: IndexSet<Definition<'a>>,
    /// The components of each definition, in order.
    components: Vec<Vec<&'a Component>>,
}

impl<'a> ComponentTable<'a> {
    /// Builds the table of a schema. Takes linear time, apart from hash collisions.
    pub(crate) fn of_schema(alloc: Global, schema: &'a Schema) -> Result<Self, OutOfMemory>
        ensures table { IfOk result (λ t. IsTable (table_of t)) }
        ensures components { IfOk result (λ t. (d : schemas.Definition) → components_of (table_of t) d ≡ schema_components (schema_of schema.now) d) }
    {
        let mut table = ComponentTable {
            definitions: IndexSet::new(alloc),
            components: Vec::new(alloc),
        };
        for place in schema.places() {
            if let Some(components) = schema.components(place) {
                table.add_grammar(alloc, place, components)?;
            }
        }
        Ok(table)
    }

    /// Returns the number of definitions with components. Allocates nothing.
    pub(crate) fn len(&self) -> usize {
        self.definitions.len()
    }

    /// Adds the components of the grammar at a place.
    fn add_grammar(
        &mut self,
        alloc: Global,
        place: &'a Place,
        components: &'a [Component],
    ) -> Result<(), OutOfMemory>
        requires { IsTable (table_of self.old) }
        ensures table { OnOk result (IsTable (table_of self.new)) }
        ensures components { OnOk result ((d : schemas.Definition) → components_of (table_of self.new) d
            ≡ components_of (table_of self.old) d ++ those_at d (place_of place.now) (map schema_component_of components.now)) }
    {
        for component in components {
            self.add(alloc, place, component)?;
        }
        Ok(())
    }

    /// Adds a component of the grammar at a place, after those of its definition.
    fn add(
        &mut self,
        alloc: Global,
        place: &'a Place,
        component: &'a Component,
    ) -> Result<(), OutOfMemory>
        requires { IsTable (table_of self.old) }
        ensures table { OnOk result (IsTable (table_of self.new)) }
        ensures components { OnOk result ((d : schemas.Definition) → components_of (table_of self.new) d
            ≡ components_of (table_of self.old) d ++ those_at d (place_of place.now) (schema_component_of component.now ∷ [])) }
    {
        let name = component.name.as_deref();
        let number = self.number(alloc, Definition { place, name })?;
        self.components[number].push(component)?;
        Ok(())
    }

    /// Returns the number of a definition. A new definition gets the next number and an empty list.
    fn number(&mut self, alloc: Global, definition: Definition<'a>) -> Result<usize, OutOfMemory>
        requires { IsTable (table_of self.old) }
        ensures table { OnOk result (IsTable (table_of self.new)) }
        ensures number { IfOk result (λ n. n ≡ number_of (table_of self.old).definitions (definition_of definition.entry)) }
        ensures numbered { OnOk result ((table_of self.new).definitions ≡ with_definition (table_of self.old).definitions (definition_of definition.entry)) }
        ensures components { OnOk result ((k : ℕ) → slice_index_or (table_of self.new).components k [] ≡ slice_index_or (table_of self.old).components k []) }
    {
        let number = number(&mut self.definitions, definition)?;
        if number == self.components.len() {
            self.components.push(Vec::new(alloc))?;
        }
        Ok(number)
    }

    /// Returns the components of a definition, in order.
    pub(crate) fn components(&self, definition: Definition<'a>) -> &[&'a Component]
        requires { IsTable (table_of self.now) }
        ensures { map (λ c. schema_component_of c.now) result.now ≡ components_of (table_of self.now) (definition_of definition.entry) }
    {
        match self.definitions.get_index_of(&definition) {
            Some(number) => self.components[number].as_slice(),
            None => &[],
        }
    }
}
