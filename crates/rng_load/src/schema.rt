// A schema: its grammars at their places.
ghost use Rattle.std.specs.Prelude.{◌≡◌, map, option_map};
ghost use Rattle.rng_model.specs.plain.WellPlaced.{IsWellPlaced};
ghost use Rattle.rng_model.specs.views.SchemaView.{place_of, schema_component_of};
ghost use Rattle.rng_load.specs.views.PlacedGrammars.{schema_of};
ghost use Rattle.rng_load.specs.plain.SchemaPlaces.{AreItsPlaces};

use indexmap::IndexMap;
use rng_model::{Component, Place};
use std::marker::Model;

/// A grammar of a schema: its components, and the place of the grammar around it.
#[derive(Drop)]
pub(crate) struct Grammar {
    pub components: Vec<Component>,
    pub outer: Option<Place>,
}

/// A schema of one or more files: the components of the grammar at each place.
///
/// Mentions of files are followed, names have their namespaces, and components that an include overrides are left out.
/// No grammar is around the main one. Each grammar that is nested in a component is at its place, and around it is the
/// grammar of that component.
///
/// RELAX NG Specification, sections 4.6, 4.7, 4.9, 4.11 and 4.18.
#[derive(Drop)]
pub struct Schema {
    pub(crate) main: Place,
    pub(crate) grammars: IndexMap<Place, Grammar>,
}

impl Model for Schema {
    ghost use Rattle.rng_model.specs.plain.WellPlaced.{IsWellPlaced};
    ghost use Rattle.rng_load.specs.views.PlacedGrammars.{SchemaEntries, schema_of};
    ghost use Rattle.rng_model.specs.contracts.name.NameClass as classes;
    ghost use Rattle.std.specs.Coded.{codes};

    ghost Value = { SchemaEntries };

    ghost coded = { Prim.hlevel (codes, classes.the_row.coded) };

    ghost view = { λ s. record { main = s.main; grammars = s.grammars.entries } };

    ghost invariant = { λ s. IsWellPlaced (schema_of (record { main = s.main; grammars = s.grammars.entries })) };
}

impl Schema {
    /// Returns the place of the grammar of the main file. Allocates nothing.
    pub fn main(&self) -> &Place
        ensures main { place_of result.now ≡ (schema_of self.now).main }
        // All grammars are in their places.
        ensures placed { IsWellPlaced (schema_of self.now) }
    {
        &self.main
    }

    /// Returns the places of the grammars, each once. Allocates nothing.
    pub fn places(&self) -> &[Place]
        ensures { AreItsPlaces (schema_of self.now) (map place_of result.now) }
    {
        self.grammars.keys().as_slice()
    }

    /// Returns the components of the grammar at a place, in order, including those of included files, or `None` if no
    /// grammar is at that place. Allocates nothing. Costs a look-up by hashing the place, in the length of the place.
    ///
    /// RELAX NG Specification, sections 4.7 and 4.11.
    pub fn components(&self, place: &Place) -> Option<&[Component]>
        ensures { option_map (λ cs. map schema_component_of cs.now) result ≡ (schema_of self.now).components (place_of place.now) }
    {
        match self.grammars.get(place) {
            Some(grammar) => Some(grammar.components.as_slice()),
            None => None,
        }
    }

    /// Returns the place of the grammar around the one at a place, or `None` for the main grammar and if no grammar is
    /// at that place. Allocates nothing. Costs a look-up by hashing the place, in the length of the place.
    ///
    /// RELAX NG Specification, section 4.18.
    pub fn outer(&self, place: &Place) -> Option<&Place>
        ensures { option_map (λ p. place_of p.now) result ≡ (schema_of self.now).outer (place_of place.now) }
    {
        match self.grammars.get(place) {
            Some(grammar) => grammar.outer.as_ref(),
            None => None,
        }
    }
}
