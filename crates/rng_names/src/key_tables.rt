// The tables in which keys of names are looked up.
ghost use Rattle.std.specs.Prelude.{◌≡◌, ◌<◌, IfOk, Some, length, map, slice_get};
ghost use Rattle.rng_model.specs.names.NameViews.{name_of};
ghost use Rattle.rng_names.specs.views.GrammarClasses.{seen_class};
ghost use Rattle.rng_names.specs.plain.Keys.{key_of, name_at};
ghost use Rattle.rng_names.specs.views.KeyTables.{AreMade, AreTables, ServesAll, keys_in};

use crate::grammar_classes::longest_among;
use crate::names_by_region::NamesByRegion;
use crate::places::Places;
use crate::shared_keys::SharedKeys;
use crate::texts::copied;
use crate::written::fresh_text;
use crate::written_names::WrittenNames;
use rng_model::{Name, NameClass, OutOfMemory};
use std::alloc::Global;

/// A place for each name, and a key for each place.
#[derive(Drop)]
pub(crate) struct Tables {
    pub(crate) places: Places,
    pub(crate) shared: SharedKeys,
}

impl Tables {
    /// Makes the tables for the classes of elements and of attributes.
    pub(crate) fn of_classes(
        alloc: Global,
        elements: &[Option<&NameClass>],
        attributes: &[Option<&NameClass>],
    ) -> Result<Self, OutOfMemory>
        ensures keys { IfOk result AreTables }
        ensures elements { IfOk result (λ all. ServesAll (keys_in all) (map seen_class elements.now)) }
        ensures attributes { IfOk result (λ all. ServesAll (keys_in all) (map seen_class attributes.now)) }
    {
        let bytes = longest_among(elements).max(longest_among(attributes));
        let text = fresh_text(alloc, bytes)?;
        let fresh = copied(alloc, text.as_str(), text.as_str())?;
        let mut written = WrittenNames::new(alloc, fresh)?;
        written.add_classes(alloc, elements)?;
        written.add_classes(alloc, attributes)?;
        Tables::of_written(alloc, written)
    }

    /// Makes the tables of what is written.
    fn of_written(alloc: Global, written: WrittenNames) -> Result<Self, OutOfMemory>
        ensures { IfOk result (AreMade written) }
    {
        let WrittenNames { names, longest } = written;
        let NamesByRegion { names, regions, .. } = names;
        let places = Places::of_written(alloc, names, &longest)?;
        let shared = SharedKeys::of(alloc, &places.names, regions.as_slice())?;
        Ok(Tables { places, shared })
    }

    /// Returns the key of a name. Allocates nothing. The cost is at most two look-ups by hashing.
    pub(crate) fn key(&self, name: &Name) -> usize
        requires { AreTables self.now }
        ensures key { result ≡ key_of (keys_in self.now) (name_of name.now) }
        ensures inside { result < length self.now.shared.leaders.items }
    {
        self.shared.keys[self.places.place(name)]
    }

    /// Returns the name that represents a key. Allocates nothing.
    pub(crate) fn name(&self, key: usize) -> &Name
        requires tables { AreTables self.now }
        requires key { key < length self.now.shared.leaders.items }
        ensures name { name_of result.now ≡ name_at (keys_in self.now) key }
        ensures own { key_of (keys_in self.now) (name_of result.now) ≡ key }
    {
        &self.places.names.as_slice()[self.leader(key)]
    }

    /// Returns the place of the name that represents a key. Allocates nothing.
    fn leader(&self, key: usize) -> usize
        requires tables { AreTables self.now }
        requires key { key < length self.now.shared.leaders.items }
        ensures at { slice_get self.now.shared.leaders.items key ≡ Some result }
        ensures inside { result < length self.now.places.names.keys }
    {
        self.shared.leaders[key]
    }
}
