// The places of names.
ghost use Rattle.std.specs.Prelude.{◌≡◌, IfOk, OnOk};
ghost use Rattle.rng_model.specs.names.NameViews.{name_of, namespace_bytes};
ghost use Rattle.rng_names.specs.plain.Keys.{place_of};
ghost use Rattle.rng_names.specs.views.KeyTables.{AddsOthers, IsTold, places_in};
ghost use Rattle.rng_names.specs.plain.WrittenNames.{written_as};

use crate::texts::{name_in, note, number_of, place_of, put};
use crate::written::fresh_text;
use indexmap::{IndexMap, IndexSet};
use rng_model::{Name, Namespace, OutOfMemory};
use std::alloc::Global;

/// Names, each with a place, and the place of a name that represents the other names of each namespace.
#[derive(Drop)]
pub(crate) struct Places {
    /// The first name represents all names that are not written, in namespaces that are not written.
    pub(crate) names: IndexSet<Name>,
    /// For each namespace that is written, the place of the name that represents its names that are not written.
    pub(crate) namespaces: IndexMap<Namespace, usize>,
}

impl Places {
    /// Makes the places of what is written. They are those of the names, and for each namespace that of one with a
    /// longer local name.
    pub(crate) fn of_written(
        alloc: Global,
        names: IndexSet<Name>,
        longest: &IndexMap<Namespace, usize>,
    ) -> Result<Self, OutOfMemory>
        ensures { IfOk result (λ all. IsTold (written_as names.keys longest.now.entries) (places_in all)) }
    {
        let mut all = Places {
            names,
            namespaces: IndexMap::new(alloc),
        };
        'namespaces: for ns in longest.keys().as_slice() {
            let bytes = number_of(longest, ns).unwrap_or(0);
            all.add_others(alloc, ns, bytes)?;
        }
        Ok(all)
    }

    /// Adds a name in this namespace with more bytes than these. It represents the names in it that are not written.
    fn add_others(&mut self, alloc: Global, ns: &Namespace, bytes: usize) -> Result<(), OutOfMemory>
        ensures { OnOk result (AddsOthers (places_in self.old) (places_in self.new) (namespace_bytes ns.now) bytes) }
    {
        let local = fresh_text(alloc, bytes)?;
        let name = name_in(ns, local)?;
        let place = put(&mut self.names, name)?;
        note(&mut self.namespaces, ns.share()?, place)
    }

    /// Returns the place of a name: its own, or that of the name that represents it. Allocates nothing. The cost is at
    /// most two look-ups by hashing.
    pub(crate) fn place(&self, name: &Name) -> usize
        ensures { result ≡ place_of (places_in self.now) (name_of name.now) }
    {
        if let Some(place) = place_of(&self.names, name) {
            return place;
        }
        number_of(&self.namespaces, &name.ns).unwrap_or(0)
    }
}
