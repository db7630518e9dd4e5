// Keys that names share.
ghost use Rattle.std.specs.Prelude.{◌≡◌, IfOk, IfSome, OnOk, map, slice_index_or};
ghost use Rattle.rng_model.specs.names.NameViews.{name_of, namespace_bytes};
ghost use Rattle.rng_names.specs.plain.SharedKeys.{AddsPlace, AreLed, AreShared, IsKeyIn, following, leading, sharing_in};

use crate::texts::{note, number_of};
use indexmap::{IndexMap, IndexSet};
use rng_model::{Name, Namespace, OutOfMemory};
use std::alloc::Global;

/// The keys of names that have places. Names of one namespace that are written once, and in one region, share a key.
#[derive(Drop)]
pub(crate) struct SharedKeys {
    /// The key of the name at each place.
    pub(crate) keys: Vec<usize>,
    /// For each key the place of the name that represents it.
    pub(crate) leaders: Vec<usize>,
}

impl SharedKeys {
    /// Makes the keys of these names. `regions` has the only region of each of the first ones, or 0.
    ///
    /// Linear, apart from hashing: at most two look-ups for each name.
    pub(crate) fn of(
        alloc: Global,
        names: &IndexSet<Name>,
        regions: &[usize],
    ) -> Result<Self, OutOfMemory>
        ensures shared { IfOk result (AreShared (map name_of names.now.keys)) }
        ensures led { IfOk result (AreLed (map name_of names.now.keys) regions.now) }
    {
        let mut all = Sharing {
            regions,
            newest: IndexMap::new(alloc),
            keys: Vec::new(alloc),
            leaders: Vec::new(alloc),
        };
        'names: for name in names.as_slice() {
            all.add(name)?;
        }
        let Sharing { keys, leaders, .. } = all;
        Ok(SharedKeys { keys, leaders })
    }
}

/// Keys while they are made, place by place.
#[derive(Drop)]
struct Sharing<'a> {
    /// The only region of each of the first names, or 0. The others have none.
    regions: &'a [usize],
    /// For each namespace the place of the last of its names that has a region and represents a key.
    newest: IndexMap<Namespace, usize>,
    keys: Vec<usize>,
    leaders: Vec<usize>,
}

impl<'a> Sharing<'a> {
    /// Adds the name at the next place.
    fn add(&mut self, name: &Name) -> Result<(), OutOfMemory>
        ensures { OnOk result (AddsPlace (name_of name.now) (sharing_in self.old) (sharing_in self.new)) }
    {
        let place = self.keys.len();
        let region = region_at(self.regions, place);
        if region == 0 {
            return self.lead();
        }
        if let Some(key) = self.key_in(&name.ns, region) {
            return self.follow(key);
        }
        note(&mut self.newest, name.ns.share()?, place)?;
        self.lead()
    }

    /// Returns the key of the last representative in this namespace, if it is in this region.
    fn key_in(&self, ns: &Namespace, region: usize) -> Option<usize>
        ensures { IfSome result (IsKeyIn (sharing_in self.now) (namespace_bytes ns.now) region) }
    {
        let place = number_of(&self.newest, ns)?;
        if region_at(self.regions, place) != region {
            return None;
        }
        self.keys.get(place).copied()
    }

    /// Gives the name at the next place a key of its own.
    fn lead(&mut self) -> Result<(), OutOfMemory>
        ensures { OnOk result (sharing_in self.new ≡ leading (sharing_in self.old)) }
    {
        let key = self.leaders.len();
        self.leaders.push(self.keys.len())?;
        self.keys.push(key)?;
        Ok(())
    }

    /// Gives the name at the next place this key.
    fn follow(&mut self, key: usize) -> Result<(), OutOfMemory>
        ensures { OnOk result (sharing_in self.new ≡ following key (sharing_in self.old)) }
    {
        self.keys.push(key)?;
        Ok(())
    }
}

/// Returns the region of the name at a place, 0 if it has none.
fn region_at(regions: &[usize], place: usize) -> usize
    ensures { result ≡ slice_index_or regions.now place 0 }
{
    regions.get(place).copied().unwrap_or(0)
}
