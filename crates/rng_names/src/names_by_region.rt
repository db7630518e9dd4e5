// Names, and the region of a class in which each is written.
ghost use Rattle.std.specs.Prelude.{◌≡◌, ℕ, IfOk, OnOk, Some, map, slice_get};
ghost use Rattle.rng_model.specs.names.Names as names;
ghost use Rattle.rng_model.specs.names.NameViews.{name_of};
ghost use Rattle.rng_names.specs.plain.Regions.{AddsPart, Begins, HasBegun, NotesRegion, Puts, sorted_in};

use crate::texts::put;
use indexmap::IndexSet;
use rng_model::{Name, NameClass, OutOfMemory};
use std::alloc::Global;

/// Names that are written in classes, region by region.
///
/// A region is a class of an element or of an attribute without its excepts. The class of each except is a region of its
/// own. Regions have numbers from 1.
#[derive(Drop)]
pub(crate) struct NamesByRegion {
    /// The names, after a first one that is given.
    pub(crate) names: IndexSet<Name>,
    /// For each name the only region in which it is written. 0 if it is written more than once, or in a class that is
    /// one name.
    pub(crate) regions: Vec<usize>,
    /// The number of the last region, 0 if there is none.
    last: usize,
}

impl NamesByRegion {
    /// Creates a value with the first name and without any region.
    pub(crate) fn new(alloc: Global, first: Name) -> Result<Self, OutOfMemory>
        ensures first { IfOk result (λ all. slice_get (map name_of all.names.keys) 0 ≡ Some (name_of first)) }
        ensures begun { IfOk result (λ all. HasBegun (sorted_in all) 0) }
    {
        let mut names = IndexSet::new(alloc);
        names.insert(first)?;
        let mut regions = Vec::new(alloc);
        regions.push(0)?;
        Ok(NamesByRegion {
            names,
            regions,
            last: 0,
        })
    }

    /// Begins the region of a class. Returns its number, or 0 if the class is one name. Fails only if no number is left.
    pub(crate) fn begin(&mut self, class: &NameClass) -> Result<usize, OutOfMemory>
        ensures { IfOk result (Begins (sorted_in self.old) (sorted_in self.new)) }
    {
        if let NameClass::Name(_) = class {
            return Ok(0);
        }
        let Some(region) = self.last.checked_add(1) else {
            return Err(OutOfMemory);
        };
        self.last = region;
        Ok(region)
    }

    /// Adds a name that is written in this region.
    pub(crate) fn add(&mut self, name: Name, region: usize) -> Result<(), OutOfMemory>
        ensures puts { OnOk result ((place : ℕ) × Puts (map name_of self.old.names.keys) (map name_of self.new.names.keys) (name_of name) place) }
        ensures adds { OnOk result (HasBegun (sorted_in self.old) region
            → AddsPart region (names.name_is (name_of name)) (sorted_in self.old) (sorted_in self.new)) }
    {
        let place = put(&mut self.names, name)?;
        note_region(&mut self.regions, place, region)
    }
}

/// Notes that the name at a place is written in this region. A name that has a region already has none from then on.
fn note_region(regions: &mut Vec<usize>, place: usize, region: usize) -> Result<(), OutOfMemory>
    ensures { OnOk result (NotesRegion regions.old.items regions.new.items place region) }
{
    if place < regions.len() {
        regions[place] = 0;
        return Ok(());
    }
    regions.push(region)?;
    Ok(())
}
