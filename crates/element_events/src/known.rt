// Names that were told lately.
ghost use Rattle.std.specs.Prelude.{◌≡◌, ◌<◌, IfSome, OnSome, option_copied, slice_get, true};
ghost use Rattle.rng_model.specs.documents.Telling.{is_good_name};
ghost use Rattle.rng_model.specs.names.NameViews.{name_of};
ghost use Rattle.element_events.specs.views.Known.{IsAt, name_at};
ghost use Rattle.element_events.specs.views.Told.{name_told};

use crate::good_name::GoodName;
use crate::names::ExpandedName;
use rng_model::{Name, OutOfMemory};
use std::alloc::Global;
use std::mem::replace;

/// The most names that are kept, and the most bytes that each part of one may have.
const COUNT_LIMIT: usize = 255;

const SIZE_LIMIT: usize = 1_024;

const SLOT_COUNT: usize = 256;

/// Good names for reuse, so that a name that is told again is neither checked nor copied.
#[derive(Drop)]
pub struct KnownNames {
    /// For each slot, one more than the place of its name, or 0 if it has none.
    places: [u8; SLOT_COUNT],
    names: Vec<GoodName>,
}

/// Returns the slot of a name. It hangs on the sizes, and on the first, the middle and the last byte of the local name.
fn slot_of(name: ExpandedName<'_>) -> usize
    ensures { result < 256 }
{
    let local = name.local.as_bytes();
    let size = local.len();
    if size == 0 {
        return 0;
    }
    let ends = usize::from(local[0]) + 7 * usize::from(local[size - 1]);
    let middle = 31 * usize::from(local[size / 2]);
    (ends + middle + 5 * (size % 256) + name.namespace.len() % 256) % 256
}

/// Returns the name at a place.
fn get(names: &[GoodName], place: usize) -> Option<&GoodName>
    ensures { option_copied result ≡ slice_get names.now place }
{
    names.get(place)
}

/// Returns whether a name is short enough to be kept.
pub fn is_short(name: ExpandedName<'_>) -> bool {
    name.local.len() <= SIZE_LIMIT && name.namespace.len() <= SIZE_LIMIT
}

impl KnownNames {
    /// Creates a value without names. Allocates nothing.
    pub fn new(alloc: Global) -> Self {
        KnownNames {
            places: [0; SLOT_COUNT],
            names: Vec::new(alloc),
        }
    }

    /// Returns the place of a name, if it is kept. Then it is good.
    #[inline(always)]
    pub fn find(&self, name: ExpandedName<'_>) -> Option<usize>
        ensures place { IfSome result (IsAt (name_told name.entry) self.now.names.items) }
        ensures good { OnSome result (is_good_name (name_told name.entry) ≡ true) }
    {
        let place = usize::from(self.places[slot_of(name)]).checked_sub(1)?;
        let known = get(self.names.as_slice(), place)?;
        if known.is(name) { Some(place) } else { None }
    }

    /// Returns the name at a place, or the other name if there is none.
    pub fn name_or<'a>(&'a self, place: Option<usize>, other: &'a Name) -> &'a Name
        ensures { name_of result.now ≡ name_at place self.now.names.items other.now }
    {
        let Some(place) = place else {
            return other;
        };
        match get(self.names.as_slice(), place) {
            Some(known) => &known.name,
            None => other,
        }
    }

    /// Keeps a copy of a good name for reuse. Returns the name that it replaces, which was in its slot, if there is one.
    pub fn keep(&mut self, name: ExpandedName<'_>, copy: Name) -> Result<Option<Name>, OutOfMemory>
        requires { is_good_name (name_of copy) ≡ true }
    {
        let slot = slot_of(name);
        match usize::from(self.places[slot]).checked_sub(1) {
            Some(place) => Ok(self.replace(place, GoodName { name: copy })),
            None => self.add(slot, GoodName { name: copy }),
        }
    }

    /// Replaces the name at a place, and returns it.
    fn replace(&mut self, place: usize, name: GoodName) -> Option<Name> {
        let known = self.names.get_mut(place)?;
        let GoodName { name } = replace(known, name);
        Some(name)
    }

    /// Adds a name in a slot without one, if there are not too many.
    fn add(&mut self, slot: usize, name: GoodName) -> Result<Option<Name>, OutOfMemory>
        requires { slot < 256 }
    {
        let count = self.names.len();
        if count < COUNT_LIMIT {
            self.names.push(name)?;
            self.places[slot] = (count + 1) as u8;
        }
        Ok(None)
    }
}
