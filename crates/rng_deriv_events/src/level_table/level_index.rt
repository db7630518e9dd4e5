// Where levels and steps may be found.
ghost use Rattle.std.specs.Prelude.{◌≡◌, ◌<◌, ◌⊎◌, ℕ, OnOk, length};
ghost use Rattle.rng_deriv_events.specs.declared.level_table.level.LevelNumber.{LevelNumber};
ghost use Rattle.rng_deriv_events.specs.views.LevelTable.{IsKnownAt};

use crate::level_table::level::LevelNumber;
use crate::level_table::step::StepNumber;
use rng_deriv_table::PatternNumber;
use rng_model::OutOfMemory;
use rng_names::NameKey;
use smallvec::SmallVec;
use std::alloc::Global;
use std::collections::HashMap;
use std::marker::Model;

/// The number of steps of a level that are looked through one by one.
const MOST_NEAR: usize = 4;

/// The first steps of a level.
type Near = SmallVec<StepNumber, 4>;

/// What a step is found by.
#[derive(Clone, Copy, PartialEq, Eq, Hash)]
struct StepKey {
    from: LevelNumber,
    name: NameKey,
}

/// Where levels and steps may be found. It promises nothing, since the table looks at what is found, so contracts see
/// nothing of it.
#[derive(Drop)]
pub struct LevelIndex {
    /// For each pattern, the level of it alone.
    alone: Vec<Option<LevelNumber>>,
    /// The levels of no alternative, or of more than one.
    lists: HashMap<Vec<PatternNumber>, LevelNumber>,
    /// For each level, its first steps.
    near: Vec<Near>,
    /// The other steps.
    by_key: HashMap<StepKey, StepNumber>,
}

impl Model for LevelIndex {
    ghost use Rattle.std.specs.Prelude.{ℕ};

    ghost Value = { ℕ };

    ghost view = { λ i. 0 };
}

/// Says that this level is known for the one with this number.
pub fn put_known(
    known: &mut Vec<Option<LevelNumber>>,
    number: usize,
    level: LevelNumber,
) -> Result<(), OutOfMemory>
    ensures { OnOk result ((n : ℕ) (m : LevelNumber) → IsKnownAt known.new.items n m
        → IsKnownAt known.old.items n m ⊎ ((n ≡ number) × (m ≡ level))) }
{
    'places: while known.as_slice().len() <= number {
        known.push(None)?;
    }
    known[number] = Some(level);
    Ok(())
}

/// Makes sure that there is a place for the level with this number.
fn make_place(alloc: Global, near: &mut Vec<Near>, number: usize) -> Result<(), OutOfMemory>
    ensures { OnOk result (number < length near.new.items) }
{
    'places: while near.as_slice().len() <= number {
        near.push(SmallVec::new(alloc))?;
    }
    Ok(())
}

impl LevelIndex {
    /// Creates an index of nothing. Allocates nothing.
    pub fn new(alloc: Global) -> Self {
        LevelIndex {
            alone: Vec::new(alloc),
            lists: HashMap::new(alloc),
            near: Vec::new(alloc),
            by_key: HashMap::new(alloc),
        }
    }

    /// Returns what may be the level of these alternatives.
    #[inline(always)]
    pub fn find(&self, numbers: &[PatternNumber]) -> Option<LevelNumber> {
        match numbers {
            [number] => *self.alone.as_slice().get(number.0)?,
            _ => self.lists.get(numbers).copied(),
        }
    }

    /// Says where the level of these alternatives is.
    pub fn put(
        &mut self,
        alloc: Global,
        numbers: &[PatternNumber],
        level: LevelNumber,
    ) -> Result<(), OutOfMemory> {
        if let [number] = numbers {
            return put_known(&mut self.alone, number.0, level);
        }
        let mut list = Vec::new(alloc);
        list.extend_from_slice(numbers)?;
        self.lists.insert(list, level)?;
        Ok(())
    }

    /// Returns what may be the first steps of the level.
    #[inline(always)]
    pub fn near(&self, level: LevelNumber) -> &[StepNumber] {
        match self.near.as_slice().get(level.0) {
            Some(near) => near.as_slice(),
            None => &[],
        }
    }

    /// Returns what may be the step of the level for names of the key, if it is not among the first.
    pub fn step(&self, from: LevelNumber, name: NameKey) -> Option<StepNumber> {
        self.by_key.get(&StepKey { from, name }).copied()
    }

    /// Says where the step of the level for names of the key is.
    pub fn put_step(
        &mut self,
        alloc: Global,
        from: LevelNumber,
        name: NameKey,
        step: StepNumber,
    ) -> Result<(), OutOfMemory> {
        make_place(alloc, &mut self.near, from.0)?;
        let near = &mut self.near[from.0];
        if near.len() < MOST_NEAR {
            near.push(step)?;
            return Ok(());
        }
        self.by_key.insert(StepKey { from, name }, step)?;
        Ok(())
    }
}
