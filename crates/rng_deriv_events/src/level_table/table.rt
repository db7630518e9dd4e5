// Levels by number, and what is known of them.
ghost use Rattle.std.specs.Prelude.{◌≡◌, ◌<◌, ◌⊎◌, ◌++◌, ◌∷◌, [], ℕ, Contains, IfOk, IfSome, OnOk, Some, length, slice_get, true};
ghost use Rattle.std.specs.Option.{option_copied};
ghost use Rattle.rng_deriv_events.specs.declared.level_table.level.LevelNumber.{LevelNumber};
ghost use Rattle.rng_deriv_events.specs.declared.level_table.step.End.{End};
ghost use Rattle.rng_deriv_events.specs.views.LevelTable.{IsEndAt, IsKnownAt, IsStepOf, KeepsKnown, KeepsLists, tests_in};
ghost use Rattle.rng_deriv_events.specs.views.LevelTable.{sampled_in, closed_in, ends_in, levels_in, numbers_in, steps_in};

use crate::level_table::level::{Level, LevelNumber};
use crate::level_table::level_index::{LevelIndex, put_known};
use crate::level_table::step::{End, Step, StepNumber};
use rng_deriv_table::PatternNumber;
use rng_model::OutOfMemory;
use rng_names::NameKey;
use smallvec::SmallVec;
use std::alloc::Global;

/// The greatest number of ends that are kept of a step.
const MOST_ENDS: usize = 16;

/// The number of things that may be kept, beyond twice what is held, before a table should be replaced.
const ROOM: usize = 16_384;

/// The ends of a step: one for nearly all steps.
type Ends = SmallVec<End, 1>;

/// Levels by number, each once, the steps from them to others, and what is known of them.
///
/// RELAX NG Specification, section 6.2. Numbers stay valid as long as the table. A look-up costs a few comparisons for
/// a level of one alternative, and for a step that is among the first of its level, otherwise one look-up by hashing.
#[derive(Drop)]
pub struct LevelTable {
    levels: Vec<Level>,
    steps: Vec<Step>,
    /// For each level, that behind a tag without attributes, once it is known.
    closed: Vec<Option<LevelNumber>>,
    /// For each level, that after its sample string, once it is known.
    sampled: Vec<Option<LevelNumber>>,
    /// For each step, the ends that are known.
    ends: Vec<Ends>,
    index: LevelIndex,
    /// The number of alternatives, ways out, steps and ends that are kept.
    kept: usize,
    /// The number of things that may be kept.
    limit: usize,
}

/// Returns the item at a place.
#[inline(always)]
fn found_at<T>(items: &[T], place: usize) -> Option<&T>
    ensures { option_copied result ≡ slice_get items.now place }
{
    items.get(place)
}

/// Returns whether the lists are the same.
#[inline(always)]
fn is_same(first: &[PatternNumber], second: &[PatternNumber]) -> bool
    ensures { result ≡ true → first.now ≡ second.now }
{
    first == second
}

/// Returns whether these are the alternatives of the level with this number.
#[inline(always)]
fn is_level(levels: &[Level], number: LevelNumber, numbers: &[PatternNumber]) -> bool
    ensures { result ≡ true → (number.0 < length levels.now) × (numbers_in levels.now number.0 ≡ numbers.now) }
{
    match found_at(levels, number.0) {
        Some(level) => is_same(level.numbers.as_slice(), numbers),
        None => false,
    }
}

/// Returns whether this is the number of the step from the level for names of the key.
#[inline(always)]
fn is_step(steps: &[Step], from: LevelNumber, key: NameKey, number: StepNumber) -> bool
    ensures { result ≡ true → IsStepOf steps.now from.0 key.0 number.0 }
{
    match found_at(steps, number.0) {
        Some(step) if step.from.0 == from.0 && step.key.0 == key.0 => true,
        _ => false,
    }
}

/// Returns the level outside of the end with these alternatives.
#[inline(always)]
fn outside_by(ends: &[End], good: u64) -> Option<LevelNumber>
    ensures { IfSome result (λ m. Contains ends.now (record { good = good; outside = m })) }
{
    'ends: for end in ends {
        if end.good == good {
            return Some(end.outside);
        }
    }
    None
}

/// Makes sure that there is a place for the ends of the step with this number.
fn make_place(alloc: Global, ends: &mut Vec<Ends>, number: usize) -> Result<(), OutOfMemory>
    ensures place { OnOk result (number < length ends.new.items) }
    ensures ends { OnOk result ((n : ℕ) (e : End) → IsEndAt ends.new.items n e → IsEndAt ends.old.items n e) }
{
    'places: while ends.as_slice().len() <= number {
        ends.push(SmallVec::new(alloc))?;
    }
    Ok(())
}

/// Says that this end is known for the step with this number, unless `MOST_ENDS` are known.
fn put_end(alloc: Global, ends: &mut Vec<Ends>, number: usize, end: End) -> Result<(), OutOfMemory>
    ensures { OnOk result ((n : ℕ) (e : End) → IsEndAt ends.new.items n e → IsEndAt ends.old.items n e ⊎ ((n ≡ number) × (e ≡ end))) }
{
    make_place(alloc, ends, number)?;
    let known = &mut ends[number];
    if known.len() >= MOST_ENDS {
        return Ok(());
    }
    known.push(end)?;
    Ok(())
}

impl LevelTable {
    /// Creates a table of no level, for a matcher that holds this many patterns. Allocates nothing.
    pub fn new(alloc: Global, held: usize) -> Self
        ensures levels { levels_in result ≡ [] }
        ensures steps { steps_in result ≡ [] }
        ensures closed { closed_in result ≡ [] }
        ensures sampled { sampled_in result ≡ [] }
        ensures ends { ends_in result ≡ [] }
    {
        LevelTable {
            levels: Vec::new(alloc),
            steps: Vec::new(alloc),
            closed: Vec::new(alloc),
            sampled: Vec::new(alloc),
            ends: Vec::new(alloc),
            index: LevelIndex::new(alloc),
            kept: 0,
            limit: held.saturating_add(held).saturating_add(ROOM),
        }
    }

    /// Returns whether so much is kept that the table should be replaced by a new one. Allocates nothing.
    #[inline(always)]
    pub fn is_crowded(&self) -> bool {
        self.kept >= self.limit
    }

    // ---- levels

    /// Returns the level with this number.
    #[inline(always)]
    pub fn level(&self, number: LevelNumber) -> &Level
        requires { number.0 < length (levels_in self.now) }
        ensures { slice_get (levels_in self.now) number.0 ≡ Some result.now }
    {
        &self.levels[number.0]
    }

    /// Returns the alternatives of the level with this number.
    #[inline(always)]
    pub fn numbers(&self, number: LevelNumber) -> &[PatternNumber]
        requires { number.0 < length (levels_in self.now) }
        ensures { result.now ≡ numbers_in (levels_in self.now) number.0 }
    {
        self.level(number).numbers.as_slice()
    }

    /// Returns the alternatives of the level with this number, or none if there is no such level.
    pub fn numbers_at(&self, number: LevelNumber) -> &[PatternNumber]
        ensures { result.now ≡ numbers_in (levels_in self.now) number.0 }
    {
        match found_at(self.levels.as_slice(), number.0) {
            Some(level) => level.numbers.as_slice(),
            None => &[],
        }
    }

    /// Returns whether an alternative of the level with this number tests what a string says. True if there is no such
    /// level.
    pub fn tests_strings_at(&self, number: LevelNumber) -> bool
        ensures { result ≡ tests_in (levels_in self.now) number.0 }
    {
        match found_at(self.levels.as_slice(), number.0) {
            Some(level) => level.tests_strings,
            None => true,
        }
    }

    /// Returns the number of the level of these alternatives, if there is one.
    #[inline(always)]
    pub fn find(&self, numbers: &[PatternNumber]) -> Option<LevelNumber>
        ensures { IfSome result (λ n. (n.0 < length (levels_in self.now)) × (numbers_in (levels_in self.now) n.0 ≡ numbers.now)) }
    {
        let number = self.index.find(numbers)?;
        if is_level(self.levels.as_slice(), number, numbers) {
            return Some(number);
        }
        None
    }

    /// Adds a level that is not there, and returns its number. Fails only when out of memory.
    pub fn add(&mut self, alloc: Global, level: Level) -> Result<LevelNumber, OutOfMemory>
        ensures number { IfOk result (λ n. n.0 ≡ length (levels_in self.old)) }
        ensures levels { OnOk result (levels_in self.new ≡ levels_in self.old ++ level ∷ []) }
        ensures steps { OnOk result (steps_in self.new ≡ steps_in self.old) }
        ensures known { OnOk result (KeepsKnown self.old self.new) }
    {
        let number = LevelNumber(self.levels.as_slice().len());
        self.index.put(alloc, level.numbers.as_slice(), number)?;
        self.kept = self
            .kept
            .saturating_add(level.numbers.len())
            .saturating_add(1);
        self.levels.push(level)?;
        Ok(number)
    }

    /// Returns the level behind a tag without attributes in which this level begins, if it is known.
    #[inline(always)]
    pub fn closed(&self, level: LevelNumber) -> Option<LevelNumber>
        ensures { IfSome result (IsKnownAt (closed_in self.now) level.0) }
    {
        *found_at(self.closed.as_slice(), level.0)?
    }

    /// Says which level is behind a tag without attributes in which this level begins. Fails only when out of memory.
    pub fn keep_closed(
        &mut self,
        level: LevelNumber,
        closed: LevelNumber,
    ) -> Result<(), OutOfMemory>
        ensures lists { OnOk result (KeepsLists self.old self.new) }
        ensures closed { OnOk result ((n : ℕ) (m : LevelNumber) → IsKnownAt (closed_in self.new) n m
            → IsKnownAt (closed_in self.old) n m ⊎ ((n ≡ level.0) × (m ≡ closed))) }
        ensures sampled { OnOk result (sampled_in self.new ≡ sampled_in self.old) }
        ensures ends { OnOk result (ends_in self.new ≡ ends_in self.old) }
    {
        self.kept = self.kept.saturating_add(1);
        put_known(&mut self.closed, level.0, closed)
    }

    /// Returns the level after the sample string of this level, if it is known.
    #[inline(always)]
    pub fn sampled(&self, level: LevelNumber) -> Option<LevelNumber>
        ensures { IfSome result (IsKnownAt (sampled_in self.now) level.0) }
    {
        *found_at(self.sampled.as_slice(), level.0)?
    }

    /// Says which level is after the sample string of this level. Fails only when out of memory.
    pub fn keep_sampled(
        &mut self,
        level: LevelNumber,
        after: LevelNumber,
    ) -> Result<(), OutOfMemory>
        ensures lists { OnOk result (KeepsLists self.old self.new) }
        ensures closed { OnOk result (closed_in self.new ≡ closed_in self.old) }
        ensures sampled { OnOk result ((n : ℕ) (m : LevelNumber) → IsKnownAt (sampled_in self.new) n m
            → IsKnownAt (sampled_in self.old) n m ⊎ ((n ≡ level.0) × (m ≡ after))) }
        ensures ends { OnOk result (ends_in self.new ≡ ends_in self.old) }
    {
        self.kept = self.kept.saturating_add(1);
        put_known(&mut self.sampled, level.0, after)
    }

    // ---- steps

    /// Returns the step with this number.
    #[inline(always)]
    pub fn step(&self, number: StepNumber) -> &Step
        requires { number.0 < length (steps_in self.now) }
        ensures { slice_get (steps_in self.now) number.0 ≡ Some result.now }
    {
        &self.steps[number.0]
    }

    /// Returns the step with this number, if there is one.
    #[inline(always)]
    pub fn step_at(&self, number: StepNumber) -> Option<&Step>
        ensures { option_copied result ≡ slice_get (steps_in self.now) number.0 }
    {
        found_at(self.steps.as_slice(), number.0)
    }

    /// Returns what may be the numbers of the first steps of the level.
    #[inline(always)]
    pub fn near(&self, level: LevelNumber) -> &[StepNumber] {
        self.index.near(level)
    }

    /// Returns the number of the step from the level for names of the key, if there is one.
    pub fn find_step(&self, from: LevelNumber, key: NameKey) -> Option<StepNumber>
        ensures { IfSome result (λ n. IsStepOf (steps_in self.now) from.0 key.0 n.0) }
    {
        'near: for number in self.index.near(from) {
            if is_step(self.steps.as_slice(), from, key, *number) {
                return Some(*number);
            }
        }
        let number = self.index.step(from, key)?;
        if is_step(self.steps.as_slice(), from, key, number) {
            return Some(number);
        }
        None
    }

    /// Adds a step that is not there, and returns its number. Fails only when out of memory.
    pub fn add_step(&mut self, alloc: Global, step: Step) -> Result<StepNumber, OutOfMemory>
        ensures number { IfOk result (λ n. n.0 ≡ length (steps_in self.old)) }
        ensures levels { OnOk result (levels_in self.new ≡ levels_in self.old) }
        ensures steps { OnOk result (steps_in self.new ≡ steps_in self.old ++ step ∷ []) }
        ensures known { OnOk result (KeepsKnown self.old self.new) }
    {
        let number = StepNumber(self.steps.as_slice().len());
        self.index.put_step(alloc, step.from, step.key, number)?;
        self.kept = self.kept.saturating_add(step.links.len()).saturating_add(1);
        self.steps.push(step)?;
        Ok(number)
    }

    /// Returns the level outside of the step after an end with these good alternatives, if it is known.
    #[inline(always)]
    pub fn end(&self, step: StepNumber, good: u64) -> Option<LevelNumber>
        ensures { IfSome result (λ m. IsEndAt (ends_in self.now) step.0 (record { good = good; outside = m })) }
    {
        let ends = found_at(self.ends.as_slice(), step.0)?;
        outside_by(ends.as_slice(), good)
    }

    /// Says which level is outside of the step after an end. Keeps it unless 16 ends of the step are kept. Fails only
    /// when out of memory.
    pub fn keep_end(&mut self, alloc: Global, step: StepNumber, end: End) -> Result<(), OutOfMemory>
        ensures lists { OnOk result (KeepsLists self.old self.new) }
        ensures closed { OnOk result (closed_in self.new ≡ closed_in self.old) }
        ensures sampled { OnOk result (sampled_in self.new ≡ sampled_in self.old) }
        ensures ends { OnOk result ((n : ℕ) (e : End) → IsEndAt (ends_in self.new) n e
            → IsEndAt (ends_in self.old) n e ⊎ ((n ≡ step.0) × (e ≡ end))) }
    {
        self.kept = self.kept.saturating_add(1);
        put_end(alloc, &mut self.ends, step.0, end)
    }
}
