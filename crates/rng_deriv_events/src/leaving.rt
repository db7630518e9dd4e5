// The level around an element after its end.
ghost use Rattle.std.specs.Prelude.{◌≡◌, ◌<◌, ℕ, List, All, Bool, IfOk, IfSome, OnOk, Some, length, slice_get, true};
ghost use Rattle.rng_model.specs.simple.Tree.{Simple};
ghost use Rattle.rng_deriv_laws.specs.plain.LevelStates.{EndsNow, EndsWith};
ghost use Rattle.rng_deriv_events.specs.views.Basis.{HoldsBy, Keeps, reading_by};
ghost use Rattle.rng_deriv_events.specs.plain.Bits.{bits_of};
ghost use Rattle.rng_deriv_events.specs.views.LevelTable.{IsEndAt, ends_in, levels_in, numbers_in, steps_in};
ghost use Rattle.rng_deriv_events.specs.declared.level_table.step.Step.{Step};
ghost use Rattle.rng_deriv_events.specs.views.KeptLevels.{AddsEndedLevel, AddsLevels, AddsOutside, AreKept, IsLevelKept, ends_by, nullable_in};
ghost use Rattle.rng_deriv_events.specs.views.Numbers.{Longer};
ghost use Rattle.rng_deriv_events.specs.views.OpenPositions.{IsHeldKept, held_string};
ghost use Rattle.rng_deriv_events.specs.views.Strings.{IsHeld};

use crate::derivatives::Derivatives;
use crate::ends::{ended, which_end, which_end_with};
use crate::held::Content;
use crate::level_table::{End, LevelNumber, LevelTable, StepNumber, bits_of};
use crate::numbering::level_of;
use rng_model::OutOfMemory;
use std::alloc::Global;

/// Returns the level around an element after its end, given its step and which alternatives inside may end.
fn left_anew<D: Derivatives>(
    derivatives: &mut D,
    alloc: Global,
    table: &mut LevelTable,
    step: StepNumber,
    good: &[bool],
) -> Result<LevelNumber, OutOfMemory>
    requires kept { HoldsBy AreKept (D.basis derivatives.old) (D.trees derivatives.old) table.old }
    requires step { step.0 < length (steps_in table.old) }
    ensures keeps { OnOk result (Keeps (AddsLevels table.old) (D.basis derivatives.old) (D.basis derivatives.new) (D.trees derivatives.new) table.new) }
    ensures ended { IfOk result (λ m. (s : Step) → slice_get (steps_in table.old) step.0 ≡ Some s
        → AddsEndedLevel (reading_by (D.basis derivatives.old)) good.now (D.trees derivatives.old) (D.trees derivatives.new) s table.new m) }
{
    let step = table.step(step);
    let numbers = ended(derivatives, alloc, good, step.links.as_slice(), step.around)?;
    let outside = level_of(derivatives, alloc, table, numbers)?;
    Ok(outside)
}

/// Returns the level around an element after its end, given its step and which alternatives inside may end. It is kept.
fn left_by<D: Derivatives>(
    derivatives: &mut D,
    alloc: Global,
    table: &mut LevelTable,
    step: StepNumber,
    good: &[bool],
) -> Result<LevelNumber, OutOfMemory>
    requires kept { HoldsBy AreKept (D.basis derivatives.old) (D.trees derivatives.old) table.old }
    requires step { step.0 < length (steps_in table.old) }
    ensures keeps { OnOk result (Keeps (AddsLevels table.old) (D.basis derivatives.old) (D.basis derivatives.new) (D.trees derivatives.new) table.new) }
    ensures ended { IfOk result (λ m. (s : Step) → slice_get (steps_in table.old) step.0 ≡ Some s
        → AddsEndedLevel (reading_by (D.basis derivatives.old)) good.now (D.trees derivatives.old) (D.trees derivatives.new) s table.new m) }
{
    let Some(bits) = bits_of(good) else {
        return left_anew(derivatives, alloc, table, step, good);
    };
    if let Some(outside) = table.end(step, bits) {
        return Ok(outside);
    }
    let outside = left_anew(derivatives, alloc, table, step, good)?;
    table.keep_end(
        alloc,
        step,
        End {
            good: bits,
            outside,
        },
    )?;
    Ok(outside)
}

/// Returns the level around an element after its end, if it is known for these good alternatives.
#[inline(always)]
fn known_end(table: &LevelTable, step: StepNumber, good: Option<u64>) -> Option<LevelNumber>
    ensures { IfSome result (λ m. (bits : ℕ) × (good ≡ Some bits) × IsEndAt (ends_in table.now) step.0 (record { good = bits; outside = m })) }
{
    table.end(step, good?)
}

/// Returns the level around an element after its end, given its step and the level inside. The element has a child
/// element.
pub fn left_after_elements<D: Derivatives>(
    derivatives: &mut D,
    alloc: Global,
    table: &mut LevelTable,
    step: StepNumber,
    now: LevelNumber,
) -> Result<LevelNumber, OutOfMemory>
    requires kept { HoldsBy AreKept (D.basis derivatives.old) (D.trees derivatives.old) table.old }
    requires step { step.0 < length (steps_in table.old) }
    requires now { now.0 < length (levels_in table.old) }
    ensures keeps { OnOk result (Keeps (AddsLevels table.old) (D.basis derivatives.old) (D.basis derivatives.new) (D.trees derivatives.new) table.new) }
    ensures outside { IfOk result (λ m. (s : Step) → slice_get (steps_in table.old) step.0 ≡ Some s
        → AddsOutside (reading_by (D.basis derivatives.old)) (EndsNow (reading_by (D.basis derivatives.old)))
        (D.trees derivatives.old) (D.trees derivatives.new) (numbers_in (levels_in table.old) now.0) s table.new m) }
{
    let good = table.level(now).good;
    if let Some(outside) = known_end(table, step, good) {
        return Ok(outside);
    }
    let good = which_end(derivatives, alloc, table.numbers(now))?;
    let outside = left_by(derivatives, alloc, table, step, good.as_slice())?;
    Ok(outside)
}

/// Returns the bits of the alternatives that may end an element with only a blank string, given those that are nullable
/// before and after it. `None` means that both matter.
#[inline(always)]
fn blank_bits(now: u64, after: u64) -> Option<u64>
    ensures { IfSome result (λ bits. (ns rs : List Bool) → length ns ≡ length rs → bits_of ns ≡ now → bits_of rs ≡ after
        → bits_of (ends_by true ns rs) ≡ bits) }
{
    if now == 0 {
        return Some(after);
    }
    if now == after {
        return Some(after);
    }
    if after == 0 {
        return Some(now);
    }
    None
}

/// Returns the bits of the alternatives that may end an element with only a string, given those that are nullable
/// before and after it. `None` means that both matter.
#[inline(always)]
fn either_bits(now: u64, after: u64, blank: bool) -> Option<u64>
    ensures { IfSome result (λ bits. (ns rs : List Bool) → length ns ≡ length rs → bits_of ns ≡ now → bits_of rs ≡ after
        → bits_of (ends_by blank ns rs) ≡ bits) }
{
    if blank {
        return blank_bits(now, after);
    }
    Some(after)
}

/// Returns the bits of the alternatives that may end an element with only a string, if what is known of levels shows
/// them.
#[inline(always)]
fn bits_with(table: &LevelTable, content: &Content) -> Option<u64>
    requires now { content.now.level.0 < length (levels_in table.now) }
    requires string { IsHeldKept table.now content.now.level (Some content.now.string) }
    ensures { IfSome result (λ bits. (trees : List (Simple ℕ)) → All (IsLevelKept trees) (levels_in table.now)
        → bits_of (ends_by content.now.string.blank (nullable_in trees (numbers_in (levels_in table.now) content.now.level.0))
        (nullable_in trees (numbers_in (levels_in table.now) content.now.string.after.0))) ≡ bits) }
{
    let after = table.level(content.string.after).good?;
    let now = table.level(content.level).good?;
    either_bits(now, after, content.string.blank)
}

/// Returns the level around an element after its end, given its step and its content, which has no child element.
pub fn left_after_string<D: Derivatives>(
    derivatives: &mut D,
    alloc: Global,
    table: &mut LevelTable,
    step: StepNumber,
    content: &Content,
) -> Result<LevelNumber, OutOfMemory>
    requires kept { HoldsBy AreKept (D.basis derivatives.old) (D.trees derivatives.old) table.old }
    requires step { step.0 < length (steps_in table.old) }
    requires now { content.now.level.0 < length (levels_in table.old) }
    requires string { IsHeldKept table.old content.now.level (Some content.now.string) }
    ensures keeps { OnOk result (Keeps (AddsLevels table.old) (D.basis derivatives.old) (D.basis derivatives.new) (D.trees derivatives.new) table.new) }
    ensures longer { OnOk result (Longer (D.trees derivatives.old) (D.trees derivatives.new)) }
    ensures there { IfOk result (λ m. m.0 < length (levels_in table.new)) }
    ensures outside { IfOk result (λ m. (s : Step) (t : List ℕ) → slice_get (steps_in table.old) step.0 ≡ Some s
        → IsHeld (reading_by (D.basis derivatives.old)) (D.trees derivatives.old) (numbers_in (levels_in table.old) content.now.level.0)
        (Some (held_string table.old content.now.string)) t
        → AddsOutside (reading_by (D.basis derivatives.old)) (EndsWith (reading_by (D.basis derivatives.old)) t)
        (D.trees derivatives.old) (D.trees derivatives.new) (numbers_in (levels_in table.old) content.now.level.0) s table.new m) }
{
    let good = bits_with(table, content);
    if let Some(outside) = known_end(table, step, good) {
        return Ok(outside);
    }
    let good = which_end_with(
        derivatives,
        alloc,
        table.numbers(content.level),
        table.numbers(content.string.after),
        content.string.blank,
    )?;
    let outside = left_by(derivatives, alloc, table, step, good.as_slice())?;
    Ok(outside)
}
