// Steps from a level to the levels inside an element.
ghost use Rattle.std.specs.Prelude.{◌≡◌, ◌<◌, IfOk, IfSome, OnOk, length, true};
ghost use Rattle.rng_model.specs.names.NameViews.{name_of};
ghost use Rattle.rng_names.specs.plain.Keys.{key_of};
ghost use Rattle.rng_deriv_events.specs.views.Basis.{HoldsBy, Keeps};
ghost use Rattle.rng_deriv_events.specs.views.LevelTable.{IsStepOf, levels_in, steps_in};
ghost use Rattle.rng_deriv_events.specs.views.KeptLevels.{AddsLevels, AreKept};
ghost use Rattle.rng_deriv_events.specs.views.Numbers.{Longer};

use crate::derivatives::Derivatives;
use crate::level_table::{LevelNumber, LevelTable, Step, StepNumber};
use crate::links::{Opened, started};
use crate::numbering::level_of;
use rng_model::{Name, OutOfMemory};
use std::alloc::Global;

/// Returns whether this is the number of the step from the level for the name, as far as the name itself shows it.
fn is_step_for<D: Derivatives>(
    derivatives: &D,
    table: &LevelTable,
    from: LevelNumber,
    number: StepNumber,
    name: &Name,
) -> bool
    ensures { result ≡ true → IsStepOf (steps_in table.now) from.0 (key_of (D.basis derivatives.now).keys (name_of name.now)) number.0 }
{
    match table.step_at(number) {
        Some(step) if step.from.0 == from.0 => derivatives.is_key(step.key, name),
        _ => false,
    }
}

/// Returns the step from the level for the name, if it is one of the first and the name represents its key.
#[inline(always)]
fn near_step<D: Derivatives>(
    derivatives: &D,
    table: &LevelTable,
    from: LevelNumber,
    name: &Name,
) -> Option<StepNumber>
    ensures { IfSome result (λ n. IsStepOf (steps_in table.now) from.0 (key_of (D.basis derivatives.now).keys (name_of name.now)) n.0) }
{
    'near: for number in table.near(from) {
        if is_step_for(derivatives, table, from, *number, name) {
            return Some(*number);
        }
    }
    None
}

/// Adds the step from the level for the name.
fn add_step<D: Derivatives>(
    derivatives: &mut D,
    alloc: Global,
    table: &mut LevelTable,
    from: LevelNumber,
    name: &Name,
) -> Result<StepNumber, OutOfMemory>
    requires kept { HoldsBy AreKept (D.basis derivatives.old) (D.trees derivatives.old) table.old }
    requires from { from.0 < length (levels_in table.old) }
    ensures keeps { OnOk result (Keeps (AddsLevels table.old) (D.basis derivatives.old) (D.basis derivatives.new) (D.trees derivatives.new) table.new) }
    ensures longer { OnOk result (Longer (D.trees derivatives.old) (D.trees derivatives.new)) }
    ensures step { IfOk result (λ n. IsStepOf (steps_in table.new) from.0 (key_of (D.basis derivatives.old).keys (name_of name.now)) n.0) }
{
    let key = derivatives.key(name);
    let numbers = table.numbers(from);
    let around = numbers.len();
    let Opened { bodies, links } = started(derivatives, alloc, numbers, key)?;
    let child = level_of(derivatives, alloc, table, bodies)?;
    let step = table.add_step(
        alloc,
        Step {
            from,
            key,
            child,
            around,
            links,
        },
    )?;
    Ok(step)
}

/// Returns the step from the level for the name. Adds it if it is not there.
pub fn step_for<D: Derivatives>(
    derivatives: &mut D,
    alloc: Global,
    table: &mut LevelTable,
    from: LevelNumber,
    name: &Name,
) -> Result<StepNumber, OutOfMemory>
    requires kept { HoldsBy AreKept (D.basis derivatives.old) (D.trees derivatives.old) table.old }
    requires from { from.0 < length (levels_in table.old) }
    ensures keeps { OnOk result (Keeps (AddsLevels table.old) (D.basis derivatives.old) (D.basis derivatives.new) (D.trees derivatives.new) table.new) }
    ensures longer { OnOk result (Longer (D.trees derivatives.old) (D.trees derivatives.new)) }
    ensures step { IfOk result (λ n. IsStepOf (steps_in table.new) from.0 (key_of (D.basis derivatives.old).keys (name_of name.now)) n.0) }
{
    if let Some(step) = near_step(derivatives, table, from, name) {
        return Ok(step);
    }
    let key = derivatives.key(name);
    if let Some(step) = table.find_step(from, key) {
        return Ok(step);
    }
    add_step(derivatives, alloc, table, from, name)
}
