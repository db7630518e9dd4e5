// Freeing the patterns that a position does not hold.
ghost use Rattle.std.specs.Prelude.{◌≡◌, ◌++◌, ◌<◌, ◌≤◌, [], ℕ, All, List, OnOk, drop, length, map, take};
ghost use Rattle.std.specs.List.{AllZip};
ghost use Rattle.rng_model.specs.simple.Tree.{Simple};
ghost use Rattle.rng_deriv_events.specs.views.Basis.{HoldsBy, Keeps};
ghost use Rattle.rng_deriv_events.specs.views.LevelTable.{steps_in};
ghost use Rattle.rng_deriv_events.specs.declared.level_table.step.StepNumber.{StepNumber};
ghost use Rattle.rng_deriv_events.specs.views.LevelRenewal.{AreWaysRenewed, IsPositionRenewed, IsRenewed, IsStateRenewed, rests_in, rests_of, with_rests};
ghost use Rattle.rng_deriv_events.specs.views.OpenPositions.{IsPositionKept, IsStateKept, level_at, open_level, open_position, open_state};

use crate::derivatives::Derivatives;
use crate::level_table::{LevelTable, Link, StepNumber};
use crate::numbering::level_of;
use crate::position::Position;
use crate::state::{State, WaysOut};
use rng_deriv_table::PatternNumber;
use rng_model::OutOfMemory;
use smallvec::SmallVec;
use std::alloc::Global;

/// Adds what the ways out of an element leave.
fn add_rests(held: &mut Vec<PatternNumber>, links: &[Link]) -> Result<(), OutOfMemory>
    ensures { OnOk result (held.new.items ≡ held.old.items ++ rests_of links.now) }
{
    'links: for link in links {
        held.push(link.rest)?;
    }
    Ok(())
}

/// Adds what the ways out of all these elements leave.
fn add_levels(held: &mut Vec<PatternNumber>, levels: &[WaysOut]) -> Result<(), OutOfMemory>
    ensures { OnOk result (held.new.items ≡ held.old.items ++ rests_in levels.now) }
{
    'levels: for level in levels {
        add_rests(held, level.links.as_slice())?;
    }
    Ok(())
}

/// Replaces what the ways out of an element leave by the first of the numbers. Returns the other numbers.
fn put_rests<'a>(level: &mut WaysOut, numbers: &'a [PatternNumber]) -> &'a [PatternNumber]
    requires { length level.old.links.items ≤ length numbers.now }
    ensures around { level.new.around ≡ level.old.around }
    ensures links { level.new.links.items ≡ with_rests level.old.links.items (take (length level.old.links.items) numbers.now) }
    ensures behind { result.now ≡ drop (length level.old.links.items) numbers.now }
{
    let (rests, behind) = numbers.split_at(level.links.len());
    'rests: for (place, rest) in rests.iter().enumerate() {
        level.links[place].rest = *rest;
    }
    behind
}

/// Replaces what the ways out of all these elements leave by the numbers.
fn put_levels(levels: &mut Vec<WaysOut>, numbers: &[PatternNumber])
    requires { length (rests_in levels.old.items) ≤ length numbers.now }
    ensures { (old new : List (Simple ℕ)) → AllZip (IsRenewed old new) (rests_in levels.old.items) numbers.now
        → AllZip (AreWaysRenewed old new) levels.old.items levels.new.items }
{
    let mut behind = numbers;
    'levels: for level in levels.iter_mut() {
        behind = put_rests(level, behind);
    }
}

/// Adds the ways out of the steps to those that are stored, so that they outlast the table.
fn carry(
    alloc: Global,
    table: &LevelTable,
    steps: &[StepNumber],
    carried: &mut Vec<WaysOut>,
) -> Result<(), OutOfMemory>
    requires { All (λ (n : StepNumber). n.0 < length (steps_in table.now)) steps.now }
    ensures { OnOk result (map open_level carried.new.items ≡ map open_level carried.old.items ++ map (level_at (steps_in table.now)) steps.now) }
{
    'steps: for number in steps {
        let step = table.step(*number);
        let links = SmallVec::from_slice(alloc, step.links.as_slice())?;
        carried.push(WaysOut {
            around: step.around,
            links,
        })?;
    }
    Ok(())
}

/// Frees all patterns that the state does not hold, where no element was opened since the table was made. Begins a new
/// table.
fn renew_carried<D: Derivatives>(
    derivatives: &mut D,
    alloc: Global,
    state: &mut State,
) -> Result<(), OutOfMemory>
    requires kept { HoldsBy IsStateKept (D.basis derivatives.old) (D.trees derivatives.old) state.old }
    requires steps { state.old.steps.items ≡ [] }
    ensures keeps { OnOk result (Keeps IsStateKept (D.basis derivatives.old) (D.basis derivatives.new) (D.trees derivatives.new) state.new) }
    ensures renewed { OnOk result (IsStateRenewed (D.trees derivatives.old) (D.trees derivatives.new) (open_state state.old) (open_state state.new)) }
{
    let now = state.table.numbers(state.now);
    let count = now.len();
    let mut held = Vec::new(alloc);
    held.extend_from_slice(now)?;
    add_levels(&mut held, state.carried.as_slice())?;
    let numbers = derivatives.renew(alloc, held.as_slice())?;
    let (now, rests) = numbers.as_slice().split_at(count);
    put_levels(&mut state.carried, rests);
    let now = SmallVec::from_slice(alloc, now)?;
    state.table = LevelTable::new(alloc, held.as_slice().len());
    state.now = level_of(derivatives, alloc, &mut state.table, now)?;
    Ok(())
}

/// Frees all patterns that the state does not hold, and begins a new table.
fn renew_state<D: Derivatives>(
    derivatives: &mut D,
    alloc: Global,
    state: &mut State,
) -> Result<(), OutOfMemory>
    requires { HoldsBy IsStateKept (D.basis derivatives.old) (D.trees derivatives.old) state.old }
    ensures keeps { OnOk result (Keeps IsStateKept (D.basis derivatives.old) (D.basis derivatives.new) (D.trees derivatives.new) state.new) }
    ensures renewed { OnOk result (IsStateRenewed (D.trees derivatives.old) (D.trees derivatives.new) (open_state state.old) (open_state state.new)) }
{
    carry(
        alloc,
        &state.table,
        state.steps.as_slice(),
        &mut state.carried,
    )?;
    state.steps.clear();
    renew_carried(derivatives, alloc, state)
}

/// Frees all patterns that the position does not hold, and begins a new table, if there are too many patterns or too
/// much is kept of levels.
///
/// Does nothing while a string is held, since the next event settles that string. Costs what the position holds, and
/// its renewal.
pub fn renew<D: Derivatives>(
    derivatives: &mut D,
    alloc: Global,
    position: &mut Position,
) -> Result<(), OutOfMemory>
    requires { HoldsBy IsPositionKept (D.basis derivatives.old) (D.trees derivatives.old) position.old }
    ensures keeps { OnOk result (Keeps IsPositionKept (D.basis derivatives.old) (D.basis derivatives.new) (D.trees derivatives.new) position.new) }
    ensures renewed { OnOk result (IsPositionRenewed (D.trees derivatives.old) (D.trees derivatives.new) (open_position position.old)
        (open_position position.new)) }
    ensures mode { OnOk result (position.new.keeps_tag ≡ position.old.keeps_tag) }
{
    if position.held.is_some() {
        return Ok(());
    }
    if !derivatives.is_crowded() && !position.state.table.is_crowded() {
        return Ok(());
    }
    renew_state(derivatives, alloc, &mut position.state)
}
