// The end of an element, by the content of the element.
ghost use Rattle.std.specs.Prelude.{◌≡◌, ℕ, List, [], OnOk, Some};
ghost use Rattle.rng_deriv_laws.specs.plain.LevelStates.{EndsNow, EndsWith};
ghost use Rattle.rng_deriv_events.specs.views.Basis.{HoldsBy, Keeps, reading_by};
ghost use Rattle.rng_deriv_events.specs.views.LevelTable.{levels_in, numbers_in};
ghost use Rattle.rng_deriv_events.specs.views.KeptLevels.{Grows};
ghost use Rattle.rng_deriv_events.specs.views.OpenPositions.{IsHeldKept, IsStateKept, held_string, open_state, open_string};
ghost use Rattle.rng_deriv_events.specs.views.States.{AddsState, EndsBy, EndsIf, state_of};
ghost use Rattle.rng_deriv_events.specs.views.Strings.{IsHeld};

use crate::derivatives::Derivatives;
use crate::ends::{ended, which_end, which_end_with};
use crate::held::{Content, Held, held_or_empty};
use crate::leaving::{left_after_elements, left_after_string};
use crate::numbering::level_of;
use crate::state::State;
use rng_model::OutOfMemory;
use smallvec::SmallVec;
use std::alloc::Global;

/// Takes the end of an element that was open when the table was made, if some of the alternatives inside may end. If no
/// element is open, no alternative is left.
fn close_carried<D: Derivatives>(
    derivatives: &mut D,
    alloc: Global,
    state: &mut State,
    good: &[bool],
) -> Result<(), OutOfMemory>
    requires kept { HoldsBy IsStateKept (D.basis derivatives.old) (D.trees derivatives.old) state.old }
    requires steps { state.old.steps.items ≡ [] }
    ensures keeps { OnOk result (Keeps IsStateKept (D.basis derivatives.old) (D.basis derivatives.new) (D.trees derivatives.new) state.new) }
    ensures levels { OnOk result (Grows (levels_in state.old.table) (levels_in state.new.table)) }
    ensures state { OnOk result (AddsState (EndsBy (reading_by (D.basis derivatives.old)) good.now (state_of (D.trees derivatives.old) (open_state state.old)))
        (D.trees derivatives.old) (D.trees derivatives.new) (open_state state.new)) }
{
    let Some(level) = state.carried.pop() else {
        state.now = level_of(derivatives, alloc, &mut state.table, SmallVec::new(alloc))?;
        return Ok(());
    };
    let outside = ended(
        derivatives,
        alloc,
        good,
        level.links.as_slice(),
        level.around,
    )?;
    state.now = level_of(derivatives, alloc, &mut state.table, outside)?;
    Ok(())
}

/// Takes the end of an element that has a child element and was open when the table was made.
fn after_carried_elements<D: Derivatives>(
    derivatives: &mut D,
    alloc: Global,
    state: &mut State,
) -> Result<(), OutOfMemory>
    requires kept { HoldsBy IsStateKept (D.basis derivatives.old) (D.trees derivatives.old) state.old }
    requires steps { state.old.steps.items ≡ [] }
    ensures keeps { OnOk result (Keeps IsStateKept (D.basis derivatives.old) (D.basis derivatives.new) (D.trees derivatives.new) state.new) }
    ensures levels { OnOk result (Grows (levels_in state.old.table) (levels_in state.new.table)) }
    ensures ended { OnOk result (AddsState (EndsIf (reading_by (D.basis derivatives.old)) (EndsNow (reading_by (D.basis derivatives.old)))
        (state_of (D.trees derivatives.old) (open_state state.old))) (D.trees derivatives.old) (D.trees derivatives.new) (open_state state.new)) }
{
    let good = which_end(derivatives, alloc, state.table.numbers(state.now))?;
    close_carried(derivatives, alloc, state, good.as_slice())
}

/// Takes the end of an element that has a child element.
pub fn after_elements<D: Derivatives>(
    derivatives: &mut D,
    alloc: Global,
    state: &mut State,
) -> Result<(), OutOfMemory>
    requires { HoldsBy IsStateKept (D.basis derivatives.old) (D.trees derivatives.old) state.old }
    ensures keeps { OnOk result (Keeps IsStateKept (D.basis derivatives.old) (D.basis derivatives.new) (D.trees derivatives.new) state.new) }
    ensures levels { OnOk result (Grows (levels_in state.old.table) (levels_in state.new.table)) }
    ensures ended { OnOk result (AddsState (EndsIf (reading_by (D.basis derivatives.old)) (EndsNow (reading_by (D.basis derivatives.old)))
        (state_of (D.trees derivatives.old) (open_state state.old))) (D.trees derivatives.old) (D.trees derivatives.new) (open_state state.new)) }
{
    let Some(step) = state.steps.pop() else {
        return after_carried_elements(derivatives, alloc, state);
    };
    state.now = left_after_elements(derivatives, alloc, &mut state.table, step, state.now)?;
    Ok(())
}

/// Takes the end of an element without a child element that was open when the table was made.
fn after_carried_string<D: Derivatives>(
    derivatives: &mut D,
    alloc: Global,
    state: &mut State,
    string: &Held,
) -> Result<(), OutOfMemory>
    requires kept { HoldsBy IsStateKept (D.basis derivatives.old) (D.trees derivatives.old) state.old }
    requires steps { state.old.steps.items ≡ [] }
    requires string { IsHeldKept state.old.table state.old.now (Some string.now) }
    ensures keeps { OnOk result (Keeps IsStateKept (D.basis derivatives.old) (D.basis derivatives.new) (D.trees derivatives.new) state.new) }
    ensures levels { OnOk result (Grows (levels_in state.old.table) (levels_in state.new.table)) }
    ensures ended { OnOk result (AddsState (λ n. (t : List ℕ) → IsHeld (reading_by (D.basis derivatives.old)) (D.trees derivatives.old)
        (numbers_in (levels_in state.old.table) state.old.now.0) (Some (held_string state.old.table string.now)) t
        → EndsIf (reading_by (D.basis derivatives.old)) (EndsWith (reading_by (D.basis derivatives.old)) t)
        (state_of (D.trees derivatives.old) (open_state state.old)) n)
        (D.trees derivatives.old) (D.trees derivatives.new) (open_state state.new)) }
{
    let good = which_end_with(
        derivatives,
        alloc,
        state.table.numbers(state.now),
        state.table.numbers(string.after),
        string.blank,
    )?;
    close_carried(derivatives, alloc, state, good.as_slice())
}

/// Takes the end of an element with this string and no child element.
fn after_string<D: Derivatives>(
    derivatives: &mut D,
    alloc: Global,
    state: &mut State,
    string: Held,
) -> Result<(), OutOfMemory>
    requires kept { HoldsBy IsStateKept (D.basis derivatives.old) (D.trees derivatives.old) state.old }
    requires string { IsHeldKept state.old.table state.old.now (Some string) }
    ensures keeps { OnOk result (Keeps IsStateKept (D.basis derivatives.old) (D.basis derivatives.new) (D.trees derivatives.new) state.new) }
    ensures levels { OnOk result (Grows (levels_in state.old.table) (levels_in state.new.table)) }
    ensures ended { OnOk result (AddsState (λ n. (t : List ℕ) → IsHeld (reading_by (D.basis derivatives.old)) (D.trees derivatives.old)
        (numbers_in (levels_in state.old.table) state.old.now.0) (Some (held_string state.old.table string)) t
        → EndsIf (reading_by (D.basis derivatives.old)) (EndsWith (reading_by (D.basis derivatives.old)) t)
        (state_of (D.trees derivatives.old) (open_state state.old)) n)
        (D.trees derivatives.old) (D.trees derivatives.new) (open_state state.new)) }
{
    let Some(step) = state.steps.pop() else {
        return after_carried_string(derivatives, alloc, state, &string);
    };
    let content = Content {
        level: state.now,
        string,
    };
    state.now = left_after_string(derivatives, alloc, &mut state.table, step, &content)?;
    Ok(())
}

/// Takes the end of an element without a child element: it has only a string, or nothing, which counts as an empty
/// string (RELAX NG Specification, section 6.2.7).
pub fn after_lone_string<D: Derivatives>(
    derivatives: &mut D,
    alloc: Global,
    state: &mut State,
    string: Option<Held>,
) -> Result<(), OutOfMemory>
    requires state { HoldsBy IsStateKept (D.basis derivatives.old) (D.trees derivatives.old) state.old }
    requires string { IsHeldKept state.old.table state.old.now string }
    ensures keeps { OnOk result (Keeps IsStateKept (D.basis derivatives.old) (D.basis derivatives.new) (D.trees derivatives.new) state.new) }
    ensures levels { OnOk result (Grows (levels_in state.old.table) (levels_in state.new.table)) }
    ensures ended { OnOk result (AddsState (λ n. (t : List ℕ) → IsHeld (reading_by (D.basis derivatives.old)) (D.trees derivatives.old)
        (numbers_in (levels_in state.old.table) state.old.now.0) (open_string state.old.table string) t
        → EndsIf (reading_by (D.basis derivatives.old)) (EndsWith (reading_by (D.basis derivatives.old)) t)
        (state_of (D.trees derivatives.old) (open_state state.old)) n)
        (D.trees derivatives.old) (D.trees derivatives.new) (open_state state.new)) }
{
    let held = held_or_empty(derivatives, alloc, &mut state.table, state.now, string)?;
    after_string(derivatives, alloc, state, held)
}
