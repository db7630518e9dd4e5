// What a matcher keeps of the open elements, at each start tag.
ghost use Rattle.std.specs.Prelude.{OnOk, map};
ghost use Rattle.rng_model.specs.documents.EventViews.{attribute_of};
ghost use Rattle.rng_model.specs.names.NameViews.{name_of};
ghost use Rattle.rng_deriv_laws.specs.plain.LevelStates.{StartsLevel};
ghost use Rattle.rng_deriv_events.specs.views.Basis.{HoldsBy, Keeps, reading_by};
ghost use Rattle.rng_deriv_events.specs.views.KeptLevels.{Grows};
ghost use Rattle.rng_deriv_events.specs.views.LevelTable.{levels_in};
ghost use Rattle.rng_deriv_events.specs.views.OpenPositions.{IsStateKept, open_state};
ghost use Rattle.rng_deriv_events.specs.views.States.{AddsState, state_of};

use crate::derivatives::Derivatives;
use crate::level_table::{LevelNumber, LevelTable, Links, StepNumber};
use crate::numbering::level_in_tag;
use crate::steps::step_for;
use rng_model::{Attr, Name, OutOfMemory};
use std::alloc::Global;

/// An open element: the number of alternatives around it, and the ways out into them.
#[derive(Drop)]
pub struct WaysOut {
    pub around: usize,
    pub links: Links,
}

/// The alternatives for what remains of the innermost open element, and the ways out of all open elements, by numbers
/// of a table.
#[derive(Drop)]
pub struct State {
    pub table: LevelTable,
    /// The level of the innermost open element.
    pub now: LevelNumber,
    /// The elements that were open when the table was made, the innermost last.
    pub carried: Vec<WaysOut>,
    /// The steps to the elements that were opened since then, the innermost last.
    pub steps: Vec<StepNumber>,
}

/// Takes a start tag.
pub fn enter<D: Derivatives>(
    derivatives: &mut D,
    alloc: Global,
    state: &mut State,
    name: &Name,
    attrs: &[Attr],
) -> Result<(), OutOfMemory>
    requires { HoldsBy IsStateKept (D.basis derivatives.old) (D.trees derivatives.old) state.old }
    ensures keeps { OnOk result (Keeps IsStateKept (D.basis derivatives.old) (D.basis derivatives.new) (D.trees derivatives.new) state.new) }
    ensures state { OnOk result (AddsState (StartsLevel (reading_by (D.basis derivatives.old)) (name_of name.now) (map attribute_of attrs.now)
        (state_of (D.trees derivatives.old) (open_state state.old))) (D.trees derivatives.old) (D.trees derivatives.new) (open_state state.new)) }
    ensures levels { OnOk result (Grows (levels_in state.old.table) (levels_in state.new.table)) }
{
    let step = step_for(derivatives, alloc, &mut state.table, state.now, name)?;
    let child = state.table.step(step).child;
    state.now = level_in_tag(derivatives, alloc, &mut state.table, child, attrs)?;
    state.steps.push(step)?;
    Ok(())
}
