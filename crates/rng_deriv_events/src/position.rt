// What a matcher keeps between two events.
ghost use Rattle.std.specs.Prelude.{◌≡◌, ℕ, List, None, OnOk, false, map};
ghost use Rattle.rng_model.specs.documents.PyxTrees as trees;
ghost use Rattle.rng_model.specs.simple.Tree.{Simple};
ghost use Rattle.rng_model.specs.documents.EventViews.{attribute_of};
ghost use Rattle.rng_model.specs.names.NameViews.{name_of};
ghost use Rattle.rng_names.specs.plain.Keys.{Keys};
ghost use Rattle.rng_deriv_laws.specs.plain.LevelEvents.{LevelMatcher, SettlesLevels};
ghost use Rattle.rng_model.specs.matching.GrammarMatching.{Reading};
ghost use Rattle.rng_deriv_events.specs.views.Basis.{HoldsBy, Keeps, reading_by};
ghost use Rattle.rng_deriv_events.specs.views.KeptLevels.{Grows};
ghost use Rattle.rng_deriv_events.specs.views.Inputs.{IsTextOf, tests_at};
ghost use Rattle.rng_deriv_events.specs.views.LevelTable.{levels_in};
ghost use Rattle.rng_deriv_events.specs.views.Numbers.{Longer};
ghost use Rattle.rng_deriv_events.specs.views.Positions.{AddsStep, IsPositionOf};
ghost use Rattle.rng_deriv_events.specs.views.OpenPositions.{IsPositionKept, IsStateKept, open_position, open_state};
ghost use Rattle.rng_deriv_events.specs.views.States.{state_of};

use crate::closing::{after_elements, after_lone_string};
use crate::derivatives::Derivatives;
use crate::held::{Held, hold, hold_any};
use crate::state::{State, enter};
use rng_model::{Attr, Name, OutOfMemory};
use std::alloc::Global;

/// The position of a matcher in a document.
#[derive(Drop)]
pub struct Position {
    pub state: State,
    /// Whether the innermost open element has a child element already.
    pub has_begun: bool,
    pub held: Option<Held>,
    /// Whether a start tag after which nothing is left is to be kept, with its name, attributes and values.
    pub keeps_tag: bool,
}

/// Settles the held string, given that an element is beside it. A blank string counts as nothing there (RELAX NG
/// Specification, section 6.2.7).
fn settle(position: &mut Position)
    ensures kept { (g : Reading) (keys : Keys) (trees : List (Simple ℕ)) → IsPositionKept g keys trees position.old
        → IsStateKept g keys trees position.new.state }
    ensures settles { (g : Reading) (trees : List (Simple ℕ)) (m : LevelMatcher) → IsPositionOf g trees (open_position position.old) m
        → SettlesLevels g m.held m.state (state_of trees (open_state position.new.state)) }
    ensures begun { position.new.has_begun ≡ position.old.has_begun }
    ensures held { position.new.held ≡ None }
    ensures mode { position.new.keeps_tag ≡ position.old.keeps_tag }
    ensures table { position.new.state.table ≡ position.old.state.table }
{
    let Some(Held { blank, after }) = position.held.take() else {
        return;
    };
    if blank {
        return;
    }
    position.state.now = after;
}

/// Takes a start tag.
pub fn after_start<D: Derivatives>(
    derivatives: &mut D,
    alloc: Global,
    position: &mut Position,
    name: &Name,
    attrs: &[Attr],
) -> Result<(), OutOfMemory>
    requires { HoldsBy IsPositionKept (D.basis derivatives.old) (D.trees derivatives.old) position.old }
    ensures keeps { OnOk result (Keeps IsPositionKept (D.basis derivatives.old) (D.basis derivatives.new) (D.trees derivatives.new) position.new) }
    ensures step { OnOk result (AddsStep (reading_by (D.basis derivatives.old)) (trees.a_start (name_of name.now) (map attribute_of attrs.now))
        (D.trees derivatives.old) (D.trees derivatives.new) (open_position position.old) (open_position position.new)) }
    ensures levels { OnOk result (Grows (levels_in position.old.state.table) (levels_in position.new.state.table)) }
    ensures mode { OnOk result (position.new.keeps_tag ≡ position.old.keeps_tag) }
{
    settle(position);
    enter(derivatives, alloc, &mut position.state, name, attrs)?;
    position.has_begun = false;
    Ok(())
}

/// Takes a string.
pub fn after_text<D: Derivatives>(
    derivatives: &mut D,
    alloc: Global,
    position: &mut Position,
    text: &str,
) -> Result<(), OutOfMemory>
    requires { HoldsBy IsPositionKept (D.basis derivatives.old) (D.trees derivatives.old) position.old }
    ensures keeps { OnOk result (Keeps IsPositionKept (D.basis derivatives.old) (D.basis derivatives.new) (D.trees derivatives.new) position.new) }
    ensures step { OnOk result (AddsStep (reading_by (D.basis derivatives.old)) (trees.a_string text.now)
        (D.trees derivatives.old) (D.trees derivatives.new) (open_position position.old) (open_position position.new)) }
    ensures levels { OnOk result (Grows (levels_in position.old.state.table) (levels_in position.new.state.table)) }
    ensures mode { OnOk result (position.new.keeps_tag ≡ position.old.keeps_tag) }
{
    let now = position.state.now;
    let held = hold(derivatives, alloc, &mut position.state.table, now, text)?;
    position.held = Some(held);
    Ok(())
}

/// Takes a string of which only this is known: whether it is blank. No alternative tests what a string says.
pub fn after_any_text<D: Derivatives>(
    derivatives: &mut D,
    alloc: Global,
    position: &mut Position,
    blank: bool,
) -> Result<(), OutOfMemory>
    requires kept { HoldsBy IsPositionKept (D.basis derivatives.old) (D.trees derivatives.old) position.old }
    requires any { tests_at position.old ≡ false }
    ensures keeps { OnOk result (Keeps IsPositionKept (D.basis derivatives.old) (D.basis derivatives.new) (D.trees derivatives.new) position.new) }
    ensures step { OnOk result ((kind : trees.EventKind) → IsTextOf blank kind → AddsStep (reading_by (D.basis derivatives.old)) kind
        (D.trees derivatives.old) (D.trees derivatives.new) (open_position position.old) (open_position position.new)) }
    ensures longer { OnOk result (Longer (D.trees derivatives.old) (D.trees derivatives.new)) }
    ensures levels { OnOk result (Grows (levels_in position.old.state.table) (levels_in position.new.state.table)) }
    ensures mode { OnOk result (position.new.keeps_tag ≡ position.old.keeps_tag) }
{
    let now = position.state.now;
    let held = hold_any(derivatives, alloc, &mut position.state.table, now, blank)?;
    position.held = Some(held);
    Ok(())
}

/// Takes an end tag.
pub fn after_end<D: Derivatives>(
    derivatives: &mut D,
    alloc: Global,
    position: &mut Position,
) -> Result<(), OutOfMemory>
    requires { HoldsBy IsPositionKept (D.basis derivatives.old) (D.trees derivatives.old) position.old }
    ensures keeps { OnOk result (Keeps IsPositionKept (D.basis derivatives.old) (D.basis derivatives.new) (D.trees derivatives.new) position.new) }
    ensures step { OnOk result (AddsStep (reading_by (D.basis derivatives.old)) trees.an_end
        (D.trees derivatives.old) (D.trees derivatives.new) (open_position position.old) (open_position position.new)) }
    ensures levels { OnOk result (Grows (levels_in position.old.state.table) (levels_in position.new.state.table)) }
    ensures mode { OnOk result (position.new.keeps_tag ≡ position.old.keeps_tag) }
{
    if position.has_begun {
        settle(position);
        return after_elements(derivatives, alloc, &mut position.state);
    }
    let string = position.held.take();
    after_lone_string(derivatives, alloc, &mut position.state, string)?;
    position.has_begun = true;
    Ok(())
}
