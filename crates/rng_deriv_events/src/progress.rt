// What is known of a document, event by event.
ghost use Rattle.std.specs.Prelude.{◌≡◌, ℕ, Bool, List, None, IfOk, IsErr, OnOk, true};
ghost use Rattle.rng_model.specs.documents.EventViews.{event_kind_of};
ghost use Rattle.rng_model.specs.documents.PyxTrees as trees;
ghost use Rattle.rng_deriv_events.specs.views.Basis.{HoldsBy, Keeps, reading_by};
ghost use Rattle.rng_deriv_events.specs.views.Inputs.{IsOf, Serves, event_at, tests_at, tests_strings};
ghost use Rattle.rng_deriv_events.specs.views.KeptLevels.{Grows};
ghost use Rattle.rng_deriv_events.specs.views.LevelTable.{levels_in};
ghost use Rattle.rng_deriv_events.specs.views.Numbers.{Longer};
ghost use Rattle.rng_deriv_events.specs.views.OpenPositions.{IsPositionKept, keeping, open_position};
ghost use Rattle.rng_deriv_events.specs.views.Positions.{AddsProgress, AddsStep, HasCome, IsFailed, IsKnown, IsLost, IsProgressInside, KeepsTag};
ghost use Rattle.rng_deriv_events.specs.views.Positions.{StaysInMode, failed_line, progress_at};
ghost use Rattle.rng_model.specs.matching.GrammarMatching.{Reading};
ghost use Rattle.rng_model.specs.simple.Tree.{Simple};
ghost use Rattle.rng_names.specs.plain.Keys.{Keys};

use crate::derivatives::Derivatives;
use crate::failed_event::failed_event;
use crate::input::Input;
use crate::left::{Left, Mark};
use crate::level_renewal::renew;
use crate::position::{Position, after_any_text, after_end, after_start, after_text};
use rng_model::{EventKind, OutOfMemory};
use std::alloc::Global;

/// What is known of a document.
#[derive(Drop)]
pub enum Progress {
    /// The document may be valid. The line is that of the last event, or 0. The position is boxed, so that moving what is
    /// known costs little.
    Going { position: Box<Position>, line: u64 },
    /// No continuation after the event of this line is valid. What was left before it is kept, with what is kept of the event,
    /// boxed for the same reason.
    Failed { line: u64, left: Box<Left> },
    /// Nothing is known, since a call ran out of memory.
    Lost,
}

/// Takes an event.
fn step<D: Derivatives>(
    derivatives: &mut D,
    alloc: Global,
    position: &mut Position,
    kind: EventKind<'_>,
) -> Result<(), OutOfMemory>
    requires { HoldsBy IsPositionKept (D.basis derivatives.old) (D.trees derivatives.old) position.old }
    ensures keeps { OnOk result (Keeps IsPositionKept (D.basis derivatives.old) (D.basis derivatives.new) (D.trees derivatives.new) position.new) }
    ensures step { OnOk result (AddsStep (reading_by (D.basis derivatives.old)) (event_kind_of kind.entry)
        (D.trees derivatives.old) (D.trees derivatives.new) (open_position position.old) (open_position position.new)) }
    ensures levels { OnOk result (Grows (levels_in position.old.state.table) (levels_in position.new.state.table)) }
    ensures mode { OnOk result (position.new.keeps_tag ≡ position.old.keeps_tag) }
{
    match kind {
        EventKind::Start { name, attrs } => after_start(derivatives, alloc, position, name, attrs),
        EventKind::Text(text) => after_text(derivatives, alloc, position, text),
        EventKind::End => after_end(derivatives, alloc, position),
    }
}

/// Takes an event, or a string of which only this is known: whether it is blank.
fn step_by<D: Derivatives>(
    derivatives: &mut D,
    alloc: Global,
    position: &mut Position,
    input: Input<'_>,
) -> Result<(), OutOfMemory>
    requires kept { HoldsBy IsPositionKept (D.basis derivatives.old) (D.trees derivatives.old) position.old }
    requires serves { Serves input (tests_at position.old) }
    ensures keeps { OnOk result (Keeps IsPositionKept (D.basis derivatives.old) (D.basis derivatives.new) (D.trees derivatives.new) position.new) }
    ensures step { OnOk result ((kind : trees.EventKind) → IsOf input.entry kind → AddsStep (reading_by (D.basis derivatives.old)) kind
        (D.trees derivatives.old) (D.trees derivatives.new) (open_position position.old) (open_position position.new)) }
    ensures longer { OnOk result (Longer (D.trees derivatives.old) (D.trees derivatives.new)) }
    ensures levels { OnOk result (Grows (levels_in position.old.state.table) (levels_in position.new.state.table)) }
    ensures mode { OnOk result (position.new.keeps_tag ≡ position.old.keeps_tag) }
{
    match input {
        Input::Event(kind) => step(derivatives, alloc, position, kind),
        Input::AnyText { blank } => after_any_text(derivatives, alloc, position, blank),
    }
}

/// Takes one more event of a document that may be valid, at this line. Returns `None` if it may still be valid, otherwise
/// what was left before the event.
#[inline(always)]
fn go_on<D: Derivatives>(
    derivatives: &mut D,
    alloc: Global,
    position: &mut Box<Position>,
    line: u64,
    input: Input<'_>,
) -> Result<Option<Box<Left>>, OutOfMemory>
    requires kept { HoldsBy IsPositionKept (D.basis derivatives.old) (D.trees derivatives.old) position.old.value }
    requires serves { Serves input (tests_at position.old.value) }
    ensures keeps { IfOk result (λ failed. Keeps IsProgressInside (D.basis derivatives.old) (D.basis derivatives.new) (D.trees derivatives.new)
        (progress_at failed position.new line)) }
    ensures progress { IfOk result (λ failed. (kind : trees.EventKind) → IsOf input.entry kind
        → AddsProgress (reading_by (D.basis derivatives.old)) (event_at line kind)
        (λ events. (line : ℕ) × HasCome (reading_by (D.basis derivatives.old)) (D.trees derivatives.old) (open_position position.old.value) line events)
        (D.trees derivatives.new) (progress_at failed position.new line)) }
    ensures mode { IfOk result (λ failed. (whole : Bool) → position.old.value.keeps_tag ≡ whole → KeepsTag whole (progress_at failed position.new line)) }
{
    let position = &mut **position;
    let mark = Mark::of(position);
    step_by(derivatives, alloc, position, input)?;
    if position.state.table.level(position.state.now).dead {
        let event = failed_event(alloc, input, position.keeps_tag)?;
        let left = mark.left(derivatives, alloc, &mut position.state.table, event)?;
        return Ok(Some(left));
    }
    renew(derivatives, alloc, position)?;
    Ok(None)
}

/// Takes one more event at this line, or a string of which only this is known: whether it is blank. After a call runs out
/// of memory, there is no promise about what is known.
pub fn take_input<D: Derivatives>(
    derivatives: &mut D,
    alloc: Global,
    progress: &mut Progress,
    line: u64,
    input: Input<'_>,
) -> Result<(), OutOfMemory>
    requires inside { HoldsBy IsProgressInside (D.basis derivatives.old) (D.trees derivatives.old) progress.old }
    requires serves { Serves input (tests_strings progress.old) }
    ensures keeps { OnOk result (Keeps IsProgressInside (D.basis derivatives.old) (D.basis derivatives.new) (D.trees derivatives.new) progress.new) }
    ensures progress { OnOk result ((kind : trees.EventKind) → IsOf input.entry kind → AddsProgress (reading_by (D.basis derivatives.old)) (event_at line kind)
        (IsKnown (reading_by (D.basis derivatives.old)) (D.trees derivatives.old) progress.old) (D.trees derivatives.new) progress.new) }
    ensures mode { OnOk result (StaysInMode progress.old progress.new) }
    ensures failed { (at : ℕ) → IsFailed at progress.old → OnOk result (IsFailed at progress.new) }
    ensures kept { OnOk result (¬ (IsLost progress.new)) }
    ensures again { IsLost progress.old → IsErr result }
{
    match progress {
        Progress::Going {
            position,
            line: last,
        } => {
            *last = line;
            let Some(left) = go_on(derivatives, alloc, position, line, input)? else {
                return Ok(());
            };
            *progress = Progress::Failed { line, left };
            Ok(())
        }
        Progress::Failed { .. } => Ok(()),
        Progress::Lost => Err(OutOfMemory),
    }
}

impl Progress {
    /// Returns whether an alternative that is left contains a data, a value or a list, so that it tests what a string says.
    /// If none does, it only matters whether a string is blank. False once nothing is left. True after a call that ran out
    /// of memory. Allocates nothing.
    pub fn tests_strings(&self) -> bool
        ensures { result ≡ tests_strings self.now }
    {
        match self {
            Progress::Going { position, .. } => {
                position.state.table.tests_strings_at(position.state.now)
            }
            Progress::Failed { .. } => false,
            Progress::Lost => true,
        }
    }

    /// From now on keeps a start after which nothing is left, with its name, attributes and values. Changes nothing else, and
    /// nothing where no continuation is valid already. Allocates nothing.
    pub fn keep_tag(&mut self)
        ensures inside { (g : Reading) (keys : Keys) (trees : List (Simple ℕ)) → IsProgressInside g keys trees self.old → IsProgressInside g keys trees self.new }
        ensures known { (g : Reading) (known : List (Simple ℕ)) (es : List trees.Event) → IsKnown g known self.old es → IsKnown g known self.new es }
        ensures mode { failed_line self.old ≡ None → KeepsTag true self.new }
        ensures failed { failed_line self.new ≡ failed_line self.old }
        ensures tests { tests_strings self.new ≡ tests_strings self.old }
        ensures lost { IsLost self.new → IsLost self.old }
    {
        match self {
            Progress::Going { position, .. } => keep_tag_at(position),
            Progress::Failed { .. } | Progress::Lost => {}
        }
    }

    /// Drops what is kept of an event after which no continuation is valid, and of what was left before it. Then nothing is
    /// known of the document. Changes nothing where no such event is known. Allocates nothing.
    pub fn forget_failure(&mut self)
        ensures inside { (g : Reading) (keys : Keys) (trees : List (Simple ℕ)) → IsProgressInside g keys trees self.old → IsProgressInside g keys trees self.new }
        ensures gone { failed_line self.new ≡ None }
    {
        match self {
            Progress::Failed { .. } => *self = Progress::Lost,
            Progress::Going { .. } | Progress::Lost => {}
        }
    }
}

/// Keeps a start after which nothing is left, from this position on.
fn keep_tag_at(position: &mut Box<Position>)
    ensures { position.new.value ≡ keeping position.old.value }
{
    let position = &mut **position;
    position.keeps_tag = true;
}
