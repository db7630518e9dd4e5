// A matcher over any derivatives.
ghost use Rattle.std.specs.Prelude.{◌≡◌, ℕ, List, [], ◌∷◌, ◌++◌, IfOk, IsErr, OnErr, OnOk, false};
ghost use Rattle.rng_names.specs.plain.Keys.{Keys};
ghost use Rattle.rng_model.specs.simple.Tree.{Simple};
ghost use Rattle.rng_model.specs.matching.GrammarMatching.{Reading};
ghost use Rattle.rng_deriv_events.specs.views.Basis.{HoldsBy, reading_by};
ghost use Rattle.rng_deriv_events.specs.views.Inputs.{IsOf, Serves, event_at, tests_strings};
ghost use Rattle.rng_deriv_events.specs.views.KeptLevels.{AreKept};
ghost use Rattle.rng_model.specs.datatypes.Texts.{is_blank};
ghost use Rattle.rng_model.specs.documents.EventViews.{event_of};
ghost use Rattle.rng_model.specs.documents.ElementTrees.{IsElementTree};
ghost use Rattle.rng_model.specs.documents.PyxTrees as trees;
ghost use Rattle.rng_model.specs.documents.PyxTrees.{Placed, events_of};
ghost use Rattle.rng_model.specs.matching.Outcomes.{IsOutcome};
ghost use Rattle.rng_deriv_events.specs.views.NextEnds.{TellsEnd};
ghost use Rattle.rng_deriv_events.specs.views.Positions.{IsFailed, IsKnown, IsLost, IsProgressInside, KeepsTag, StaysInMode};
ghost use Rattle.rng_model.specs.declared.outcome.Outcome.{Outcome};

use crate::derivatives::Derivatives;
use crate::ends::some_end;
use crate::input::Input;
use crate::level_table::LevelTable;
use crate::next_end::may_end;
use crate::numbering::level_of;
use crate::position::Position;
use crate::progress::{Progress, take_input};
use crate::state::State;
use rng_model::{Event, OutOfMemory, Outcome};
use smallvec::SmallVec;
use std::alloc::Global;
use std::marker::Model;

/// A matcher over any derivatives. It takes the events of a document one by one, and reports whether the document is
/// valid.
///
/// RELAX NG Specification, sections 6.2 and 6.3. After a call runs out of memory, each call fails with that error.
#[derive(Drop)]
pub struct EventMatcher<D: Derivatives + Drop> {
    alloc: Global,
    derivatives: D,
    progress: Progress,
}

impl<D: Derivatives + Drop> Model for EventMatcher<D> {
    ghost use Rattle.rng_deriv_events.specs.declared.progress.Progress.{Progress};
    ghost use Rattle.rng_deriv_events.specs.views.Basis.{HoldsBy};
    ghost use Rattle.rng_deriv_events.specs.views.Positions.{IsProgressInside};

    ghost Value = { D × Progress };

    ghost view = { λ m. (m.derivatives, m.progress) };

    ghost invariant = { λ m. HoldsBy IsProgressInside (D.basis m.derivatives) (D.trees m.derivatives) m.progress };
}

/// Returns what is kept of levels, or an empty table if nothing is kept.
fn table_of(alloc: Global, progress: Progress) -> LevelTable
    ensures { (g : Reading) (keys : Keys) (trees : List (Simple ℕ)) → IsProgressInside g keys trees progress → AreKept g keys trees result }
{
    match progress {
        Progress::Going { position, .. } => {
            let Position { state, .. } = Box::into_inner(position);
            let State { table, .. } = state;
            table
        }
        Progress::Failed { .. } | Progress::Lost => LevelTable::new(alloc, 0),
    }
}

impl<D: Derivatives + Drop> EventMatcher<D> {
    /// Creates a matcher that has had no event yet. Fails only when this call, or an earlier call of the derivatives,
    /// is out of memory.
    pub fn new(alloc: Global, derivatives: D) -> Result<Self, OutOfMemory>
        ensures derivatives { IfOk result (λ m. m.0 ≡ derivatives) }
        ensures known { IfOk result (λ m. IsKnown (reading_by (D.basis m.0)) (D.trees m.0) m.1 []) }
        ensures mode { IfOk result (λ m. KeepsTag false m.1) }
        ensures kept { IfOk result (λ m. ¬ (IsLost m.1)) }
    {
        let nothing = LevelTable::new(alloc, 0);
        EventMatcher::with_table(alloc, derivatives, nothing)
    }

    /// Creates a matcher that has had no event yet, with what is kept of levels. Fails only when this call, or an
    /// earlier call of the derivatives, is out of memory.
    fn with_table(alloc: Global, derivatives: D, mut table: LevelTable) -> Result<Self, OutOfMemory>
        requires { HoldsBy AreKept (D.basis derivatives) (D.trees derivatives) table }
        ensures derivatives { IfOk result (λ m. m.0 ≡ derivatives) }
        ensures known { IfOk result (λ m. IsKnown (reading_by (D.basis m.0)) (D.trees m.0) m.1 []) }
        ensures mode { IfOk result (λ m. KeepsTag false m.1) }
        ensures kept { IfOk result (λ m. ¬ (IsLost m.1)) }
    {
        let start = derivatives.start()?;
        let numbers = SmallVec::from_slice(alloc, &[start])?;
        let now = level_of(&derivatives, alloc, &mut table, numbers)?;
        let state = State {
            table,
            now,
            carried: Vec::new(alloc),
            steps: Vec::new(alloc),
        };
        let position = Position {
            state,
            has_begun: false,
            held: None,
            keeps_tag: false,
        };
        let position = Box::new(alloc, position)?;
        Ok(EventMatcher {
            alloc,
            derivatives,
            progress: Progress::Going { position, line: 0 },
        })
    }

    /// Returns a matcher that has had no event yet, over the same derivatives. Fails only when this call, or an earlier
    /// one, is out of memory.
    pub fn begin_anew(self) -> Result<Self, OutOfMemory>
        ensures derivatives { IfOk result (λ m. m.0 ≡ self.0) }
        ensures known { IfOk result (λ m. IsKnown (reading_by (D.basis m.0)) (D.trees m.0) m.1 []) }
        ensures mode { IfOk result (λ m. KeepsTag false m.1) }
        ensures kept { IfOk result (λ m. ¬ (IsLost m.1)) }
    {
        let EventMatcher {
            alloc,
            derivatives,
            progress,
        } = self;
        let table = table_of(alloc, progress);
        EventMatcher::with_table(alloc, derivatives, table)
    }

    /// Creates a matcher with these derivatives and this progress.
    pub fn of_parts(alloc: Global, derivatives: D, progress: Progress) -> Self
        requires { HoldsBy IsProgressInside (D.basis derivatives) (D.trees derivatives) progress }
        ensures { result ≡ (derivatives, progress) }
    {
        EventMatcher {
            alloc,
            derivatives,
            progress,
        }
    }

    /// Returns the derivatives, and what is known of the document.
    pub fn into_parts(self) -> (D, Progress)
        ensures parts { result ≡ self }
        ensures inside { HoldsBy IsProgressInside (D.basis result.0) (D.trees result.0) result.1 }
    {
        (self.derivatives, self.progress)
    }

    /// Returns the outcome of the document with the events that were taken. Fails only if an earlier call ran out of
    /// memory.
    pub fn outcome(&self) -> Result<Outcome, OutOfMemory>
        ensures outcome { IfOk result (λ o. (d : Placed) → IsElementTree d
            → IsKnown (reading_by (D.basis self.now.0)) (D.trees self.now.0) self.now.1 (events_of d) → IsOutcome (reading_by (D.basis self.now.0)) d o) }
        ensures failed { (line : ℕ) → IsFailed line self.now.1 → IfOk result (λ o. o ≡ Outcome.Invalid line) }
        ensures lost { OnErr result (IsLost self.now.1) }
        ensures again { IsLost self.now.1 → IsErr result }
    {
        match &self.progress {
            Progress::Going { position, line } => {
                let state = &position.state;
                if some_end(&self.derivatives, state.table.numbers(state.now)) {
                    return Ok(Outcome::Valid);
                }
                Ok(Outcome::Invalid(*line))
            }
            Progress::Failed { line, .. } => Ok(Outcome::Invalid(*line)),
            Progress::Lost => Err(OutOfMemory),
        }
    }

    /// Returns whether the end tag of the innermost open element may come next, or could have come before the event that
    /// leaves nothing. What is known stays so. Fails only when out of memory, and always after a call that ran out of
    /// memory.
    pub fn may_end(&mut self) -> Result<bool, OutOfMemory>
        ensures basis { OnOk result (D.basis self.new.0 ≡ D.basis self.old.0) }
        ensures known { OnOk result ((events : List trees.Event) → IsKnown (reading_by (D.basis self.old.0)) (D.trees self.old.0) self.old.1 events
            → IsKnown (reading_by (D.basis self.new.0)) (D.trees self.new.0) self.new.1 events) }
        ensures ends { IfOk result (λ told. (events : List trees.Event)
            → IsKnown (reading_by (D.basis self.old.0)) (D.trees self.old.0) self.old.1 events
            → TellsEnd (reading_by (D.basis self.old.0)) self.old.1 told events) }
        ensures tests { OnOk result (tests_strings self.new.1 ≡ tests_strings self.old.1) }
        ensures failed { (line : ℕ) → IsFailed line self.old.1 → OnOk result (IsFailed line self.new.1) }
        ensures mode { OnOk result (StaysInMode self.old.1 self.new.1) }
        ensures kept { OnOk result (¬ (IsLost self.new.1)) }
        ensures lost { OnErr result (IsLost self.new.1) }
        ensures again { IsLost self.old.1 → IsErr result }
    {
        let progress = &mut self.progress;
        if let Ok(told) = may_end(&mut self.derivatives, self.alloc, progress) {
            return Ok(told);
        }
        *progress = Progress::Lost;
        Err(OutOfMemory)
    }

    /// Takes the next event. Fails only when out of memory, and always after a call that ran out of memory.
    pub fn take(&mut self, event: Event<'_>) -> Result<(), OutOfMemory>
        ensures basis { OnOk result (D.basis self.new.0 ≡ D.basis self.old.0) }
        ensures known { OnOk result ((events : List trees.Event) → IsKnown (reading_by (D.basis self.old.0)) (D.trees self.old.0) self.old.1 events
            → IsKnown (reading_by (D.basis self.new.0)) (D.trees self.new.0) self.new.1 (events ++ event_of event.entry ∷ [])) }
        ensures failed { (line : ℕ) → IsFailed line self.old.1 → OnOk result (IsFailed line self.new.1) }
        ensures mode { OnOk result (StaysInMode self.old.1 self.new.1) }
        ensures kept { OnOk result (¬ (IsLost self.new.1)) }
        ensures lost { OnErr result (IsLost self.new.1) }
        ensures again { IsLost self.old.1 → IsErr result }
    {
        self.take_input(event.line, Input::Event(event.kind))
    }

    /// Takes a string of which only this is known: whether it is blank. No alternative that is left tests what a string
    /// says. Fails only when out of memory.
    pub fn take_any_text(&mut self, line: u64, blank: bool) -> Result<(), OutOfMemory>
        requires { tests_strings self.old.1 ≡ false }
        ensures basis { OnOk result (D.basis self.new.0 ≡ D.basis self.old.0) }
        ensures known { OnOk result ((text : List ℕ) (events : List trees.Event) → is_blank text ≡ blank
            → IsKnown (reading_by (D.basis self.old.0)) (D.trees self.old.0) self.old.1 events
            → IsKnown (reading_by (D.basis self.new.0)) (D.trees self.new.0) self.new.1 (events ++ event_at line (trees.a_string text) ∷ [])) }
        ensures failed { (at : ℕ) → IsFailed at self.old.1 → OnOk result (IsFailed at self.new.1) }
        ensures mode { OnOk result (StaysInMode self.old.1 self.new.1) }
        ensures kept { OnOk result (¬ (IsLost self.new.1)) }
        ensures lost { OnErr result (IsLost self.new.1) }
    {
        self.take_input(line, Input::AnyText { blank })
    }

    /// Takes an event at this line, or a string of which only this is known: whether it is blank.
    fn take_input(&mut self, line: u64, input: Input<'_>) -> Result<(), OutOfMemory>
        requires { Serves input (tests_strings self.old.1) }
        ensures basis { OnOk result (D.basis self.new.0 ≡ D.basis self.old.0) }
        ensures known { OnOk result ((kind : trees.EventKind) (events : List trees.Event) → IsOf input.entry kind
            → IsKnown (reading_by (D.basis self.old.0)) (D.trees self.old.0) self.old.1 events
            → IsKnown (reading_by (D.basis self.new.0)) (D.trees self.new.0) self.new.1 (events ++ event_at line kind ∷ [])) }
        ensures failed { (at : ℕ) → IsFailed at self.old.1 → OnOk result (IsFailed at self.new.1) }
        ensures mode { OnOk result (StaysInMode self.old.1 self.new.1) }
        ensures kept { OnOk result (¬ (IsLost self.new.1)) }
        ensures lost { OnErr result (IsLost self.new.1) }
        ensures again { IsLost self.old.1 → IsErr result }
    {
        let progress = &mut self.progress;
        if let Ok(()) = take_input(&mut self.derivatives, self.alloc, progress, line, input) {
            return Ok(());
        }
        self.progress = Progress::Lost;
        Err(OutOfMemory)
    }
}
