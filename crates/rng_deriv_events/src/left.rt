// What is left of the innermost open element.
ghost use Rattle.std.specs.Prelude.{◌≡◌, ◌↔◌, IfOk, OnOk, true};
ghost use Rattle.rng_deriv_laws.specs.plain.LevelEvents.{LevelMatcher};
ghost use Rattle.rng_deriv_events.specs.views.Basis.{HoldsBy, Keeps, reading_by};
ghost use Rattle.rng_deriv_events.specs.views.KeptLevels.{AddsLevels, AreKept};
ghost use Rattle.rng_deriv_events.specs.views.LevelTable.{levels_in};
ghost use Rattle.rng_deriv_events.specs.views.LevelsLeft.{has_text, is_within, left_of, mark_of, marked, settled_level};
ghost use Rattle.rng_deriv_events.specs.views.Marks.{IsMarkKept, IsMarkOf};
ghost use Rattle.rng_deriv_events.specs.views.NextEnds.{EndMayCome};
ghost use Rattle.rng_deriv_events.specs.views.Numbers.{Longer};

use crate::derivatives::Derivatives;
use crate::ends::{some_end, some_end_with};
use crate::failed_event::FailedEvent;
use crate::held::{Held, held_or_empty};
use crate::level_table::{LevelNumber, LevelTable};
use crate::position::Position;
use crate::state::State;
use rng_deriv_table::PatternNumber;
use rng_model::OutOfMemory;
use std::alloc::Global;

/// What was left of the innermost open element, or of the document if no element was open, before the event after which
/// nothing is left.
#[derive(Drop)]
pub struct Left {
    /// The alternatives for what remains, given that no further string comes: one of them takes it.
    pub alternatives: Vec<PatternNumber>,
    /// The alternatives in place of the string that has come since the last tag. If it is blank, or none has come, they are
    /// the same.
    pub in_place: Vec<PatternNumber>,
    /// Whether there is a child element already.
    pub has_begun: bool,
    /// Whether a string that is not blank has come since the last tag.
    pub has_text: bool,
    /// Whether an element is open.
    pub is_open: bool,
    /// Whether the end tag of the element may come next.
    pub may_end: bool,
    /// What is kept of the event after which nothing is left.
    pub event: FailedEvent,
}

/// A place of a matcher: what is left there is known by it, as long as the table of levels only grows.
#[derive(Clone, Copy)]
pub struct Mark {
    /// The level before the held string.
    level: LevelNumber,
    string: Option<Held>,
    has_begun: bool,
    is_open: bool,
}

/// Returns whether an element is open.
#[inline(always)]
pub fn is_within(state: &State) -> bool
    ensures { result ≡ is_within state.entry.now }
{
    !(state.carried.is_empty() && state.steps.is_empty())
}

/// Returns the level behind the held string, given that an element is beside it. A blank string counts as nothing there
/// (RELAX NG Specification, section 6.2.7).
#[inline(always)]
pub fn settled_level(level: LevelNumber, string: Option<Held>) -> LevelNumber
    ensures { result ≡ settled_level level string }
{
    match string {
        Some(string) if !string.blank => string.after,
        _ => level,
    }
}

/// Returns whether a string that is not blank is held.
#[inline(always)]
pub fn has_text(string: Option<Held>) -> bool
    ensures { result ≡ has_text string }
{
    match string {
        Some(string) => !string.blank,
        None => false,
    }
}

impl Mark {
    /// Returns the mark of a position. Allocates nothing.
    #[inline(always)]
    pub fn of(position: &Position) -> Mark
        ensures { result ≡ mark_of position.now }
    {
        Mark {
            level: position.state.now,
            string: position.held,
            has_begun: position.has_begun,
            is_open: is_within(&position.state),
        }
    }

    /// Returns whether the end tag may come next at the mark: whether some alternative may end. Adds the level after the
    /// empty string if the element has nothing.
    ///
    /// RELAX NG Specification, section 6.2.7. Fails only when out of memory.
    pub fn may_end<D: Derivatives>(
        self,
        derivatives: &mut D,
        alloc: Global,
        table: &mut LevelTable,
    ) -> Result<bool, OutOfMemory>
        requires kept { HoldsBy AreKept (D.basis derivatives.old) (D.trees derivatives.old) table.old }
        requires mark { IsMarkKept table.old self }
        ensures keeps { OnOk result (Keeps (AddsLevels table.old) (D.basis derivatives.old) (D.basis derivatives.new) (D.trees derivatives.new) table.new) }
        ensures longer { OnOk result (Longer (D.trees derivatives.old) (D.trees derivatives.new)) }
        ensures ends { IfOk result (λ told. (m : LevelMatcher) → IsMarkOf (reading_by (D.basis derivatives.old)) (D.trees derivatives.old) table.old self m
            → (told ≡ true) ↔ EndMayCome (reading_by (D.basis derivatives.old)) m) }
    {
        if !self.is_open {
            return Ok(false);
        }
        if self.has_begun {
            let level = settled_level(self.level, self.string);
            return Ok(some_end(derivatives, table.numbers(level)));
        }
        let string = held_or_empty(derivatives, alloc, table, self.level, self.string)?;
        let now = table.numbers(self.level);
        let after = table.numbers(string.after);
        Ok(some_end_with(derivatives, now, after, string.blank))
    }

    /// Returns what is left at the mark before an event, boxed. Fails only when out of memory.
    pub fn left<D: Derivatives>(
        self,
        derivatives: &mut D,
        alloc: Global,
        table: &mut LevelTable,
        event: FailedEvent,
    ) -> Result<Box<Left>, OutOfMemory>
        requires kept { HoldsBy AreKept (D.basis derivatives.old) (D.trees derivatives.old) table.old }
        requires mark { IsMarkKept table.old self }
        ensures basis { OnOk result (D.basis derivatives.new ≡ D.basis derivatives.old) }
        ensures longer { OnOk result (Longer (D.trees derivatives.old) (D.trees derivatives.new)) }
        ensures left { IfOk result (λ l. left_of l.value ≡ marked (levels_in table.old) self) }
        ensures event { IfOk result (λ l. l.value.event ≡ event) }
        ensures ends { IfOk result (λ l. (m : LevelMatcher) → IsMarkOf (reading_by (D.basis derivatives.old)) (D.trees derivatives.old) table.old self m
            → (l.value.may_end ≡ true) ↔ EndMayCome (reading_by (D.basis derivatives.old)) m) }
    {
        let mut alternatives = Vec::new(alloc);
        alternatives.extend_from_slice(table.numbers_at(settled_level(self.level, self.string)))?;
        let mut in_place = Vec::new(alloc);
        in_place.extend_from_slice(table.numbers_at(self.level))?;
        let may_end = self.may_end(derivatives, alloc, table)?;
        let left = Left {
            alternatives,
            in_place,
            has_begun: self.has_begun,
            has_text: has_text(self.string),
            is_open: self.is_open,
            may_end,
            event,
        };
        let boxed = Box::new(alloc, left)?;
        Ok(boxed)
    }
}
