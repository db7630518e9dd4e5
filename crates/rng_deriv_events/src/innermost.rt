// What is left of the innermost open element, as far as it is known.
ghost use Rattle.std.specs.Prelude.{◌≡◌, option_map};
ghost use Rattle.rng_deriv_events.specs.views.Innermost.{innermost_of};
ghost use Rattle.rng_deriv_events.specs.views.LevelsLeft.{left_of, level_in, level_left};

use crate::left::{Left, has_text, is_within, settled_level};
use crate::position::Position;
use crate::progress::Progress;
use rng_deriv_table::PatternNumber;

/// What is left of the innermost open element, or of the document if no element is open.
#[derive(Clone, Copy)]
pub struct Innermost<'a> {
    /// The alternatives for what remains, given that no further string comes: one of them takes it.
    pub alternatives: &'a [PatternNumber],
    /// The alternatives in place of the string that has come since the last tag. If it is blank, or none has come, they are
    /// the same.
    pub in_place: &'a [PatternNumber],
    /// Whether there is a child element already.
    pub has_begun: bool,
    /// Whether a string that is not blank has come since the last tag.
    pub has_text: bool,
    /// Whether an element is open.
    pub is_open: bool,
}

impl Progress {
    /// Returns what is left of the innermost open element. After an event that leaves nothing, returns what was left before
    /// that event. Returns `None` after a call that ran out of memory. Allocates nothing.
    pub fn innermost(&self) -> Option<Innermost<'_>>
        ensures { option_map (λ i. level_left i.alternatives.now i.in_place.now i.has_begun i.has_text i.is_open) result ≡ innermost_of self.now }
    {
        match self {
            Progress::Going { position, .. } => Some(innermost_in(position)),
            Progress::Failed { left, .. } => Some(innermost_at(left)),
            Progress::Lost => None,
        }
    }
}

/// Returns what is left of the innermost open element.
fn innermost_in(position: &Position) -> Innermost<'_>
    ensures { level_left result.alternatives.now result.in_place.now result.has_begun result.has_text result.is_open ≡ level_in position.now }
{
    Innermost {
        alternatives: position
            .state
            .table
            .numbers_at(settled_level(position.state.now, position.held)),
        in_place: position.state.table.numbers_at(position.state.now),
        has_begun: position.has_begun,
        has_text: has_text(position.held),
        is_open: is_within(&position.state),
    }
}

/// Returns what was left.
fn innermost_at(left: &Left) -> Innermost<'_>
    ensures { level_left result.alternatives.now result.in_place.now result.has_begun result.has_text result.is_open ≡ left_of left.now }
{
    Innermost {
        alternatives: left.alternatives.as_slice(),
        in_place: left.in_place.as_slice(),
        has_begun: left.has_begun,
        has_text: left.has_text,
        is_open: left.is_open,
    }
}
