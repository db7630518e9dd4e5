// Whether the end tag of the innermost open element may come next.
ghost use Rattle.std.specs.Prelude.{◌≡◌, ◌↔◌, ℕ, List, IfOk, IsErr, OnOk, true};
ghost use Rattle.rng_model.specs.documents.PyxTrees.{Event};
ghost use Rattle.rng_deriv_laws.specs.plain.LevelEvents.{LevelMatcher};
ghost use Rattle.rng_deriv_events.specs.views.Basis.{HoldsBy, Keeps, reading_by};
ghost use Rattle.rng_deriv_events.specs.views.Inputs.{tests_at, tests_strings};
ghost use Rattle.rng_deriv_events.specs.views.LevelRenewal.{IsPositionRenewed};
ghost use Rattle.rng_deriv_events.specs.views.NextEnds.{EndMayCome, TellsEnd};
ghost use Rattle.rng_deriv_events.specs.views.OpenPositions.{IsPositionKept, open_position};
ghost use Rattle.rng_deriv_events.specs.views.Positions.{IsFailed, IsKnown, IsLost, IsPositionOf, IsProgressInside, StaysInMode};

use crate::derivatives::Derivatives;
use crate::left::Mark;
use crate::position::Position;
use crate::progress::Progress;
use rng_model::OutOfMemory;
use std::alloc::Global;

/// Returns whether the end tag may come next at a position. Only its table may change: it may grow.
fn may_end_at<D: Derivatives>(
    derivatives: &mut D,
    alloc: Global,
    position: &mut Box<Position>,
) -> Result<bool, OutOfMemory>
    requires { HoldsBy IsPositionKept (D.basis derivatives.old) (D.trees derivatives.old) position.old.value }
    ensures keeps { OnOk result (Keeps IsPositionKept (D.basis derivatives.old) (D.basis derivatives.new) (D.trees derivatives.new) position.new.value) }
    ensures same { OnOk result (IsPositionRenewed (D.trees derivatives.old) (D.trees derivatives.new)
        (open_position position.old.value) (open_position position.new.value)) }
    ensures tests { OnOk result (tests_at position.new.value ≡ tests_at position.old.value) }
    ensures mode { OnOk result (position.new.value.keeps_tag ≡ position.old.value.keeps_tag) }
    ensures ends { IfOk result (λ told. (m : LevelMatcher)
        → IsPositionOf (reading_by (D.basis derivatives.old)) (D.trees derivatives.old) (open_position position.old.value) m
        → (told ≡ true) ↔ EndMayCome (reading_by (D.basis derivatives.old)) m) }
{
    let position = &mut **position;
    let mark = Mark::of(position);
    mark.may_end(derivatives, alloc, &mut position.state.table)
}

/// Returns whether the end tag may come next, or could have come before the event that leaves nothing. What is known stays
/// so. After a call runs out of memory, there is no promise about what is known.
pub fn may_end<D: Derivatives>(
    derivatives: &mut D,
    alloc: Global,
    progress: &mut Progress,
) -> Result<bool, OutOfMemory>
    requires { HoldsBy IsProgressInside (D.basis derivatives.old) (D.trees derivatives.old) progress.old }
    ensures keeps { OnOk result (Keeps IsProgressInside (D.basis derivatives.old) (D.basis derivatives.new) (D.trees derivatives.new) progress.new) }
    ensures known { OnOk result ((es : List Event) → IsKnown (reading_by (D.basis derivatives.old)) (D.trees derivatives.old) progress.old es
        → IsKnown (reading_by (D.basis derivatives.old)) (D.trees derivatives.new) progress.new es) }
    ensures ends { IfOk result (λ told. (es : List Event) → IsKnown (reading_by (D.basis derivatives.old)) (D.trees derivatives.old) progress.old es
        → TellsEnd (reading_by (D.basis derivatives.old)) progress.old told es) }
    ensures tests { OnOk result (tests_strings progress.new ≡ tests_strings progress.old) }
    ensures mode { OnOk result (StaysInMode progress.old progress.new) }
    ensures failed { (at : ℕ) → IsFailed at progress.old → OnOk result (IsFailed at progress.new) }
    ensures kept { OnOk result (¬ (IsLost progress.new)) }
    ensures again { IsLost progress.old → IsErr result }
{
    match progress {
        Progress::Going { position, .. } => may_end_at(derivatives, alloc, position),
        Progress::Failed { left, .. } => Ok(left.may_end),
        Progress::Lost => Err(OutOfMemory),
    }
}
