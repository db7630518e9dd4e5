// Patterns and members of choices that contain none of the candidates.
ghost use Rattle.std.specs.Prelude.{◌≡◌, ◌<◌, ◌≤◌, ℕ, All, List, [], length, map, true};
ghost use Rattle.rng_model.specs.simple.Table.{Table};
ghost use Rattle.rng_model.specs.simple.Tree.{Simple};
ghost use Rattle.rng_deriv_table.specs.plain.Facts.{HasElement, IsWithin};
ghost use Rattle.rng_deriv_table.specs.views.Node.{Node};
ghost use Rattle.rng_deriv_table.specs.views.Skips.{AreSkipsOf, members_at};
ghost use Rattle.rng_deriv_ways.specs.plain.Idle.{AreIdle, AreRight, IsIdle, IsNext};
ghost use Rattle.rng_deriv_ways.specs.plain.Takers.{AreCandidates};
ghost use Rattle.rng_deriv_ways.specs.plain.Ways.{AreWaysOf};
ghost use Rattle.rng_deriv_ways.specs.declared.way.Kind as kinds;

use crate::way::Candidates;
use rng_deriv_table::{FEW_MEMBERS, Pattern, PatternNumber, PatternTable, Skip, Span};

/// Returns true only if a pattern contains none of the candidates. Then it has no ways.
#[inline(always)]
pub fn is_idle(table: &PatternTable, candidates: Candidates, number: PatternNumber) -> bool
    requires { number.0 < length table.now }
    ensures { result ≡ true → IsIdle table.now candidates.entry number.0 }
{
    match candidates {
        Candidates::Any => false,
        Candidates::Elements(_, _, _) => lacks(candidates, table.facts(number).elements),
        Candidates::Attributes(own, spans) => match spans.get(number.0) {
            Some(span) => !own.may_meet(*span),
            None => false,
        },
    }
}

/// Returns true only if none of the candidates is an element in this range.
#[inline(always)]
fn lacks(candidates: Candidates, elements: Span) -> bool
    ensures { result ≡ true → (t : Table) (ns : List Node) (kind : kinds.Kind) (p : Simple ℕ) → AreCandidates t ns kind candidates.entry
        → ((e : ℕ) → HasElement e p → IsWithin elements e) → AreWaysOf t ns kind p [] }
{
    match candidates {
        Candidates::Elements(own, _, _) => !own.may_meet(elements),
        _ => false,
    }
}

/// Returns the first member of a choice from this position on that may contain a candidate, with the position behind it.
///
/// If elements come first, a choice of many members has skips. Then the cost is some steps for each bit of the number of
/// members, if the elements of one member have no numbers between those of another one.
pub fn next_member(
    table: &PatternTable,
    candidates: Candidates,
    number: PatternNumber,
    from: usize,
) -> Option<(usize, PatternNumber)>
    requires inside { number.0 < length table.now }
    requires candidates { AreRight table.now candidates }
    ensures { IsNext table.now candidates.entry (members_at table.now number.0) from result }
{
    let Pattern::Choice(members) = table.pattern(number) else {
        return None;
    };
    let members = members.as_slice();
    let skips = skips_of(candidates, number, members.len());
    let mut position = from;
    'members: while position < members.len() {
        let behind = behind_idle(table, candidates, skips, members, position);
        if behind == position {
            return Some((position + 1, members[position]));
        }
        position = behind;
    }
    None
}

/// Returns the skips of a choice of this many members, or none.
fn skips_of(candidates: Candidates<'_>, number: PatternNumber, count: usize) -> &[Skip]
    ensures { (ns : List Node) → AreRight ns candidates.entry → AreSkipsOf ns (members_at ns number.0) result.now }
{
    match candidates {
        Candidates::Elements(_, _, skips) if count > FEW_MEMBERS => match skips.of(number) {
            Some(skips) => skips,
            None => &[],
        },
        _ => &[],
    }
}

/// Returns the position behind some members that contain none of the candidates. The first of these has the given
/// position. If the member there may contain a candidate, the position is returned as it is.
fn behind_idle(
    table: &PatternTable,
    candidates: Candidates,
    skips: &[Skip],
    members: &[PatternNumber],
    position: usize,
) -> usize
    requires inside { All (λ m. m.0 < length table.now) members.now }
    requires position { position < length members.now }
    requires skips { AreSkipsOf table.now (map (λ m. m.0) members.now) skips.now }
    ensures further { position ≤ result }
    ensures idle { AreIdle table.now candidates.entry (map (λ m. m.0) members.now) position result }
{
    match skips.get(position) {
        Some(skip) if lacks(candidates, skip.elements) => skip.behind,
        _ if is_idle(table, candidates, members[position]) => position + 1,
        _ => position,
    }
}
