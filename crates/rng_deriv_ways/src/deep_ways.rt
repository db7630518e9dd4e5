// The ways of deep patterns, from the innermost parts outwards.
ghost use Rattle.std.specs.Prelude.{◌<◌, IfOk, OnOk, length};
ghost use Rattle.rng_deriv_table.specs.plain.DeepParts.{AreStepsInside};
ghost use Rattle.rng_deriv_table.specs.views.PatternTable.{Longer};
ghost use Rattle.rng_deriv_table.specs.views.Trees.{tree_of};
ghost use Rattle.rng_deriv_ways.specs.views.KnownWays.{AreKnown};
ghost use Rattle.rng_deriv_ways.specs.plain.Takers.{AreCandidates};
ghost use Rattle.rng_deriv_ways.specs.plain.Ways.{AreWaysOf};

use crate::idle::is_idle;
use crate::known::{KnownWays, known_ways};
use crate::way::{Kind, Search, Ways};
use crate::ways::ways;
use rng_deriv_table::{Pattern, PatternNumber, PatternTable, Step};
use rng_model::OutOfMemory;

/// Returns the ways of a pattern to take something of this kind first, each leaf once. Those of its deep parts are worked
/// out and kept first, so that recursion is only as deep as a pattern that is not deep.
pub fn ways_of(
    search: &Search,
    table: &mut PatternTable,
    known: &mut KnownWays,
    number: PatternNumber,
) -> Result<Ways, OutOfMemory>
    requires inside { number.0 < length table.old }
    requires known { AreKnown search.now.grammar.now table.old search.now.kind known.old }
    requires candidates { AreCandidates search.now.grammar.now table.old search.now.kind search.now.candidates }
    ensures longer { OnOk result (Longer table.old table.new) }
    ensures known { OnOk result (AreKnown search.now.grammar.now table.new search.now.kind known.new) }
    ensures ways { IfOk result (λ ws. AreWaysOf search.now.grammar.now table.new search.now.kind (tree_of search.now.grammar.now table.old number.0) ws.items) }
{
    keep_deep_ways(search, table, known, number)?;
    ways(search, table, known, number)
}

/// Keeps the ways of the deep parts of a pattern, and its own if it is deep.
fn keep_deep_ways(
    search: &Search,
    table: &mut PatternTable,
    known: &mut KnownWays,
    number: PatternNumber,
) -> Result<(), OutOfMemory>
    requires inside { number.0 < length table.old }
    requires known { AreKnown search.now.grammar.now table.old search.now.kind known.old }
    requires candidates { AreCandidates search.now.grammar.now table.old search.now.kind search.now.candidates }
    ensures longer { OnOk result (Longer table.old table.new) }
    ensures known { OnOk result (AreKnown search.now.grammar.now table.new search.now.kind known.new) }
{
    if !table.is_deep(number) {
        return Ok(());
    }
    let mut steps = Vec::new(search.alloc);
    steps.push(Step::Parts(number))?;
    'steps: for _ in 0..usize::MAX {
        if !take_step(search, table, known, &mut steps)? {
            return Ok(());
        }
    }
    Ok(())
}

/// Takes the last of some steps, and returns whether there was one. A pattern without ways, or with known ones, needs
/// nothing. For any other one, those by which it begins come first.
fn take_step(
    search: &Search,
    table: &mut PatternTable,
    known: &mut KnownWays,
    steps: &mut Vec<Step>,
) -> Result<bool, OutOfMemory>
    requires known { AreKnown search.now.grammar.now table.old search.now.kind known.old }
    requires candidates { AreCandidates search.now.grammar.now table.old search.now.kind search.now.candidates }
    requires steps { AreStepsInside table.old steps.old.items }
    ensures longer { OnOk result (Longer table.old table.new) }
    ensures known { OnOk result (AreKnown search.now.grammar.now table.new search.now.kind known.new) }
    ensures steps { OnOk result (AreStepsInside table.new steps.new.items) }
{
    match steps.pop() {
        None => Ok(false),
        Some(Step::Whole(part)) => {
            ways(search, table, known, part)?;
            Ok(true)
        }
        Some(Step::Parts(part)) => {
            if is_idle(table, search.candidates, part) || known_ways(known, part).is_some() {
                return Ok(true);
            }
            steps.push(Step::Whole(part))?;
            add_beginnings(table, search.kind, part, steps)?;
            Ok(true)
        }
    }
}

/// Adds steps for those deep patterns whose ways make the ways of a pattern.
fn add_beginnings(
    table: &mut PatternTable,
    kind: Kind,
    number: PatternNumber,
    steps: &mut Vec<Step>,
) -> Result<(), OutOfMemory>
    requires inside { number.0 < length table.old }
    requires steps { AreStepsInside table.old steps.old.items }
    ensures longer { OnOk result (Longer table.old table.new) }
    ensures steps { OnOk result (AreStepsInside table.new steps.new.items) }
{
    if let Kind::Attribute(_) = kind {
        return table.add_deep_parts(number, steps);
    }
    let Pattern::Group(first, second) = table.pattern(number) else {
        return table.add_deep_parts(number, steps);
    };
    let (first, second) = (*first, *second);
    let (front, behind) = table.reassociated(first, second)?;
    if !table.facts(front).nullable {
        return table.add_deep(&[front], steps);
    }
    match table.behind_copies(front, behind) {
        Some(rest) => table.add_deep(&[front, rest], steps),
        None => table.add_deep(&[front], steps),
    }
}
