// Ways of a whole, from those of its sides.
ghost use Rattle.std.specs.Prelude.{◌≡◌, ◌<◌, ◌++◌, ◌∷◌, [], All, Some, IfOk, OnOk, IfSome, IfNone, length, slice_get};
ghost use Rattle.rng_deriv_laws.specs.plain.Derivatives.{behind, joined_of};
ghost use Rattle.rng_deriv_table.specs.views.PatternTable.{Adds, Longer};
ghost use Rattle.rng_deriv_table.specs.views.Trees.{tree_of};
ghost use Rattle.rng_deriv_ways.specs.declared.way.LeafWay.{LeafWay};
ghost use Rattle.rng_deriv_ways.specs.plain.Kinds.{connector_of};
ghost use Rattle.rng_deriv_ways.specs.plain.Ways.{AreInside, IsInside, IsHoleInside, IsRun, IsTakenOut, StandFor, filled, ways_by};

use crate::known::copied_ways;
use crate::way::{Hole, Joint, LeafWay, Rests, Ways};
use rng_deriv_table::{PatternNumber, PatternTable};
use rng_model::OutOfMemory;
use smallvec::SmallVec;
use std::alloc::Global;

/// Joins two patterns.
fn join(
    table: &mut PatternTable,
    joint: Joint,
    first: PatternNumber,
    second: PatternNumber,
) -> Result<PatternNumber, OutOfMemory>
    requires first { first.0 < length table.old }
    requires second { second.0 < length table.old }
    ensures longer { Longer table.old table.new }
    ensures tree { IfOk result (λ n. Adds table.old table.new n.0
        (λ t. joined_of (connector_of joint) (tree_of t table.old first.0) (tree_of t table.old second.0))) }
{
    match joint {
        Joint::Group => table.group(first, second),
        Joint::Interleave => table.interleave(first, second),
    }
}

/// Returns the rest of the whole, from that of a side.
pub fn fill(
    table: &mut PatternTable,
    hole: Hole,
    rest: PatternNumber,
) -> Result<PatternNumber, OutOfMemory>
    requires hole { IsHoleInside table.old hole }
    requires rest { rest.0 < length table.old }
    ensures longer { Longer table.old table.new }
    ensures tree { IfOk result (λ n. Adds table.old table.new n.0 (λ t. filled (tree_of t table.old) hole (tree_of t table.old rest.0))) }
{
    match hole {
        Hole::Whole => Ok(rest),
        Hole::First(joint, second) => join(table, joint, rest, second),
        Hole::Second(joint, first) => join(table, joint, first, rest),
    }
}

/// Returns the position of the way with this leaf among others.
fn place_of(ways: &[LeafWay], leaf: PatternNumber) -> Option<usize>
    ensures found { IfSome result (λ i. (w : LeafWay) × (slice_get ways.now i ≡ Some w) × (w.leaf ≡ leaf)) }
    ensures none { IfNone result (All (λ w. ¬ (w.leaf ≡ leaf)) ways.now) }
{
    'others: for (place, way) in ways.iter().enumerate() {
        if way.leaf == leaf {
            return Some(place);
        }
    }
    None
}

/// Removes the way with this leaf from others, if there is one.
fn take_leaf(ways: &mut Ways, leaf: PatternNumber) -> Option<LeafWay>
    ensures found { IfSome result (λ w. (w.leaf ≡ leaf) × IsTakenOut ways.old.items ways.new.items w) }
    ensures none { IfNone result (ways.new.items ≡ ways.old.items) }
{
    let place = place_of(ways.as_slice(), leaf)?;
    Some(ways.remove(place))
}

/// Adds a way to others. A way with the same leaf is merged with it. A rest that is notAllowed adds none.
pub fn add_way(
    alloc: Global,
    table: &mut PatternTable,
    all: &mut Ways,
    way: LeafWay,
) -> Result<(), OutOfMemory>
    requires inside { AreInside table.old all.old.items }
    requires way { IsInside table.old way }
    ensures longer { Longer table.old table.new }
    ensures ways { OnOk result (StandFor table.new all.new.items (λ t. ways_by (tree_of t table.old) (all.old.items ++ way ∷ []))) }
{
    if table.is_not_allowed(way.rest) {
        return Ok(());
    }
    let Some(other) = take_leaf(all, way.leaf) else {
        return Ok(all.push(way)?);
    };
    let rest = table.choice(alloc, &[other.rest, way.rest])?;
    all.push(LeafWay {
        leaf: way.leaf,
        rest,
    })?;
    Ok(())
}

/// The most ways that are compared with each other.
const FEW_WAYS: usize = 16;

/// Adds the ways of a side to those of the whole.
pub fn add_filled(
    alloc: Global,
    table: &mut PatternTable,
    hole: Hole,
    ways: &[LeafWay],
    all: &mut Ways,
) -> Result<(), OutOfMemory>
    requires hole { IsHoleInside table.old hole }
    requires ways { AreInside table.old ways.now }
    requires all { AreInside table.old all.old.items }
    ensures longer { OnOk result (Longer table.old table.new) }
    ensures ways { OnOk result (StandFor table.new all.new.items
        (λ t. ways_by (tree_of t table.old) all.old.items ++ behind (filled (tree_of t table.old) hole) (ways_by (tree_of t table.old) ways.now))) }
{
    if all.len().saturating_add(ways.len()) > FEW_WAYS {
        return add_many(alloc, table, hole, ways, all);
    }
    'ways: for way in ways {
        let rest = fill(table, hole, way.rest)?;
        add_way(
            alloc,
            table,
            all,
            LeafWay {
                leaf: way.leaf,
                rest,
            },
        )?;
    }
    Ok(())
}

/// The same for many ways. The cost is a sort of all of them.
fn add_many(
    alloc: Global,
    table: &mut PatternTable,
    hole: Hole,
    ways: &[LeafWay],
    all: &mut Ways,
) -> Result<(), OutOfMemory>
    requires hole { IsHoleInside table.old hole }
    requires ways { AreInside table.old ways.now }
    requires all { AreInside table.old all.old.items }
    ensures longer { OnOk result (Longer table.old table.new) }
    ensures ways { OnOk result (StandFor table.new all.new.items
        (λ t. ways_by (tree_of t table.old) all.old.items ++ behind (filled (tree_of t table.old) hole) (ways_by (tree_of t table.old) ways.now))) }
{
    let mut both = Vec::new(alloc);
    both.extend_from_slice(all.as_slice())?;
    'ways: for way in ways {
        let rest = fill(table, hole, way.rest)?;
        both.push(LeafWay {
            leaf: way.leaf,
            rest,
        })?;
    }
    *all = joined_ways(alloc, table, both.as_slice())?;
    Ok(())
}

/// Returns the rests of the ways from this position on, as far as they have one leaf.
fn run_from(alloc: Global, ways: &[LeafWay], start: usize) -> Result<Rests, OutOfMemory>
    requires { start < length ways.now }
    ensures { IfOk result (λ rests. IsRun ways.now start rests.items) }
{
    let leaf = ways[start].leaf;
    let mut rests = SmallVec::new(alloc);
    rests.push(ways[start].rest)?;
    let mut next = start + 1;
    'ways: while next < ways.len() && ways[next].leaf == leaf {
        rests.push(ways[next].rest)?;
        next += 1;
    }
    Ok(rests)
}

/// Returns whether the numbers of the leaves rise, so that each is the leaf of one way. Allocates nothing.
fn are_rising(ways: &[LeafWay]) -> bool {
    let mut least = 0;
    'ways: for way in ways {
        if way.leaf.0 < least {
            return false;
        }
        least = way.leaf.0.saturating_add(1);
    }
    true
}

/// Returns the same ways, each leaf once: its rest is the choice of its rests. The cost is one pass if the numbers of
/// the leaves rise, as those of a choice of leaves do, and otherwise a sort by these numbers.
pub fn joined_ways(
    alloc: Global,
    table: &mut PatternTable,
    ways: &[LeafWay],
) -> Result<Ways, OutOfMemory>
    requires { AreInside table.old ways.now }
    ensures longer { OnOk result (Longer table.old table.new) }
    ensures ways { IfOk result (λ all. StandFor table.new all.items (λ t. ways_by (tree_of t table.old) ways.now)) }
{
    if are_rising(ways) {
        return copied_ways(alloc, ways);
    }
    let mut sorted = Vec::new(alloc);
    sorted.extend_from_slice(ways)?;
    sorted.sort_by_key(|way| way.leaf)?;
    joined_runs(alloc, table, sorted.as_slice())
}

/// Returns the same ways, with one way for those that have one leaf and are next to each other.
fn joined_runs(
    alloc: Global,
    table: &mut PatternTable,
    ways: &[LeafWay],
) -> Result<Ways, OutOfMemory>
    requires { AreInside table.old ways.now }
    ensures longer { OnOk result (Longer table.old table.new) }
    ensures ways { IfOk result (λ all. StandFor table.new all.items (λ t. ways_by (tree_of t table.old) ways.now)) }
{
    let mut all = SmallVec::new(alloc);
    let mut start = 0;
    'runs: while start < ways.len() {
        let leaf = ways[start].leaf;
        let rests = run_from(alloc, ways, start)?;
        let rest = table.choice(alloc, rests.as_slice())?;
        all.push(LeafWay { leaf, rest })?;
        start += rests.len();
    }
    Ok(all)
}
