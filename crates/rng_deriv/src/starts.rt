// The ways of a start, without those that nothing matches.
ghost use Rattle.std.specs.Prelude.{◌≡◌, ◌||◌, ◌<◌, All, IfOk, IfNone, IfSome, OnOk, Some, length, slice_get};
ghost use Rattle.rng_model.specs.simple.Table.{Table};
ghost use Rattle.rng_deriv_events.specs.declared.derivatives.StartWay.{StartWay};
ghost use Rattle.rng_deriv_laws.specs.plain.Derivatives.{is_not_allowed};
ghost use Rattle.rng_deriv_table.specs.views.PatternTable.{Longer};
ghost use Rattle.rng_deriv_table.specs.views.Trees.{tree_of};
ghost use Rattle.rng_deriv_ways.specs.plain.Ways.{AreInside, IsInside, IsTakenOut, ways_by};
ghost use Rattle.rng_deriv.specs.views.Starts.{IsWayInside, OpensLike, with_way};

use rng_deriv_events::{StartWay, Ways};
use rng_deriv_table::{PatternNumber, PatternTable};
use rng_model::OutOfMemory;
use smallvec::SmallVec;
use std::alloc::Global;

/// Returns whether one of the two is notAllowed.
fn is_one_not_allowed(table: &PatternTable, body: PatternNumber, rest: PatternNumber) -> bool
    requires body { body.0 < length table.now }
    requires rest { rest.0 < length table.now }
    ensures { (t : Table) → result ≡ is_not_allowed (tree_of t table.now body.0) || is_not_allowed (tree_of t table.now rest.0) }
{
    table.is_not_allowed(body) || table.is_not_allowed(rest)
}

/// Returns the place of a way with this rest among others.
fn place_of_rest(ways: &[StartWay], rest: PatternNumber) -> Option<usize>
    ensures found { IfSome result (λ i. (w : StartWay) × (slice_get ways.now i ≡ Some w) × (w.rest ≡ rest)) }
    ensures none { IfNone result (All (λ w. ¬ (w.rest ≡ rest)) ways.now) }
{
    'others: for (place, way) in ways.iter().enumerate() {
        if way.rest == rest {
            return Some(place);
        }
    }
    None
}

/// Removes a way with this rest from others, if there is one, and returns it.
fn take_rest(ways: &mut Ways, rest: PatternNumber) -> Option<StartWay>
    ensures found { IfSome result (λ w. (w.rest ≡ rest) × IsTakenOut ways.old.items ways.new.items w) }
    ensures none { IfNone result (ways.new.items ≡ ways.old.items) }
{
    let place = place_of_rest(ways.as_slice(), rest)?;
    Some(ways.remove(place))
}

/// Adds a way to others. A way with the same rest is joined with it into one. A way that takes nothing is not added.
fn add_way(
    alloc: Global,
    table: &mut PatternTable,
    all: &mut Ways,
    way: rng_deriv_ways::LeafWay,
) -> Result<(), OutOfMemory>
    requires inside { All (IsWayInside table.old) all.old.items }
    requires way { IsInside table.old way }
    ensures longer { OnOk result (Longer table.old table.new) }
    ensures ways { OnOk result ((t : Table) → OpensLike t table.new (with_way t table.old all.old.items way) all.new.items) }
{
    if is_one_not_allowed(table, way.leaf, way.rest) {
        return Ok(());
    }
    let Some(other) = take_rest(all, way.rest) else {
        return Ok(all.push(StartWay {
            body: way.leaf,
            rest: way.rest,
        })?);
    };
    let body = table.choice(alloc, &[other.body, way.leaf])?;
    all.push(StartWay {
        body,
        rest: way.rest,
    })?;
    Ok(())
}

/// Returns the ways without those that take nothing, with each rest once.
pub fn joined_ways(
    alloc: Global,
    table: &mut PatternTable,
    ways: &[rng_deriv_ways::LeafWay],
) -> Result<Ways, OutOfMemory>
    requires { AreInside table.old ways.now }
    ensures longer { OnOk result (Longer table.old table.new) }
    ensures ways { IfOk result (λ joined. (t : Table) → OpensLike t table.new (ways_by (tree_of t table.old) ways.now) joined.items) }
{
    let mut joined = SmallVec::new(alloc);
    'ways: for way in ways {
        add_way(alloc, table, &mut joined, *way)?;
    }
    Ok(joined)
}
