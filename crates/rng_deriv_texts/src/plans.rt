// Plans: what is left of patterns, by the outcome of tests.
ghost use Rattle.std.specs.Prelude.{◌≡◌, ◌⊎◌, ◌<◌, All, IfOk, IfSome, List, OnOk, Some, length, slice_get};
ghost use Rattle.std.specs.List.{Contains};
ghost use Rattle.rng_model.specs.simple.Table.{Table};
ghost use Rattle.rng_deriv_table.specs.views.Node.{Node};
ghost use Rattle.rng_deriv_table.specs.views.PatternTable.{Longer};
ghost use Rattle.rng_deriv_table.specs.declared.pattern.PatternNumber.{PatternNumber};
ghost use Rattle.rng_deriv_ways.specs.plain.Ways.{AreInside};
ghost use Rattle.rng_deriv_ways.specs.views.Datatypes.{AreDatatypesOf};
ghost use Rattle.rng_deriv_ways.specs.views.Plans.{AreRestsBy, IsIndex, IsOutcome, IsPlan, IsTold};
ghost use Rattle.rng_deriv_ways.specs.declared.plans.Outcome.{Outcome};
ghost use Rattle.rng_deriv_texts.specs.plain.Asking.{IsAskedBy};

use crate::first::First;
use crate::value_index::index_of;
use rng_deriv_table::{PatternNumber, PatternTable};
use rng_deriv_ways::{
    Asked, Context, Datatypes, LeafWay, Leaves, Outcome, Plan, Rests, Tests, ValueIndex, Ways,
};
use rng_model::OutOfMemory;
use smallvec::SmallVec;
use std::alloc::Global;

/// The number of different leaves up to which outcomes of their tests are kept.
const MOST_LEAVES: usize = 64;

/// The number of outcomes that are kept for a pattern.
const MOST_OUTCOMES: usize = 16;

/// A plan that is taken out of the known ones, or a new one, and what it is the plan of.
#[derive(Drop)]
pub struct TakenPlan {
    pub asked: Asked,
    pub plan: Plan,
}

/// Returns what a pattern is asked.
pub fn asked(context: &Context, first: First, number: PatternNumber) -> Asked
    ensures { IsAskedBy context.now.keys.now first.entry number result }
{
    match first {
        First::Text(_, _) => Asked::Text(number),
        First::Attribute(attr) => Asked::Attribute(number, context.keys.key(&attr.name)),
    }
}

/// Returns the different leaves of some ways, or none if there are too many for their outcomes to be kept.
fn different_leaves(alloc: Global, ways: &[LeafWay]) -> Result<Leaves, OutOfMemory>
    ensures { IfOk result (λ leaves. (ns : List Node) → AreInside ns ways.now → All (λ m. m.0 < length ns) leaves.items) }
{
    let mut leaves: Leaves = SmallVec::new(alloc);
    'ways: for way in ways {
        if leaves.as_slice().contains(&way.leaf) {
            continue;
        }
        if leaves.len() >= MOST_LEAVES {
            return Ok(SmallVec::new(alloc));
        }
        leaves.push(way.leaf)?;
    }
    Ok(leaves)
}

/// Returns an index of ways to take this, if it is a string and their leaves are too many for outcomes to be kept. Fails
/// only when out of memory.
fn values_of(
    context: &Context,
    table: &PatternTable,
    datatypes: &Datatypes,
    first: First,
    plan: &Plan,
) -> Result<Option<Box<ValueIndex>>, OutOfMemory>
    requires inside { AreInside table.now plan.now.ways.items }
    requires datatypes { AreDatatypesOf context.now.grammar.now datatypes.now }
    ensures { IfOk result (λ o. IfSome o (λ index. IsIndex context.now.grammar.now table.now plan.now.ways.items index.value)) }
{
    let First::Text(_, _) = first else {
        return Ok(None);
    };
    if !plan.leaves.is_empty() {
        return Ok(None);
    }
    let index = index_of(context, table, datatypes, plan.ways.as_slice())?;
    Ok(Some(Box::new(context.alloc, index)?))
}

/// Returns a plan without outcomes. Fails only when out of memory. The cost is at most 64 comparisons for each way, and
/// that of the texts of values if there are many leaves.
pub fn plan_of(
    context: &Context,
    table: &PatternTable,
    datatypes: &Datatypes,
    first: First,
    ways: Ways,
) -> Result<Plan, OutOfMemory>
    requires inside { AreInside table.now ways.items }
    requires datatypes { AreDatatypesOf context.now.grammar.now datatypes.now }
    ensures ways { IfOk result (λ plan. plan.ways.items ≡ ways.items) }
    ensures plan { IfOk result (IsPlan context.now.grammar.now table.now) }
{
    let leaves = different_leaves(context.alloc, ways.as_slice())?;
    let mut plan = Plan {
        ways,
        leaves,
        outcomes: Vec::new(context.alloc),
        values: None,
    };
    plan.values = values_of(context, table, datatypes, first, &plan)?;
    Ok(plan)
}

/// Returns the place of a leaf among those that were tested. Allocates nothing.
fn place_of(leaves: &[PatternNumber], leaf: PatternNumber) -> Option<usize>
    ensures { IfSome result (λ i. slice_get leaves.now i ≡ Some leaf) }
{
    for (place, tested) in leaves.iter().enumerate() {
        if *tested == leaf {
            return Some(place);
        }
    }
    None
}

/// Returns whether a leaf took what came first, if it is one of those that were tested. Allocates nothing.
fn told(leaves: &[PatternNumber], taken: &[bool], leaf: PatternNumber) -> Option<bool>
    ensures { IfSome result (IsTold leaves.now taken.now leaf) }
{
    let place = place_of(leaves, leaf)?;
    let took = taken.get(place)?;
    Some(*took)
}

/// Returns the rests of the ways whose leaves took what came first, if all leaves were tested. Fails only when out of
/// memory.
fn rests_by(
    alloc: Global,
    leaves: &[PatternNumber],
    taken: &[bool],
    ways: &[LeafWay],
) -> Result<Option<Rests>, OutOfMemory>
    ensures { IfOk result (λ o. IfSome o (λ rests. AreRestsBy leaves.now taken.now ways.now rests.items)) }
{
    let mut rests: Rests = SmallVec::new(alloc);
    'ways: for way in ways {
        let Some(took) = told(leaves, taken, way.leaf) else {
            return Ok(None);
        };
        if !took {
            continue;
        }
        rests.push(way.rest)?;
    }
    Ok(Some(rests))
}

/// Returns the rest that is kept for these tests. Allocates nothing.
fn kept_rest(outcomes: &[Outcome], taken: &[bool]) -> Option<PatternNumber>
    ensures { IfSome result (λ rest. (o : Outcome) × Contains outcomes.now o × (o.taken.items ≡ taken.now) × (o.rest ≡ rest)) }
{
    'outcomes: for outcome in outcomes {
        if outcome.taken.as_slice() == taken {
            return Some(outcome.rest);
        }
    }
    None
}

/// Keeps the rest for these tests, unless there are many outcomes already. Fails only when out of memory.
fn keep_outcome(plan: &mut Plan, taken: Tests, rest: PatternNumber) -> Result<(), OutOfMemory>
    ensures ways { OnOk result (plan.new.ways ≡ plan.old.ways) }
    ensures leaves { OnOk result (plan.new.leaves ≡ plan.old.leaves) }
    ensures values { OnOk result (plan.new.values ≡ plan.old.values) }
    ensures outcomes { OnOk result ((o : Outcome) → Contains plan.new.outcomes.items o
        → Contains plan.old.outcomes.items o ⊎ ((o.taken.items ≡ taken.items) × (o.rest ≡ rest))) }
{
    if plan.outcomes.len() >= MOST_OUTCOMES {
        return Ok(());
    }
    plan.outcomes.push(Outcome { taken, rest })?;
    Ok(())
}

/// Returns what is left by the ways of a plan if its leaves were tested with this outcome. `None` means that the plan
/// keeps no outcomes. Fails only when out of memory. The cost is that of a comparison with the outcomes that have
/// occurred. For a new one the rests of the ways are gathered, and their choice is made.
pub fn rest_by(
    alloc: Global,
    table: &mut PatternTable,
    plan: &mut Plan,
    taken: Tests,
) -> Result<Option<PatternNumber>, OutOfMemory>
    requires { AreInside table.old plan.old.ways.items }
    ensures longer { OnOk result (Longer table.old table.new) }
    ensures ways { OnOk result (plan.new.ways ≡ plan.old.ways) }
    ensures plan { OnOk result ((t : Table) → IsPlan t table.old plan.old → IsPlan t table.new plan.new) }
    ensures rest { IfOk result (λ o. IfSome o (λ rest. (t : Table) → IsPlan t table.old plan.old
        → IsOutcome t table.new plan.old.ways.items plan.old.leaves.items taken.items rest)) }
{
    if let Some(rest) = kept_rest(plan.outcomes.as_slice(), taken.as_slice()) {
        return Ok(Some(rest));
    }
    let Some(rests) = rests_by(
        alloc,
        plan.leaves.as_slice(),
        taken.as_slice(),
        plan.ways.as_slice(),
    )?
    else {
        return Ok(None);
    };
    let rest = table.choice(alloc, rests.as_slice())?;
    keep_outcome(plan, taken, rest)?;
    Ok(Some(rest))
}
