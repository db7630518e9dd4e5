// Patterns after all attributes of a tag are taken.
ghost use Rattle.std.specs.Prelude.{◌≡◌, ◌<◌, IfOk, OnOk, length, true};
ghost use Rattle.rng_model.specs.simple.Table.{Table};
ghost use Rattle.rng_deriv_table.specs.plain.DeepParts.{AreStepsInside};
ghost use Rattle.rng_deriv_table.specs.views.PatternTable.{Longer};
ghost use Rattle.rng_deriv_table.specs.plain.Reduced.{has_attribute};
ghost use Rattle.rng_deriv_table.specs.views.Trees.{tree_of};
ghost use Rattle.rng_deriv_ways.specs.plain.Closing.{IsChoice, IsClosed};
ghost use Rattle.rng_deriv_ways.specs.views.KnownRests.{AreRestsOf};

use crate::rests::{KnownRests, keep_rest};
use rng_deriv_table::{Pattern, PatternNumber, PatternTable, Step};
use rng_model::OutOfMemory;
use std::alloc::Global;

/// Returns what is left of a pattern after all attributes of a tag are taken: a pattern that requires no attribute.
///
/// RELAX NG Specification, section 6.2. Fails only when out of memory. It is computed once for each part that contains
/// an attribute, however often that part occurs in others, and then kept.
pub fn close(
    alloc: Global,
    table: &mut PatternTable,
    known: &mut KnownRests,
    number: PatternNumber,
) -> Result<PatternNumber, OutOfMemory>
    requires inside { number.0 < length table.old }
    requires known { AreRestsOf table.old known.old }
    ensures longer { OnOk result (Longer table.old table.new) }
    ensures known { OnOk result (AreRestsOf table.new known.new) }
    ensures closed { IfOk result (IsClosed table.old table.new number) }
{
    keep_deep_rests(alloc, table, known, number)?;
    rest_of(alloc, table, known, number)
}

/// Keeps what is left of the deep parts of a pattern, and of itself if it is deep, from the innermost ones outwards. Then
/// recursion is only as deep as a pattern that is not deep.
fn keep_deep_rests(
    alloc: Global,
    table: &mut PatternTable,
    known: &mut KnownRests,
    number: PatternNumber,
) -> Result<(), OutOfMemory>
    requires inside { number.0 < length table.old }
    requires known { AreRestsOf table.old known.old }
    ensures longer { OnOk result (Longer table.old table.new) }
    ensures known { OnOk result (AreRestsOf table.new known.new) }
{
    if !table.is_deep(number) {
        return Ok(());
    }
    let mut steps = Vec::new(alloc);
    steps.push(Step::Parts(number))?;
    'steps: for _ in 0..usize::MAX {
        if !take_step(alloc, table, known, &mut steps)? {
            return Ok(());
        }
    }
    Ok(())
}

/// Takes the last of some steps, and returns whether there was one. A pattern without attributes, or with a known rest,
/// needs nothing. For any other one, its parts come first.
fn take_step(
    alloc: Global,
    table: &mut PatternTable,
    known: &mut KnownRests,
    steps: &mut Vec<Step>,
) -> Result<bool, OutOfMemory>
    requires known { AreRestsOf table.old known.old }
    requires steps { AreStepsInside table.old steps.old.items }
    ensures longer { OnOk result (Longer table.old table.new) }
    ensures known { OnOk result (AreRestsOf table.new known.new) }
    ensures steps { OnOk result (AreStepsInside table.new steps.new.items) }
{
    match steps.pop() {
        None => Ok(false),
        Some(Step::Whole(part)) => {
            rest_of(alloc, table, known, part)?;
            Ok(true)
        }
        Some(Step::Parts(part)) => {
            if !table.facts(part).attributes || known.get(&part).is_some() {
                return Ok(true);
            }
            steps.push(Step::Whole(part))?;
            table.add_deep_parts(part, steps)?;
            Ok(true)
        }
    }
}

/// Returns what is left of a pattern, if what is left of its deep parts is known.
#[cycle(closing)]
fn rest_of(
    alloc: Global,
    table: &mut PatternTable,
    known: &mut KnownRests,
    number: PatternNumber,
) -> Result<PatternNumber, OutOfMemory>
    requires inside { number.0 < length table.old }
    requires known { AreRestsOf table.old known.old }
    ensures longer { OnOk result (Longer table.old table.new) }
    ensures known { OnOk result (AreRestsOf table.new known.new) }
    ensures closed { IfOk result (IsClosed table.old table.new number) }
{
    if !table.facts(number).attributes {
        return Ok(number);
    }
    if let Some(rest) = known.get(&number) {
        return Ok(*rest);
    }
    let rest = close_parts(alloc, table, known, number)?;
    keep_rest(known, number, rest)?;
    Ok(rest)
}

/// The same for a pattern that contains an attribute, from what is left of its parts.
#[cycle(closing)]
fn close_parts(
    alloc: Global,
    table: &mut PatternTable,
    known: &mut KnownRests,
    number: PatternNumber,
) -> Result<PatternNumber, OutOfMemory>
    requires inside { number.0 < length table.old }
    requires known { AreRestsOf table.old known.old }
    requires attribute { (t : Table) → has_attribute (tree_of t table.old number.0) ≡ true }
    ensures longer { OnOk result (Longer table.old table.new) }
    ensures known { OnOk result (AreRestsOf table.new known.new) }
    ensures closed { IfOk result (IsClosed table.old table.new number) }
{
    match table.pattern(number) {
        Pattern::Choice(_) => close_choice(alloc, table, known, number),
        Pattern::Group(first, second) => {
            let (first, second) = (*first, *second);
            let first = rest_of(alloc, table, known, first)?;
            let second = rest_of(alloc, table, known, second)?;
            table.group(first, second)
        }
        Pattern::Interleave(first, second) => {
            let (first, second) = (*first, *second);
            let first = rest_of(alloc, table, known, first)?;
            let second = rest_of(alloc, table, known, second)?;
            table.interleave(first, second)
        }
        Pattern::OneOrMore(body) => {
            let body = *body;
            let body = rest_of(alloc, table, known, body)?;
            table.one_or_more(body)
        }
        _ => table.not_allowed(),
    }
}

/// Returns a copy of numbers.
fn copied(alloc: Global, numbers: &[PatternNumber]) -> Result<Vec<PatternNumber>, OutOfMemory>
    ensures { IfOk result (λ copy. copy.items ≡ numbers.now) }
{
    let mut copy = Vec::new(alloc);
    copy.extend_from_slice(numbers)?;
    Ok(copy)
}

/// Returns what is left of a choice: a choice of what is left of its members.
#[cycle(closing)]
fn close_choice(
    alloc: Global,
    table: &mut PatternTable,
    known: &mut KnownRests,
    number: PatternNumber,
) -> Result<PatternNumber, OutOfMemory>
    requires inside { number.0 < length table.old }
    requires known { AreRestsOf table.old known.old }
    requires choice { IsChoice table.old number.0 }
    ensures longer { OnOk result (Longer table.old table.new) }
    ensures known { OnOk result (AreRestsOf table.new known.new) }
    ensures closed { IfOk result (IsClosed table.old table.new number) }
{
    let Pattern::Choice(members) = table.pattern(number) else {
        unreachable!()
    };
    let members = copied(alloc, members.as_slice())?;
    let mut closed = Vec::new(alloc);
    'members: for member in &members {
        closed.push(rest_of(alloc, table, known, *member)?)?;
    }
    table.choice(alloc, closed.as_slice())
}
