// The leaves that stand first, or alone, in patterns, and the attributes.
ghost use Rattle.std.specs.Prelude.{◌≡◌, ◌<◌, ◌++◌, [], ◌∷◌, ℕ, All, IfOk, OnOk, length, map};
ghost use Rattle.rng_model.specs.simple.Table.{Table};
ghost use Rattle.rng_deriv_table.specs.plain.Selecting.{node_at};
ghost use Rattle.rng_deriv_table.specs.views.Node.{node_of};
ghost use Rattle.rng_deriv_table.specs.views.PatternTable.{IsPatternTable};
ghost use Rattle.rng_expected.specs.plain.Leaves.{AddsMarks, AddsRow, AreLeaves, is_leaf, lets, lets_behind, nullable_in, parts_where, side, takes_items};

use rng_deriv_table::{Pattern, PatternNumber, PatternTable};
use rng_model::OutOfMemory;
use std::alloc::Global;

/// Where a leaf stands in a pattern.
#[derive(Clone, Copy)]
pub enum Standing {
    /// It may take the first item.
    First,
    /// It may take the only item: all that is beside it may match nothing.
    Alone,
    /// It is an attribute, which may be in the tag whatever is beside it.
    InTag,
}

/// Returns the leaves that stand so in the patterns: elements, texts, lists, data and values, or the attributes.
///
/// RELAX NG Specification, sections 6.2.1 to 6.2.8. Fails only when out of memory. Each pattern of the table is visited at
/// most once, and time and memory are linear in the table.
pub fn leaves(
    alloc: Global,
    table: &PatternTable,
    standing: Standing,
    patterns: &[PatternNumber],
) -> Result<Vec<PatternNumber>, OutOfMemory>
    requires { All (λ n. n.0 < length table.now) patterns.now }
    ensures { IfOk result (λ found. (t : Table) → AreLeaves standing t table.now patterns.now found.items) }
{
    let mut marks = vec![in alloc; false; table.len()]?;
    mark_all(&mut marks, patterns);
    let mut found = Vec::new(alloc);
    let mut left = table.len();
    'rows: while left > 0 {
        left -= 1;
        if !marks[left] {
            continue;
        }
        take_row(table, standing, PatternNumber(left), &mut marks, &mut found)?;
    }
    Ok(found)
}

/// Adds the pattern with this number if it is a leaf, and otherwise marks the parts that stand so in it.
fn take_row(
    table: &PatternTable,
    standing: Standing,
    number: PatternNumber,
    marks: &mut Vec<bool>,
    found: &mut Vec<PatternNumber>,
) -> Result<(), OutOfMemory>
    requires inside { number.0 < length table.now }
    requires long { length marks.old.items ≡ length table.now }
    ensures long { OnOk result (length marks.new.items ≡ length marks.old.items) }
    ensures row { OnOk result ((t : Table) → AddsRow standing t table.now number.0 marks.old.items marks.new.items found.old.items found.new.items) }
{
    if is_leaf(standing, table.pattern(number)) {
        found.push(number)?;
        return Ok(());
    }
    mark_parts(table, standing, number, marks);
    Ok(())
}

/// Returns whether leaves that stand so take items of the content.
fn takes_items(standing: Standing) -> bool
    ensures { result ≡ takes_items standing }
{
    match standing {
        Standing::First | Standing::Alone => true,
        Standing::InTag => false,
    }
}

/// Returns whether the pattern is a leaf that may stand so.
fn is_leaf(standing: Standing, pattern: &Pattern) -> bool
    ensures { result ≡ is_leaf standing (node_of pattern.now) }
{
    match pattern {
        Pattern::Text | Pattern::Element(_) | Pattern::Data(_) => takes_items(standing),
        Pattern::Attribute(_) => !takes_items(standing),
        _ => false,
    }
}

/// Marks the parts that stand so in the pattern with this number.
fn mark_parts(
    table: &PatternTable,
    standing: Standing,
    number: PatternNumber,
    marks: &mut Vec<bool>,
)
    requires inside { number.0 < length table.now }
    requires long { length marks.old.items ≡ length table.now }
    ensures marks { (t : Table) → AddsMarks marks.old.items marks.new.items (parts_where standing (nullable_in t table.now) (node_at table.now number.0)) }
    ensures table { IsPatternTable table.now }
{
    match table.pattern(number) {
        Pattern::Choice(members) => mark_all(marks, members.as_slice()),
        Pattern::Group(first, second) => mark_group(table, standing, marks, *first, *second),
        Pattern::Interleave(first, second) => {
            mark_interleave(table, standing, marks, *first, *second)
        }
        Pattern::OneOrMore(body) => mark_if(marks, *body, true),
        _ => {}
    }
}

/// Marks the sides that stand so in a group.
fn mark_group(
    table: &PatternTable,
    standing: Standing,
    marks: &mut Vec<bool>,
    first: PatternNumber,
    second: PatternNumber,
)
    requires first { first.0 < length table.now }
    requires second { second.0 < length table.now }
    requires long { length marks.old.items ≡ length table.now }
    ensures { (t : Table) → AddsMarks marks.old.items marks.new.items
        (side (lets standing (nullable_in t table.now second.0)) first.0 ++ side (lets_behind standing (nullable_in t table.now first.0)) second.0) }
{
    let behind = table.facts(second).nullable;
    let before = table.facts(first).nullable;
    mark_two(
        marks,
        first,
        lets(standing, behind),
        second,
        lets_behind(standing, before),
    );
}

/// Marks the sides that stand so in an interleave.
fn mark_interleave(
    table: &PatternTable,
    standing: Standing,
    marks: &mut Vec<bool>,
    first: PatternNumber,
    second: PatternNumber,
)
    requires first { first.0 < length table.now }
    requires second { second.0 < length table.now }
    requires long { length marks.old.items ≡ length table.now }
    ensures { (t : Table) → AddsMarks marks.old.items marks.new.items (side (lets standing (nullable_in t table.now second.0)) first.0
        ++ side (lets standing (nullable_in t table.now first.0)) second.0) }
{
    let behind = table.facts(second).nullable;
    let before = table.facts(first).nullable;
    mark_two(
        marks,
        first,
        lets(standing, behind),
        second,
        lets(standing, before),
    );
}

/// Returns whether a part lets another one beside it stand so, given whether it may match nothing.
fn lets(standing: Standing, nullable: bool) -> bool
    ensures { result ≡ lets standing nullable }
{
    match standing {
        Standing::First | Standing::InTag => true,
        Standing::Alone => nullable,
    }
}

/// Returns whether the first part of a group lets the second one stand so, given whether the first may match nothing.
fn lets_behind(standing: Standing, nullable: bool) -> bool
    ensures { result ≡ lets_behind standing nullable }
{
    match standing {
        Standing::First | Standing::Alone => nullable,
        Standing::InTag => true,
    }
}

/// Marks the numbers.
fn mark_all(marks: &mut Vec<bool>, numbers: &[PatternNumber])
    requires { All (λ n. n.0 < length marks.old.items) numbers.now }
    ensures { AddsMarks marks.old.items marks.new.items (map (λ n. n.0) numbers.now) }
{
    for number in numbers {
        marks[number.0] = true;
    }
}

/// Marks each of two numbers, if its test says so.
fn mark_two(
    marks: &mut Vec<bool>,
    first: PatternNumber,
    marks_first: bool,
    second: PatternNumber,
    marks_second: bool,
)
    requires first { first.0 < length marks.old.items }
    requires second { second.0 < length marks.old.items }
    ensures { AddsMarks marks.old.items marks.new.items (side marks_first first.0 ++ side marks_second second.0) }
{
    mark_if(marks, first, marks_first);
    mark_if(marks, second, marks_second);
}

/// Marks a number, if a test says so.
fn mark_if(marks: &mut Vec<bool>, number: PatternNumber, is_so: bool)
    requires { number.0 < length marks.old.items }
    ensures { AddsMarks marks.old.items marks.new.items (side is_so number.0) }
{
    if !is_so {
        return;
    }
    marks[number.0] = true;
}
