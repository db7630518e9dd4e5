// The rows inside those between whose sides names must not meet.
ghost use Rattle.std.specs.Prelude.{◌≡◌, ◌<◌, ◌++◌, ℕ, length, slice_get, All, Contains, IfOk, OnOk, Some};
ghost use Rattle.rng_rules.specs.plain.NamesMeetReach.{lists};
ghost use Rattle.rng_rules.specs.views.NamesMeetSides.{AreRows, IsJoin, IsUnder, join_list, row_sides};

use crate::names_meet_rows::within;
use crate::names_meet_sides::Rows;
use rng_model::OutOfMemory;
use std::alloc::Global;

/// Marks each row: 1 if it is reached from a row between whose sides names must not meet. Linear.
pub(crate) fn under_joins(alloc: Global, rows: &Rows<'_>) -> Result<Vec<usize>, OutOfMemory>
    requires { AreRows rows.now }
    ensures long { IfOk result (λ marks. length marks.items ≡ length rows.now.standing.items) }
    ensures all { IfOk result (λ marks. (k : ℕ) → IsUnder rows.now.of rows.now.grammar.now (lists rows.now.above.items) k → slice_get marks.items k ≡ Some 1) }
{
    let joins = joins(alloc, rows)?;
    within(alloc, rows.grammar, joins.as_slice())
}

/// Returns the rows of parts between whose sides names must not meet.
fn joins(alloc: Global, rows: &Rows<'_>) -> Result<Vec<usize>, OutOfMemory>
    requires { AreRows rows.now }
    ensures below { IfOk result (λ joins. All (λ k. k < length rows.now.standing.items) joins.items) }
    ensures all { IfOk result (λ joins. (row left right : ℕ) → IsJoin rows.now.of rows.now.grammar.now row left right → Contains joins.items row) }
{
    let mut joins = Vec::new(alloc);
    for row in 0..rows.standing.len() {
        add_join(&mut joins, rows, row)?;
    }
    Ok(joins)
}

/// Adds the row if names must not meet between its sides.
fn add_join(joins: &mut Vec<usize>, rows: &Rows<'_>, row: usize) -> Result<(), OutOfMemory>
    requires { row < length rows.now.standing.items }
    ensures { OnOk result (joins.new.items ≡ joins.old.items ++ join_list row (row_sides rows.now row)) }
{
    if let Some(_) = rows.sides(row) {
        joins.push(row)?;
    }
    Ok(())
}
