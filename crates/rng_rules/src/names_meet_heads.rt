// Rows where a search for a row that meets itself may start instead.
ghost use Rattle.std.specs.Prelude.{◌≡◌, ◌<◌, ◌+◌, ◌==◌, length, IfOk, IfSome};
ghost use Rattle.rng_rules.specs.views.NamesMeetHeads.{AreHeads, AreHeadsFrom, IsHead, IsOnlyAbove, are_equal};
ghost use Rattle.rng_rules.specs.views.NamesMeetSides.{AreRows, row_sides};

use crate::names_meet_rows::no_marks;
use crate::names_meet_sides::Rows;
use rng_model::OutOfMemory;
use std::alloc::Global;

/// Returns the head of each row. If the row is a direct part of one other row only, the head is that of the other row.
/// Otherwise it is the row itself. A row occurs on both sides of another exactly if its head does. Linear.
pub(crate) fn heads(alloc: Global, rows: &Rows<'_>) -> Result<Vec<usize>, OutOfMemory>
    requires { AreRows rows.now }
    ensures long { IfOk result (λ heads. length heads.items ≡ length rows.now.standing.items) }
    ensures heads { IfOk result (λ heads. AreHeads rows.now heads.items) }
{
    let mut heads = no_marks(alloc, rows.standing.len())?;
    let mut row = heads.len();
    'rows: while row > 0 {
        row -= 1;
        heads[row] = head(rows, heads.as_slice(), row);
    }
    Ok(heads)
}

/// Returns the head of a row, from the heads of the rows after it.
fn head(rows: &Rows<'_>, heads: &[usize], row: usize) -> usize
    requires rows { AreRows rows.now }
    requires long { length heads.now ≡ length rows.now.standing.items }
    requires below { row < length rows.now.standing.items }
    requires after { AreHeadsFrom rows.now (row + 1) heads.now }
    ensures { IsHead rows.now row result }
{
    match only_above(rows, row) {
        Some(above) => heads[above],
        None => row,
    }
}

/// Returns the row that has this one as a direct part, if it is the only one and does not have it on both sides.
fn only_above(rows: &Rows<'_>, row: usize) -> Option<usize>
    requires rows { AreRows rows.now }
    requires below { row < length rows.now.standing.items }
    ensures { IfSome result (IsOnlyAbove rows.now row) }
{
    match rows.above[row].as_slice() {
        [above] if !has_equal_sides(rows, *above) => Some(*above),
        _ => None,
    }
}

/// Returns whether the two sides of the row are the same row.
fn has_equal_sides(rows: &Rows<'_>, row: usize) -> bool
    requires { row < length rows.now.standing.items }
    ensures { result ≡ are_equal (row_sides rows.now row) }
{
    match rows.sides(row) {
        Some((left, right)) => left == right,
        None => false,
    }
}
