// The rows that are reached from the row of the start.
ghost use Rattle.std.specs.Prelude.{◌≡◌, ◌<◌, ◌↔◌, ℕ, [], ◌∷◌, length, map, slice_get, true, IfOk, Some};
ghost use Rattle.rng_simple.specs.plain.Search.{lists};
ghost use Rattle.rng_simple.specs.plain.RowReach.{content_of, nexts, row_next};
ghost use Rattle.rng_simple.specs.views.RowTable.{IsRowTable, row_count};
ghost use Rattle.rng_simple.specs.plain.SimpleParts.{AreRowsBelow};
ghost use Rattle.rng_labels.specs.plain.Queues.{IsReachedBy};

use crate::row_table::RowTable;
use crate::rows::Row;
use crate::simple_parts::row_of;
use crate::worklist::collect;
use std::alloc::{AllocError, Global};

/// A mark for each row that is reached: the first row, the children of each reached row, and the row of the body of
/// each reached element.
pub fn reached_rows(
    alloc: Global,
    table: &RowTable<'_>,
    contents: &[usize],
    first: usize,
) -> Result<Vec<bool>, AllocError>
    requires table { IsRowTable table.now }
    requires contents { AreRowsBelow (row_count table.now) contents.now }
    requires first { first < row_count table.now }
    ensures long { IfOk result (λ marks. length marks.items ≡ row_count table.now) }
    ensures reached { IfOk result (λ marks. (i : ℕ) →
        IsReachedBy (row_next table.now.rows.items (content_of contents.now)) (first ∷ []) i ↔ (slice_get marks.items i ≡ Some true)) }
{
    let next = next_rows(alloc, table.rows.as_slice(), contents)?;
    let start = one_row(alloc, first)?;
    let marks = collect(alloc, next.as_slice(), start.as_slice())?;
    Ok(marks)
}

/// The rows next to each row.
fn next_rows(alloc: Global, rows: &[Row], contents: &[usize]) -> Result<Vec<Vec<usize>>, AllocError>
    ensures { IfOk result (λ all. lists all.items ≡ map (nexts (content_of contents.now)) rows.now) }
{
    let mut all = Vec::new(alloc);
    'rows: for row in rows {
        all.push(rows_next_to(alloc, *row, contents)?)?;
    }
    Ok(all)
}

/// The children of a row, or the row of the body of its element.
fn rows_next_to(alloc: Global, row: Row, contents: &[usize]) -> Result<Vec<usize>, AllocError>
    ensures { IfOk result (λ next. next.items ≡ nexts (content_of contents.now) row) }
{
    match row {
        Row::NotAllowed | Row::Empty | Row::Text | Row::Data(_) | Row::Value(_) => {
            Ok(Vec::new(alloc))
        }
        Row::Element(element) => one_row(alloc, row_of(contents, element)),
        Row::Attribute(_, a) | Row::List(a) | Row::DataExcept(_, a) | Row::OneOrMore(a) => {
            one_row(alloc, a)
        }
        Row::Choice(a, b) | Row::Group(a, b) | Row::Interleave(a, b) => {
            let mut next = one_row(alloc, a)?;
            next.push(b)?;
            Ok(next)
        }
    }
}

fn one_row(alloc: Global, row: usize) -> Result<Vec<usize>, AllocError>
    ensures { IfOk result (λ rows. rows.items ≡ row ∷ []) }
{
    let mut rows = Vec::new(alloc);
    rows.push(row)?;
    Ok(rows)
}
