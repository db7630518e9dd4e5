//! The positions of an expression.
ghost use Rattle.std.specs.Prelude.{◌≡◌, ◌<◌, ◌≤◌, IfOk, IfSome, MatchOption, length, map};
ghost use Rattle.rng_model.specs.regexes.Expressions.{Regex};
ghost use Rattle.xsd_regex.specs.views.Rows.{row_of, rows_of};
ghost use Rattle.rng_model.specs.regexes.Sizes.{size, most_size};
ghost use Rattle.rng_model.specs.regexes.plain.Postfix.{postfix};
ghost use Rattle.xsd_regex.specs.plain.Positions.{ArePositionsOf};
ghost use Rattle.xsd_positions.specs.views.Positions.{positions_of};

use crate::drafts::written_out;
use crate::links::linked;
use crate::places::placed;
use crate::position::Positions;
use rng_model::OutOfMemory;
use std::alloc::Global;
use xsd_regex::{Expression, Row};

/// The greatest number of positions of an expression.
pub const MOST_POSITIONS: usize = 12_286;

/// Returns the positions of an expression, or `None` if the expression is too large: if its size with its counts written
/// out is above 4,096.
///
/// There are at most `MOST_POSITIONS`. Fails only when out of memory. The cost is linear in the rows of the expression and
/// in the positions.
pub fn positions(alloc: Global, expression: Expression) -> Result<Option<Positions>, OutOfMemory>
    ensures exact { IfOk result (λ o. (r : Regex) → rows_of expression ≡ postfix r
        → MatchOption o (most_size < size r) (λ p. (size r ≤ most_size) × ArePositionsOf r p.first (positions_of p))) }
    ensures few { IfOk result (λ o. IfSome o (λ p. length p.positions.items ≤ MOST_POSITIONS)) }
{
    positions_of_rows(alloc, expression.into_rows())
}

// The same by its rows. Rows of no expression may have no positions.
fn positions_of_rows(alloc: Global, rows: Vec<Row>) -> Result<Option<Positions>, OutOfMemory>
    ensures exact { IfOk result (λ o. (r : Regex) → map row_of rows.items ≡ postfix r
        → MatchOption o (most_size < size r) (λ p. (size r ≤ most_size) × ArePositionsOf r p.first (positions_of p))) }
    ensures few { IfOk result (λ o. IfSome o (λ p. length p.positions.items ≤ MOST_POSITIONS)) }
{
    let Some(draft) = written_out(alloc, rows)? else {
        return Ok(None);
    };
    let Some(links) = linked(alloc, draft.rows.as_slice())? else {
        return Ok(None);
    };
    let count = links.positions.len();
    if count > MOST_POSITIONS {
        return Ok(None);
    }
    let Some(first) = count.checked_sub(1) else {
        return Ok(None);
    };
    let Some(positions) = placed(alloc, links.positions, count as u16)? else {
        return Ok(None);
    };
    Ok(Some(Positions {
        positions,
        classes: draft.classes,
        first: first as u16,
    }))
}
