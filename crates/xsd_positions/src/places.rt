//! What has to match behind each position.
ghost use Rattle.std.specs.Prelude.{◌≡◌, ◌≤◌, [], ◌∷◌, IfOk, IfSome, length, reverse};
ghost use Rattle.std.specs.Option.{option_map};
ghost use Rattle.xsd_positions.specs.plain.Folds.{kept};
ghost use Rattle.xsd_positions.specs.plain.Places.{placed, behind_parts};

use crate::position::{Part, Position};
use rng_model::OutOfMemory;
use std::alloc::Global;

/// Returns the positions with what is behind them, or `None` if a part is missing. What is behind the last position has
/// the number `count`.
///
/// One pass from the end.
pub(crate) fn placed(
    alloc: Global,
    positions: Vec<Position>,
    count: u16,
) -> Result<Option<Vec<Position>>, OutOfMemory>
    requires { length positions.items ≡ count }
    ensures same { IfOk result (λ o. option_map (λ v. v.items) o ≡ placed (reverse positions.items) (count ∷ []) []) }
    ensures as_many { IfOk result (λ o. IfSome o (λ v. length v.items ≤ count)) }
{
    let mut left = positions;
    let mut behind = Vec::new(alloc);
    behind.push(count)?;
    let mut done = Vec::new(alloc);
    'left: while let Some(position) = left.pop() {
        let Some(next) = behind.pop() else {
            return Ok(None);
        };
        if !put_behind(&mut behind, position.part, left.len() as u16, next)? {
            return Ok(None);
        }
        done.push(Position {
            part: position.part,
            next,
            is_nullable: position.is_nullable,
        })?;
    }
    done.reverse();
    Ok(Some(done))
}

// What is behind the parts of the position with this number. Returns false if one of them has no number.
fn put_behind(
    behind: &mut Vec<u16>,
    part: Part,
    number: u16,
    next: u16,
) -> Result<bool, OutOfMemory>
    ensures { IfOk result (λ goes_on. kept goes_on (reverse behind.new.items) ≡ behind_parts part number next (reverse behind.old.items)) }
{
    match part {
        Part::Nothing | Part::OneOf(_) | Part::Never => {}
        Part::Both(_) => {
            let Some(second) = number.checked_sub(1) else {
                return Ok(false);
            };
            behind.push(second)?;
            behind.push(next)?;
        }
        Part::Either(_) => {
            behind.push(next)?;
            behind.push(next)?;
        }
        Part::Optional => behind.push(next)?,
        Part::Repeated => behind.push(number)?,
    }
    Ok(true)
}
