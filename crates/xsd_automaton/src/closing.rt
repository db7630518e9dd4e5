// The positions that are reached without a character.
ghost use Rattle.std.specs.Prelude.{◌≡◌, ◌<◌, ◌≤◌, ℕ, length, option_copied, slice_get};
ghost use Rattle.xsd_regex.specs.plain.StateTable.{Has};
ghost use Rattle.xsd_regex.specs.plain.Positions.{position_at};
ghost use Rattle.xsd_automaton.specs.plain.Closures.{AreWithin, IsClosed, IsNoMore, edges, part_edges, with_all};
ghost use Rattle.xsd_positions.specs.views.Positions.{part_of, positions_of};
ghost use Rattle.xsd_automaton.specs.views.Classes.{classes_of};

use crate::reached::Reached;
use xsd_positions::{Part, Position, Positions};

// adds all positions that those so far lead to, and so on: each once
pub(crate) fn close(positions: &Positions, reached: &mut Reached)
    requires within { AreWithin (positions_of positions.now) }
    requires room { length (positions_of positions.now) < 12289 }
    requires known { (i : ℕ) → Has reached.old i → i ≤ length (positions_of positions.now) }
    ensures closed { IsClosed (positions_of positions.now) reached.new }
    ensures more { (i : ℕ) → Has reached.old i → Has reached.new i }
    ensures no_more { IsNoMore (positions_of positions.now) reached.old reached.new }
{
    let mut place = 0;
    while let Some(number) = reached.get(place) {
        add_edges(positions, number, reached);
        place += 1;
    }
}

// adds the positions that this one leads to
fn add_edges(positions: &Positions, number: u16, reached: &mut Reached)
    requires within { AreWithin (positions_of positions.now) }
    requires room { length (positions_of positions.now) < 12289 }
    ensures { reached.new ≡ with_all reached.old (edges (positions_of positions.now) number) }
{
    let Some(position) = position_of(positions, number) else {
        return;
    };
    add_parts(positions, number, position.part, reached);
    if position.is_nullable {
        reached.add(position.next);
    }
}

// adds the parts that the part leads to
fn add_parts(positions: &Positions, number: u16, part: Part, reached: &mut Reached)
    requires { (j : ℕ) → Has (part_edges (positions_of positions.now) number (part_of (classes_of positions.now) part)) j → j < 12289 }
    ensures { reached.new ≡ with_all reached.old (part_edges (positions_of positions.now) number (part_of (classes_of positions.now) part)) }
{
    match part {
        Part::Nothing | Part::OneOf(_) | Part::Never => {}
        Part::Both(first) => {
            reached.add(first);
            if is_nullable(positions, first) {
                reached.add(number.saturating_sub(1));
            }
        }
        Part::Either(first) => {
            reached.add(first);
            reached.add(number.saturating_sub(1));
        }
        Part::Optional | Part::Repeated => reached.add(number.saturating_sub(1)),
    }
}

// whether the part of the position matches the empty text
fn is_nullable(positions: &Positions, number: u16) -> bool
    ensures { result ≡ (position_at (positions_of positions.now) number).is_nullable }
{
    match position_of(positions, number) {
        Some(position) => position.is_nullable,
        None => false,
    }
}

// the position with this number, and none for the end
pub(crate) fn position_of(positions: &Positions, number: u16) -> Option<&Position>
    ensures { option_copied result ≡ slice_get positions.now.positions.items number }
{
    positions.positions.get(usize::from(number))
}
