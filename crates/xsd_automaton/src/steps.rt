// The positions that are reached by a text.
ghost use Rattle.std.specs.Prelude.{◌≡◌, ◌<◌, ◌≤◌, ◌↔◌, IsTrue, ℕ, [], length, All};
ghost use Rattle.std.specs.Option.{option_to_list};
ghost use Rattle.std.specs.Str.{chars};
ghost use Rattle.rng_model.specs.regexes.Expressions.{Denotes, Regex, holds};
ghost use Rattle.xsd_regex.specs.plain.StateTable.{Has};
ghost use Rattle.xsd_regex.specs.plain.Positions.{ArePositionsOf};
ghost use Rattle.xsd_automaton.specs.plain.Closures.{AcceptTheSame, AreWithin, IsClosed, LeadsTo, StepsTo, has_number, next_at, nexts, with_all};
ghost use Rattle.xsd_positions.specs.views.Positions.{positions_of};
ghost use Rattle.xsd_positions.specs.views.Positions.{class_at};
ghost use Rattle.xsd_automaton.specs.views.Classes.{classes_of};

use crate::closing::{close, position_of};
use crate::reached::{MOST, Reached};
use arrayvec::ArrayVec;
use xsd_positions::{Part, Positions};

// whether the positions accept the text
#[inline(never)]
pub(crate) fn accepts_from_first(positions: &Positions, text: &str) -> bool
    requires within { AreWithin (positions_of positions.now) }
    requires room { length (positions_of positions.now) < 12289 }
    requires first { positions.now.first ≤ length (positions_of positions.now) }
    ensures { (r : Regex) → ArePositionsOf r positions.now.first (positions_of positions.now) → IsTrue result ↔ Denotes r (chars text.now) }
{
    let mut reached = Reached::new();
    let mut nexts = ArrayVec::new();
    start(positions, &mut reached);
    for c in text.chars() {
        step(positions, c, &mut reached, &mut nexts);
    }
    is_at_end(positions, &reached)
}

// the positions that are reached before the first character
pub(crate) fn start(positions: &Positions, reached: &mut Reached)
    requires within { AreWithin (positions_of positions.now) }
    requires room { length (positions_of positions.now) < 12289 }
    requires first { positions.now.first ≤ length (positions_of positions.now) }
    requires empty { reached.old ≡ [] }
    ensures closed { IsClosed (positions_of positions.now) reached.new }
    ensures leads { LeadsTo (positions_of positions.now) positions.now.first [] reached.new }
{
    reached.add(positions.first);
    close(positions, reached);
}

// whether the end is reached
pub(crate) fn is_at_end(positions: &Positions, reached: &Reached) -> bool
    requires { length (positions_of positions.now) < 12289 }
    ensures { result ≡ has_number reached.now (length (positions_of positions.now)) }
{
    reached.contains(positions.positions.len() as u16)
}

// goes on from the positions so far to those behind the character
pub(crate) fn step(
    positions: &Positions,
    c: char,
    reached: &mut Reached,
    nexts: &mut ArrayVec<u16, MOST>,
)
    requires within { AreWithin (positions_of positions.now) }
    requires room { length (positions_of positions.now) < 12289 }
    requires closed { IsClosed (positions_of positions.now) reached.old }
    ensures closed { IsClosed (positions_of positions.now) reached.new }
    ensures steps { StepsTo (positions_of positions.now) c reached.old reached.new }
{
    find_nexts(positions, c, reached.numbers(), nexts);
    enter(positions, nexts.as_slice(), reached);
}

// goes on from these positions in place of those so far
pub(crate) fn enter(positions: &Positions, numbers: &[u16], reached: &mut Reached)
    requires within { AreWithin (positions_of positions.now) }
    requires room { length (positions_of positions.now) < 12289 }
    requires known { (i : ℕ) → Has numbers.now i → i ≤ length (positions_of positions.now) }
    ensures closed { IsClosed (positions_of positions.now) reached.new }
    ensures same { AcceptTheSame (positions_of positions.now) numbers.now reached.new }
{
    reached.clear();
    add_all(numbers, reached);
    close(positions, reached);
}

// what is behind those of the positions that take the character
pub(crate) fn find_nexts(
    positions: &Positions,
    c: char,
    numbers: &[u16],
    found: &mut ArrayVec<u16, MOST>,
)
    requires { length numbers.now ≤ 12289 }
    ensures { found.new.items ≡ nexts (positions_of positions.now) c numbers.now }
{
    found.clear();
    for number in numbers {
        if let Some(next) = next_behind(positions, c, *number) {
            found.push(next);
        }
    }
}

// what is behind the position, if it takes the character
fn next_behind(positions: &Positions, c: char, number: u16) -> Option<u16>
    ensures { option_to_list result ≡ next_at (positions_of positions.now) c number }
{
    let Some(position) = position_of(positions, number) else {
        return None;
    };
    let Part::OneOf(class) = position.part else {
        return None;
    };
    if class_holds(positions, class, c) {
        Some(position.next)
    } else {
        None
    }
}

// whether the class with this number holds the character
fn class_holds(positions: &Positions, class: u16, c: char) -> bool
    ensures { result ≡ holds (class_at (classes_of positions.now) class) c }
{
    match positions.classes.get(usize::from(class)) {
        Some(class) => class.holds(c),
        None => false,
    }
}

// adds the numbers, each once
fn add_all(numbers: &[u16], reached: &mut Reached)
    requires { All (λ n. n < 12289) numbers.now }
    ensures { reached.new ≡ with_all reached.old numbers.now }
{
    for number in numbers {
        reached.add(*number);
    }
}
