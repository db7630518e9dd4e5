// Runs over a text with its white space treated, which is never built.
ghost use Rattle.std.specs.Prelude.{◌≡◌, ◌<◌, ◌≤◌, ◌↔◌, ◌++◌, ℕ, List, IfSome, IsTrue, length, take, true, false};
ghost use Rattle.std.specs.List.{list_all};
ghost use Rattle.std.specs.Str.{IsCharBoundary, IsUtf8, chars};
ghost use Rattle.rng_model.specs.regexes.Expressions.{Denotes, Regex};
ghost use Rattle.xsd_regex.specs.plain.Positions.{ArePositionsOf, Position};
ghost use Rattle.rng_model.specs.plain.BlankRuns.{is_run_byte};
ghost use Rattle.xsd_automaton.specs.declared.white_space.WhiteSpace.{WhiteSpace};
ghost use Rattle.xsd_automaton.specs.plain.Closures.{AreWithin, IsClosed, LeadsTo};
ghost use Rattle.xsd_automaton.specs.plain.ReadParts.{IsRead};
ghost use Rattle.xsd_positions.specs.views.Positions.{positions_of};
ghost use Rattle.xsd_automaton.specs.views.Sets.{AreTables, IsSetTable, LeadsToSet};
ghost use Rattle.xsd_automaton.specs.views.WhiteSpace.{left_by, treated};

use crate::reached::{MOST, Reached};
use crate::sets::{SetRow, SetTable, is_end, next_set, set_behind};
use crate::steps::{is_at_end, start, step};
use crate::white_space::{WhiteSpace, begun, next_part};
use arrayvec::ArrayVec;
use xsd_positions::Positions;

// Whether the treated text is accepted. The sets say so unless the text leads to one that has no row.
pub(crate) fn accepts_treated_by_sets(
    sets: &SetTable,
    white_space: WhiteSpace,
    text: &str,
) -> Option<bool>
    ensures { (ps : List Position) (first : ℕ) (r : Regex) → AreTables ps first sets.now.rows.items sets.now.ends.items → ArePositionsOf r first ps
        → IfSome result (λ b. IsTrue b ↔ Denotes r (chars (treated white_space text.now))) }
{
    let rows = sets.rows.as_slice();
    let mut set = 0;
    let mut rest = begun(white_space, text);
    'runs: loop {
        let Some((behind, after)) = behind_run(rows, set, rest) else {
            return None;
        };
        let Some((part, more)) = next_part(white_space, after) else {
            return is_end(sets, behind);
        };
        let Some(next) = set_behind(rows, behind, part) else {
            return None;
        };
        set = next;
        rest = more;
    }
}

// The set behind the printed characters that the text begins with, and the rest of the text. There is none if they lead to
// a set that has no row.
#[inline(always)]
fn behind_run<'a>(rows: &[SetRow], first: usize, text: &'a str) -> Option<(usize, &'a str)>
    ensures texts { IfSome result (λ r. IsUtf8 r.1.now) }
    ensures rest { IfSome result (λ r. length r.1.now ≤ length text.now) }
    ensures leads { IfSome result (λ r. (ps : List Position) (begin : ℕ) (table : IsSetTable ps begin rows.now) (kind : WhiteSpace) (whole : List ℕ)
        → IsRead (LeadsToSet ps begin rows.now table first) whole (left_by kind text.now)
        → IsRead (LeadsToSet ps begin rows.now table r.0) whole (left_by kind r.1.now)) }
{
    let Some((set, len)) = run_end(rows, first, text) else {
        return None;
    };
    let (_, rest) = text.split_at(len);
    Some((set, rest))
}

// the set behind those characters, and how many bytes they are
#[inline(always)]
fn run_end(rows: &[SetRow], first: usize, text: &str) -> Option<(usize, usize)>
    ensures boundary { IfSome result (λ r. IsCharBoundary text.now r.1) }
    ensures run { IfSome result (λ r. list_all is_run_byte (take r.1 text.now) ≡ true) }
    ensures leads { IfSome result (λ r. (ps : List Position) (begin : ℕ) (table : IsSetTable ps begin rows.now) (read : List ℕ)
        → LeadsToSet ps begin rows.now table first read → LeadsToSet ps begin rows.now table r.0 (read ++ chars (take r.1 text.now))) }
{
    let mut set = first;
    for (len, byte) in text.as_bytes().iter().enumerate() {
        if !is_printed(*byte) {
            return Some((set, len));
        }
        let Some(next) = next_set(rows, set, *byte) else {
            return None;
        };
        set = next;
    }
    Some((set, text.len()))
}

// whether the byte is no blank, and no other character of ASCII below the printed ones
#[inline(always)]
fn is_printed(byte: u8) -> bool
    ensures run { IsTrue result → is_run_byte byte ≡ true }
    ensures ascii { result ≡ false → byte < 128 }
{
    b' ' < byte
}

// whether the positions accept the treated text
#[inline(never)]
pub(crate) fn accepts_treated_from_first(
    positions: &Positions,
    white_space: WhiteSpace,
    text: &str,
) -> bool
    requires within { AreWithin (positions_of positions.now) }
    requires room { length (positions_of positions.now) < 12289 }
    requires first { positions.now.first ≤ length (positions_of positions.now) }
    ensures { (r : Regex) → ArePositionsOf r positions.now.first (positions_of positions.now)
        → IsTrue result ↔ Denotes r (chars (treated white_space text.now)) }
{
    let mut reached = Reached::new();
    let mut nexts = ArrayVec::new();
    start(positions, &mut reached);
    let mut rest = begun(white_space, text);
    'parts: while let Some((part, after)) = next_part(white_space, rest) {
        step_over(positions, part, &mut reached, &mut nexts);
        rest = after;
    }
    is_at_end(positions, &reached)
}

// goes on from the positions so far to those behind the text
fn step_over(
    positions: &Positions,
    text: &str,
    reached: &mut Reached,
    nexts: &mut ArrayVec<u16, MOST>,
)
    requires within { AreWithin (positions_of positions.now) }
    requires room { length (positions_of positions.now) < 12289 }
    requires closed { IsClosed (positions_of positions.now) reached.old }
    ensures closed { IsClosed (positions_of positions.now) reached.new }
    ensures leads { (read : List ℕ) → LeadsTo (positions_of positions.now) positions.now.first read reached.old
        → LeadsTo (positions_of positions.now) positions.now.first (read ++ chars text.now) reached.new }
{
    for c in text.chars() {
        step(positions, c, reached, nexts);
    }
}
