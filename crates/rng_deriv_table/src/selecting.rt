// Some patterns of a table, copied into a table of their own.
ghost use Rattle.std.specs.Prelude.{◌≡◌, ◌<◌, ℕ, All, IfOk, length, map, take};
ghost use Rattle.std.specs.List.{AllZip};
ghost use Rattle.rng_model.specs.simple.Table.{Table};
ghost use Rattle.rng_deriv_table.specs.plain.Kept.{AreRestrictedAlike};
ghost use Rattle.rng_deriv_table.specs.views.Node.{node_of};
ghost use Rattle.rng_deriv_table.specs.views.PatternTable.{ArePartsBelow, IsPatternTable};
ghost use Rattle.rng_deriv_table.specs.plain.Selecting.{AreClosed, AreCopied, IsMarked, Marks, given_for, node_at, parts_of, renumbered};
ghost use Rattle.rng_deriv_table.specs.views.Taking.{AreTaken};
ghost use Rattle.rng_deriv_table.specs.views.Trees.{tree_of};

use crate::pattern::{Pattern, PatternNumber};
use crate::pattern_table::PatternTable;
use rng_model::OutOfMemory;
use std::alloc::Global;

impl PatternTable {
    /// Returns a table with the patterns of these numbers and their parts, and their numbers there, in the same order.
    ///
    /// The trees are the same. So if the first of these numbers are those of a grammar's patterns (`of`), the same
    /// holds in the new table. Fails only when out of memory. Time and memory are linear in this table, but the result
    /// has only the rows that are needed.
    pub fn selected(
        &self,
        alloc: Global,
        numbers: &[PatternNumber],
    ) -> Result<(PatternTable, Vec<PatternNumber>), OutOfMemory>
        requires { All (λ n. n.0 < length self.now) numbers.now }
        ensures count { IfOk result (λ r. length r.1.items ≡ length numbers.now) }
        ensures inside { IfOk result (λ r. All (λ n. n.0 < length r.0) r.1.items) }
        ensures same { IfOk result (λ r. (t : Table) → AllZip (λ m n. tree_of t r.0 n.0 ≡ tree_of t self.now m.0) numbers.now r.1.items) }
        ensures taken { IfOk result (λ r. (t : Table) (k : ℕ) → AreTaken t self.now (take k numbers.now) → AreTaken t r.0 (take k r.1.items)) }
        ensures restricted { IfOk result (λ r. (t : Table) (k : ℕ) → AreRestrictedAlike t self.now (take k numbers.now)
            → AreRestrictedAlike t r.0 (take k r.1.items)) }
    {
        let marks = self.with_parts(alloc, numbers)?;
        let (table, given) = self.copied(alloc, marks.as_slice())?;
        let places = all_given(alloc, numbers, given.as_slice())?;
        Ok((table, places))
    }

    /// Returns marks on these numbers, and on those of all their parts.
    fn with_parts(&self, alloc: Global, numbers: &[PatternNumber]) -> Result<Vec<bool>, OutOfMemory>
        requires { All (λ n. n.0 < length self.now) numbers.now }
        ensures closed { IfOk result (λ marks. AreClosed self.now marks.items) }
        ensures marked { IfOk result (λ marks. All (λ n. IsMarked marks.items n.0) numbers.now) }
    {
        let mut marks = vec![in alloc; false; self.len()]?;
        mark_all(numbers, &mut marks);
        let mut left = self.len();
        'rows: while left > 0 {
            left -= 1;
            if marks[left] {
                self.mark_parts(PatternNumber(left), &mut marks);
            }
        }
        Ok(marks)
    }

    /// Marks the parts of the pattern with this number.
    fn mark_parts(&self, number: PatternNumber, marks: &mut Vec<bool>)
        requires inside { number.0 < length self.now }
        requires long { length marks.old.items ≡ length self.now }
        ensures marked { Marks marks.old.items marks.new.items (parts_of (node_at self.now number.0)) }
        ensures table { IsPatternTable self.now }
    {
        match self.pattern(number) {
            Pattern::Choice(members) => mark_all(members.as_slice(), marks),
            Pattern::Group(first, second) | Pattern::Interleave(first, second) => {
                mark_all(&[*first, *second], marks)
            }
            Pattern::OneOrMore(body) => mark_all(&[*body], marks),
            _ => {}
        }
    }

    /// Returns a table with the marked patterns, and for each marked pattern its number there.
    fn copied(
        &self,
        alloc: Global,
        marks: &[bool],
    ) -> Result<(PatternTable, Vec<PatternNumber>), OutOfMemory>
        requires { AreClosed self.now marks.now }
        ensures long { IfOk result (λ r. length r.1.items ≡ length self.now) }
        ensures copied { IfOk result (λ r. AreCopied self.now marks.now r.0 r.1.items) }
    {
        let mut table = PatternTable::new(alloc);
        let mut given = Vec::new(alloc);
        'rows: while given.len() < self.len() {
            let number = PatternNumber(given.len());
            let pattern = self.pattern(number);
            if !marks[number.0] {
                given.push(PatternNumber(0))?;
                continue;
            }
            let copy = renumbered(alloc, pattern, given.as_slice())?;
            given.push(table.add(copy)?)?;
        }
        Ok((table, given))
    }
}

/// Marks the numbers.
fn mark_all(numbers: &[PatternNumber], marks: &mut Vec<bool>)
    requires { All (λ n. n.0 < length marks.old.items) numbers.now }
    ensures { Marks marks.old.items marks.new.items (map (λ n. n.0) numbers.now) }
{
    for number in numbers {
        marks[number.0] = true;
    }
}

/// Returns the pattern with the new numbers of its parts.
fn renumbered(
    alloc: Global,
    pattern: &Pattern,
    given: &[PatternNumber],
) -> Result<Pattern, OutOfMemory>
    requires { ArePartsBelow (length given.now) (node_of pattern.now) }
    ensures { IfOk result (λ p. node_of p ≡ renumbered (given_for given.now) (node_of pattern.now)) }
{
    match pattern {
        Pattern::NotAllowed => Ok(Pattern::NotAllowed),
        Pattern::Empty => Ok(Pattern::Empty),
        Pattern::Text => Ok(Pattern::Text),
        Pattern::Choice(members) => {
            let members = all_given(alloc, members.as_slice(), given)?;
            Ok(Pattern::Choice(members))
        }
        Pattern::Group(first, second) => Ok(Pattern::Group(given[first.0], given[second.0])),
        Pattern::Interleave(first, second) => {
            Ok(Pattern::Interleave(given[first.0], given[second.0]))
        }
        Pattern::OneOrMore(body) => Ok(Pattern::OneOrMore(given[body.0])),
        Pattern::Element(element) => Ok(Pattern::Element(*element)),
        Pattern::Attribute(position) => Ok(Pattern::Attribute(*position)),
        Pattern::Data(position) => Ok(Pattern::Data(*position)),
    }
}

/// Returns the new number of each of the numbers.
fn all_given(
    alloc: Global,
    numbers: &[PatternNumber],
    given: &[PatternNumber],
) -> Result<Vec<PatternNumber>, OutOfMemory>
    requires { All (λ n. n.0 < length given.now) numbers.now }
    ensures { IfOk result (λ all. map (λ n. n.0) all.items ≡ map (given_for given.now) (map (λ n. n.0) numbers.now)) }
{
    let mut all = Vec::new(alloc);
    for number in numbers {
        all.push(given[number.0])?;
    }
    Ok(all)
}
