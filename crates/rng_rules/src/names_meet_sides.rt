// Whether the rows reached from two lists occur on the two sides of a row.
ghost use Rattle.std.specs.Prelude.{◌≡◌, ◌<◌, ◌+◌, ℕ, length, All, Contains, IfOk, OnOk, IfSome, IsTrue, IsFalse, true};
ghost use Rattle.rng_rules.specs.plain.NamesMeetReach.{lists};
ghost use Rattle.rng_rules.specs.views.NamesMeetSides.{AreMarks, AreRows, MeetBetween, are_marked, row_sides};

use crate::names_meet::NamesOf;
use crate::names_meet_reach::reach;
use crate::names_meet_rows::{above, no_marks, standing};
use rng_model::{OutOfMemory, PatternId, SimpleGrammar};
use std::alloc::Global;

/// The rows of a grammar, prepared for a search.
#[derive(Drop)]
pub(crate) struct Rows<'a> {
    pub grammar: &'a SimpleGrammar,
    pub of: NamesOf,
    /// For each row the choices, groups, interleaves and oneOrMores that have it as a direct part.
    pub above: Vec<Vec<usize>>,
    /// For each row 1 if it is in the start or in the body of a listed element, and 0 if not.
    pub standing: Vec<usize>,
}

/// For each row the last round in which it was reached, by the first and by the second of two searches.
#[derive(Drop)]
pub(crate) struct Marks {
    pub first: Vec<usize>,
    pub second: Vec<usize>,
}

impl<'a> Rows<'a> {
    /// Prepares the rows of a grammar. Linear.
    pub(crate) fn new(
        alloc: Global,
        grammar: &'a SimpleGrammar,
        of: NamesOf,
    ) -> Result<Self, OutOfMemory>
        ensures rows { IfOk result AreRows }
        ensures grammar { IfOk result (λ rows. rows.grammar.now ≡ grammar.now) }
        ensures of { IfOk result (λ rows. rows.of ≡ of) }
    {
        let _ = grammar.start();
        Ok(Rows {
            grammar,
            of,
            above: above(alloc, grammar)?,
            standing: standing(alloc, grammar)?,
        })
    }

    /// Returns marks of no round for each row.
    pub(crate) fn marks(&self, alloc: Global) -> Result<Marks, OutOfMemory>
        ensures { IfOk result (AreMarks (length self.now.standing.items) 1) }
    {
        Ok(Marks {
            first: no_marks(alloc, self.standing.len())?,
            second: no_marks(alloc, self.standing.len())?,
        })
    }

    /// Returns whether the two searches meet at some row of a part: one side is reached from the first rows, and the
    /// other side from the second rows. The cost is linear in what is reached.
    pub(crate) fn meet(
        &self,
        alloc: Global,
        marks: &mut Marks,
        round: usize,
        first: &[usize],
        second: &[usize],
    ) -> Result<bool, OutOfMemory>
        requires rows { AreRows self.now }
        requires marks { AreMarks (length self.now.standing.items) round marks.old }
        requires first { All (λ k. k < length self.now.standing.items) first.now }
        requires second { All (λ k. k < length self.now.standing.items) second.now }
        ensures marks { OnOk result (AreMarks (length self.now.standing.items) (round + 1) marks.new) }
        ensures only { IfOk result (λ yes. IsTrue yes → MeetBetween self.now.of self.now.grammar.now (lists self.now.above.items) first.now second.now) }
        ensures all { IfOk result (λ yes. MeetBetween self.now.of self.now.grammar.now (lists self.now.above.items) first.now second.now → IsTrue yes) }
    {
        let reached = reach(alloc, self.above.as_slice(), first, &mut marks.first, round)?;
        let _ = reach(
            alloc,
            self.above.as_slice(),
            second,
            &mut marks.second,
            round,
        )?;
        Ok(self.is_one_met(reached.as_slice(), marks, round))
    }

    /// Returns whether one of the rows has sides with the mark of the round, one among the first and one among the
    /// second.
    fn is_one_met(&self, reached: &[usize], marks: &Marks, round: usize) -> bool
        requires below { All (λ k. k < length self.now.standing.items) reached.now }
        requires first { length marks.now.first.items ≡ length self.now.standing.items }
        requires second { length marks.now.second.items ≡ length self.now.standing.items }
        ensures found { IsTrue result → (row : ℕ) × Contains reached.now row
            × (are_marked marks.now.first.items marks.now.second.items round (row_sides self.now row) ≡ true) }
        ensures none { IsFalse result → (row : ℕ) → Contains reached.now row
            → IsFalse (are_marked marks.now.first.items marks.now.second.items round (row_sides self.now row)) }
    {
        for row in reached {
            if self.is_met(*row, marks, round) {
                return true;
            }
        }
        false
    }

    /// Returns whether the sides of the row have the mark of the round, one among the first and one among the second.
    fn is_met(&self, row: usize, marks: &Marks, round: usize) -> bool
        requires below { row < length self.now.standing.items }
        requires first { length marks.now.first.items ≡ length self.now.standing.items }
        requires second { length marks.now.second.items ≡ length self.now.standing.items }
        ensures { result ≡ are_marked marks.now.first.items marks.now.second.items round (row_sides self.now row) }
    {
        match self.sides(row) {
            Some((left, right)) => {
                (marks.first[left] == round && marks.second[right] == round)
                    || (marks.first[right] == round && marks.second[left] == round)
            }
            None => false,
        }
    }

    /// Returns the sides of a row of a part.
    pub(crate) fn sides(&self, row: usize) -> Option<(usize, usize)>
        requires { row < length self.now.standing.items }
        ensures sides { result ≡ row_sides self.now row }
        ensures below { IfSome result (λ s. (s.0 < row) × (s.1 < row)) }
    {
        if self.standing[row] != 1 {
            return None;
        }
        match self.grammar.pattern(PatternId(row)) {
            Some(pattern) => self.of.sides(pattern),
            None => None,
        }
    }
}
