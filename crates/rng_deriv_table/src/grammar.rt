// The patterns of a grammar, put into a table.
ghost use Rattle.std.specs.Prelude.{◌≡◌, ◌⊎◌, ◌<◌, ◌≤◌, All, IfOk, OnOk, Some, length, slice_get};
ghost use Rattle.rng_model.specs.simple.Table.{Table};
ghost use Rattle.rng_model.specs.simple.TableRules.{AreChildrenBelow};
ghost use Rattle.rng_model.specs.matching.GrammarMatching.{Reading};
ghost use Rattle.rng_deriv_laws.specs.plain.Taking.{Same};
ghost use Rattle.rng_deriv_table.specs.plain.Facts.{members_of};
ghost use Rattle.rng_deriv_table.specs.plain.AskedFor.{IsNoChoice};
ghost use Rattle.rng_deriv_table.specs.plain.Kept.{AreRestrictedAlike, Interleaves, IsChoiceTaken, IsMadeOver, IsTakenAs};
ghost use Rattle.rng_deriv_table.specs.views.PatternTable.{Longer};
ghost use Rattle.rng_deriv_table.specs.views.Taking.{AreTaken, numbers_at, taken_over, tree_by};
ghost use Rattle.rng_deriv_table.specs.views.Trees.{tree_of};

use crate::pattern::{Pattern, PatternNumber};
use crate::pattern_table::PatternTable;
use crate::uses::Uses;
use rng_model::{OutOfMemory, PatternId, Simple, SimpleGrammar};
use std::alloc::Global;
use std::collections::HashMap;

impl PatternTable {
    /// Returns a table with the patterns of a grammar, and a number for each position.
    ///
    /// For the start, the body of each element, and each direct part of a pattern that is no choice, the pattern of the
    /// number takes what the grammar's pattern takes, and obeys the restrictions that it obeys (RELAX NG Specification,
    /// section 7). A choice that is only a side of another choice has no pattern of its own, so that a choice of many
    /// members costs what its members cost. Fails only when out of memory. The cost is a look-up for each pattern, and a
    /// sort of the members of each choice that has a pattern.
    ///
    /// Groups are nested in another way where that puts copies of an option next to each other (`regrouped`).
    pub fn of(
        alloc: Global,
        grammar: &SimpleGrammar,
    ) -> Result<(PatternTable, Vec<PatternNumber>), OutOfMemory>
        ensures long { IfOk result (λ r. length r.1.items ≡ length grammar.now.patterns) }
        ensures taken { IfOk result (λ r. AreTaken grammar.now r.0 r.1.items) }
        ensures restricted { IfOk result (λ r. AreRestrictedAlike grammar.now r.0 r.1.items) }
    {
        let uses = Uses::of(alloc, grammar)?;
        let mut table = PatternTable::new(alloc);
        let mut numbers = Vec::new(alloc);
        let mut options = HashMap::new(alloc);
        // The first number, so that an option has empty as its first member.
        table.empty()?;
        'rows: while let Some(row) = grammar.pattern(PatternId(numbers.len())) {
            let number = table.take_row(alloc, &uses, numbers.as_slice(), row)?;
            let number = table.regrouped(&mut options, number)?;
            numbers.push(number)?;
        }
        table.end_grammar();
        Ok((table, numbers))
    }

    /// Returns the number of the grammar's next pattern, if those before it have these numbers. A choice without a
    /// number of its own gets that of notAllowed.
    fn take_row(
        &mut self,
        alloc: Global,
        uses: &Uses<'_>,
        numbers: &[PatternNumber],
        row: &Simple,
    ) -> Result<PatternNumber, OutOfMemory>
        requires row { slice_get uses.now.grammar.now.patterns (length numbers.now) ≡ Some row.now }
        requires below { AreChildrenBelow (length numbers.now) row.now }
        requires inside { All (λ n. n.0 < length self.old) numbers.now }
        ensures longer { OnOk result (Longer self.old self.new) }
        ensures inside { IfOk result (λ n. n.0 < length self.new) }
        ensures taken { IfOk result (λ n. IsTakenAs uses.now.grammar.now uses.now.by_position.items numbers.now (length numbers.now) row.now
            self.old self.new n.0) }
    {
        let position = PatternId(numbers.len());
        match row {
            Simple::Choice(first, second) if uses.is_own(position) => {
                self.take_choice(alloc, uses, numbers, *first, *second)
            }
            Simple::Choice(_, _) => self.not_allowed(),
            _ => self.take(row, position, numbers),
        }
    }

    /// Returns the number of the choice of the grammar that has these sides.
    fn take_choice(
        &mut self,
        alloc: Global,
        uses: &Uses<'_>,
        numbers: &[PatternNumber],
        first: PatternId,
        second: PatternId,
    ) -> Result<PatternNumber, OutOfMemory>
        requires within { length numbers.now ≤ length uses.now.grammar.now.patterns }
        requires first { first.0 < length numbers.now }
        requires second { second.0 < length numbers.now }
        requires inside { All (λ n. n.0 < length self.old) numbers.now }
        ensures longer { OnOk result (Longer self.old self.new) }
        ensures inside { IfOk result (λ n. n.0 < length self.new) }
        ensures taken { IfOk result (λ n. IsChoiceTaken uses.now.grammar.now uses.now.by_position.items numbers.now first second self.old self.new n.0) }
    {
        let members = uses.members(alloc, first, second)?;
        let members = numbers_at(alloc, numbers, members.as_slice())?;
        self.choice(alloc, members.as_slice())
    }

    /// Returns the number of the grammar's pattern at a position, which is no choice and whose parts have these numbers.
    fn take(
        &mut self,
        row: &Simple,
        position: PatternId,
        numbers: &[PatternNumber],
    ) -> Result<PatternNumber, OutOfMemory>
        requires kind { IsNoChoice row.now }
        requires below { AreChildrenBelow (length numbers.now) row.now }
        requires inside { All (λ n. n.0 < length self.old) numbers.now }
        ensures longer { Longer self.old self.new }
        ensures inside { IfOk result (λ n. n.0 < length self.new) }
        ensures same { IfOk result (λ n. (t : Table) → slice_get t.patterns position.0 ≡ Some row.now → (g : Reading)
            → Same g (tree_of t self.new n.0) (taken_over t (tree_by t self.old numbers.now) row.now)) }
        ensures made { IfOk result (λ n. (t : Table) → slice_get t.patterns position.0 ≡ Some row.now
            → IsMadeOver t (tree_by t self.old numbers.now) row.now (tree_of t self.new n.0)) }
    {
        match row {
            Simple::NotAllowed => self.not_allowed(),
            Simple::Empty => self.empty(),
            Simple::Text => self.number_of(Pattern::Text),
            Simple::Element(element) => self.element(*element),
            Simple::Attribute(_, _) => self.number_of(Pattern::Attribute(position)),
            Simple::List(_) | Simple::Data(_) | Simple::DataExcept(_, _) | Simple::Value(_) => {
                self.number_of(Pattern::Data(position))
            }
            Simple::OneOrMore(body) => self.one_or_more(numbers[body.0]),
            Simple::Group(first, second) => self.group(numbers[first.0], numbers[second.0]),
            Simple::Interleave(first, second) => {
                self.balanced(numbers[first.0], numbers[second.0])
            }
            Simple::Choice(_, _) => unreachable!(),
        }
    }

    /// Returns the interleave of the two. The members of interleaves among them are nested so that a side has about
    /// half of them if they come one by one. So if one of n members is replaced by its rest, the new patterns are only
    /// as deep as the logarithm of n.
    ///
    /// RELAX NG Specification, section 6.2.6. Fails only when out of memory. The cost is one look-up for each level of
    /// the new nesting.
    fn balanced(
        &mut self,
        first: PatternNumber,
        second: PatternNumber,
    ) -> Result<PatternNumber, OutOfMemory>
        requires first { first.0 < length self.old }
        requires second { second.0 < length self.old }
        ensures longer { Longer self.old self.new }
        ensures both { IfOk result (λ n. Interleaves self.old self.new first.0 second.0 n.0) }
    {
        let (big, small) = self.by_members(first, second);
        let Pattern::Interleave(a, b) = self.pattern(big) else {
            return self.interleave(big, small);
        };
        let (more, less) = self.by_members(*a, *b);
        if self.members(less).saturating_add(self.members(small)) > self.members(more) {
            return self.interleave(big, small);
        }
        let joined = self.balanced(less, small)?;
        self.interleave(more, joined)
    }

    /// Returns the two, the one with more members first. Allocates nothing.
    fn by_members(
        &self,
        first: PatternNumber,
        second: PatternNumber,
    ) -> (PatternNumber, PatternNumber)
        requires first { first.0 < length self.now }
        requires second { second.0 < length self.now }
        ensures { (result ≡ (first, second)) ⊎ (result ≡ (second, first)) }
    {
        if self.members(first) < self.members(second) {
            (second, first)
        } else {
            (first, second)
        }
    }

    /// Returns the number of patterns, other than interleaves, that the pattern joins as an interleave. Allocates
    /// nothing.
    fn members(&self, number: PatternNumber) -> u16
        requires { number.0 < length self.now }
        ensures { (t : Table) → result ≡ members_of (tree_of t self.now number.0) }
    {
        self.facts(number).members
    }
}

/// Returns the numbers at these positions.
fn numbers_at(
    alloc: Global,
    numbers: &[PatternNumber],
    positions: &[PatternId],
) -> Result<Vec<PatternNumber>, OutOfMemory>
    requires { All (λ p. p.0 < length numbers.now) positions.now }
    ensures { IfOk result (λ all. all.items ≡ numbers_at numbers.now positions.now) }
{
    let mut all = Vec::new(alloc);
    for position in positions {
        all.push(numbers[position.0])?;
    }
    Ok(all)
}
