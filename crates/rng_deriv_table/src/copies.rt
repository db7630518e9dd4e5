// Patterns that are copies of one other pattern, one after the other.
ghost use Rattle.std.specs.Prelude.{◌≡◌, ◌<◌, IfOk, IfSome, IfNone, OnOk, length};
ghost use Rattle.rng_model.specs.simple.Table.{Table};
ghost use Rattle.rng_model.specs.simple.Tree.{group, s_joined};
ghost use Rattle.rng_deriv_table.specs.plain.Copies.{IsBehindCopies, IsOfCopies, IsOpened};
ghost use Rattle.rng_deriv_table.specs.views.PatternTable.{Longer};
ghost use Rattle.rng_deriv_table.specs.views.Trees.{tree_of};

use crate::pattern::{Pattern, PatternNumber};
use crate::pattern_table::PatternTable;
use rng_model::OutOfMemory;

impl PatternTable {
    /// Returns the sides of a group of these two after its first side is reassociated to the right. If copies of an
    /// option are at the front, the sides are the first copy, and all that follows it. Fails only when out of memory. The
    /// cost is one look-up for each group that is opened.
    pub fn reassociated(
        &mut self,
        first: PatternNumber,
        second: PatternNumber,
    ) -> Result<(PatternNumber, PatternNumber), OutOfMemory>
        requires first { first.0 < length self.old }
        requires second { second.0 < length self.old }
        ensures longer { OnOk result (Longer self.old self.new) }
        ensures inside { IfOk result (λ sides. (sides.0.0 < length self.new) × (sides.1.0 < length self.new)) }
        ensures opened { IfOk result (λ sides. (t : Table) → IsOpened (tree_of t self.old first.0) (tree_of t self.old second.0)
            (tree_of t self.new sides.0.0) (tree_of t self.new sides.1.0)) }
    {
        let mut front = first;
        let mut rest = second;
        'groups: while let Some((outer, inner)) = self.opened(front, rest) {
            rest = self.group(inner, rest)?;
            front = outer;
        }
        Ok((front, rest))
    }

    /// Returns the sides of the first side of a group, if the first side is to be reassociated. Copies of an option are
    /// reassociated down to one copy, if more copies follow. A group of the grammar is reassociated, except a nullable
    /// group of groups, since that would unfold a shared side. What is left of a group is not reassociated, so that it
    /// remains one pattern instead of one for each way through its parts. Allocates nothing.
    fn opened(
        &self,
        first: PatternNumber,
        second: PatternNumber,
    ) -> Option<(PatternNumber, PatternNumber)>
        requires first { first.0 < length self.now }
        requires second { second.0 < length self.now }
        ensures below { IfSome result (λ sides. (sides.0.0 < first.0) × (sides.1.0 < first.0)) }
        ensures sides { IfSome result (λ sides. (t : Table)
            → tree_of t self.now first.0 ≡ s_joined group (tree_of t self.now sides.0.0) (tree_of t self.now sides.1.0)) }
    {
        let Pattern::Group(outer, inner) = self.pattern(first) else {
            return None;
        };
        let unit = self.unit(first);
        if self.facts(unit).nullable {
            if unit != first {
                return Some((*outer, *inner));
            }
            if self.behind_copies(unit, second) != Some(second) {
                return None;
            }
        }
        let is_nullable = self.facts(*outer).nullable;
        if is_nullable && self.is_group(*inner) || !self.is_of_grammar(first) {
            return None;
        }
        Some((*outer, *inner))
    }

    /// Returns whether a pattern is a group. Allocates nothing.
    fn is_group(&self, number: PatternNumber) -> bool
        requires { number.0 < length self.now }
    {
        matches!(self.pattern(number), Pattern::Group(_, _))
    }

    /// Returns what follows the copies of `unit` at the front of a pattern, or `None` if the pattern consists of such
    /// copies alone. Allocates nothing. The cost is one comparison for each group of copies at the front.
    pub fn behind_copies(&self, unit: PatternNumber, number: PatternNumber) -> Option<PatternNumber>
        requires unit { unit.0 < length self.now }
        requires number { number.0 < length self.now }
        ensures inside { IfSome result (λ rest. rest.0 < length self.now) }
        ensures behind { IfSome result (λ rest. (t : Table)
            → IsBehindCopies (tree_of t self.now unit.0) (tree_of t self.now number.0) (tree_of t self.now rest.0)) }
        ensures alone { IfNone result ((t : Table) → IsOfCopies (tree_of t self.now unit.0) (tree_of t self.now number.0)) }
    {
        let mut rest = number;
        'copies: while self.unit(rest) != unit {
            let Pattern::Group(first, second) = self.pattern(rest) else {
                return Some(rest);
            };
            if self.unit(*first) != unit {
                return Some(rest);
            }
            rest = *second;
        }
        None
    }
}
