// Patterns that match everything that others match, as far as their shape shows.
ghost use Rattle.std.specs.Prelude.{◌<◌, ◌++◌, ◌∷◌, [], All, IfOk, IsTrue, List, OnOk, length};
ghost use Rattle.std.specs.List.{Contains};
ghost use Rattle.rng_model.specs.matching.Document.{Attribute, Item};
ghost use Rattle.rng_model.specs.simple.Table.{Table};
ghost use Rattle.rng_model.specs.matching.GrammarMatching.{Reading};
ghost use Rattle.rng_deriv_laws.specs.plain.Taking.{Takes};
ghost use Rattle.rng_deriv_table.specs.views.Choices.{Covers, SomeTakes};
ghost use Rattle.rng_deriv_table.specs.views.Trees.{tree_of};
ghost use Rattle.rng_deriv_table.specs.declared.pattern.PatternNumber.{PatternNumber};

use crate::pattern::{Pattern, PatternNumber};
use crate::pattern_table::PatternTable;
use rng_model::OutOfMemory;
use std::alloc::Global;

impl PatternTable {
    /// Removes alternatives that others cover. Two are compared part by part. Of more, each is compared with its
    /// neighbours, by the fronts of groups alone. Fails only when out of memory. Linear.
    pub(crate) fn remove_covered(
        &self,
        alloc: Global,
        alternatives: &mut Vec<PatternNumber>,
    ) -> Result<(), OutOfMemory>
        requires { All (λ m. m.0 < length self.now) alternatives.old.items }
        ensures within { OnOk result ((m : PatternNumber) → Contains alternatives.new.items m → Contains alternatives.old.items m) }
        ensures takes { OnOk result ((t : Table) (g : Reading) (xs : List Attribute) (ns : List Item)
            → SomeTakes g (tree_of t self.now) alternatives.old.items xs ns → SomeTakes g (tree_of t self.now) alternatives.new.items xs ns) }
    {
        if alternatives.len() < 2 {
            return Ok(());
        }
        *alternatives = self.without_covered(alloc, alternatives.as_slice())?;
        self.remove_one_of_two(alternatives);
        Ok(())
    }

    /// Returns the alternatives without those that a neighbour covers by its front.
    fn without_covered(
        &self,
        alloc: Global,
        alternatives: &[PatternNumber],
    ) -> Result<Vec<PatternNumber>, OutOfMemory>
        requires { All (λ m. m.0 < length self.now) alternatives.now }
        ensures within { IfOk result (λ left. (m : PatternNumber) → Contains left.items m → Contains alternatives.now m) }
        ensures takes { IfOk result (λ left. (t : Table) (g : Reading) (xs : List Attribute) (ns : List Item)
            → SomeTakes g (tree_of t self.now) alternatives.now xs ns → SomeTakes g (tree_of t self.now) left.items xs ns) }
    {
        let mut left = Vec::with_capacity(alloc, alternatives.len())?;
        for alternative in alternatives {
            self.add_uncovered(&mut left, *alternative)?;
        }
        Ok(left)
    }

    /// Appends an alternative, unless the last one covers it by its front. It replaces the last one if it covers that.
    fn add_uncovered(
        &self,
        left: &mut Vec<PatternNumber>,
        alternative: PatternNumber,
    ) -> Result<(), OutOfMemory>
        requires inside { All (λ m. m.0 < length self.now) left.old.items }
        requires alternative { alternative.0 < length self.now }
        ensures within { OnOk result ((m : PatternNumber) → Contains left.new.items m → Contains (left.old.items ++ alternative ∷ []) m) }
        ensures takes { OnOk result ((t : Table) (g : Reading) (xs : List Attribute) (ns : List Item)
            → SomeTakes g (tree_of t self.now) (left.old.items ++ alternative ∷ []) xs ns → SomeTakes g (tree_of t self.now) left.new.items xs ns) }
    {
        let Some(last) = left.as_slice().last() else {
            return Ok(left.push(alternative)?);
        };
        let last = *last;
        if self.covers_by_front(last, alternative) {
            return Ok(());
        }
        if self.covers_by_front(alternative, last) {
            left.pop();
        }
        Ok(left.push(alternative)?)
    }

    /// Returns true only if a group covers another one, since both end alike and its front is an option and then the
    /// front of the other one, as `(a?, b), c` covers `b, c`. Allocates nothing.
    fn covers_by_front(&self, outer: PatternNumber, inner: PatternNumber) -> bool
        requires outer { outer.0 < length self.now }
        requires inner { inner.0 < length self.now }
        ensures { IsTrue result → Covers self.now outer inner }
    {
        let Pattern::Group(first, second) = self.pattern(outer) else {
            return false;
        };
        match self.pattern(inner) {
            Pattern::Group(front, rest) if rest == second => {
                self.is_behind_option(*first, *front)
            }
            _ => false,
        }
    }

    /// Returns true only if a pattern is an option and then this part. Allocates nothing.
    fn is_behind_option(&self, pattern: PatternNumber, part: PatternNumber) -> bool
        requires pattern { pattern.0 < length self.now }
        ensures { IsTrue result → Covers self.now pattern part }
    {
        match self.pattern(pattern) {
            Pattern::Group(option, rest) => *rest == part && self.facts(*option).nullable,
            _ => false,
        }
    }

    /// Removes one of two alternatives if the other one covers it.
    fn remove_one_of_two(&self, alternatives: &mut Vec<PatternNumber>)
        requires { All (λ m. m.0 < length self.now) alternatives.old.items }
        ensures within { (m : PatternNumber) → Contains alternatives.new.items m → Contains alternatives.old.items m }
        ensures takes { (t : Table) (g : Reading) (xs : List Attribute) (ns : List Item)
            → SomeTakes g (tree_of t self.now) alternatives.old.items xs ns → SomeTakes g (tree_of t self.now) alternatives.new.items xs ns }
    {
        let [one, other] = alternatives.as_slice() else {
            return;
        };
        let (one, other) = (*one, *other);
        if self.is_covered(one, other) {
            alternatives.truncate(1);
        } else if self.is_covered(other, one) {
            alternatives.remove(0);
        }
    }

    /// Returns whether an alternative, `inner`, adds nothing to another one. This is so if it is empty and the other
    /// one may be left out, or if the other one covers it. Allocates nothing.
    fn is_covered(&self, outer: PatternNumber, inner: PatternNumber) -> bool
        requires outer { outer.0 < length self.now }
        requires inner { inner.0 < length self.now }
        ensures { IsTrue result → Covers self.now outer inner }
    {
        match self.pattern(inner) {
            Pattern::Empty => self.facts(outer).nullable,
            _ => self.covers(outer, inner),
        }
    }

    /// Returns whether a pattern covers another one. Groups and interleaves are compared part by part, where a part
    /// that the other one lacks may be left out. A choice covers its members. False means that it is not known.
    /// Allocates nothing. The cost is at most one pass over the parts of the first pattern, and for a choice the
    /// logarithm of the number of its members.
    fn covers(&self, outer: PatternNumber, inner: PatternNumber) -> bool
        requires outer { outer.0 < length self.now }
        requires inner { inner.0 < length self.now }
        ensures { IsTrue result → Covers self.now outer inner }
    {
        if outer == inner {
            return true;
        }
        match self.pattern(outer) {
            Pattern::Choice(members) => is_among(members.as_slice(), inner),
            Pattern::Group(first, second) => match self.pattern(inner) {
                Pattern::Group(front, rest) if rest == second => self.covers(*first, *front),
                _ => false,
            },
            Pattern::Interleave(first, second) => {
                if self.is_enough(*first, *second, inner) {
                    return self.covers(*first, inner);
                }
                if self.is_enough(*second, *first, inner) {
                    return self.covers(*second, inner);
                }
                match self.pattern(inner) {
                    Pattern::Interleave(one, other) => {
                        self.covers(*first, *one) && self.covers(*second, *other)
                    }
                    _ => false,
                }
            }
            _ => false,
        }
    }

    /// Returns whether one side of an interleave may cover a pattern alone. The other side must be one that may be left
    /// out, and none of its elements may be in the pattern. The first side must have at least as many members as the
    /// pattern. Allocates nothing.
    fn is_enough(&self, side: PatternNumber, other: PatternNumber, inner: PatternNumber) -> bool
        requires side { side.0 < length self.now }
        requires other { other.0 < length self.now }
        requires inner { inner.0 < length self.now }
        ensures { IsTrue result → (t : Table) (g : Reading) → Takes g (tree_of t self.now other.0) [] [] }
    {
        let other = self.facts(other);
        let inner = self.facts(inner);
        other.nullable
            && !other.elements.may_meet(inner.elements)
            && inner.members <= self.facts(side).members
    }
}

/// Returns true only if a pattern is one of these, whose numbers rise. Allocates nothing. The cost is the logarithm of
/// how many there are.
fn is_among(members: &[PatternNumber], number: PatternNumber) -> bool
    ensures { IsTrue result → Contains members.now number }
{
    members.binary_search(&number).is_ok()
}
