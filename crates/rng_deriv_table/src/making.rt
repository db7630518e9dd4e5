// Patterns made from others.
ghost use Rattle.std.specs.Prelude.{◌≡◌, ◌<◌, IfOk, IfSome, IfNone, length};
ghost use Rattle.rng_model.specs.simple.Table.{Table};
ghost use Rattle.rng_model.specs.simple.Tree.{Connector, group, interleave, s_joined, s_leaf, s_one_or_more};
ghost use Rattle.rng_deriv_laws.specs.plain.Derivatives as tree;
ghost use Rattle.rng_deriv_laws.specs.plain.Derivatives.{joined_of, repeat_of};
ghost use Rattle.rng_model.specs.matching.GrammarMatching.{Reading};
ghost use Rattle.rng_deriv_laws.specs.plain.Taking.{Same};
ghost use Rattle.rng_deriv_table.specs.views.PatternTable.{Adds, Longer};
ghost use Rattle.rng_deriv_table.specs.plain.Reduced.{MayBeSide};
ghost use Rattle.rng_deriv_table.specs.views.Trees.{tree_of};

use crate::pattern::{Pattern, PatternNumber};
use crate::pattern_table::PatternTable;
use rng_model::{ElementId, OutOfMemory};

impl PatternTable {
    /// Returns a ref to an element of the grammar. Fails only when out of memory. The cost is one look-up.
    pub fn element(&mut self, element: ElementId) -> Result<PatternNumber, OutOfMemory>
        ensures longer { Longer self.old self.new }
        ensures tree { IfOk result (λ n. Adds self.old self.new n.0 (λ t. s_leaf element.0)) }
    {
        self.number_of(Pattern::Element(element))
    }

    /// Returns whether the whole pattern is notAllowed. Allocates nothing.
    pub fn is_not_allowed(&self, number: PatternNumber) -> bool
        requires { number.0 < length self.now }
        ensures { (t : Table) → result ≡ tree.is_not_allowed (tree_of t self.now number.0) }
    {
        matches!(self.pattern(number), Pattern::NotAllowed)
    }

    /// Returns whether the whole pattern is empty. Allocates nothing.
    pub fn is_empty(&self, number: PatternNumber) -> bool
        requires { number.0 < length self.now }
        ensures { (t : Table) → result ≡ tree.is_empty (tree_of t self.now number.0) }
    {
        matches!(self.pattern(number), Pattern::Empty)
    }

    /// Returns what a group or an interleave of the two is by the rules about notAllowed and empty, or `None` if they
    /// do not apply.
    fn by_rules(&self, first: PatternNumber, second: PatternNumber) -> Option<PatternNumber>
        requires first { first.0 < length self.now }
        requires second { second.0 < length self.now }
        ensures inside { IfSome result (λ n. n.0 < length self.now) }
        ensures is { IfSome result (λ n. (k : Connector) (t : Table)
            → tree_of t self.now n.0 ≡ joined_of k (tree_of t self.now first.0) (tree_of t self.now second.0)) }
        ensures sides { IfNone result ((t : Table) → MayBeSide (tree_of t self.now first.0) × MayBeSide (tree_of t self.now second.0)) }
        ensures none { IfNone result ((k : Connector) (t : Table) → s_joined k (tree_of t self.now first.0) (tree_of t self.now second.0)
            ≡ joined_of k (tree_of t self.now first.0) (tree_of t self.now second.0)) }
    {
        if self.is_not_allowed(first) {
            return Some(first);
        }
        if self.is_not_allowed(second) {
            return Some(second);
        }
        if self.is_empty(first) {
            return Some(second);
        }
        if self.is_empty(second) {
            return Some(first);
        }
        None
    }

    /// Returns the two one after the other.
    ///
    /// RELAX NG Specification, sections 6.2.2, 4.20 and 4.21. Fails only when out of memory. The cost is one look-up.
    pub fn group(
        &mut self,
        first: PatternNumber,
        second: PatternNumber,
    ) -> Result<PatternNumber, OutOfMemory>
        requires first { first.0 < length self.old }
        requires second { second.0 < length self.old }
        ensures longer { Longer self.old self.new }
        ensures tree { IfOk result (λ n. Adds self.old self.new n.0 (λ t. joined_of group (tree_of t self.old first.0) (tree_of t self.old second.0))) }
        ensures matches { IfOk result (λ n. (t : Table) (g : Reading)
            → Same g (tree_of t self.new n.0) (s_joined group (tree_of t self.old first.0) (tree_of t self.old second.0))) }
    {
        match self.by_rules(first, second) {
            Some(number) => Ok(number),
            None => self.number_of(Pattern::Group(first, second)),
        }
    }

    /// Returns the two in any order.
    ///
    /// RELAX NG Specification, sections 6.2.6, 4.20 and 4.21. Fails only when out of memory. The cost is one look-up.
    pub fn interleave(
        &mut self,
        first: PatternNumber,
        second: PatternNumber,
    ) -> Result<PatternNumber, OutOfMemory>
        requires first { first.0 < length self.old }
        requires second { second.0 < length self.old }
        ensures longer { Longer self.old self.new }
        ensures tree { IfOk result (λ n. Adds self.old self.new n.0 (λ t. joined_of interleave (tree_of t self.old first.0) (tree_of t self.old second.0))) }
        ensures matches { IfOk result (λ n. (t : Table) (g : Reading)
            → Same g (tree_of t self.new n.0) (s_joined interleave (tree_of t self.old first.0) (tree_of t self.old second.0))) }
    {
        match self.by_rules(first, second) {
            Some(number) => Ok(number),
            None => self.number_of(Pattern::Interleave(first, second)),
        }
    }

    /// Returns the pattern once or more.
    ///
    /// RELAX NG Specification, sections 6.2.5, 4.20 and 4.21. Fails only when out of memory. The cost is one look-up.
    pub fn one_or_more(&mut self, pattern: PatternNumber) -> Result<PatternNumber, OutOfMemory>
        requires { pattern.0 < length self.old }
        ensures longer { Longer self.old self.new }
        ensures tree { IfOk result (λ n. Adds self.old self.new n.0 (λ t. repeat_of (tree_of t self.old pattern.0))) }
        ensures matches { IfOk result (λ n. (t : Table) (g : Reading)
            → Same g (tree_of t self.new n.0) (s_one_or_more (tree_of t self.old pattern.0))) }
    {
        if self.is_not_allowed(pattern) {
            return Ok(pattern);
        }
        if self.is_empty(pattern) {
            return Ok(pattern);
        }
        self.number_of(Pattern::OneOrMore(pattern))
    }
}
