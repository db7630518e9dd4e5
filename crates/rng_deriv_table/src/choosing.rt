// Choices of patterns, as sets.
ghost use Rattle.std.specs.Prelude.{◌≡◌, ◌⊎◌, ◌<◌, ◌↔◌, All, IfOk, IfSome, IsTrue, OnOk, ℕ, List, length, map, nat_eq};
ghost use Rattle.std.specs.HashSet.{contains};
ghost use Rattle.std.specs.List.{Contains};
ghost use Rattle.std.specs.List.Sorted.{IsStrictlyIncreasing};
ghost use Rattle.rng_model.specs.matching.Document.{Attribute, Item};
ghost use Rattle.rng_model.specs.simple.Table.{Table};
ghost use Rattle.rng_model.specs.simple.Tree.{Simple, s_not_allowed};
ghost use Rattle.rng_deriv_laws.specs.plain.Restricted.{IsRestricted, IsTyped};
ghost use Rattle.rng_model.specs.matching.GrammarMatching.{Reading};
ghost use Rattle.rng_deriv_laws.specs.plain.Taking.{Takes};
ghost use Rattle.rng_deriv_table.specs.views.Choices.{IsAbsorbedBy, IsAllowed, IsAlternativeOf, IsOnlyMember, SomeTakes};
ghost use Rattle.rng_deriv_table.specs.views.PatternTable.{Longer};
ghost use Rattle.rng_deriv_table.specs.plain.Reduced.{HasAlternative, IsReducedChoice, MayBeMember};
ghost use Rattle.rng_deriv_table.specs.views.Trees.{tree_of};
ghost use Rattle.rng_deriv_table.specs.declared.pattern.PatternNumber.{PatternNumber};

use crate::pattern::{Pattern, PatternNumber};
use crate::pattern_table::PatternTable;
use rng_model::OutOfMemory;
use std::alloc::Global;
use std::collections::HashSet;

impl PatternTable {
    /// Returns a choice of the members: notAllowed if there are none, and the member itself if there is one. The order
    /// of members, and how often each occurs, make no difference. If `p` may be left out, `q` is dropped beside `p, q`.
    /// Of two alternatives, one that the other covers is dropped, as `a & c` beside `a & b? & c` or `(a | b) & c`. The
    /// same holds for two such alternatives that are followed by the same pattern. If `p` may be left out, `q, r` is
    /// dropped next to `(p, q), r`.
    ///
    /// RELAX NG Specification, sections 6.2.1 and 4.20. The result obeys the restrictions of section 7 if all members
    /// do. Fails only when out of memory. The cost is a sort of all alternatives, or one pass over the members if those
    /// that are not notAllowed are all the same. Two alternatives take one more pass over their parts.
    pub fn choice(
        &mut self,
        alloc: Global,
        members: &[PatternNumber],
    ) -> Result<PatternNumber, OutOfMemory>
        requires { All (λ m. m.0 < length self.old) members.now }
        ensures longer { Longer self.old self.new }
        ensures inside { IfOk result (λ n. n.0 < length self.new) }
        ensures alternatives { IfOk result (λ n. (t : Table) (s : Simple ℕ)
            → HasAlternative (tree_of t self.new n.0) s → IsAlternativeOf (tree_of t self.old) members.now s) }
        ensures matches { IfOk result (λ n. (t : Table) (g : Reading) (xs : List Attribute) (ns : List Item)
            → Takes g (tree_of t self.new n.0) xs ns ↔ SomeTakes g (tree_of t self.old) members.now xs ns) }
        ensures reduced { IfOk result (λ n. (t : Table) → IsReducedChoice (tree_of t self.new n.0)) }
        ensures none { IfOk result (λ n. (t : Table) → ((s : Simple ℕ) → IsAlternativeOf (tree_of t self.old) members.now s → ⊥)
            → tree_of t self.new n.0 ≡ s_not_allowed) }
        ensures restricted { IfOk result (λ n. (t : Table) → All (λ m. IsRestricted (tree_of t self.old m.0)) members.now
            → IsRestricted (tree_of t self.new n.0)) }
        ensures typed { IfOk result (λ n. (t : Table) → All (λ m. IsTyped (tree_of t self.old m.0)) members.now
            → IsTyped (tree_of t self.new n.0)) }
    {
        if let Some(only) = self.only_member(members) {
            return Ok(only);
        }
        let mut alternatives = self.alternatives(alloc, members)?;
        self.remove_absorbed(alloc, &mut alternatives)?;
        self.remove_covered(alloc, &mut alternatives)?;
        put_in_order(&mut alternatives)?;
        self.choice_of(alternatives)
    }

    /// Returns a member such that each other member is the same or notAllowed, if there is one. Allocates nothing.
    fn only_member(&self, members: &[PatternNumber]) -> Option<PatternNumber>
        requires { All (λ m. m.0 < length self.now) members.now }
        ensures { IfSome result (IsOnlyMember self.now members.now) }
    {
        let mut only = *members.first()?;
        let mut allowed = self.is_allowed(only);
        for member in members {
            if *member == only || !self.is_allowed(*member) {
                continue;
            }
            if allowed {
                return None;
            }
            only = *member;
            allowed = true;
        }
        Some(only)
    }

    /// Returns whether the pattern is not notAllowed. Allocates nothing.
    fn is_allowed(&self, number: PatternNumber) -> bool
        requires { number.0 < length self.now }
        ensures { (t : Table) → IsAllowed result (tree_of t self.now number.0) }
    {
        match self.pattern(number) {
            Pattern::NotAllowed => false,
            _ => true,
        }
    }

    /// Returns the alternatives of the members, in their order.
    fn alternatives(
        &self,
        alloc: Global,
        members: &[PatternNumber],
    ) -> Result<Vec<PatternNumber>, OutOfMemory>
        requires { All (λ m. m.0 < length self.now) members.now }
        ensures inside { IfOk result (λ all. All (λ m. m.0 < length self.now) all.items) }
        ensures members { IfOk result (λ all. (t : Table) → All (λ m. MayBeMember (tree_of t self.now m.0)) all.items) }
        ensures same { IfOk result (λ all. (t : Table) (s : Simple ℕ)
            → IsAlternativeOf (tree_of t self.now) all.items s ↔ IsAlternativeOf (tree_of t self.now) members.now s) }
    {
        let mut all = Vec::with_capacity(alloc, members.len())?;
        for member in members {
            self.add_alternatives(*member, &mut all)?;
        }
        Ok(all)
    }

    /// Adds the alternatives of a member to those of others.
    fn add_alternatives(
        &self,
        member: PatternNumber,
        all: &mut Vec<PatternNumber>,
    ) -> Result<(), OutOfMemory>
        requires { member.0 < length self.now }
        ensures inside { OnOk result (All (λ m. m.0 < length self.now) all.old.items → All (λ m. m.0 < length self.now) all.new.items) }
        ensures members { OnOk result ((t : Table) → All (λ m. MayBeMember (tree_of t self.now m.0)) all.old.items
            → All (λ m. MayBeMember (tree_of t self.now m.0)) all.new.items) }
        ensures joined { OnOk result ((t : Table) (s : Simple ℕ) → IsAlternativeOf (tree_of t self.now) all.new.items s
            ↔ (IsAlternativeOf (tree_of t self.now) all.old.items s ⊎ HasAlternative (tree_of t self.now member.0) s)) }
    {
        match self.pattern(member) {
            Pattern::NotAllowed => {}
            Pattern::Choice(members) => all.extend_from_slice(members.as_slice())?,
            _ => all.push(member)?,
        }
        Ok(())
    }

    /// Removes those that another one absorbs. Linear.
    fn remove_absorbed(
        &self,
        alloc: Global,
        alternatives: &mut Vec<PatternNumber>,
    ) -> Result<(), OutOfMemory>
        requires { All (λ m. m.0 < length self.now) alternatives.old.items }
        ensures within { OnOk result ((m : PatternNumber) → Contains alternatives.new.items m → Contains alternatives.old.items m) }
        ensures takes { OnOk result ((t : Table) (g : Reading) (xs : List Attribute) (ns : List Item)
            → SomeTakes g (tree_of t self.now) alternatives.old.items xs ns → SomeTakes g (tree_of t self.now) alternatives.new.items xs ns) }
    {
        if alternatives.len() < 2 {
            return Ok(());
        }
        let absorbed = self.absorbed(alloc, alternatives.as_slice())?;
        if absorbed.is_empty() {
            return Ok(());
        }
        alternatives.retain(|alternative| !absorbed.contains(&alternative.0));
        Ok(())
    }

    /// Returns the numbers of patterns that one of the alternatives absorbs.
    fn absorbed(
        &self,
        alloc: Global,
        alternatives: &[PatternNumber],
    ) -> Result<HashSet<usize>, OutOfMemory>
        requires { All (λ m. m.0 < length self.now) alternatives.now }
        ensures { IfOk result (λ absorbed. (m : PatternNumber) → IsTrue (contains nat_eq absorbed m.0)
            → (other : PatternNumber) × Contains alternatives.now other × IsAbsorbedBy self.now m other) }
    {
        let mut absorbed = HashSet::new(alloc);
        'alternatives: for alternative in alternatives {
            if let Some(number) = self.absorbed_by(*alternative) {
                absorbed.insert(number.0)?;
            }
        }
        Ok(absorbed)
    }

    /// Returns a pattern that this one absorbs: the part after a side that may be left out. It is never a choice, since
    /// no alternative is one.
    fn absorbed_by(&self, pattern: PatternNumber) -> Option<PatternNumber>
        requires { pattern.0 < length self.now }
        ensures { IfSome result (λ m. IsAbsorbedBy self.now m pattern) }
    {
        match self.pattern(pattern) {
            Pattern::Group(first, second)
                if self.facts(*first).nullable && !self.is_choice(*second) => { Some(*second) }
            _ => None,
        }
    }

    /// Returns whether the pattern is a choice. Allocates nothing.
    fn is_choice(&self, number: PatternNumber) -> bool
        requires { number.0 < length self.now }
    {
        matches!(self.pattern(number), Pattern::Choice(_))
    }

    /// Returns a choice of alternatives.
    fn choice_of(&mut self, alternatives: Vec<PatternNumber>) -> Result<PatternNumber, OutOfMemory>
        requires inside { All (λ m. m.0 < length self.old) alternatives.items }
        requires members { (t : Table) → All (λ m. MayBeMember (tree_of t self.old m.0)) alternatives.items }
        requires rising { IsStrictlyIncreasing (map (λ m. m.0) alternatives.items) }
        ensures longer { Longer self.old self.new }
        ensures inside { IfOk result (λ n. n.0 < length self.new) }
        ensures same { IfOk result (λ n. (t : Table) (s : Simple ℕ)
            → HasAlternative (tree_of t self.new n.0) s ↔ IsAlternativeOf (tree_of t self.old) alternatives.items s) }
        ensures reduced { IfOk result (λ n. (t : Table) → IsReducedChoice (tree_of t self.new n.0)) }
    {
        if alternatives.len() > 1 {
            return self.number_of(Pattern::Choice(alternatives));
        }
        match alternatives.first() {
            Some(only) => Ok(*only),
            None => self.not_allowed(),
        }
    }
}

/// Puts the numbers in rising order, each once. The cost is one pass over each run of rising numbers.
fn put_in_order(numbers: &mut Vec<PatternNumber>) -> Result<(), OutOfMemory>
    ensures same { OnOk result ((m : PatternNumber) → Contains numbers.new.items m ↔ Contains numbers.old.items m) }
    ensures rising { OnOk result (IsStrictlyIncreasing (map (λ m. m.0) numbers.new.items)) }
{
    numbers.sort()?;
    numbers.dedup();
    Ok(())
}
