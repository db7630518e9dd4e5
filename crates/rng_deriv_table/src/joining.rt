// Choices of two patterns that have a side in common.
ghost use Rattle.std.specs.Prelude.{◌<◌, ◌↔◌, All, IfOk, List, OnOk, length};
ghost use Rattle.rng_model.specs.matching.Document.{Attribute, Item};
ghost use Rattle.rng_model.specs.simple.Table.{Table};
ghost use Rattle.rng_model.specs.matching.GrammarMatching.{Reading};
ghost use Rattle.rng_deriv_laws.specs.plain.Restricted.{IsRestricted};
ghost use Rattle.rng_deriv_laws.specs.plain.Taking.{Takes};
ghost use Rattle.rng_deriv_table.specs.views.Choices.{IsEither, SomeTakes};
ghost use Rattle.rng_deriv_table.specs.views.PatternTable.{Longer};
ghost use Rattle.rng_deriv_table.specs.views.Trees.{tree_of};

use crate::pattern::{Pattern, PatternNumber};
use crate::pattern_table::PatternTable;
use rng_model::OutOfMemory;
use std::alloc::Global;

/// The most groups and interleaves in one another that are compared for a side in common.
const MOST_LEVELS: u8 = 64;

impl PatternTable {
    /// Returns a choice of the members. Two groups or two interleaves with a side in common become one: `a & c` and
    /// `b & c` become `(a | b) & c`. So sides that are left in two ways each do not multiply.
    ///
    /// RELAX NG Specification, sections 6.2.1, 6.2.2 and 6.2.6. The result obeys the restrictions of section 7 if all
    /// members do. Fails only when out of memory. The cost is that of `choice`, and a look-up for each of at most 64
    /// levels in which a side is in common.
    pub fn joined(
        &mut self,
        alloc: Global,
        members: &[PatternNumber],
    ) -> Result<PatternNumber, OutOfMemory>
        requires { All (λ m. m.0 < length self.old) members.now }
        ensures longer { OnOk result (Longer self.old self.new) }
        ensures inside { IfOk result (λ n. n.0 < length self.new) }
        ensures matches { IfOk result (λ n. (t : Table) (g : Reading) (xs : List Attribute) (ns : List Item)
            → Takes g (tree_of t self.new n.0) xs ns ↔ SomeTakes g (tree_of t self.old) members.now xs ns) }
        ensures restricted { IfOk result (λ n. (t : Table) → All (λ m. IsRestricted (tree_of t self.old m.0)) members.now
            → IsRestricted (tree_of t self.new n.0)) }
    {
        match members {
            [first, second] => self.joined_two(alloc, MOST_LEVELS, *first, *second),
            _ => self.choice(alloc, members),
        }
    }

    /// Returns a choice of two, joined where they have a side in common, down to so many levels.
    fn joined_two(
        &mut self,
        alloc: Global,
        levels: u8,
        first: PatternNumber,
        second: PatternNumber,
    ) -> Result<PatternNumber, OutOfMemory>
        requires first { first.0 < length self.old }
        requires second { second.0 < length self.old }
        ensures longer { OnOk result (Longer self.old self.new) }
        ensures inside { IfOk result (λ n. n.0 < length self.new) }
        ensures matches { IfOk result (λ n. (t : Table) → IsEither (tree_of t self.old first.0) (tree_of t self.old second.0) (tree_of t self.new n.0)) }
        ensures restricted { IfOk result (λ n. (t : Table) → IsRestricted (tree_of t self.old first.0) → IsRestricted (tree_of t self.old second.0)
            → IsRestricted (tree_of t self.new n.0)) }
    {
        if levels == 0 || first == second {
            return self.choice(alloc, &[first, second]);
        }
        match (self.pattern(first), self.pattern(second)) {
            (Pattern::Interleave(a, b), Pattern::Interleave(c, d)) if a == c => {
                let (side, b, d) = (*a, *b, *d);
                let rest = self.joined_two(alloc, levels - 1, b, d)?;
                self.interleave(side, rest)
            }
            (Pattern::Interleave(a, b), Pattern::Interleave(c, d)) if b == d => {
                let (a, c, side) = (*a, *c, *b);
                let rest = self.joined_two(alloc, levels - 1, a, c)?;
                self.interleave(rest, side)
            }
            (Pattern::Group(a, b), Pattern::Group(c, d)) if a == c => {
                let (side, b, d) = (*a, *b, *d);
                let rest = self.joined_two(alloc, levels - 1, b, d)?;
                self.group(side, rest)
            }
            (Pattern::Group(a, b), Pattern::Group(c, d)) if b == d => {
                let (a, c, side) = (*a, *c, *b);
                let rest = self.joined_two(alloc, levels - 1, a, c)?;
                self.group(rest, side)
            }
            _ => self.choice(alloc, &[first, second]),
        }
    }
}
