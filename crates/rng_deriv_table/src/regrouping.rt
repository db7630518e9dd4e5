// Groups of a grammar nested in another way, so that copies of an option are next to each other.
ghost use Rattle.std.specs.Prelude.{◌≡◌, ◌<◌, IfOk, IfSome, IsTrue, List, OnOk, length};
ghost use Rattle.rng_model.specs.simple.Table.{Table};
ghost use Rattle.rng_model.specs.simple.Tree.{group, s_joined};
ghost use Rattle.rng_deriv_table.specs.plain.Copies.{AreCopies};
ghost use Rattle.rng_deriv_table.specs.plain.Kept.{IsRegrouped};
ghost use Rattle.rng_deriv_table.specs.views.Options.{AreOptions, HasOption, IsOfOption, IsOptionOf, option};
ghost use Rattle.rng_deriv_table.specs.views.Node.{Node};
ghost use Rattle.rng_deriv_table.specs.views.PatternTable.{Longer};
ghost use Rattle.rng_deriv_table.specs.views.Trees.{tree_of};
ghost use Rattle.rng_deriv_table.specs.declared.pattern.PatternNumber.{PatternNumber};

use crate::pattern::{Pattern, PatternNumber};
use crate::pattern_table::PatternTable;
use rng_model::OutOfMemory;
use std::collections::HashMap;

/// For each pattern `p` whose option was met, a pattern that takes what `p` takes, or nothing.
pub(crate) type Options = HashMap<PatternNumber, PatternNumber>;

impl PatternTable {
    /// Returns a pattern that takes the same as this one, and obeys the restrictions that it obeys. Keeps each option.
    ///
    /// Here `o` is the option of `p`, and `q` is one or more copies of `o`, one after the other:
    ///
    /// - `(p, q)?` becomes `o, q`;
    /// - `o, p` becomes `p, o`;
    /// - `(p, q), o` becomes `p, (o, q)`.
    ///
    /// So definitions that each use the next one twice, as in `x = y, y?` and `y = z, z?`, lead to copies of one option.
    /// These are matched one by one, and no other way to share children among them is tried. Fails only when out of
    /// memory. The cost is a few look-ups, and one comparison for each copy.
    ///
    /// RELAX NG Specification, sections 6.2.1 and 6.2.2.
    pub(crate) fn regrouped(
        &mut self,
        options: &mut Options,
        number: PatternNumber,
    ) -> Result<PatternNumber, OutOfMemory>
        requires number { number.0 < length self.old }
        requires options { AreOptions self.old options.old }
        ensures longer { OnOk result (Longer self.old self.new) }
        ensures inside { IfOk result (λ n. n.0 < length self.new) }
        ensures options { OnOk result (AreOptions self.new options.new) }
        ensures is { IfOk result (λ n. (t : Table) → IsRegrouped (tree_of t self.old number.0) (tree_of t self.new n.0)) }
    {
        match self.pattern(number) {
            Pattern::Choice(members) => {
                let [first, body] = members.as_slice() else {
                    return Ok(number);
                };
                if !self.is_empty(*first) {
                    return Ok(number);
                }
                let body = *body;
                self.regrouped_option(options, number, body)
            }
            Pattern::Group(first, second) => {
                let (first, second) = (*first, *second);
                self.regrouped_group(options, number, first, second)
            }
            _ => Ok(number),
        }
    }

    /// Returns the option of a pattern, nested in another way if its body is a group of a pattern and copies of its
    /// option. Keeps it.
    fn regrouped_option(
        &mut self,
        options: &mut Options,
        number: PatternNumber,
        body: PatternNumber,
    ) -> Result<PatternNumber, OutOfMemory>
        requires number { number.0 < length self.old }
        requires body { body.0 < length self.old }
        requires is { (t : Table) → tree_of t self.old number.0 ≡ option (tree_of t self.old body.0) }
        requires options { AreOptions self.old options.old }
        ensures longer { OnOk result (Longer self.old self.new) }
        ensures inside { IfOk result (λ n. n.0 < length self.new) }
        ensures options { OnOk result (AreOptions self.new options.new) }
        ensures is { IfOk result (λ n. (t : Table) → IsRegrouped (tree_of t self.old number.0) (tree_of t self.new n.0)) }
    {
        let Some((first, copies)) = self.option_and_copies(options, body) else {
            keep_option(options, body, number)?;
            return Ok(number);
        };
        let option = self.group(first, copies)?;
        keep_option(options, body, option)?;
        Ok(option)
    }

    /// Returns the group with this number, nested in another way if a side is the option of the other one, or one more
    /// copy of it.
    fn regrouped_group(
        &mut self,
        options: &Options,
        number: PatternNumber,
        first: PatternNumber,
        second: PatternNumber,
    ) -> Result<PatternNumber, OutOfMemory>
        requires number { number.0 < length self.old }
        requires first { first.0 < length self.old }
        requires second { second.0 < length self.old }
        requires is { (t : Table) → tree_of t self.old number.0 ≡ s_joined group (tree_of t self.old first.0) (tree_of t self.old second.0) }
        requires options { AreOptions self.old options.now }
        ensures longer { OnOk result (Longer self.old self.new) }
        ensures inside { IfOk result (λ n. n.0 < length self.new) }
        ensures is { IfOk result (λ n. (t : Table) → IsRegrouped (tree_of t self.old number.0) (tree_of t self.new n.0)) }
    {
        if is_option(options, first, second) {
            return self.group(second, first);
        }
        let Pattern::Group(body, copies) = self.pattern(first) else {
            return Ok(number);
        };
        let (body, copies) = (*body, *copies);
        if !is_option(options, second, body) || !self.are_copies(second, copies) {
            return Ok(number);
        }
        let copies = self.group(second, copies)?;
        self.group(body, copies)
    }

    /// Returns the option of the first side of a group, and its second side, if that is one or more copies of this
    /// option. Allocates nothing. The cost is a look-up, and one comparison for each copy.
    fn option_and_copies(
        &self,
        options: &Options,
        number: PatternNumber,
    ) -> Option<(PatternNumber, PatternNumber)>
        requires number { number.0 < length self.now }
        requires options { AreOptions self.now options.now }
        ensures inside { IfSome result (λ r. (r.0.0 < length self.now) × (r.1.0 < length self.now)) }
        ensures sides { IfSome result (λ r. (t : Table) → IsOfOption (tree_of t self.now number.0) (tree_of t self.now r.0.0) (tree_of t self.now r.1.0)) }
    {
        let Pattern::Group(first, second) = self.pattern(number) else {
            return None;
        };
        let option = option_of(options, *first)?;
        if self.are_copies(option, *second) {
            Some((option, *second))
        } else {
            None
        }
    }

    /// Returns true only if a pattern is copies of another one, one after the other. Allocates nothing. The cost is one
    /// comparison for each copy.
    fn are_copies(&self, copy: PatternNumber, number: PatternNumber) -> bool
        requires copy { copy.0 < length self.now }
        requires number { number.0 < length self.now }
        ensures { IsTrue result → (t : Table) → AreCopies (tree_of t self.now copy.0) (tree_of t self.now number.0) }
    {
        let mut rest = number;
        'copies: while rest != copy {
            match self.pattern(rest) {
                Pattern::Group(first, second) if *first == copy => rest = *second,
                _ => return false,
            }
        }
        true
    }
}

/// Returns the option that is kept of a pattern. Allocates nothing. The cost is one look-up.
fn option_of(options: &Options, number: PatternNumber) -> Option<PatternNumber>
    ensures { IfSome result (λ o. HasOption options.now number o) }
{
    Some(*options.get(&number)?)
}

/// Returns true only if the first pattern is kept as the option of the second one. Allocates nothing. The cost is one
/// look-up.
fn is_option(options: &Options, option: PatternNumber, number: PatternNumber) -> bool
    ensures { IsTrue result → HasOption options.now number option }
{
    match options.get(&number) {
        Some(kept) => *kept == option,
        None => false,
    }
}

/// Keeps the option of a pattern. Fails only when out of memory. The cost is one look-up.
fn keep_option(
    options: &mut Options,
    number: PatternNumber,
    option: PatternNumber,
) -> Result<(), OutOfMemory>
    ensures { OnOk result ((ns : List Node) → IsOptionOf ns number option → AreOptions ns options.old → AreOptions ns options.new) }
{
    options.insert(number, option)?;
    Ok(())
}
