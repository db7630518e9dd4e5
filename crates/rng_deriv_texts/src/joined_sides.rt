// Alternatives that have sides in common.
ghost use Rattle.std.specs.Prelude.{◌≡◌, ◌↔◌, ◌<◌, true, All, IfOk, List, OnOk, length};
ghost use Rattle.rng_model.specs.matching.Document.{Attribute, Item};
ghost use Rattle.rng_model.specs.matching.GrammarMatching.{Reading};
ghost use Rattle.rng_model.specs.simple.Table.{Table};
ghost use Rattle.rng_deriv_laws.specs.plain.Restricted.{IsRestricted};
ghost use Rattle.rng_deriv_laws.specs.plain.Taking.{Same, Takes};
ghost use Rattle.rng_deriv_table.specs.views.Choices.{SomeTakes};
ghost use Rattle.rng_deriv_table.specs.views.PatternTable.{Longer};
ghost use Rattle.rng_deriv_table.specs.views.Trees.{tree_of};

use rng_deriv_table::{Pattern, PatternNumber, PatternTable};
use rng_deriv_ways::Rests;
use rng_model::OutOfMemory;
use smallvec::SmallVec;
use std::alloc::Global;

/// The most alternatives that are joined.
const MOST_ALTERNATIVES: usize = 8;

/// Returns a pattern that takes the same as this one. A choice of at most eight members, of which each two neighbours have
/// a side in common, is joined, so that as few alternatives as possible are left.
pub fn with_sides_joined(
    alloc: Global,
    table: &mut PatternTable,
    number: PatternNumber,
) -> Result<PatternNumber, OutOfMemory>
    requires { number.0 < length table.old }
    ensures longer { OnOk result (Longer table.old table.new) }
    ensures inside { IfOk result (λ n. n.0 < length table.new) }
    ensures same { IfOk result (λ n. (t : Table) (g : Reading) → Same g (tree_of t table.new n.0) (tree_of t table.old number.0)) }
    ensures restricted { IfOk result (λ n. (t : Table) → IsRestricted (tree_of t table.old number.0) → IsRestricted (tree_of t table.new n.0)) }
{
    let Pattern::Choice(members) = table.pattern(number) else {
        return Ok(number);
    };
    if !have_sides_in_common(table, members.as_slice()) {
        return Ok(number);
    }
    let mut alternatives: Rests = SmallVec::new(alloc);
    alternatives.extend_from_slice(members.as_slice())?;
    joined(alloc, table, alternatives.as_slice())
}

/// Returns whether these are at least two patterns and at most eight, and each two neighbours have a side in common.
/// Allocates nothing.
fn have_sides_in_common(table: &PatternTable, members: &[PatternNumber]) -> bool
    requires { All (λ m. m.0 < length table.now) members.now }
    ensures { result ≡ true → 0 < length members.now }
{
    if members.len() < 2 || members.len() > MOST_ALTERNATIVES {
        return false;
    }
    for next in 1..members.len() {
        if !have_side_in_common(table, members[next - 1], members[next]) {
            return false;
        }
    }
    true
}

/// Returns whether two patterns are groups or interleaves with a side in common. Allocates nothing.
fn have_side_in_common(table: &PatternTable, first: PatternNumber, second: PatternNumber) -> bool
    requires first { first.0 < length table.now }
    requires second { second.0 < length table.now }
{
    match (table.pattern(first), table.pattern(second)) {
        (Pattern::Group(a, b), Pattern::Group(c, d)) => a == c || b == d,
        (Pattern::Interleave(a, b), Pattern::Interleave(c, d)) => a == c || b == d,
        _ => false,
    }
}

/// Returns a choice of at least one pattern, each joined with those before it.
fn joined(
    alloc: Global,
    table: &mut PatternTable,
    members: &[PatternNumber],
) -> Result<PatternNumber, OutOfMemory>
    requires some { 0 < length members.now }
    requires inside { All (λ m. m.0 < length table.old) members.now }
    ensures longer { OnOk result (Longer table.old table.new) }
    ensures inside { IfOk result (λ n. n.0 < length table.new) }
    ensures matches { IfOk result (λ n. (t : Table) (g : Reading) (xs : List Attribute) (ns : List Item)
        → Takes g (tree_of t table.new n.0) xs ns ↔ SomeTakes g (tree_of t table.old) members.now xs ns) }
    ensures restricted { IfOk result (λ n. (t : Table) → All (λ m. IsRestricted (tree_of t table.old m.0)) members.now
        → IsRestricted (tree_of t table.new n.0)) }
{
    let mut whole = members[0];
    let mut next = 1;
    'members: while next < members.len() {
        whole = table.joined(alloc, &[whole, members[next]])?;
        next += 1;
    }
    Ok(whole)
}
