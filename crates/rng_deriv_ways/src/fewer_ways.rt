// Ways that can be left out because of others.
ghost use Rattle.std.specs.Prelude.{◌≡◌, ◌<◌, IfOk, length, true};
ghost use Rattle.rng_deriv_ways.specs.plain.FewerWays.{AreRepeated, AreUncovered, HasOptionalRest};
ghost use Rattle.rng_deriv_ways.specs.plain.Ways.{AreInside, IsInside};

use crate::way::{LeafWay, Ways};
use rng_deriv_table::{Pattern, PatternNumber, PatternTable};
use rng_model::OutOfMemory;
use smallvec::SmallVec;
use std::alloc::Global;

/// Returns the ways of a repetition to take an attribute, from those of one copy, where `more` is the pattern of more
/// copies.
///
/// No attribute is in a group or an interleave of the copy (RELAX NG Specification, section 7.1.2). So the attribute
/// may be all that a copy takes, and more copies take the rest. Nothing is left of the copy itself, so patterns do not
/// grow with each attribute. Fails only when out of memory.
pub fn repeated_ways(
    alloc: Global,
    table: &PatternTable,
    copies: &[LeafWay],
    more: PatternNumber,
) -> Result<Ways, OutOfMemory>
    requires { AreInside table.now copies.now }
    ensures { IfOk result (λ all. AreRepeated table.now copies.now more all.items) }
{
    let mut all = SmallVec::new(alloc);
    'copies: for copy in copies {
        if table.facts(copy.rest).nullable {
            all.push(LeafWay {
                leaf: copy.leaf,
                rest: more,
            })?;
        }
    }
    Ok(all)
}

/// Returns the ways of the second side of a group that add something to those of the first side.
///
/// Suppose that the second side takes all subsequences of what it takes. Then what is left of it after a leaf takes no
/// more than the second side itself. So it takes no more than what is left if the first side has the same leaf and may
/// end after it. Fails only when out of memory. The cost is a comparison of each way with those of the first side.
pub fn uncovered(
    alloc: Global,
    table: &PatternTable,
    second: PatternNumber,
    firsts: &[LeafWay],
    seconds: Ways,
) -> Result<Ways, OutOfMemory>
    requires second { second.0 < length table.now }
    requires firsts { AreInside table.now firsts.now }
    requires seconds { AreInside table.now seconds.items }
    ensures { IfOk result (λ left. AreUncovered table.now second firsts.now seconds.items left.items) }
{
    let facts = table.facts(second);
    if !facts.nullable || !facts.subsequences {
        return Ok(seconds);
    }
    let mut left = SmallVec::new(alloc);
    'seconds: for way in seconds.as_slice() {
        if !is_covered(table, second, firsts, *way) {
            left.push(*way)?;
        }
    }
    Ok(left)
}

/// Returns whether a way of the second side is left out: some way of the first side with its leaf may end after that. A
/// way whose rest is the second side, or a group that ends with it, as in a repetition, is kept, since its states come
/// again. Allocates nothing.
fn is_covered(table: &PatternTable, second: PatternNumber, firsts: &[LeafWay], way: LeafWay) -> bool
    requires firsts { AreInside table.now firsts.now }
    requires way { IsInside table.now way }
    ensures { result ≡ true → HasOptionalRest table.now firsts.now way.leaf }
{
    if way.rest == second {
        return false;
    }
    match table.pattern(way.rest) {
        Pattern::Group(_, behind) if *behind == second => false,
        _ => has_optional_rest(table, firsts, way.leaf),
    }
}

/// Returns whether some way with this leaf may end after it. Allocates nothing.
fn has_optional_rest(table: &PatternTable, ways: &[LeafWay], leaf: PatternNumber) -> bool
    requires { AreInside table.now ways.now }
    ensures { result ≡ true → HasOptionalRest table.now ways.now leaf }
{
    'ways: for way in ways {
        if way.leaf == leaf && table.facts(way.rest).nullable {
            return true;
        }
    }
    false
}
