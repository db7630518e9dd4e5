// The ways of a pattern: the leaves by which it may begin, each with what is left then.
ghost use Rattle.std.specs.Prelude.{◌≡◌, ◌<◌, ◌≤◌, All, IfOk, OnOk, length};
ghost use Rattle.rng_model.specs.simple.Tree.{group, s_joined, s_one_or_more};
ghost use Rattle.rng_deriv_table.specs.views.PatternTable.{Longer};
ghost use Rattle.rng_deriv_table.specs.views.Skips.{members_at};
ghost use Rattle.rng_deriv_table.specs.views.Trees.{choice_over, tree_of};
ghost use Rattle.rng_deriv_ways.specs.plain.Kinds.{HasNoOrder, IsOfItems, connector_of};
ghost use Rattle.rng_deriv_ways.specs.views.KnownWays.{AreKnown};
ghost use Rattle.rng_deriv_ways.specs.plain.Takers.{AreCandidates};
ghost use Rattle.rng_deriv_ways.specs.plain.Ways.{AreWaysOf};

use crate::fewer_ways::{repeated_ways, uncovered};
use crate::filling::{add_filled, joined_ways};
use crate::idle::{is_idle, next_member};
use crate::known::{KnownWays, copied_ways, keep, known_ways};
use crate::leaves::ways_of_leaf;
use crate::way::{Hole, Joint, Kind, Search, Sides, Ways};
use rng_deriv_table::{Pattern, PatternNumber, PatternTable};
use rng_model::OutOfMemory;
use smallvec::SmallVec;

/// Returns the ways of a pattern to take something of this kind first, each leaf once.
///
/// A list nested to the left is reassociated to the right, so its ways are those of its first member.
///
/// There are none if the pattern contains none of the candidates.
///
/// The ways of choices, groups and repetitions are kept, so that they are computed once for each pattern. An interleave
/// of many members leads to too many other patterns for that, unless it is deep.
#[cycle(ways)]
pub fn ways(
    search: &Search,
    table: &mut PatternTable,
    known: &mut KnownWays,
    number: PatternNumber,
) -> Result<Ways, OutOfMemory>
    requires inside { number.0 < length table.old }
    requires known { AreKnown search.now.grammar.now table.old search.now.kind known.old }
    requires candidates { AreCandidates search.now.grammar.now table.old search.now.kind search.now.candidates }
    ensures longer { OnOk result (Longer table.old table.new) }
    ensures known { OnOk result (AreKnown search.now.grammar.now table.new search.now.kind known.new) }
    ensures ways { IfOk result (λ ws. AreWaysOf search.now.grammar.now table.new search.now.kind (tree_of search.now.grammar.now table.old number.0) ws.items) }
{
    if is_idle(table, search.candidates, number) {
        return Ok(SmallVec::new(search.alloc));
    }
    if !is_kept(table, number) {
        return new_ways(search, table, known, number);
    }
    if let Some(ways) = known_ways(known, number) {
        return copied_ways(search.alloc, ways);
    }
    let ways = new_ways(search, table, known, number)?;
    keep(search.alloc, known, number, ways.as_slice())?;
    Ok(ways)
}

/// The most members of an interleave whose ways are kept, if it is not deep. More members lead to too many other patterns.
const MOST_KEPT_MEMBERS: u16 = 4;

/// Returns whether the ways of a pattern are kept. Allocates nothing.
pub fn is_kept(table: &PatternTable, number: PatternNumber) -> bool
    requires { number.0 < length table.now }
{
    match table.pattern(number) {
        Pattern::Choice(_) | Pattern::Group(_, _) | Pattern::OneOrMore(_) => true,
        Pattern::Interleave(_, _) => {
            table.facts(number).members <= MOST_KEPT_MEMBERS || table.is_deep(number)
        }
        _ => false,
    }
}

/// Computes the ways of a pattern.
#[cycle(ways)]
fn new_ways(
    search: &Search,
    table: &mut PatternTable,
    known: &mut KnownWays,
    number: PatternNumber,
) -> Result<Ways, OutOfMemory>
    requires inside { number.0 < length table.old }
    requires known { AreKnown search.now.grammar.now table.old search.now.kind known.old }
    requires candidates { AreCandidates search.now.grammar.now table.old search.now.kind search.now.candidates }
    ensures longer { OnOk result (Longer table.old table.new) }
    ensures known { OnOk result (AreKnown search.now.grammar.now table.new search.now.kind known.new) }
    ensures ways { IfOk result (λ ws. AreWaysOf search.now.grammar.now table.new search.now.kind (tree_of search.now.grammar.now table.old number.0) ws.items) }
{
    match table.pattern(number) {
        Pattern::Choice(_) => { ways_of_choice(search, table, known, number) }
        Pattern::Group(first, second) => {
            let (first, second) = (*first, *second);
            ways_of_group(search, table, known, first, second)
        }
        Pattern::Interleave(first, second) => {
            let (first, second) = (*first, *second);
            let sides = Sides {
                joint: Joint::Interleave,
                first,
                second,
            };
            ways_of_both(search, table, known, sides)
        }
        Pattern::OneOrMore(body) => {
            let body = *body;
            ways_of_copies(search, table, known, number, body)
        }
        _ => ways_of_leaf(search, table, number),
    }
}

/// Returns the ways of the choice with this number.
#[cycle(ways)]
fn ways_of_choice(
    search: &Search,
    table: &mut PatternTable,
    known: &mut KnownWays,
    number: PatternNumber,
) -> Result<Ways, OutOfMemory>
    requires inside { All (λ m. m < length table.old) (members_at table.old number.0) }
    requires two { 2 ≤ length (members_at table.old number.0) }
    requires number { number.0 < length table.old }
    requires known { AreKnown search.now.grammar.now table.old search.now.kind known.old }
    requires candidates { AreCandidates search.now.grammar.now table.old search.now.kind search.now.candidates }
    ensures longer { OnOk result (Longer table.old table.new) }
    ensures known { OnOk result (AreKnown search.now.grammar.now table.new search.now.kind known.new) }
    ensures ways { IfOk result (λ ws. AreWaysOf search.now.grammar.now table.new search.now.kind (choice_over (tree_of search.now.grammar.now table.old)
        (members_at table.old number.0)) ws.items) }
{
    let mut all = Vec::new(search.alloc);
    let mut next = 0;
    'members: while let Some((behind, member)) = next_member(
        table,
        search.candidates,
        number,
        next,
    ) {
        let ways = ways(search, table, known, member)?;
        all.extend_from_slice(ways.as_slice())?;
        next = behind;
    }
    joined_ways(search.alloc, table, all.as_slice())
}

/// Returns the ways of a group.
#[cycle(ways)]
fn ways_of_group(
    search: &Search,
    table: &mut PatternTable,
    known: &mut KnownWays,
    first: PatternNumber,
    second: PatternNumber,
) -> Result<Ways, OutOfMemory>
    requires first { first.0 < length table.old }
    requires second { second.0 < length table.old }
    requires known { AreKnown search.now.grammar.now table.old search.now.kind known.old }
    requires candidates { AreCandidates search.now.grammar.now table.old search.now.kind search.now.candidates }
    ensures longer { OnOk result (Longer table.old table.new) }
    ensures known { OnOk result (AreKnown search.now.grammar.now table.new search.now.kind known.new) }
    ensures ways { IfOk result (λ ws. AreWaysOf search.now.grammar.now table.new search.now.kind
        (s_joined group (tree_of search.now.grammar.now table.old first.0) (tree_of search.now.grammar.now table.old second.0)) ws.items) }
{
    if let Kind::Attribute(_) = search.kind {
        let sides = Sides {
            joint: Joint::Group,
            first,
            second,
        };
        return ways_of_both(search, table, known, sides);
    }
    let (first, rest) = table.reassociated(first, second)?;
    item_ways_of_group(search, table, known, first, rest)
}

/// Returns the ways of a group to take an item first. These are the ways of its first side and, if that is nullable,
/// those by which the second side takes more. Copies of the first side at the front of the second one add no ways. The
/// first side takes what they take, with all of them after it.
#[cycle(ways)]
fn item_ways_of_group(
    search: &Search,
    table: &mut PatternTable,
    known: &mut KnownWays,
    first: PatternNumber,
    second: PatternNumber,
) -> Result<Ways, OutOfMemory>
    requires kind { IsOfItems search.now.kind }
    requires first { first.0 < length table.old }
    requires second { second.0 < length table.old }
    requires known { AreKnown search.now.grammar.now table.old search.now.kind known.old }
    requires candidates { AreCandidates search.now.grammar.now table.old search.now.kind search.now.candidates }
    ensures longer { OnOk result (Longer table.old table.new) }
    ensures known { OnOk result (AreKnown search.now.grammar.now table.new search.now.kind known.new) }
    ensures ways { IfOk result (λ ws. AreWaysOf search.now.grammar.now table.new search.now.kind
        (s_joined group (tree_of search.now.grammar.now table.old first.0) (tree_of search.now.grammar.now table.old second.0)) ws.items) }
{
    let firsts = ways(search, table, known, first)?;
    let mut all = SmallVec::new(search.alloc);
    add_filled(
        search.alloc,
        table,
        Hole::First(Joint::Group, second),
        firsts.as_slice(),
        &mut all,
    )?;
    if !table.facts(first).nullable {
        return Ok(all);
    }
    let Some(rest) = table.behind_copies(first, second) else {
        return Ok(all);
    };
    let seconds = ways(search, table, known, rest)?;
    let seconds = uncovered(search.alloc, table, rest, firsts.as_slice(), seconds)?;
    add_filled(
        search.alloc,
        table,
        Hole::Whole,
        seconds.as_slice(),
        &mut all,
    )?;
    Ok(all)
}

/// Returns the ways of two joined patterns, either of which may come first: those of each beside the other.
#[cycle(ways)]
fn ways_of_both(
    search: &Search,
    table: &mut PatternTable,
    known: &mut KnownWays,
    sides: Sides,
) -> Result<Ways, OutOfMemory>
    requires order { HasNoOrder search.now.kind sides.joint }
    requires first { sides.first.0 < length table.old }
    requires second { sides.second.0 < length table.old }
    requires known { AreKnown search.now.grammar.now table.old search.now.kind known.old }
    requires candidates { AreCandidates search.now.grammar.now table.old search.now.kind search.now.candidates }
    ensures longer { OnOk result (Longer table.old table.new) }
    ensures known { OnOk result (AreKnown search.now.grammar.now table.new search.now.kind known.new) }
    ensures ways { IfOk result (λ ws. AreWaysOf search.now.grammar.now table.new search.now.kind
        (s_joined (connector_of sides.joint) (tree_of search.now.grammar.now table.old sides.first.0)
        (tree_of search.now.grammar.now table.old sides.second.0)) ws.items) }
{
    let firsts = ways(search, table, known, sides.first)?;
    let seconds = ways(search, table, known, sides.second)?;
    let mut all = SmallVec::new(search.alloc);
    add_filled(
        search.alloc,
        table,
        Hole::First(sides.joint, sides.second),
        firsts.as_slice(),
        &mut all,
    )?;
    add_filled(
        search.alloc,
        table,
        Hole::Second(sides.joint, sides.first),
        seconds.as_slice(),
        &mut all,
    )?;
    Ok(all)
}

/// Returns the ways of the oneOrMore with this number and this body: those of a copy, with more copies after it. After
/// an attribute only more copies are left.
#[cycle(ways)]
fn ways_of_copies(
    search: &Search,
    table: &mut PatternTable,
    known: &mut KnownWays,
    number: PatternNumber,
    body: PatternNumber,
) -> Result<Ways, OutOfMemory>
    requires number { number.0 < length table.old }
    requires body { body.0 < length table.old }
    requires copies { tree_of search.now.grammar.now table.old number.0 ≡ s_one_or_more (tree_of search.now.grammar.now table.old body.0) }
    requires known { AreKnown search.now.grammar.now table.old search.now.kind known.old }
    requires candidates { AreCandidates search.now.grammar.now table.old search.now.kind search.now.candidates }
    ensures longer { OnOk result (Longer table.old table.new) }
    ensures known { OnOk result (AreKnown search.now.grammar.now table.new search.now.kind known.new) }
    ensures ways { IfOk result (λ ws. AreWaysOf search.now.grammar.now table.new search.now.kind (tree_of search.now.grammar.now table.old number.0) ws.items) }
{
    let copies = ways(search, table, known, body)?;
    let empty = table.empty()?;
    let more = table.choice(search.alloc, &[number, empty])?;
    if let Kind::Attribute(_) = search.kind {
        return repeated_ways(search.alloc, table, copies.as_slice(), more);
    }
    let mut all = SmallVec::new(search.alloc);
    add_filled(
        search.alloc,
        table,
        Hole::First(Joint::Group, more),
        copies.as_slice(),
        &mut all,
    )?;
    Ok(all)
}
