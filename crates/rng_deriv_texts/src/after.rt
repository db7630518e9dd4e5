// What is left of a pattern after a string, and after attributes.
ghost use Rattle.std.specs.Prelude.{◌≡◌, ◌↔◌, ◌<◌, true, [], ◌∷◌, All, IfOk, IfSome, OnOk, length, map, slice_get};
ghost use Rattle.std.specs.List.{Contains};
ghost use Rattle.rng_model.specs.datatypes.Texts.{pieces};
ghost use Rattle.rng_model.specs.documents.EventViews.{attribute_of};
ghost use Rattle.rng_model.specs.matching.Document.{a_text};
ghost use Rattle.rng_model.specs.matching.GrammarMatching.{reading_of};
ghost use Rattle.rng_model.specs.simple.Table.{Table, tree_at};
ghost use Rattle.rng_deriv_laws.specs.plain.LevelStates.{IsAfterText};
ghost use Rattle.rng_deriv_laws.specs.plain.Restricted.{IsRestricted, MayBeListed};
ghost use Rattle.rng_deriv_laws.specs.plain.Taking.{Takes, WeaklyTakes};
ghost use Rattle.rng_deriv_table.specs.plain.AskedFor.{IsAskedFor};
ghost use Rattle.rng_deriv_table.specs.declared.pattern.PatternNumber.{PatternNumber};
ghost use Rattle.rng_deriv_table.specs.views.PatternTable.{Longer};
ghost use Rattle.rng_deriv_table.specs.views.Trees.{attribute_found, tree_of};
ghost use Rattle.rng_deriv_ways.specs.plain.Starting.{IsReady};
ghost use Rattle.rng_deriv_ways.specs.plain.Ways.{AreInside, AreWaysOf};
ghost use Rattle.rng_deriv_ways.specs.views.Plans.{IsKindAsked, IsPlan, IsPlanFor};
ghost use Rattle.rng_deriv_ways.specs.declared.plans.Asked.{Asked};
ghost use Rattle.rng_deriv_ways.specs.declared.way.Kind.{Kind};
ghost use Rattle.rng_deriv_ways.specs.views.KnownWays.{AreAllKnown};
ghost use Rattle.rng_deriv_texts.specs.plain.After.{AreRests, AreWaysFor, IsLeafFor, IsLeft, IsLeftOfTag, TellsTaken};
ghost use Rattle.rng_deriv_texts.specs.plain.Asking.{AreTests, IsAskedBy};
ghost use Rattle.rng_deriv_texts.specs.plain.Settling.{IsRestInside, IsSettled};
ghost use Rattle.rng_deriv_texts.specs.declared.first.First.{First};
ghost use Rattle.rng_deriv_texts.specs.declared.first.First.TheVariants as firsts;

use crate::first::First;
use crate::joined_sides::with_sides_joined;
use crate::leaf_tests::{data_takes, is_blank, is_leaf_for, list_body};
use crate::plans::{TakenPlan, asked, plan_of, rest_by};
use crate::settled::{Rest, left_by_few, left_by_only_way, settled, takes_by_known};
use crate::value_index::ways_to_test;
use rng_deriv_table::{Pattern, PatternNumber, PatternTable};
use rng_deriv_ways::{
    Context, Known, LeafWay, Place, Plan, Rests, Tests, Ways, attribute_ways, close, number_at,
    rest_of_leaf, text_ways,
};
use rng_model::{Attr, OutOfMemory, PatternId, Pieces, Simple};
use rng_names::contains;
use smallvec::SmallVec;
use std::alloc::Global;

/// Returns the ways of a pattern to take this first, and whatever else is asked in the same way.
fn ways_for(
    context: &Context,
    table: &mut PatternTable,
    known: &mut Known,
    first: First,
    number: PatternNumber,
) -> Result<Ways, OutOfMemory>
    requires inside { number.0 < length table.old }
    requires known { AreAllKnown context.now.grammar.now context.now.keys.now table.old known.old }
    ensures longer { OnOk result (Longer table.old table.new) }
    ensures known { OnOk result (AreAllKnown context.now.grammar.now context.now.keys.now table.new known.new) }
    ensures ways { IfOk result (λ ws. (a : Asked) → IsAskedBy context.now.keys.now first.entry number a → (kind : Kind) → IsKindAsked context.now.keys.now a kind
        → AreWaysOf context.now.grammar.now table.new kind (tree_of context.now.grammar.now table.old number.0) ws.items) }
{
    match first {
        First::Text(_, _) => text_ways(context, table, &mut known.texts, number),
        First::Attribute(attr) => attribute_ways(context, table, known, &attr.name, number),
    }
}

/// Returns the pattern of what some ways leave, if they tell it. Fails only when out of memory.
#[inline(always)]
fn told_by(
    context: &Context,
    table: &mut PatternTable,
    rest: Rest,
) -> Result<Option<PatternNumber>, OutOfMemory>
    requires inside { IsRestInside table.old rest }
    ensures longer { OnOk result (Longer table.old table.new) }
    ensures left { IfOk result (λ o. IfSome o (λ left. (first : First) (number : PatternNumber)
        → IsSettled context.now.grammar.now table.old first (tree_of context.now.grammar.now table.old number.0) rest
        → IsLeft context.now.grammar.now table.old table.new first number left)) }
{
    match rest {
        Rest::Unknown => Ok(None),
        Rest::Nothing => Ok(Some(table.not_allowed()?)),
        Rest::Only(rest) => Ok(Some(rest)),
        Rest::Two(first, second) => Ok(Some(table.choice(context.alloc, &[first, second])?)),
    }
}

/// Returns what is left of a pattern after a string among the children of an element: a pattern that takes what may
/// follow.
///
/// RELAX NG Specification, section 6.2, for patterns that obey section 7. Fails only when out of memory. The cost is that
/// of the ways of the pattern to take a string, and of the tests of their leaves.
pub fn after_text(
    context: &Context,
    table: &mut PatternTable,
    known: &mut Known,
    number: PatternNumber,
    text: &str,
) -> Result<PatternNumber, OutOfMemory>
    requires inside { number.0 < length table.old }
    requires ready { IsReady context.now.grammar.now table.old context.now.numbers.now }
    requires known { AreAllKnown context.now.grammar.now context.now.keys.now table.old known.old }
    ensures longer { OnOk result (Longer table.old table.new) }
    ensures known { OnOk result (AreAllKnown context.now.grammar.now context.now.keys.now table.new known.new) }
    ensures inside { IfOk result (λ rest. rest.0 < length table.new) }
    ensures after { IfOk result (λ rest. IsRestricted (tree_of context.now.grammar.now table.old number.0)
        → IsAfterText (reading_of context.now.grammar.now) text.now (tree_of context.now.grammar.now table.old number.0) (tree_of context.now.grammar.now table.new rest.0)) }
    ensures kept { IfOk result (λ rest. IsRestricted (tree_of context.now.grammar.now table.old number.0) → IsRestricted (tree_of context.now.grammar.now table.new rest.0)) }
{
    after(
        context,
        table,
        known,
        First::Text(Place::Content, text),
        number,
    )
}

/// Returns what is left of a pattern after the attributes of a tag, once the tag is closed. The result takes alone what
/// the pattern takes with these attributes.
///
/// RELAX NG Specification, sections 6.2 and 6.2.7, for patterns that obey section 7. Fails only when out of
/// memory. The cost for each attribute is that of the ways of the pattern to take one with its name, and of the tests of
/// their values. Then there is a walk over the parts that contain an attribute.
pub fn after_tag(
    context: &Context,
    table: &mut PatternTable,
    known: &mut Known,
    number: PatternNumber,
    attrs: &[Attr],
) -> Result<PatternNumber, OutOfMemory>
    requires inside { number.0 < length table.old }
    requires ready { IsReady context.now.grammar.now table.old context.now.numbers.now }
    requires known { AreAllKnown context.now.grammar.now context.now.keys.now table.old known.old }
    ensures longer { OnOk result (Longer table.old table.new) }
    ensures known { OnOk result (AreAllKnown context.now.grammar.now context.now.keys.now table.new known.new) }
    ensures after { IfOk result (IsLeftOfTag context.now.grammar.now table.old table.new (map attribute_of attrs.now) number) }
{
    let mut rest = number;
    'attrs: for attr in attrs {
        rest = after_attribute(context, table, known, attr, rest)?;
    }
    close(context.alloc, table, &mut known.rests, rest)
}

/// Returns what is left of a pattern after an attribute. If that is two alternatives, and they have a side in common,
/// they are joined. Fails only when out of memory.
pub fn after_attribute(
    context: &Context,
    table: &mut PatternTable,
    known: &mut Known,
    attr: &Attr,
    number: PatternNumber,
) -> Result<PatternNumber, OutOfMemory>
    requires inside { number.0 < length table.old }
    requires ready { IsReady context.now.grammar.now table.old context.now.numbers.now }
    requires known { AreAllKnown context.now.grammar.now context.now.keys.now table.old known.old }
    ensures longer { OnOk result (Longer table.old table.new) }
    ensures known { OnOk result (AreAllKnown context.now.grammar.now context.now.keys.now table.new known.new) }
    ensures left { IfOk result (IsLeft context.now.grammar.now table.old table.new (firsts.Attribute attr.entry) number) }
{
    // Most attributes have one way, and are the ones that were asked for last.
    if let Some(rest) = left_by_only_way(context, table, known, attr, number) {
        return with_sides_joined(context.alloc, table, rest);
    }
    let rest = after(context, table, known, First::Attribute(attr), number)?;
    with_sides_joined(context.alloc, table, rest)
}

/// Returns what is left of a pattern after this.
#[cycle(after)]
fn after(
    context: &Context,
    table: &mut PatternTable,
    known: &mut Known,
    first: First,
    number: PatternNumber,
) -> Result<PatternNumber, OutOfMemory>
    requires inside { number.0 < length table.old }
    requires ready { IsReady context.now.grammar.now table.old context.now.numbers.now }
    requires known { AreAllKnown context.now.grammar.now context.now.keys.now table.old known.old }
    ensures longer { OnOk result (Longer table.old table.new) }
    ensures known { OnOk result (AreAllKnown context.now.grammar.now context.now.keys.now table.new known.new) }
    ensures left { IfOk result (IsLeft context.now.grammar.now table.old table.new first.entry number) }
{
    if is_leaf_for(table, first, number) {
        return after_leaf(context, table, known, first, number);
    }
    after_ways(context, table, known, first, number)
}

/// Returns what is left of a leaf after something that it takes, or does not take. Fails only when out of memory.
fn left_of_leaf(
    table: &mut PatternTable,
    leaf: PatternNumber,
    taken: bool,
) -> Result<PatternNumber, OutOfMemory>
    requires inside { leaf.0 < length table.old }
    ensures longer { Longer table.old table.new }
    ensures left { IfOk result (λ rest. (t : Table) (first : First) → IsLeafFor first (tree_of t table.old leaf.0)
        → TellsTaken (reading_of t) first (tree_of t table.old leaf.0) taken → IsLeft t table.old table.new first leaf rest) }
{
    if !taken {
        return table.not_allowed();
    }
    rest_of_leaf(table, leaf)
}

/// Returns what is left of a leaf of the sort that may take this, after it. What is known tells whether nearly every leaf
/// takes it.
#[cycle(after)]
fn after_leaf(
    context: &Context,
    table: &mut PatternTable,
    known: &mut Known,
    first: First,
    leaf: PatternNumber,
) -> Result<PatternNumber, OutOfMemory>
    requires inside { leaf.0 < length table.old }
    requires ready { IsReady context.now.grammar.now table.old context.now.numbers.now }
    requires known { AreAllKnown context.now.grammar.now context.now.keys.now table.old known.old }
    requires leaf { IsLeafFor first (tree_of context.now.grammar.now table.old leaf.0) }
    ensures longer { OnOk result (Longer table.old table.new) }
    ensures known { OnOk result (AreAllKnown context.now.grammar.now context.now.keys.now table.new known.new) }
    ensures left { IfOk result (IsLeft context.now.grammar.now table.old table.new first.entry leaf) }
{
    if let Some(taken) = takes_by_known(context, table, known, first, leaf) {
        return left_of_leaf(table, leaf, taken);
    }
    let taken = takes(context, table, known, first, leaf)?;
    left_of_leaf(table, leaf, taken)
}

/// The same for any pattern.
#[cycle(after)]
fn after_ways(
    context: &Context,
    table: &mut PatternTable,
    known: &mut Known,
    first: First,
    number: PatternNumber,
) -> Result<PatternNumber, OutOfMemory>
    requires inside { number.0 < length table.old }
    requires ready { IsReady context.now.grammar.now table.old context.now.numbers.now }
    requires known { AreAllKnown context.now.grammar.now context.now.keys.now table.old known.old }
    ensures longer { OnOk result (Longer table.old table.new) }
    ensures known { OnOk result (AreAllKnown context.now.grammar.now context.now.keys.now table.new known.new) }
    ensures left { IfOk result (IsLeft context.now.grammar.now table.old table.new first.entry number) }
{
    let rest = settled(context, table, known, first, number);
    if let Some(rest) = told_by(context, table, rest)? {
        return Ok(rest);
    }
    let asked = asked(context, first, number);
    if let Some(plan) = known.take_plan(asked) {
        return after_taken_plan(context, table, known, first, TakenPlan { asked, plan });
    }
    after_new_ways(context, table, known, first, number)
}

/// The same by ways that are worked out, and by a plan of these if they do not tell.
#[cycle(after)]
fn after_new_ways(
    context: &Context,
    table: &mut PatternTable,
    known: &mut Known,
    first: First,
    number: PatternNumber,
) -> Result<PatternNumber, OutOfMemory>
    requires inside { number.0 < length table.old }
    requires ready { IsReady context.now.grammar.now table.old context.now.numbers.now }
    requires known { AreAllKnown context.now.grammar.now context.now.keys.now table.old known.old }
    ensures longer { OnOk result (Longer table.old table.new) }
    ensures known { OnOk result (AreAllKnown context.now.grammar.now context.now.keys.now table.new known.new) }
    ensures left { IfOk result (IsLeft context.now.grammar.now table.old table.new first.entry number) }
{
    let ways = ways_for(context, table, known, first, number)?;
    let rest = left_by_few(context, table, known, first, ways.as_slice());
    if let Some(rest) = told_by(context, table, rest)? {
        return Ok(rest);
    }
    let asked = asked(context, first, number);
    let plan = plan_of(context, table, &known.datatypes, first, ways)?;
    after_taken_plan(context, table, known, first, TakenPlan { asked, plan })
}

/// The same by the plan of the pattern, which is kept.
#[cycle(after)]
fn after_taken_plan(
    context: &Context,
    table: &mut PatternTable,
    known: &mut Known,
    first: First,
    taken: TakenPlan,
) -> Result<PatternNumber, OutOfMemory>
    requires plan { IsPlanFor context.now.grammar.now context.now.keys.now table.old taken.asked taken.plan }
    requires asked { (n : PatternNumber) × IsAskedBy context.now.keys.now first n taken.asked }
    requires ready { IsReady context.now.grammar.now table.old context.now.numbers.now }
    requires known { AreAllKnown context.now.grammar.now context.now.keys.now table.old known.old }
    ensures longer { OnOk result (Longer table.old table.new) }
    ensures known { OnOk result (AreAllKnown context.now.grammar.now context.now.keys.now table.new known.new) }
    ensures left { IfOk result (λ rest. (n : PatternNumber) → IsAskedBy context.now.keys.now first.entry n taken.asked
        → IsLeft context.now.grammar.now table.old table.new first.entry n rest) }
{
    let TakenPlan { asked, mut plan } = taken;
    let rest = after_plan(context, table, known, first, &mut plan)?;
    known.keep_plan(asked, plan)?;
    Ok(rest)
}

/// Returns what is left by all ways of a plan: the choice of the rests of those whose leaves take this. Each leaf is
/// tested once, and what the tests leave is kept. If there are many leaves, those are tested that an index does not rule
/// out, and nothing is kept.
#[cycle(after)]
fn after_plan(
    context: &Context,
    table: &mut PatternTable,
    known: &mut Known,
    first: First,
    plan: &mut Plan,
) -> Result<PatternNumber, OutOfMemory>
    requires inside { AreInside table.old plan.old.ways.items }
    requires plan { IsPlan context.now.grammar.now table.old plan.old }
    requires ready { IsReady context.now.grammar.now table.old context.now.numbers.now }
    requires known { AreAllKnown context.now.grammar.now context.now.keys.now table.old known.old }
    ensures longer { OnOk result (Longer table.old table.new) }
    ensures known { OnOk result (AreAllKnown context.now.grammar.now context.now.keys.now table.new known.new) }
    ensures ways { OnOk result (plan.new.ways ≡ plan.old.ways) }
    ensures plan { OnOk result (IsPlan context.now.grammar.now table.new plan.new) }
    ensures left { IfOk result (λ rest. (n : PatternNumber) → n.0 < length table.old
        → AreWaysFor context.now.grammar.now table.old first.entry (tree_of context.now.grammar.now table.old n.0) plan.old.ways.items
        → IsLeft context.now.grammar.now table.old table.new first.entry n rest) }
{
    let taken = tests(context, table, known, first, plan.leaves.as_slice())?;
    if let Some(rest) = rest_by(context.alloc, table, plan, taken)? {
        return Ok(rest);
    }
    let ways = ways_to_test(context.alloc, plan, first)?;
    let rests = rests(context, table, known, first, ways.as_slice())?;
    table.choice(context.alloc, rests.as_slice())
}

/// Returns for each of these leaves whether it takes this.
#[cycle(after)]
fn tests(
    context: &Context,
    table: &mut PatternTable,
    known: &mut Known,
    first: First,
    leaves: &[PatternNumber],
) -> Result<Tests, OutOfMemory>
    requires inside { All (λ m. m.0 < length table.old) leaves.now }
    requires ready { IsReady context.now.grammar.now table.old context.now.numbers.now }
    requires known { AreAllKnown context.now.grammar.now context.now.keys.now table.old known.old }
    ensures longer { OnOk result (Longer table.old table.new) }
    ensures known { OnOk result (AreAllKnown context.now.grammar.now context.now.keys.now table.new known.new) }
    ensures tests { IfOk result (λ taken. AreTests context.now.grammar.now table.old first.entry leaves.now taken.items) }
{
    let mut taken = SmallVec::new(context.alloc);
    'leaves: for leaf in leaves {
        taken.push(takes(context, table, known, first, *leaf)?)?;
    }
    Ok(taken)
}

/// Returns true only if a rest is the last one of some. Allocates nothing.
fn is_last(rests: &[PatternNumber], rest: PatternNumber) -> bool
    ensures { result ≡ true → Contains rests.now rest }
{
    match rests.last() {
        Some(last) => *last == rest,
        None => false,
    }
}

/// Returns the rests of the ways whose leaves take this. A leaf is not tested if its way leaves the last rest again.
#[cycle(after)]
fn rests(
    context: &Context,
    table: &mut PatternTable,
    known: &mut Known,
    first: First,
    ways: &[LeafWay],
) -> Result<Rests, OutOfMemory>
    requires inside { AreInside table.old ways.now }
    requires ready { IsReady context.now.grammar.now table.old context.now.numbers.now }
    requires known { AreAllKnown context.now.grammar.now context.now.keys.now table.old known.old }
    ensures longer { OnOk result (Longer table.old table.new) }
    ensures known { OnOk result (AreAllKnown context.now.grammar.now context.now.keys.now table.new known.new) }
    ensures rests { IfOk result (λ rests. AreRests context.now.grammar.now table.old table.new first.entry ways.now rests.items) }
{
    let mut rests: Rests = SmallVec::new(context.alloc);
    'ways: for way in ways {
        if is_last(rests.as_slice(), way.rest) {
            continue;
        }
        if takes(context, table, known, first, way.leaf)? {
            rests.push(way.rest)?;
        }
    }
    Ok(rests)
}

/// Returns whether a leaf takes this.
#[cycle(after)]
fn takes(
    context: &Context,
    table: &mut PatternTable,
    known: &mut Known,
    first: First,
    leaf: PatternNumber,
) -> Result<bool, OutOfMemory>
    requires inside { leaf.0 < length table.old }
    requires ready { IsReady context.now.grammar.now table.old context.now.numbers.now }
    requires known { AreAllKnown context.now.grammar.now context.now.keys.now table.old known.old }
    ensures longer { OnOk result (Longer table.old table.new) }
    ensures known { OnOk result (AreAllKnown context.now.grammar.now context.now.keys.now table.new known.new) }
    ensures taken { IfOk result (TellsTaken (reading_of context.now.grammar.now) first.entry (tree_of context.now.grammar.now table.old leaf.0)) }
{
    match (first, table.pattern(leaf)) {
        (First::Text(_, _), Pattern::Text) => Ok(true),
        (First::Text(place, text), Pattern::Data(position)) => {
            let position = *position;
            match list_body(context.grammar, place, position) {
                Some(body) => list_takes(context, table, known, text, body),
                None => data_takes(context, &known.datatypes, position, text),
            }
        }
        (First::Attribute(attr), Pattern::Attribute(position)) => {
            let position = *position;
            attribute_takes(context, table, known, attr, position)
        }
        _ => Ok(false),
    }
}

/// Returns whether a list with this body takes a string: the body takes the pieces between blanks, one after the other.
///
/// RELAX NG Specification, section 6.2.10.
#[cycle(after)]
fn list_takes(
    context: &Context,
    table: &mut PatternTable,
    known: &mut Known,
    text: &str,
    body: PatternId,
) -> Result<bool, OutOfMemory>
    requires inside { body.0 < length context.now.numbers.now }
    requires ready { IsReady context.now.grammar.now table.old context.now.numbers.now }
    requires known { AreAllKnown context.now.grammar.now context.now.keys.now table.old known.old }
    ensures longer { OnOk result (Longer table.old table.new) }
    ensures known { OnOk result (AreAllKnown context.now.grammar.now context.now.keys.now table.new known.new) }
    ensures taken { IfOk result (λ b. IsAskedFor context.now.grammar.now body.0 → MayBeListed (tree_at context.now.grammar.now.patterns body)
        → (b ≡ true) ↔ Takes (reading_of context.now.grammar.now) (tree_at context.now.grammar.now.patterns body) [] (map a_text (pieces text.now))) }
{
    let mut rest = number_at(context.numbers, body);
    'pieces: for piece in Pieces::new(text) {
        rest = after(context, table, known, First::Text(Place::List, piece), rest)?;
    }
    Ok(table.facts(rest).nullable)
}

/// Returns whether the attribute pattern at a position of the grammar takes an attribute.
#[cycle(after)]
fn attribute_takes(
    context: &Context,
    table: &mut PatternTable,
    known: &mut Known,
    attr: &Attr,
    position: PatternId,
) -> Result<bool, OutOfMemory>
    requires ready { IsReady context.now.grammar.now table.old context.now.numbers.now }
    requires known { AreAllKnown context.now.grammar.now context.now.keys.now table.old known.old }
    ensures longer { OnOk result (Longer table.old table.new) }
    ensures known { OnOk result (AreAllKnown context.now.grammar.now context.now.keys.now table.new known.new) }
    ensures taken { IfOk result (TellsTaken (reading_of context.now.grammar.now) (firsts.Attribute attr.entry)
        (attribute_found context.now.grammar.now (slice_get context.now.grammar.now.patterns position.0))) }
{
    let Some(row) = context.grammar.pattern(position) else {
        return Ok(false);
    };
    let Simple::Attribute(class, body) = row else {
        return Ok(false);
    };
    if !contains(class, &attr.name) {
        return Ok(false);
    }
    value_takes(context, table, known, attr.value.as_str(), *body)
}

/// Returns whether a pattern weakly takes the value of an attribute.
///
/// RELAX NG Specification, section 6.2.7.
#[cycle(after)]
fn value_takes(
    context: &Context,
    table: &mut PatternTable,
    known: &mut Known,
    value: &str,
    body: PatternId,
) -> Result<bool, OutOfMemory>
    requires inside { body.0 < length context.now.numbers.now }
    requires ready { IsReady context.now.grammar.now table.old context.now.numbers.now }
    requires known { AreAllKnown context.now.grammar.now context.now.keys.now table.old known.old }
    ensures longer { OnOk result (Longer table.old table.new) }
    ensures known { OnOk result (AreAllKnown context.now.grammar.now context.now.keys.now table.new known.new) }
    ensures taken { IfOk result (λ b. IsAskedFor context.now.grammar.now body.0 → IsRestricted (tree_at context.now.grammar.now.patterns body)
        → (b ≡ true) ↔ WeaklyTakes (reading_of context.now.grammar.now) (tree_at context.now.grammar.now.patterns body) [] (a_text value.now ∷ [])) }
{
    let body = number_at(context.numbers, body);
    let empty = table.facts(body).nullable;
    let rest = after(
        context,
        table,
        known,
        First::Text(Place::Content, value),
        body,
    )?;
    Ok(table.facts(rest).nullable || empty && is_blank(value))
}
