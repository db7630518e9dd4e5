// What is left of a pattern where its ways are known and no more than two rests are left.
ghost use Rattle.std.specs.Prelude.{◌≡◌, ◌↔◌, ◌<◌, true, [], ◌∷◌, IfSome, List, length, slice_get};
ghost use Rattle.rng_model.specs.matching.Document.{a_text};
ghost use Rattle.rng_model.specs.matching.GrammarMatching.{reading_of};
ghost use Rattle.rng_model.specs.names.NameViews.{name_of};
ghost use Rattle.rng_names.specs.plain.Keys.{name_at};
ghost use Rattle.rng_model.specs.simple.Table.{tree_at};
ghost use Rattle.rng_deriv_laws.specs.plain.Restricted.{IsRestricted};
ghost use Rattle.rng_deriv_laws.specs.plain.Taking.{Takes, WeaklyTakes};
ghost use Rattle.rng_deriv_table.specs.plain.AskedFor.{IsAskedFor};
ghost use Rattle.rng_deriv_table.specs.views.Node.{Node};
ghost use Rattle.rng_deriv_table.specs.views.Trees.{attribute_found, data_found, tree_of};
ghost use Rattle.rng_deriv_ways.specs.plain.Starting.{IsReady};
ghost use Rattle.rng_deriv_ways.specs.plain.Ways.{AreInside, AreWaysOf};
ghost use Rattle.rng_deriv_ways.specs.views.Datatypes.{AreDatatypesOf};
ghost use Rattle.rng_deriv_ways.specs.views.KnownWays.{AreAllKnown};
ghost use Rattle.rng_deriv_ways.specs.declared.way.Kind.TheVariants as kinds;
ghost use Rattle.rng_deriv_ways.specs.declared.way.Place.{Place};
ghost use Rattle.rng_deriv_ways.specs.declared.way.Place.TheVariants as places;
ghost use Rattle.rng_deriv_texts.specs.plain.After.{AreWaysFor, IsLeft, TellsTaken};
ghost use Rattle.rng_deriv_texts.specs.plain.Settling.{AreLeft, IsCovered, IsSettled, TellsWhole, with_told};
ghost use Rattle.rng_deriv_texts.specs.declared.first.First.TheVariants as firsts;

use crate::first::First;
use crate::leaf_tests::{is_blank, is_leaf_for};
use rng_deriv_table::{Pattern, PatternNumber, PatternTable};
use rng_deriv_ways::{
    Context, Datatypes, Known, LastWays, LeafWay, Place, known_ways, last_ways, number_at,
};
use rng_model::{Attr, Name, PatternId, Simple, SimpleGrammar};
use rng_names::{contains, is_same_name};

/// The number of ways up to which the leaves of all are tested without a look at what is kept of earlier tests.
pub const FEW_WAYS: usize = 64;

/// What is left of a pattern after a string or an attribute, as far as its known ways tell.
#[derive(Clone, Copy)]
pub enum Rest {
    /// They do not tell, or more than two rests are left.
    Unknown,
    /// No leaf takes it.
    Nothing,
    /// This is the rest of each way whose leaf takes it.
    Only(PatternNumber),
    /// Each way whose leaf takes it has one of these rests, and each of the two is the rest of such a way.
    Two(PatternNumber, PatternNumber),
}

/// Returns whether the data or the value at a position of the grammar takes a string, unless the data has an except.
/// Allocates nothing.
///
/// RELAX NG Specification, sections 6.2.8 and 6.2.9.
#[inline(always)]
fn datum_takes(
    grammar: &SimpleGrammar,
    datatypes: &Datatypes,
    position: PatternId,
    text: &str,
) -> Option<bool>
    requires { AreDatatypesOf grammar.now datatypes.now }
    ensures { IfSome result (λ b. (place : Place) → TellsTaken (reading_of grammar.now) (firsts.Text place text.entry)
        (data_found grammar.now (slice_get grammar.now.patterns position.0)) b) }
{
    let row = grammar.pattern(position)?;
    match row {
        Simple::Data(_) => Some(datatypes.allow(position, text)),
        Simple::Value(value) => Some(datatypes.equate(position, value.text.as_str(), text)),
        _ => None,
    }
}

/// Returns whether a leaf takes a string, if it is text, a value or a data without except. Allocates nothing.
#[inline(always)]
fn text_leaf_takes(
    context: &Context,
    table: &PatternTable,
    known: &Known,
    leaf: PatternNumber,
    text: &str,
) -> Option<bool>
    requires inside { leaf.0 < length table.now }
    requires datatypes { AreDatatypesOf context.now.grammar.now known.now.datatypes }
    ensures { IfSome result (λ b. (place : Place) → TellsTaken (reading_of context.now.grammar.now) (firsts.Text place text.entry)
        (tree_of context.now.grammar.now table.now leaf.0) b) }
{
    match table.pattern(leaf) {
        Pattern::Text => Some(true),
        Pattern::Data(position) => {
            datum_takes(context.grammar, &known.datatypes, *position, text)
        }
        _ => None,
    }
}

/// Returns whether these ways are those for the key of the name, as far as the name itself shows it. Allocates nothing.
#[inline(always)]
fn are_last_for(context: &Context, last: &LastWays, name: &Name) -> bool
    ensures { result ≡ true → name_at context.now.keys.now last.now.key.0 ≡ name_of name.now }
{
    if last.key.0 >= context.keys.len() {
        return false;
    }
    is_same_name(context.keys.name(last.key), name)
}

/// Returns the known ways of a pattern to take an attribute with this name, by its key. Allocates nothing.
fn ways_by_key<'a>(
    context: &Context,
    known: &'a Known,
    name: &Name,
    number: PatternNumber,
) -> Option<&'a [LeafWay]>
    ensures { (ns : List Node) → AreAllKnown context.now.grammar.now context.now.keys.now ns known.now
        → IfSome result (λ ws. AreWaysOf context.now.grammar.now ns (kinds.Attribute name.entry) (tree_of context.now.grammar.now ns number.0) ws.now) }
{
    let key = context.keys.key(name);
    // The ways of a key are those for its representative.
    let _representative = context.keys.name(key);
    let own = known.attributes.get(&key)?;
    known_ways(own, number)
}

/// Returns the ways of a pattern to take an attribute that were computed last, if they are those for this name. Allocates
/// nothing.
#[inline(always)]
fn last_ways_for<'a>(
    context: &Context,
    known: &'a Known,
    name: &Name,
    number: PatternNumber,
) -> Option<&'a [LeafWay]>
    ensures { (ns : List Node) → AreAllKnown context.now.grammar.now context.now.keys.now ns known.now
        → IfSome result (λ ws. AreWaysOf context.now.grammar.now ns (kinds.Attribute name.entry) (tree_of context.now.grammar.now ns number.0) ws.now) }
{
    let last = last_ways(known.last.as_slice(), number)?;
    if are_last_for(context, last, name) {
        return Some(last.ways.as_slice());
    }
    None
}

/// Returns the known ways of a pattern to take an attribute with this name. Those that were computed last are tried
/// first, by a comparison of two names. Allocates nothing.
fn attribute_ways_known<'a>(
    context: &Context,
    known: &'a Known,
    name: &Name,
    number: PatternNumber,
) -> Option<&'a [LeafWay]>
    ensures { (ns : List Node) → AreAllKnown context.now.grammar.now context.now.keys.now ns known.now
        → IfSome result (λ ws. AreWaysOf context.now.grammar.now ns (kinds.Attribute name.entry) (tree_of context.now.grammar.now ns number.0) ws.now) }
{
    if let Some(ways) = last_ways_for(context, known, name, number) {
        return Some(ways);
    }
    ways_by_key(context, known, name, number)
}

/// Returns the known ways of a pattern to take this first. Allocates nothing.
fn ways_known<'a>(
    context: &Context,
    known: &'a Known,
    first: First,
    number: PatternNumber,
) -> Option<&'a [LeafWay]>
    ensures { (ns : List Node) → AreAllKnown context.now.grammar.now context.now.keys.now ns known.now
        → IfSome result (λ ws. AreWaysFor context.now.grammar.now ns first.entry (tree_of context.now.grammar.now ns number.0) ws.now) }
{
    match first {
        First::Text(_, _) => known_ways(&known.texts, number),
        First::Attribute(attr) => attribute_ways_known(context, known, &attr.name, number),
    }
}

/// Returns true only if a way changes nothing of what is left, whether its leaf takes it or not.
fn is_covered(rest: Rest, way: LeafWay) -> bool
    ensures { result ≡ true → IsCovered rest way }
{
    match rest {
        Rest::Unknown => true,
        Rest::Nothing => false,
        Rest::Only(only) => only == way.rest,
        Rest::Two(first, second) => first == way.rest || second == way.rest,
    }
}

/// Returns what is left by one more way, where it was told or not whether its leaf takes it.
fn with_told(told: Option<bool>, rest: Rest, way: LeafWay) -> Rest
    ensures { result ≡ with_told told rest way }
{
    match told {
        None => Rest::Unknown,
        Some(false) => rest,
        Some(true) => match rest {
            Rest::Nothing => Rest::Only(way.rest),
            Rest::Only(only) => Rest::Two(only, way.rest),
            _ => Rest::Unknown,
        },
    }
}

/// Returns what is left of a pattern after this, if its ways are known and tell no more than two rests. Tells nothing of
/// a pattern with many ways, whose tests cost much. Allocates nothing. The cost is at most one look-up for a string, and
/// a test of each leaf. For an attribute it is a comparison of names if its key is the last one of the pattern, and
/// otherwise at most four look-ups.
pub fn settled(
    context: &Context,
    table: &PatternTable,
    known: &Known,
    first: First,
    number: PatternNumber,
) -> Rest
    requires inside { number.0 < length table.now }
    requires ready { IsReady context.now.grammar.now table.now context.now.numbers.now }
    requires known { AreAllKnown context.now.grammar.now context.now.keys.now table.now known.now }
    ensures { IsSettled context.now.grammar.now table.now first.entry (tree_of context.now.grammar.now table.now number.0) result }
{
    match ways_known(context, known, first, number) {
        Some(ways) => left_by_few(context, table, known, first, ways),
        None => Rest::Unknown,
    }
}

/// Returns what is left by these ways, unless they are many. Allocates nothing. The cost is a test of each leaf.
#[inline(always)]
pub fn left_by_few(
    context: &Context,
    table: &PatternTable,
    known: &Known,
    first: First,
    ways: &[LeafWay],
) -> Rest
    requires inside { AreInside table.now ways.now }
    requires ready { IsReady context.now.grammar.now table.now context.now.numbers.now }
    requires known { AreAllKnown context.now.grammar.now context.now.keys.now table.now known.now }
    ensures { AreLeft context.now.grammar.now table.now first.entry ways.now result }
{
    if ways.len() > FEW_WAYS {
        return Rest::Unknown;
    }
    only_rest(context, table, known, first, ways)
}

/// Returns what is left of a pattern after an attribute, if the pattern has one way to take one with its name, whose leaf
/// is known to take it, and the name is the last one of the pattern. Allocates nothing. The cost is a comparison of names
/// and a test of the leaf.
#[inline(always)]
pub fn left_by_only_way(
    context: &Context,
    table: &PatternTable,
    known: &Known,
    attr: &Attr,
    number: PatternNumber,
) -> Option<PatternNumber>
    requires ready { IsReady context.now.grammar.now table.now context.now.numbers.now }
    requires known { AreAllKnown context.now.grammar.now context.now.keys.now table.now known.now }
    ensures { IfSome result (λ rest. IsLeft context.now.grammar.now table.now table.now (firsts.Attribute attr.entry) number rest) }
{
    let ways = last_ways_for(context, known, &attr.name, number)?;
    let [way] = ways else {
        return None;
    };
    let told = takes_by_known(context, table, known, First::Attribute(attr), way.leaf)?;
    if told { Some(way.rest) } else { None }
}

/// Returns the rest of the ways whose leaves take this.
fn only_rest(
    context: &Context,
    table: &PatternTable,
    known: &Known,
    first: First,
    ways: &[LeafWay],
) -> Rest
    requires inside { AreInside table.now ways.now }
    requires ready { IsReady context.now.grammar.now table.now context.now.numbers.now }
    requires known { AreAllKnown context.now.grammar.now context.now.keys.now table.now known.now }
    ensures { AreLeft context.now.grammar.now table.now first.entry ways.now result }
{
    let mut rest = Rest::Nothing;
    'ways: for way in ways {
        if let Rest::Unknown = rest {
            return Rest::Unknown;
        }
        if is_covered(rest, *way) {
            continue;
        }
        let told = takes_by_known(context, table, known, first, way.leaf);
        rest = with_told(told, rest, *way);
    }
    rest
}

/// Returns whether a leaf takes this, as far as known ways tell.
#[inline(always)]
pub fn takes_by_known(
    context: &Context,
    table: &PatternTable,
    known: &Known,
    first: First,
    leaf: PatternNumber,
) -> Option<bool>
    requires inside { leaf.0 < length table.now }
    requires ready { IsReady context.now.grammar.now table.now context.now.numbers.now }
    requires known { AreAllKnown context.now.grammar.now context.now.keys.now table.now known.now }
    ensures { IfSome result (TellsTaken (reading_of context.now.grammar.now) first.entry (tree_of context.now.grammar.now table.now leaf.0)) }
{
    match first {
        First::Text(_, text) => text_leaf_takes(context, table, known, leaf, text),
        First::Attribute(attr) => {
            let Pattern::Attribute(position) = table.pattern(leaf) else {
                return None;
            };
            attribute_takes(context, table, known, attr, *position)
        }
    }
}

/// Returns whether the attribute pattern at a position of the grammar takes an attribute, as far as known ways tell.
#[inline(always)]
fn attribute_takes(
    context: &Context,
    table: &PatternTable,
    known: &Known,
    attr: &Attr,
    position: PatternId,
) -> Option<bool>
    requires ready { IsReady context.now.grammar.now table.now context.now.numbers.now }
    requires known { AreAllKnown context.now.grammar.now context.now.keys.now table.now known.now }
    ensures { IfSome result (TellsTaken (reading_of context.now.grammar.now) (firsts.Attribute attr.entry)
        (attribute_found context.now.grammar.now (slice_get context.now.grammar.now.patterns position.0))) }
{
    let row = context.grammar.pattern(position)?;
    let Simple::Attribute(class, body) = row else {
        return None;
    };
    if !contains(class, &attr.name) {
        return Some(false);
    }
    value_takes(context, table, known, attr.value.as_str(), *body)
}

/// Returns whether a pattern weakly takes the value of an attribute, as far as known ways tell.
///
/// RELAX NG Specification, section 6.2.7.
#[inline(always)]
fn value_takes(
    context: &Context,
    table: &PatternTable,
    known: &Known,
    value: &str,
    body: PatternId,
) -> Option<bool>
    requires inside { body.0 < length context.now.numbers.now }
    requires ready { IsReady context.now.grammar.now table.now context.now.numbers.now }
    requires known { AreAllKnown context.now.grammar.now context.now.keys.now table.now known.now }
    ensures { IfSome result (λ b. IsAskedFor context.now.grammar.now body.0 → IsRestricted (tree_at context.now.grammar.now.patterns body)
        → (b ≡ true) ↔ WeaklyTakes (reading_of context.now.grammar.now) (tree_at context.now.grammar.now.patterns body) [] (a_text value.now ∷ [])) }
{
    let body = number_at(context.numbers, body);
    let empty = table.facts(body).nullable;
    let taken = string_taken(context, table, known, value, body)?;
    Some(taken || empty && is_blank(value))
}

/// Returns whether a pattern takes a string alone, as far as known ways tell.
#[inline(always)]
fn string_taken(
    context: &Context,
    table: &PatternTable,
    known: &Known,
    text: &str,
    number: PatternNumber,
) -> Option<bool>
    requires inside { number.0 < length table.now }
    requires ready { IsReady context.now.grammar.now table.now context.now.numbers.now }
    requires known { AreAllKnown context.now.grammar.now context.now.keys.now table.now known.now }
    ensures { IfSome result (λ b. IsRestricted (tree_of context.now.grammar.now table.now number.0)
        → (b ≡ true) ↔ Takes (reading_of context.now.grammar.now) (tree_of context.now.grammar.now table.now number.0) [] (a_text text.now ∷ [])) }
{
    let first = First::Text(Place::Content, text);
    if is_leaf_for(table, first, number) {
        return text_leaf_takes(context, table, known, number, text);
    }
    let ways = known_ways(&known.texts, number)?;
    if ways.len() > FEW_WAYS {
        return None;
    }
    taken_by_some(context, table, known, text, ways)
}

/// Returns whether one of these ways takes a string alone: its leaf takes the string, and its rest takes nothing.
fn taken_by_some(
    context: &Context,
    table: &PatternTable,
    known: &Known,
    text: &str,
    ways: &[LeafWay],
) -> Option<bool>
    requires inside { AreInside table.now ways.now }
    requires datatypes { AreDatatypesOf context.now.grammar.now known.now.datatypes }
    ensures { IfSome result (TellsWhole context.now.grammar.now table.now (firsts.Text places.Content text.entry) ways.now) }
{
    'ways: for way in ways {
        if !table.facts(way.rest).nullable {
            continue;
        }
        let taken = text_leaf_takes(context, table, known, way.leaf, text)?;
        if taken {
            return Some(true);
        }
    }
    Some(false)
}
