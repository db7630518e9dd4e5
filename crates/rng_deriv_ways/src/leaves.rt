// The ways of leaves.
ghost use Rattle.std.specs.Prelude.{◌≡◌, ◌<◌, IfOk, OnOk, length, slice_get};
ghost use Rattle.rng_model.specs.simple.Table.{Table};
ghost use Rattle.rng_model.specs.simple.Tree.{s_leaf, s_text};
ghost use Rattle.rng_model.specs.matching.GrammarMatching.{Reading, reading_of};
ghost use Rattle.rng_deriv_table.specs.views.PatternTable.{Adds, Longer};
ghost use Rattle.rng_deriv_table.specs.views.Trees.{attribute_found, tree_of};
ghost use Rattle.rng_deriv_ways.specs.plain.Kinds.{IsAlone, rest_of_leaf, takes_kind};
ghost use Rattle.rng_deriv_ways.specs.plain.Alike.{IsLikeLeaf};
ghost use Rattle.rng_deriv_ways.specs.plain.Takers.{AreCandidates};
ghost use Rattle.rng_deriv_ways.specs.plain.Ways.{AreWaysOf};
ghost use Rattle.rng_deriv_ways.specs.declared.way.Kind as kinds;

use crate::way::{Candidates, Kind, LeafWay, Search, Ways};
use rng_deriv_table::{Pattern, PatternNumber, PatternTable};
use rng_model::{ElementId, OutOfMemory, PatternId, Simple, SimpleGrammar};
use rng_names::contains;
use smallvec::SmallVec;

/// Returns whether a text comes first.
fn is_text(kind: Kind) -> bool
    ensures { (g : Reading) → result ≡ takes_kind g kind.entry s_text }
{
    matches!(kind, Kind::Text)
}

/// Returns whether an element of the grammar may take what comes first, by its name.
pub fn element_takes(grammar: &SimpleGrammar, element: ElementId, kind: Kind) -> bool
    ensures { result ≡ takes_kind (reading_of grammar.now) kind.entry (s_leaf element.0) }
{
    let Kind::Element(name) = kind else {
        return false;
    };
    match grammar.element(element) {
        Some((class, _)) => contains(class, name),
        None => false,
    }
}

/// Returns whether an attribute pattern of the grammar may take what comes first, by its name.
fn attribute_takes(grammar: &SimpleGrammar, position: PatternId, kind: Kind) -> bool
    ensures { result ≡ takes_kind (reading_of grammar.now) kind.entry (attribute_found grammar.now (slice_get grammar.now.patterns position.0)) }
{
    let Kind::Attribute(name) = kind else {
        return false;
    };
    match grammar.pattern(position) {
        Some(Simple::Attribute(class, _)) => contains(class, name),
        _ => false,
    }
}

/// Returns whether a pattern is a leaf that may take what comes first.
pub fn takes_kind(
    grammar: &SimpleGrammar,
    table: &PatternTable,
    kind: Kind,
    number: PatternNumber,
) -> bool
    requires { number.0 < length table.now }
    ensures { result ≡ takes_kind (reading_of grammar.now) kind.entry (tree_of grammar.now table.now number.0) }
{
    match table.pattern(number) {
        Pattern::Text => is_text(kind),
        Pattern::Data(_) => is_text(kind),
        Pattern::Element(element) => element_takes(grammar, *element, kind),
        Pattern::Attribute(position) => attribute_takes(grammar, *position, kind),
        _ => false,
    }
}

/// Returns what is left after a leaf.
pub fn rest_of_leaf(
    table: &mut PatternTable,
    number: PatternNumber,
) -> Result<PatternNumber, OutOfMemory>
    requires { number.0 < length table.old }
    ensures longer { Longer table.old table.new }
    ensures tree { IfOk result (λ n. Adds table.old table.new n.0 (λ t. rest_of_leaf (tree_of t table.old number.0))) }
{
    if let Pattern::Text = table.pattern(number) {
        return Ok(number);
    }
    table.empty()
}

/// Returns the ways of a pattern that is not joined and not a repetition. Elements that take the same have
/// one leaf.
pub fn ways_of_leaf(
    search: &Search,
    table: &mut PatternTable,
    number: PatternNumber,
) -> Result<Ways, OutOfMemory>
    requires inside { number.0 < length table.old }
    requires leaf { IsAlone (tree_of search.now.grammar.now table.old number.0) }
    requires candidates { AreCandidates search.now.grammar.now table.old search.now.kind search.now.candidates }
    ensures longer { OnOk result (Longer table.old table.new) }
    ensures ways { IfOk result (λ ws. AreWaysOf search.now.grammar.now table.new search.now.kind (tree_of search.now.grammar.now table.old number.0) ws.items) }
{
    let mut ways = SmallVec::new(search.alloc);
    if !takes_kind(search.grammar, table, search.kind, number) {
        return Ok(ways);
    }
    let rest = rest_of_leaf(table, number)?;
    let leaf = like_leaf(table, search.candidates, number)?;
    ways.push(LeafWay { leaf, rest })?;
    Ok(ways)
}

/// Returns the leaf that represents all leaves that take the same.
fn like_leaf(
    table: &mut PatternTable,
    candidates: Candidates,
    number: PatternNumber,
) -> Result<PatternNumber, OutOfMemory>
    requires { number.0 < length table.old }
    ensures longer { Longer table.old table.new }
    ensures leaf { IfOk result (λ leaf. (t : Table) (kind : kinds.Kind) → AreCandidates t table.old kind candidates.entry
        → IsLikeLeaf t table.old table.new number leaf) }
{
    let Candidates::Elements(_, alike, _) = candidates else {
        return Ok(number);
    };
    let Pattern::Element(element) = table.pattern(number) else {
        return Ok(number);
    };
    match alike.get(element.0) {
        Some(first) => table.element(*first),
        None => Ok(number),
    }
}
