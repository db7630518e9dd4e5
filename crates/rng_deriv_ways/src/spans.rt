// Ranges of positions of the attributes in patterns.
ghost use Rattle.std.specs.Prelude.{◌≡◌, ◌<◌, All, List, OnOk, length, map};
ghost use Rattle.rng_model.specs.simple.Table.{Table};
ghost use Rattle.rng_model.specs.simple.Tree.{Connector, s_joined};
ghost use Rattle.rng_deriv_table.specs.views.Node.{Node};
ghost use Rattle.rng_deriv_table.specs.views.Trees.{choice_over, tree_of};
ghost use Rattle.rng_deriv_ways.specs.plain.Takers.{AreSpansOf, IsSpanOf};

use rng_deriv_table::{Pattern, PatternNumber, PatternTable, Span};
use rng_model::OutOfMemory;

/// Adds the range of positions of the attributes in each new pattern of the table. Fails only when out of memory. The
/// cost is one step for each side and each member of these patterns.
pub fn add_spans(table: &PatternTable, spans: &mut Vec<Span>) -> Result<(), OutOfMemory>
    ensures { OnOk result ((t : Table) → AreSpansOf t table.now spans.old.items → AreSpansOf t table.now spans.new.items) }
{
    'patterns: for number in spans.len()..table.len() {
        let span = span_of(table, spans.as_slice(), PatternNumber(number));
        spans.push(span)?;
    }
    Ok(())
}

/// Returns the range of positions of the attributes in a pattern, if those of all patterns before it are known.
fn span_of(table: &PatternTable, spans: &[Span], number: PatternNumber) -> Span
    requires inside { number.0 < length table.now }
    requires all { length spans.now ≡ number.0 }
    ensures { (t : Table) → AreSpansOf t table.now spans.now → IsSpanOf t (tree_of t table.now number.0) result }
{
    match table.pattern(number) {
        Pattern::Choice(members) => span_of_members(spans, members.as_slice()),
        Pattern::Group(first, second) => span_of_sides(spans, *first, *second),
        Pattern::Interleave(first, second) => span_of_sides(spans, *first, *second),
        Pattern::OneOrMore(body) => span_at(spans, *body),
        Pattern::Attribute(position) => Span::one(position.0),
        _ => Span::NONE,
    }
}

/// Returns the known range of positions of the attributes in a pattern.
fn span_at(spans: &[Span], number: PatternNumber) -> Span
    requires { number.0 < length spans.now }
    ensures { (t : Table) (ns : List Node) → AreSpansOf t ns spans.now → IsSpanOf t (tree_of t ns number.0) result }
{
    spans[number.0]
}

/// Returns the range of positions of the attributes in two sides.
fn span_of_sides(spans: &[Span], first: PatternNumber, second: PatternNumber) -> Span
    requires first { first.0 < length spans.now }
    requires second { second.0 < length spans.now }
    ensures { (t : Table) (ns : List Node) (k : Connector) → AreSpansOf t ns spans.now
        → IsSpanOf t (s_joined k (tree_of t ns first.0) (tree_of t ns second.0)) result }
{
    span_at(spans, first).joined(span_at(spans, second))
}

/// Returns the range of positions of the attributes in the members of a choice.
fn span_of_members(spans: &[Span], members: &[PatternNumber]) -> Span
    requires { All (λ m. m.0 < length spans.now) members.now }
    ensures { (t : Table) (ns : List Node) → AreSpansOf t ns spans.now
        → IsSpanOf t (choice_over (tree_of t ns) (map (λ m. m.0) members.now)) result }
{
    let mut all = Span::NONE;
    'members: for member in members {
        all = all.joined(span_at(spans, *member));
    }
    all
}
