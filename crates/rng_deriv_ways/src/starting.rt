// Patterns after a start tag.
ghost use Rattle.std.specs.Prelude.{◌≡◌, [], ◌<◌, IfOk, OnOk, length, slice_index_or};
ghost use Rattle.rng_names.specs.plain.Keys.{name_at};
ghost use Rattle.rng_model.specs.names.NameViews.{name_of};
ghost use Rattle.rng_deriv_table.specs.views.PatternTable.{Longer};
ghost use Rattle.rng_deriv_table.specs.views.Trees.{tree_of};
ghost use Rattle.rng_deriv_ways.specs.views.KnownWays.{AreAllKnown};
ghost use Rattle.rng_deriv_ways.specs.plain.Ways.{AreInside};
ghost use Rattle.rng_deriv_ways.specs.plain.Starting.{AreBodies, AreStarts, IsBodyOf, IsReady};

use crate::by_key::ways_by_key;
use crate::context::Context;
use crate::known::Known;
use crate::leaves::element_takes;
use crate::way::{Candidates, Kind, LeafWay, Search, Ways};
use rng_deriv_table::{Pattern, PatternNumber, PatternTable};
use rng_model::{Name, OutOfMemory, PatternId};
use rng_names::NameKey;
use smallvec::SmallVec;

/// Returns the bodies by which a pattern takes an element with the representative name of a key, each with what is left
/// after the element.
///
/// RELAX NG Specification, section 6.2.7. Fails only when out of memory. The ways of the pattern's parts are kept in
/// `known`.
pub fn start(
    context: &Context,
    table: &mut PatternTable,
    known: &mut Known,
    number: PatternNumber,
    key: NameKey,
) -> Result<Ways, OutOfMemory>
    requires inside { number.0 < length table.old }
    requires key { key.0 < length context.now.keys.now.names }
    requires ready { IsReady context.now.grammar.now table.old context.now.numbers.now }
    requires known { AreAllKnown context.now.grammar.now context.now.keys.now table.old known.old }
    ensures longer { OnOk result (Longer table.old table.new) }
    ensures known { OnOk result (AreAllKnown context.now.grammar.now context.now.keys.now table.new known.new) }
    ensures starts { IfOk result (λ ws. AreStarts context.now.grammar.now table.new context.now.numbers.now
        (tree_of context.now.grammar.now table.old number.0) (name_at context.now.keys.now key.0) ws.items) }
{
    known.skips.add(context.alloc, table)?;
    let name = context.keys.name(key);
    let takers = known.takers.of(key);
    let search = Search {
        alloc: context.alloc,
        grammar: context.grammar,
        candidates: Candidates::Elements(takers, known.alike.as_slice(), &known.skips),
        kind: Kind::Element(name),
    };
    let ways = ways_by_key(&search, table, &mut known.elements, key, number)?;
    let mut starts = SmallVec::new(context.alloc);
    add_starts(context, table, name, ways.as_slice(), &mut starts)?;
    Ok(starts)
}

/// Returns the body of a leaf that takes an element with this name.
fn body(
    context: &Context,
    table: &PatternTable,
    leaf: PatternNumber,
    name: &Name,
) -> Option<PatternNumber>
    requires inside { leaf.0 < length table.now }
    requires ready { IsReady context.now.grammar.now table.now context.now.numbers.now }
    ensures { IsBodyOf context.now.grammar.now table.now context.now.numbers.now (tree_of context.now.grammar.now table.now leaf.0) (name_of name.now) result }
{
    let Pattern::Element(element) = table.pattern(leaf) else {
        return None;
    };
    if !element_takes(context.grammar, *element, Kind::Element(name)) {
        return None;
    }
    match context.grammar.element(*element) {
        Some((_, body)) => Some(number_at(context.numbers, *body)),
        None => None,
    }
}

/// Returns the number of the grammar's pattern at a position.
pub fn number_at(numbers: &[PatternNumber], position: PatternId) -> PatternNumber
    requires { position.0 < length numbers.now }
    ensures { result ≡ slice_index_or numbers.now position.0 (record { 0 = 0 }) }
{
    numbers[position.0]
}

/// Adds the bodies of the leaves that take an element with this name.
fn add_starts(
    context: &Context,
    table: &PatternTable,
    name: &Name,
    ways: &[LeafWay],
    starts: &mut Ways,
) -> Result<(), OutOfMemory>
    requires ready { IsReady context.now.grammar.now table.now context.now.numbers.now }
    requires ways { AreInside table.now ways.now }
    requires none { starts.old.items ≡ [] }
    ensures starts { OnOk result (AreBodies context.now.grammar.now table.now context.now.numbers.now (name_of name.now) ways.now starts.new.items) }
{
    'ways: for way in ways {
        let Some(body) = body(context, table, way.leaf, name) else {
            continue;
        };
        starts.push(LeafWay {
            leaf: body,
            rest: way.rest,
        })?;
    }
    Ok(())
}
