// The ways of a pattern to take a string or an attribute.
ghost use Rattle.std.specs.Prelude.{◌<◌, IfOk, OnOk, length};
ghost use Rattle.rng_deriv_table.specs.views.PatternTable.{Longer};
ghost use Rattle.rng_deriv_table.specs.views.Trees.{tree_of};
ghost use Rattle.rng_deriv_ways.specs.views.KnownWays.{AreAllKnown, AreKnown};
ghost use Rattle.rng_deriv_ways.specs.plain.Ways.{AreWaysOf};
ghost use Rattle.rng_deriv_ways.specs.declared.way.Kind.TheVariants as kinds;

use crate::by_key::ways_by_key;
use crate::context::Context;
use crate::deep_ways::ways_of;
use crate::known::{Known, KnownWays, keep_last};
use crate::spans::add_spans;
use crate::way::{Candidates, Kind, Search, Ways};
use crate::ways::is_kept;
use rng_deriv_table::{PatternNumber, PatternTable};
use rng_model::{Name, OutOfMemory};

/// Returns the ways of a pattern to take a string first. Fails only when out of memory. Those of its parts are kept.
pub fn text_ways(
    context: &Context,
    table: &mut PatternTable,
    known: &mut KnownWays,
    number: PatternNumber,
) -> Result<Ways, OutOfMemory>
    requires inside { number.0 < length table.old }
    requires known { AreKnown context.now.grammar.now table.old kinds.Text known.old }
    ensures longer { OnOk result (Longer table.old table.new) }
    ensures known { OnOk result (AreKnown context.now.grammar.now table.new kinds.Text known.new) }
    ensures ways { IfOk result (λ ws. AreWaysOf context.now.grammar.now table.new kinds.Text
        (tree_of context.now.grammar.now table.old number.0) ws.items) }
{
    let search = Search {
        alloc: context.alloc,
        grammar: context.grammar,
        candidates: Candidates::Any,
        kind: Kind::Text,
    };
    ways_of(&search, table, known, number)
}

/// Returns the ways of a pattern to take an attribute with this name first. They are those for the representative of
/// its key, which no name class distinguishes from the name. Fails only when out of memory. Those of its parts are kept.
/// Those of the pattern are kept as the last ones, if its ways are kept.
pub fn attribute_ways(
    context: &Context,
    table: &mut PatternTable,
    known: &mut Known,
    name: &Name,
    number: PatternNumber,
) -> Result<Ways, OutOfMemory>
    requires inside { number.0 < length table.old }
    requires known { AreAllKnown context.now.grammar.now context.now.keys.now table.old known.old }
    ensures longer { OnOk result (Longer table.old table.new) }
    ensures known { OnOk result (AreAllKnown context.now.grammar.now context.now.keys.now table.new known.new) }
    ensures ways { IfOk result (λ ws. AreWaysOf context.now.grammar.now table.new (kinds.Attribute name.entry)
        (tree_of context.now.grammar.now table.old number.0) ws.items) }
{
    add_spans(table, &mut known.spans)?;
    let key = context.keys.key(name);
    let takers = known.attribute_takers.of(key);
    let search = Search {
        alloc: context.alloc,
        grammar: context.grammar,
        candidates: Candidates::Attributes(takers, known.spans.as_slice()),
        kind: Kind::Attribute(context.keys.name(key)),
    };
    let ways = ways_by_key(&search, table, &mut known.attributes, key, number)?;
    if !is_kept(table, number) {
        return Ok(ways);
    }
    keep_last(context.alloc, &mut known.last, number, key, ways.as_slice())?;
    Ok(ways)
}
