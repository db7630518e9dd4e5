// Known ways, by keys of names.
ghost use Rattle.std.specs.Prelude.{◌<◌, IfOk, OnOk, length};
ghost use Rattle.rng_deriv_table.specs.views.PatternTable.{Longer};
ghost use Rattle.rng_deriv_table.specs.views.Trees.{tree_of};
ghost use Rattle.rng_deriv_ways.specs.views.KnownWays.{AreKnownFor, KeepsOtherKeys};
ghost use Rattle.rng_deriv_ways.specs.plain.Takers.{AreCandidates};
ghost use Rattle.rng_deriv_ways.specs.plain.Ways.{AreWaysOf};

use crate::deep_ways::ways_of;
use crate::known::KnownByKey;
use crate::way::{Search, Ways};
use rng_deriv_table::{PatternNumber, PatternTable};
use rng_model::OutOfMemory;
use rng_names::NameKey;
use std::collections::HashMap;

/// Returns the ways of a pattern to take something of this kind first, whose name has this key. Ways that are known for
/// the key are not computed again.
pub fn ways_by_key(
    search: &Search,
    table: &mut PatternTable,
    known: &mut KnownByKey,
    key: NameKey,
    number: PatternNumber,
) -> Result<Ways, OutOfMemory>
    requires inside { number.0 < length table.old }
    requires known { AreKnownFor search.now.grammar.now table.old search.now.kind key known.old }
    requires candidates { AreCandidates search.now.grammar.now table.old search.now.kind search.now.candidates }
    ensures longer { OnOk result (Longer table.old table.new) }
    ensures known { OnOk result (AreKnownFor search.now.grammar.now table.new search.now.kind key known.new) }
    ensures others { OnOk result (KeepsOtherKeys key known.old known.new) }
    ensures ways { IfOk result (λ ws. AreWaysOf search.now.grammar.now table.new search.now.kind (tree_of search.now.grammar.now table.old number.0) ws.items) }
{
    if let Some(own) = known.get_mut(&key) {
        return ways_of(search, table, own, number);
    }
    let mut own = HashMap::new(search.alloc);
    let ways = ways_of(search, table, &mut own, number)?;
    known.insert(key, own)?;
    Ok(ways)
}
