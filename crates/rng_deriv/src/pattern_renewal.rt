// Freeing the patterns that nobody holds.
ghost use Rattle.std.specs.Prelude.{◌≡◌, ◌<◌, ◌++◌, All, IfOk, List, length};
ghost use Rattle.rng_names.specs.plain.Keys.{Keys};
ghost use Rattle.rng_model.specs.simple.Table.{Table};
ghost use Rattle.rng_deriv_table.specs.views.Node.{Node};
ghost use Rattle.rng_deriv_ways.specs.views.KnownWays.{AreAllKnown};
ghost use Rattle.rng_deriv.specs.views.PatternRenewal.{AreSameTrees};

use rng_deriv_table::{PatternNumber, PatternTable};
use rng_deriv_ways::Known;
use rng_model::OutOfMemory;
use std::alloc::Global;

/// Some of the patterns of a table, with their parts, in a table of their own.
#[derive(Drop)]
pub struct Selection {
    pub table: PatternTable,
    /// The numbers of the patterns of the grammar.
    pub numbers: Vec<PatternNumber>,
    /// The numbers of the patterns that were held.
    pub held: Vec<PatternNumber>,
}

/// The number of patterns that may be made, beyond twice the wanted ones, before the others are freed.
const ROOM: usize = 16_384;

/// The number of starts that may be computed before what is known of the parts of patterns is freed.
const MOST_STARTS: usize = 1_024;

/// Returns how many patterns a table may have before those that nobody holds are freed, if this many are wanted.
pub fn limit_beside(wanted: usize) -> usize {
    wanted.saturating_add(wanted).saturating_add(ROOM)
}

/// Returns some numbers, followed by others. Fails only when out of memory.
fn joined(
    alloc: Global,
    first: &[PatternNumber],
    second: &[PatternNumber],
) -> Result<Vec<PatternNumber>, OutOfMemory>
    ensures { IfOk result (λ all. all.items ≡ first.now ++ second.now) }
{
    let mut all = Vec::new(alloc);
    all.extend_from_slice(first)?;
    all.extend_from_slice(second)?;
    Ok(all)
}

/// Returns a copy of numbers. Fails only when out of memory.
pub fn copied(alloc: Global, numbers: &[PatternNumber]) -> Result<Vec<PatternNumber>, OutOfMemory>
    ensures { IfOk result (λ copy. copy.items ≡ numbers.now) }
{
    let mut copy = Vec::new(alloc);
    copy.extend_from_slice(numbers)?;
    Ok(copy)
}

/// Returns the patterns of the grammar, which have these numbers, and those that are held, in a table of their own.
/// Fails only when out of memory. Costs one pass over the table.
pub fn renewed(
    alloc: Global,
    table: &PatternTable,
    numbers: &[PatternNumber],
    held: &[PatternNumber],
) -> Result<Selection, OutOfMemory>
    requires numbers { All (λ n. n.0 < length table.now) numbers.now }
    requires held { All (λ n. n.0 < length table.now) held.now }
    ensures numbers { IfOk result (λ r. (t : Table) → AreSameTrees t table.now r.table numbers.now r.numbers.items) }
    ensures held { IfOk result (λ r. (t : Table) → AreSameTrees t table.now r.table held.now r.held.items) }
{
    let wanted = joined(alloc, numbers, held)?;
    let (table, given) = table.selected(alloc, wanted.as_slice())?;
    let (numbers, held) = given.as_slice().split_at(numbers.len());
    let numbers = copied(alloc, numbers)?;
    let held = copied(alloc, held)?;
    Ok(Selection {
        table,
        numbers,
        held,
    })
}

/// Counts a start that is computed. After many of them, frees what is known of the parts of patterns, so that memory
/// stays bounded. Allocates nothing.
pub fn count_start(alloc: Global, known: &mut Known, starts: &mut usize)
    ensures { (t : Table) (keys : Keys) (ns : List Node) → AreAllKnown t keys ns known.old → AreAllKnown t keys ns known.new }
{
    *starts = starts.saturating_add(1);
    if *starts >= MOST_STARTS {
        known.forget(alloc);
        *starts = 0;
    }
}
