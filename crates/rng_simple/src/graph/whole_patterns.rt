// Which rows of a list are one pattern of it.
ghost use Rattle.std.specs.Prelude.{◌≡◌, ◌≤◌, ◌∷◌, ◌++◌, [], List, length, take, drop};
ghost use Rattle.rng_model.specs.simple.Tree.{Tree};
ghost use Rattle.rng_model.specs.views.SchemaView.{patterns_in};
ghost use Rattle.rng_simple.specs.plain.Graph.{Spot};
ghost use Rattle.rng_simple.specs.views.GraphView.{forest};

use crate::graph::parts::GraphRow;
use rng_model::SchemaRow;

/// The rows of the first pattern of these rows: those up to the last row behind which there is one pattern alone.
pub(crate) fn first_pattern(rows: &[SchemaRow]) -> &[SchemaRow]
    ensures { patterns_in result.now ≡ take 1 (patterns_in rows.now) }
{
    let mut count = 0usize;
    let mut end = 0usize;
    for (index, row) in rows.iter().enumerate() {
        count = count.saturating_sub(row.arity()) + 1;
        if count == 1 {
            end = index + 1;
        }
    }
    &rows[..end]
}

/// The place where the last pattern of these rows begins. Takes time in the length of that pattern.
pub(crate) fn last_pattern(rows: &[GraphRow<'_>]) -> usize
    ensures within { result ≤ length rows.now }
    ensures last { (ts : List (Tree Spot)) (t : Tree Spot) → forest rows.now ≡ ts ++ t ∷ []
        → (forest (take result rows.now) ≡ ts) × (forest (drop result rows.now) ≡ t ∷ []) }
{
    if rows.is_empty() {
        return 0;
    }
    let mut begin = rows.len() - 1;
    let mut missing = rows[begin].arity();
    'rows: while missing > 0 && begin > 0 {
        begin -= 1;
        missing = (missing - 1).saturating_add(rows[begin].arity());
    }
    begin
}
