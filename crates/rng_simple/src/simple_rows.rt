// The simple forms of all definitions and elements of a graph.
ghost use Rattle.std.specs.Prelude.{◌≡◌, ◌<◌, ℕ, length, slice_index_or, All, IfOk, OnOk};
ghost use Rattle.rng_simple.specs.plain.Graph.{IsFilledBy, IsOrderBy, Mentions};
ghost use Rattle.rng_simple.specs.views.GraphView.{graph_of};
ghost use Rattle.rng_simple.specs.plain.GrammarBy.{content_simple, spot_simple};
ghost use Rattle.rng_simple.specs.views.RowTable.{IsGrown, IsRowTable, row_count, tree_of};
ghost use Rattle.rng_simple.specs.plain.SimpleParts.{AreRowsBelow, values_in};

use crate::graph::Graph;
use crate::row_table::{EMPTY, RowTable};
use crate::simple_parts::{simple_body, simple_pattern};
use std::alloc::{AllocError, Global};

/// The row of each definition of an order in which each comes after those that its body mentions. The others have
/// `empty`.
///
/// Takes time linear in the bodies.
pub fn definition_rows<'a>(
    alloc: Global,
    table: &mut RowTable<'a>,
    graph: &Graph<'a>,
    order: &[usize],
) -> Result<Vec<usize>, AllocError>
    requires table { IsRowTable table.old }
    requires order { IsOrderBy (Mentions (graph_of graph.now)) order.now }
    requires within { All (λ j. j < length (graph_of graph.now).bodies) order.now }
    ensures grown { OnOk result (IsGrown table.old table.new) }
    ensures below { IfOk result (λ rows. AreRowsBelow (row_count table.new) rows.items) }
    ensures filled { IfOk result (λ rows. let values = values_in table.new rows.items in
        IsFilledBy (graph_of graph.now) (spot_simple values) values order.now) }
{
    let mut rows = vec![in alloc; EMPTY; graph.bodies.len()]?;
    let mut sides = Vec::new(alloc);
    for j in order {
        let row = simple_body(table, rows.as_slice(), &mut sides, &graph.bodies[*j])?;
        rows[*j] = row;
    }
    Ok(rows)
}

/// The row of the body of each element, given the rows of the definitions.
///
/// Takes time linear in the bodies.
pub fn content_rows<'a>(
    alloc: Global,
    table: &mut RowTable<'a>,
    graph: &Graph<'a>,
    definitions: &[usize],
) -> Result<Vec<usize>, AllocError>
    requires table { IsRowTable table.old }
    requires definitions { AreRowsBelow (row_count table.old) definitions.now }
    ensures grown { OnOk result (IsGrown table.old table.new) }
    ensures below { IfOk result (λ rows. AreRowsBelow (row_count table.new) rows.items) }
    ensures contents { IfOk result (λ rows. (k : ℕ) →
        tree_of table.new (slice_index_or rows.items k 0) ≡ content_simple (graph_of graph.now) (values_in table.old definitions.now) k) }
{
    let mut rows = Vec::with_capacity(alloc, graph.elements.len())?;
    let mut sides = Vec::new(alloc);
    'elements: for element in &graph.elements {
        rows.push(simple_pattern(table, definitions, &mut sides, &element.content)?)?;
    }
    Ok(rows)
}
