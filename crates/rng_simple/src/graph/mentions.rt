// The definitions that each body mentions.
ghost use Rattle.std.specs.Prelude.{◌≡◌, ◌++◌, map, IfOk, OnOk};
ghost use Rattle.rng_simple.specs.views.GraphView.{forest, graph_body_of, graph_of};
ghost use Rattle.rng_simple.specs.plain.Mentioned.{mentioned, all_mentioned, definition_of_row};
ghost use Rattle.rng_simple.specs.plain.Search.{lists};

use crate::graph::parts::{Graph, GraphBody, GraphRow};
use std::alloc::{AllocError, Global};

/// Returns for each definition those that its body mentions outside elements.
///
/// Takes time and memory linear in the bodies. Fails only when out of memory.
pub fn mentions(alloc: Global, graph: &Graph<'_>) -> Result<Vec<Vec<usize>>, AllocError>
    ensures { IfOk result (λ all. lists all.items ≡ map mentioned (graph_of graph.now).bodies) }
{
    let mut all = Vec::new(alloc);
    for body in &graph.bodies {
        all.push(body_mentions(alloc, body)?)?;
    }
    Ok(all)
}

/// The definitions that a body mentions outside elements.
#[tactic(auto, using(crate::proofs::NumberedGraphs::Mentioned::mentioned_combined))]
fn body_mentions(alloc: Global, body: &GraphBody<'_>) -> Result<Vec<usize>, AllocError>
    ensures { IfOk result (λ found. found.items ≡ mentioned (graph_body_of body.now)) }
{
    match body {
        GraphBody::Choice(rows) => rows_mentions(alloc, rows),
        GraphBody::Interleave(rows) => rows_mentions(alloc, rows),
    }
}

/// The definitions that the patterns of these rows mention outside elements.
fn rows_mentions(alloc: Global, rows: &[GraphRow<'_>]) -> Result<Vec<usize>, AllocError>
    ensures { IfOk result (λ found. found.items ≡ all_mentioned (forest rows.now)) }
{
    let mut found = Vec::new(alloc);
    for row in rows {
        add_mention(&mut found, row)?;
    }
    Ok(found)
}

/// Appends the definition of a row, if it is one.
#[tactic(auto, using(crate::proofs::NumberedGraphs::Mentioned::nothing_added))]
fn add_mention(found: &mut Vec<usize>, row: &GraphRow<'_>) -> Result<(), AllocError>
    ensures { OnOk result (found.new.items ≡ found.old.items ++ definition_of_row row.now) }
{
    match row {
        GraphRow::Definition(j) => Ok(found.push(*j)?),
        GraphRow::NotAllowed | GraphRow::Empty | GraphRow::Text => Ok(()),
        GraphRow::Element(_) | GraphRow::Data(_) | GraphRow::Value(_) => Ok(()),
        GraphRow::Attribute(_) | GraphRow::List | GraphRow::DataExcept(_) => Ok(()),
        GraphRow::Mixed | GraphRow::Optional => Ok(()),
        GraphRow::ZeroOrMore | GraphRow::OneOrMore => Ok(()),
        GraphRow::Group(_) | GraphRow::Interleave(_) | GraphRow::Choice(_) => Ok(()),
    }
}
