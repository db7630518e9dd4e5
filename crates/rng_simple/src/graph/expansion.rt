// Whether the definitions of a schema can be expanded, and whether the result is too deep.
ghost use Rattle.std.specs.Prelude.{IfErr, IfOk, OnOk};
ghost use Rattle.rng_model.specs.schema.Schema.{Schema};
ghost use Rattle.rng_model.specs.schema.SchemaClauses.{BreaksDepth, BreaksExpansion};
ghost use Rattle.rng_simple.specs.views.ExpansionOrder.{IsExpansionFault, IsGraphOfSchema, IsGraphOfSome, IsWholeOrder};
ghost use Rattle.rng_simple.specs.views.GraphView.{graph_of};

use crate::graph::depth_table::{depths, is_too_deep};
use crate::graph::mentions::mentions;
use crate::graph::order::{Sorted, sort};
use crate::graph::parts::Graph;
use rng_model::SchemaFault;
use std::alloc::Global;

/// Returns an order of the definitions of a schema in which each comes after those that its body mentions outside
/// elements.
///
/// Fails with clause 16 if some expansion loops outside elements. Otherwise fails with clause 17 if some tree or name
/// class is deeper than 1,000, with members nested in twos, and `mixed`, `?` and `*` replaced by other patterns. The
/// only other failure is out of memory. Takes time and memory linear in the graph. Recurses as deep as a single name
/// class nests.
///
/// RELAX NG Specification, section 4.19.
pub fn expansion_order(alloc: Global, graph: &Graph<'_>) -> Result<Vec<usize>, SchemaFault>
    requires { IsGraphOfSome graph.now }
    ensures order { IfOk result (λ order. IsWholeOrder (graph_of graph.now) order.items) }
    ensures kept { OnOk result ((s : Schema) → IsGraphOfSchema s graph.now → (¬ (BreaksExpansion s)) × (¬ (BreaksDepth s))) }
    ensures broken { IfErr result (λ fault. (s : Schema) → IsGraphOfSchema s graph.now → IsExpansionFault s fault) }
{
    let all = mentions(alloc, graph)?;
    let order = match sort(alloc, all.as_slice())? {
        Sorted::Order(order) => order,
        Sorted::Loop(_) => return Err(SchemaFault::Clause(16)),
    };
    let depths = depths(alloc, graph, order.as_slice())?;
    if is_too_deep(alloc, graph, depths.as_slice())? {
        return Err(SchemaFault::Clause(17));
    }
    Ok(order)
}
