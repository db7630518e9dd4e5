// Depths of the trees of a schema. Each definition is measured once.
ghost use Rattle.std.specs.Prelude.{◌<◌, length, All, IfOk, IsTrue, IsFalse};
ghost use Rattle.rng_simple.specs.plain.Graph.{IsDeepBy, IsFilledBy, IsOrderBy, Mentions, spot_depth};
ghost use Rattle.rng_simple.specs.views.GraphView.{classes_of, graph_of};
ghost use Rattle.rng_simple.specs.plain.MemberDepths.{IsDeepElement, depth_in};

use crate::graph::depth::{DEPTH_LIMIT, body_depth, class_depth, definition_depth, pattern_depth};
use crate::graph::parts::{Graph, GraphElement};
use std::alloc::{AllocError, Global};

/// Returns the depth of each definition of an order, at most the limit plus one. The others have depth 0.
///
/// Takes time linear in the bodies. Fails only when out of memory.
pub fn depths(alloc: Global, graph: &Graph<'_>, order: &[usize]) -> Result<Vec<u32>, AllocError>
    requires order { IsOrderBy (Mentions (graph_of graph.now)) order.now }
    requires within { All (λ j. j < length (graph_of graph.now).bodies) order.now }
    ensures { IfOk result (λ table. IsFilledBy (graph_of graph.now) (spot_depth (depth_in table.items)) (depth_in table.items) order.now) }
{
    let mut table = vec![in alloc; 0; graph.bodies.len()]?;
    let mut inside = Vec::new(alloc);
    for j in order {
        let depth = body_depth(&mut inside, &graph.bodies[*j], table.as_slice())?;
        table[*j] = depth;
    }
    Ok(table)
}

/// Whether some tree or name class is too deep, given the depths of the definitions.
///
/// Takes time linear in the bodies. Fails only when out of memory.
pub fn is_too_deep(
    alloc: Global,
    graph: &Graph<'_>,
    definitions: &[u32],
) -> Result<bool, AllocError>
    ensures deep { IfOk result (λ b. IsTrue b → IsDeepBy (classes_of graph.now) (graph_of graph.now) (depth_in definitions.now)) }
    ensures flat { IfOk result (λ b. IsFalse b → ¬ (IsDeepBy (classes_of graph.now) (graph_of graph.now) (depth_in definitions.now))) }
{
    if definition_depth(definitions, 0) > DEPTH_LIMIT {
        return Ok(true);
    }
    let mut inside = Vec::new(alloc);
    'elements: for element in &graph.elements {
        if is_deep_element(&mut inside, element, definitions)? {
            return Ok(true);
        }
    }
    Ok(false)
}

/// Whether the name class of an element or the tree of its body is too deep, given the depths of the definitions. Uses
/// `inside`.
fn is_deep_element(
    inside: &mut Vec<u32>,
    element: &GraphElement<'_>,
    definitions: &[u32],
) -> Result<bool, AllocError>
    ensures deep { IfOk result (λ b. IsTrue b → IsDeepElement definitions.now element.now) }
    ensures flat { IfOk result (λ b. IsFalse b → ¬ (IsDeepElement definitions.now element.now)) }
{
    let depth = pattern_depth(inside, &element.content, definitions)?;
    Ok(depth > DEPTH_LIMIT || class_depth(element.class) > DEPTH_LIMIT)
}
