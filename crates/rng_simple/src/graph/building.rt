// From a schema to its graph.
ghost use Rattle.std.specs.Prelude.{◌≡◌, ◌∷◌, [], IfOk, None, OnOk};
ghost use Rattle.rng_model.specs.schema.Schema as schemas;
ghost use Rattle.rng_model.specs.views.SchemaView.{place_of};
ghost use Rattle.rng_load.specs.views.PlacedGrammars.{schema_of};
ghost use Rattle.rng_simple.specs.views.ComponentTable.{IsTable, components_of, schema_components, table_of};
ghost use Rattle.rng_simple.specs.views.Definitions.{definition_of, numbering_of};
ghost use Rattle.rng_simple.specs.views.ExpansionOrder.{IsGraphOfSchema};
ghost use Rattle.rng_simple.specs.views.GraphView.{graph_body_of};
ghost use Rattle.rng_model.specs.schema.SchemaClauses.{BreaksRef, HasNoStart};
ghost use Rattle.rng_simple.specs.plain.ResolvedBody.{resolved_body};

use crate::graph::components::ComponentTable;
use crate::graph::definitions::{Definition, Numbering, number};
use crate::graph::parts::{Graph, GraphBody};
use crate::graph::resolving::Scope;
use indexmap::IndexSet;
use rng_load::Schema;
use rng_model::{OutOfMemory, Place};
use std::alloc::Global;

/// Builds the graph of a schema: the definitions and the elements that are met from its start, by number.
///
/// The grammars of the schema must have starts, and its refs must have definitions. Fails only when out of memory.
/// Takes linear time, apart from hash collisions.
///
/// RELAX NG Specification, sections 4.17 to 4.19.
pub fn schema_graph<'a>(alloc: Global, schema: &'a Schema) -> Result<Graph<'a>, OutOfMemory>
    requires starts { ¬ (HasNoStart (schema_of schema.now)) }
    requires refs { ¬ (BreaksRef (schema_of schema.now)) }
    ensures { IfOk result (λ g. IsGraphOfSchema (schema_of schema.now) g) }
{
    let table = ComponentTable::of_schema(alloc, schema)?;
    let mut numbering = started(alloc, schema.main(), table.len())?;
    let mut bodies = Vec::with_capacity(alloc, table.len())?;
    'definitions: while let Some(definition) = numbering.definitions.get_index(bodies.len()) {
        let definition = *definition;
        bodies.push(body(alloc, schema, &table, definition, &mut numbering)?)?;
    }
    bodies.shrink_to_fit();
    numbering.elements.shrink_to_fit();
    Ok(Graph {
        bodies,
        elements: numbering.elements,
    })
}

/// A numbering in which the start has the number 0, with capacity for `definitions` definitions.
fn started<'a>(
    alloc: Global,
    main: &'a Place,
    definitions: usize,
) -> Result<Numbering<'a>, OutOfMemory>
    ensures { IfOk result (λ n. numbering_of n ≡ record { definitions = record { place = place_of main.now; name = None } ∷ []; elements = [] }) }
{
    let mut definitions = IndexSet::with_capacity(alloc, definitions)?;
    number(
        &mut definitions,
        Definition {
            place: main,
            name: None,
        },
    )?;
    Ok(Numbering {
        definitions,
        elements: Vec::new(alloc),
    })
}

/// The body of a definition.
fn body<'a>(
    alloc: Global,
    schema: &'a Schema,
    table: &ComponentTable<'a>,
    definition: Definition<'a>,
    numbering: &mut Numbering<'a>,
) -> Result<GraphBody<'a>, OutOfMemory>
    requires table { IsTable (table_of table.now) }
    requires components { (d : schemas.Definition) → components_of (table_of table.now) d ≡ schema_components (schema_of schema.now) d }
    ensures body { IfOk result (λ b. graph_body_of b ≡ (resolved_body (schema_of schema.now) (definition_of definition.entry) (numbering_of numbering.old)).0) }
    ensures numbering { OnOk result (numbering_of numbering.new ≡ (resolved_body (schema_of schema.now) (definition_of definition.entry) (numbering_of numbering.old)).1) }
{
    let scope = Scope {
        alloc,
        place: definition.place,
        outer: schema.outer(definition.place),
    };
    scope.combined(table.components(definition), numbering)
}
