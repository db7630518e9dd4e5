// The simple form of a graph.
ghost use Rattle.std.specs.Prelude.{◌≡◌, ◌<◌, length, map, slice_get, All, IfOk, Some};
ghost use Rattle.rng_model.specs.names.Names as names;
ghost use Rattle.rng_model.specs.simple.Table.{AreToldApart, grammar_of};
ghost use Rattle.rng_model.specs.simple.TableRules.{Falls, IsDatatypeKnown, IsPaired, IsTable};
ghost use Rattle.rng_model.specs.simple.SimplifiedSchema.{IsInSimpleSyntax, AreAllUsed};
ghost use Rattle.rng_model.specs.names.NameViews.{class_of};
ghost use Rattle.rng_model.specs.schema.Schema.{Schema};
ghost use Rattle.rng_model.specs.xsd.SchemasWith.{BreaksDatatypeWith};
ghost use Rattle.rng_model.specs.declared.type_set.TypeSet.{TypeSet};
ghost use Rattle.rng_model.specs.simple.SchemaForm.{IsOnlySimpleGrammarOf, IsSimpleGrammarOf};
ghost use Rattle.rng_simple.specs.views.ExpansionOrder.{IsGraphOfSchema, IsWholeOrder};
ghost use Rattle.rng_simple.specs.plain.Graph.{IsOrderBy, Mentions};
ghost use Rattle.rng_simple.specs.views.GraphView.{classes_of, graph_of};
ghost use Rattle.rng_simple.specs.plain.InTwos.{nested as nested_tree};
ghost use Rattle.rng_simple.specs.views.GrammarElements.{AreElementCopies};
ghost use Rattle.rng_simple.specs.plain.MadeTable.{IsMadeTable};
ghost use Rattle.rng_simple.specs.views.GrammarTables.{table_of};

use crate::copying::copied_rows;
use crate::graph::Graph;
use crate::name_class::nested;
use crate::reaching::reached_rows;
use crate::row_table::RowTable;
use crate::simple_parts::row_of;
use crate::simple_rows::{content_rows, definition_rows};
use rng_model::{NameClass, OutOfMemory, PatternId, Simple, SimpleGrammar, TypeSet};
use std::alloc::{AllocError, Global};

/// The tables of a simple grammar.
#[derive(Drop)]
struct GrammarTables {
    patterns: Vec<Simple>,
    elements: Vec<(NameClass, PatternId)>,
    start: PatternId,
}

/// Builds the simple form of the schema of this graph by the rules of sections 4.12 to 4.21 of the RELAX NG
/// Specification.
///
/// The datatypes of the schema must be those of the set. The order has all definitions, each after those that its body
/// mentions outside elements.
///
/// The result is in the simple syntax of section 5. It is the only simple form of the schema, up to the numbers of its
/// elements. Each definition and each element is simplified once, equal patterns have one number, and elements that the
/// start does not reach are left out. Fails only when out of memory. Takes time and memory linear in the graph, apart
/// from hash collisions. Recurses as deep as a single name class nests. To limit memory, the graph and the order are freed
/// before the grammar is made.
pub(crate) fn simple_grammar(
    alloc: Global,
    types: TypeSet,
    graph: Graph<'_>,
    order: Vec<usize>,
) -> Result<SimpleGrammar, OutOfMemory>
    requires order { IsWholeOrder (graph_of graph) order.items }
    requires datatypes { (s : Schema) × IsGraphOfSchema s graph × ¬ (BreaksDatatypeWith types s) }
    ensures set { IfOk result (λ h. h.types ≡ types) }
    ensures syntax { IfOk result (λ h. IsInSimpleSyntax (grammar_of h)) }
    ensures used { IfOk result AreAllUsed }
    ensures apart { IfOk result AreToldApart }
    ensures simple_form { IfOk result (λ h. (s : Schema) → IsGraphOfSchema s graph.entry → IsSimpleGrammarOf s (grammar_of h)) }
    ensures only { IfOk result (λ h. (s : Schema) → IsGraphOfSchema s graph.entry → IsOnlySimpleGrammarOf s (grammar_of h)) }
{
    let tables = made_tables(alloc, graph, order)?;
    Ok(SimpleGrammar::with_types(types, tables.patterns, tables.elements, tables.start))
}

/// The tables of the grammar of a graph, which are the same with each set of datatypes. The definitions are taken in
/// this order. Once everything is in rows, only the name classes of the elements are kept from the graph.
fn made_tables(
    alloc: Global,
    graph: Graph<'_>,
    order: Vec<usize>,
) -> Result<GrammarTables, AllocError>
    requires order { IsOrderBy (Mentions (graph_of graph)) order.items }
    requires within { All (λ j. j < length (graph_of graph).bodies) order.items }
    ensures made { IfOk result (λ t. (types : TypeSet) → IsMadeTable (classes_of graph.entry) (graph_of graph.entry) order.items (table_of types t)) }
    ensures falls { IfOk result (λ t. Falls t.patterns.items) }
    ensures table { IfOk result (λ t. (types : TypeSet) → All (IsDatatypeKnown types) t.patterns.items → IsTable (table_of types t)) }
{
    let mut table = RowTable::new(alloc)?;
    let definitions = definition_rows(alloc, &mut table, &graph, order.as_slice())?;
    drop(order);
    let contents = content_rows(alloc, &mut table, &graph, definitions.as_slice())?;
    let classes = element_classes(alloc, &graph)?;
    drop(graph);
    let first = row_of(definitions.as_slice(), 0);
    let reached = reached_rows(alloc, &table, contents.as_slice(), first)?;
    let rows = table.finished();
    let copied = copied_rows(alloc, &rows, reached.as_slice())?;
    let places = copied.places.as_slice();
    let elements = grammar_elements(
        alloc,
        classes.as_slice(),
        contents.as_slice(),
        places,
        copied.listed.as_slice(),
    )?;
    let start = PatternId(row_of(places, first));
    Ok(GrammarTables {
        patterns: copied.patterns,
        elements,
        start,
    })
}

/// The name class of each element of a graph.
fn element_classes<'a>(alloc: Global, graph: &Graph<'a>) -> Result<Vec<&'a NameClass>, AllocError>
    ensures { IfOk result (λ classes. map (λ k. class_of k.now) classes.items ≡ classes_of graph.now) }
{
    let mut classes = Vec::with_capacity(alloc, graph.elements.len())?;
    'elements: for element in &graph.elements {
        classes.push(element.class)?;
    }
    Ok(classes)
}

/// The listed elements with their name classes and bodies. `classes` has the name classes of all elements, `contents`
/// the rows of their bodies, and `places` the patterns of the rows.
fn grammar_elements(
    alloc: Global,
    classes: &[&NameClass],
    contents: &[usize],
    places: &[usize],
    listed: &[usize],
) -> Result<Vec<(NameClass, PatternId)>, AllocError>
    ensures { IfOk result (λ elements. AreElementCopies (map (λ k. class_of k.now) classes.now) contents.now places.now listed.now elements.items) }
{
    let mut elements = Vec::with_capacity(alloc, listed.len())?;
    'listed: for element in listed {
        let class = element_class(alloc, classes, *element)?;
        let body = PatternId(row_of(places, row_of(contents, *element)));
        elements.push((class, body))?;
    }
    Ok(elements)
}

/// The name class of an element in simple form. For a number past the elements, which no body of a graph has, it is any
/// name.
fn element_class(
    alloc: Global,
    classes: &[&NameClass],
    element: usize,
) -> Result<NameClass, AllocError>
    ensures class { IfOk result (λ copy. (c : names.NameClass) → slice_get (map (λ k. class_of k.now) classes.now) element ≡ Some c → class_of copy ≡ nested_tree c) }
    ensures paired { IfOk result IsPaired }
{
    match classes.get(element) {
        Some(class) => nested(alloc, *class),
        None => Ok(NameClass::Any),
    }
}
