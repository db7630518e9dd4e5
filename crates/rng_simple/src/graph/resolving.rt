// From the patterns of a schema to the rows of its graph.
ghost use Rattle.std.specs.Prelude.{◌≡◌, ◌≤◌, ◌∷◌, ◌++◌, ◌-◌, [], List, OnOk, length, option_map};
ghost use Rattle.rng_model.specs.views.ReplacedLists.{replaced};
ghost use Rattle.rng_model.specs.views.SchemaView.{place_of, row_arity, schema_pattern_of};
ghost use Rattle.rng_model.specs.names.NameViews.{class_of};
ghost use Rattle.rng_simple.specs.views.Definitions.{definition_of, numbering_of};
ghost use Rattle.rng_simple.specs.views.GraphView.{arity, child, forest, row_tree, with_row};
ghost use Rattle.rng_simple.specs.plain.Resolving.{looked_up, looked_up_outside, resolve, with_element};
ghost use Rattle.rng_simple.specs.plain.ResolvedRows.{in_place, with_resolved};

use crate::graph::definitions::{Definition, Numbering, number};
use crate::graph::parts::{GraphElement, GraphRow};
use crate::graph::whole_patterns::{first_pattern, last_pattern};
use rng_model::{NameClass, OutOfMemory, Place, SchemaPattern, SchemaRow};
use std::alloc::Global;

/// The scope of a pattern: the place of its grammar, and the place of the grammar around that one.
#[derive(Clone, Copy)]
pub(crate) struct Scope<'a> {
    pub alloc: Global,
    pub place: &'a Place,
    pub outer: Option<&'a Place>,
}

impl<'a> Scope<'a> {
    /// Appends the rows of the pattern, with numbers in place of its elements and of the definitions that it refers to.
    /// New ones get numbers. Takes linear time, apart from hash collisions.
    ///
    /// RELAX NG Specification, sections 4.18 and 4.19.
    pub(crate) fn pattern(
        &self,
        pattern: &'a SchemaPattern,
        rows: &mut Vec<GraphRow<'a>>,
        numbering: &mut Numbering<'a>,
    ) -> Result<(), OutOfMemory>
        ensures pattern { OnOk result (forest rows.new.items ≡ forest rows.old.items
            ++ (resolve (place_of self.now.place.now) (option_map (λ z. place_of z.now) self.now.outer) (schema_pattern_of pattern.now) (numbering_of numbering.old)).0 ∷ []) }
        ensures numbering { OnOk result (numbering_of numbering.new
            ≡ (resolve (place_of self.now.place.now) (option_map (λ z. place_of z.now) self.now.outer) (schema_pattern_of pattern.now) (numbering_of numbering.old)).1) }
    {
        let first = first_pattern(pattern.rows.as_slice());
        let mut count = 0;
        for row in first {
            let children = row.arity().min(count);
            self.row(row, children, rows, numbering)?;
            count = count - children + 1;
        }
        put_missing(rows, count)
    }

    /// Appends a row that takes as many of the last patterns as it has children. The row of an element takes the rows
    /// of its body away.
    fn row(
        &self,
        row: &'a SchemaRow,
        children: usize,
        rows: &mut Vec<GraphRow<'a>>,
        numbering: &mut Numbering<'a>,
    ) -> Result<(), OutOfMemory>
        requires arity { children ≤ row_arity row.now }
        requires there { children ≤ length (forest rows.old.items) }
        ensures patterns { OnOk result (forest rows.new.items
            ≡ (with_resolved (place_of self.now.place.now) (option_map (λ z. place_of z.now) self.now.outer) row.now children (forest rows.old.items) (numbering_of numbering.old)).0) }
        ensures numbering { OnOk result (numbering_of numbering.new
            ≡ (with_resolved (place_of self.now.place.now) (option_map (λ z. place_of z.now) self.now.outer) row.now children (forest rows.old.items) (numbering_of numbering.old)).1) }
    {
        match row {
            SchemaRow::NotAllowed => put(rows, GraphRow::NotAllowed),
            SchemaRow::Empty => put(rows, GraphRow::Empty),
            SchemaRow::Text => put(rows, GraphRow::Text),
            SchemaRow::Element(class) => element(class, children, rows, numbering),
            SchemaRow::Attribute(class) => around(GraphRow::Attribute(class), children, rows),
            SchemaRow::List => around(GraphRow::List, children, rows),
            SchemaRow::Data(datatype) => put(rows, GraphRow::Data(datatype)),
            SchemaRow::DataExcept(datatype) => around(
                GraphRow::DataExcept(datatype),
                children,
                rows,
            ),
            SchemaRow::Value(value) => put(rows, GraphRow::Value(value)),
            SchemaRow::Mixed => around(GraphRow::Mixed, children, rows),
            SchemaRow::Optional => around(GraphRow::Optional, children, rows),
            SchemaRow::ZeroOrMore => around(GraphRow::ZeroOrMore, children, rows),
            SchemaRow::OneOrMore => around(GraphRow::OneOrMore, children, rows),
            SchemaRow::Group(_) => join(rows, GraphRow::Group(children)),
            SchemaRow::Interleave(_) => join(rows, GraphRow::Interleave(children)),
            SchemaRow::Choice(_) => join(rows, GraphRow::Choice(children)),
            SchemaRow::Ref(name) => look_up(
                Definition {
                    place: self.place,
                    name: Some(name.as_str()),
                },
                rows,
                numbering,
            ),
            SchemaRow::ParentRef(name) => self.look_up_outside(name.as_str(), rows, numbering),
            SchemaRow::Grammar(place) => look_up(Definition { place, name: None }, rows, numbering),
            SchemaRow::External => put_missing(rows, children),
        }
    }

    /// Appends the row of a name of the grammar around, or of `notAllowed` if no grammar is around.
    #[tactic(auto, unfolding(crate::specs::plain::Resolving::looked_up_outside))]
    fn look_up_outside(
        &self,
        name: &'a str,
        rows: &mut Vec<GraphRow<'a>>,
        numbering: &mut Numbering<'a>,
    ) -> Result<(), OutOfMemory>
        ensures pattern { OnOk result (forest rows.new.items ≡ forest rows.old.items
            ++ (looked_up_outside name.now (option_map (λ z. place_of z.now) self.now.outer) (numbering_of numbering.old)).0 ∷ []) }
        ensures numbering { OnOk result (numbering_of numbering.new ≡ (looked_up_outside name.now (option_map (λ z. place_of z.now) self.now.outer) (numbering_of numbering.old)).1) }
    {
        match self.outer {
            Some(outer) => look_up(
                Definition {
                    place: outer,
                    name: Some(name),
                },
                rows,
                numbering,
            ),
            None => put(rows, GraphRow::NotAllowed),
        }
    }
}

/// Appends the row of a definition.
fn look_up<'a>(
    definition: Definition<'a>,
    rows: &mut Vec<GraphRow<'a>>,
    numbering: &mut Numbering<'a>,
) -> Result<(), OutOfMemory>
    ensures pattern { OnOk result (forest rows.new.items ≡ forest rows.old.items ++ (looked_up (definition_of definition.entry) (numbering_of numbering.old)).0 ∷ []) }
    ensures numbering { OnOk result (numbering_of numbering.new ≡ (looked_up (definition_of definition.entry) (numbering_of numbering.old)).1) }
{
    let number = number(&mut numbering.definitions, definition)?;
    put(rows, GraphRow::Definition(number))
}

/// Appends the row of a pattern without children.
#[tactic(auto, using(crate::proofs::Forests::leaf_put))]
fn put<'a>(rows: &mut Vec<GraphRow<'a>>, row: GraphRow<'a>) -> Result<(), OutOfMemory>
    requires { arity row ≡ 0 }
    ensures { OnOk result (forest rows.new.items ≡ forest rows.old.items ++ row_tree row.entry [] ∷ []) }
{
    Ok(rows.push(row)?)
}

/// Appends the row of a pattern that joins the ones before it.
#[tactic(auto, using(crate::proofs::Forests::row_put))]
fn join<'a>(rows: &mut Vec<GraphRow<'a>>, row: GraphRow<'a>) -> Result<(), OutOfMemory>
    ensures { OnOk result (forest rows.new.items ≡ with_row (forest rows.old.items) row.entry) }
{
    Ok(rows.push(row)?)
}

/// Appends `notAllowed` if a pattern that has to be there, as the last one, is missing.
fn put_missing(rows: &mut Vec<GraphRow<'_>>, count: usize) -> Result<(), OutOfMemory>
    requires single { count ≤ 1 }
    requires there { count ≤ length (forest rows.old.items) }
    ensures { OnOk result (forest rows.new.items ≡ replaced count child (forest rows.old.items)) }
{
    if count > 0 {
        return Ok(());
    }
    put(rows, GraphRow::NotAllowed)
}

/// Appends the row around the last pattern. That one is `notAllowed` if it is missing.
fn around<'a>(
    outside: GraphRow<'a>,
    children: usize,
    rows: &mut Vec<GraphRow<'a>>,
) -> Result<(), OutOfMemory>
    requires arity { arity outside ≡ 1 }
    requires single { children ≤ 1 }
    requires there { children ≤ length (forest rows.old.items) }
    ensures { OnOk result (forest rows.new.items
        ≡ replaced children (λ us. row_tree outside.entry (child us ∷ [])) (forest rows.old.items)) }
{
    put_missing(rows, children)?;
    Ok(rows.push(outside)?)
}

/// Appends the row of an element with names of this class, whose body is the last pattern. The element gets the next
/// number and takes the rows of its body. The body is `notAllowed` if it is missing.
fn element<'a>(
    class: &'a NameClass,
    children: usize,
    rows: &mut Vec<GraphRow<'a>>,
    numbering: &mut Numbering<'a>,
) -> Result<(), OutOfMemory>
    requires single { children ≤ 1 }
    requires there { children ≤ length (forest rows.old.items) }
    ensures patterns { OnOk result (forest rows.new.items
        ≡ (in_place children (λ us. with_element (class_of class.now) (child us, numbering_of numbering.old)) (forest rows.old.items)).0) }
    ensures numbering { OnOk result (numbering_of numbering.new
        ≡ (in_place children (λ us. with_element (class_of class.now) (child us, numbering_of numbering.old)) (forest rows.old.items)).1) }
{
    put_missing(rows, children)?;
    let content = rows.split_off(last_pattern(rows.as_slice()))?;
    let number = numbering.elements.len();
    numbering.elements.push(GraphElement { class, content })?;
    put(rows, GraphRow::Element(number))
}
