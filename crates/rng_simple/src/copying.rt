// Copying rows into the tables of a grammar, with new numbers.
ghost use Rattle.std.specs.Prelude.{◌≡◌, ◌<◌, ◌++◌, ℕ, filter, length, slice_get, string_bytes, true, IfOk, OnOk, Some};
ghost use Rattle.rng_model.specs.simple.TableRules.{IsPaired};
ghost use Rattle.rng_model.specs.datatypes.DatatypeViews.{datatype_of};
ghost use Rattle.rng_model.specs.names.NameViews.{class_of};
ghost use Rattle.rng_simple.specs.plain.Copying.{AllChildren, AreCopied, IsRowCopy, own_elements};
ghost use Rattle.rng_simple.specs.views.RowTable.{finished_labels};
ghost use Rattle.rng_simple.specs.views.Rows.{AreDistinctRows, AreRows, IsLabelled, class_at, datatype_at};

use crate::name_class::nested;
use crate::row_table::FinishedRows;
use crate::rows::Row;
use crate::simple_parts::row_of;
use rng_model::{Datatype, DatatypeValue, ElementId, NameClass, PatternId, Simple};
use std::alloc::{AllocError, Global};

/// The row as a pattern. `places` maps its children to patterns. Appends the element of the row, if it has one, to
/// `listed`.
pub fn copied_row(
    alloc: Global,
    table: &FinishedRows<'_>,
    places: &[usize],
    listed: &mut Vec<usize>,
    row: Row,
) -> Result<Simple, AllocError>
    requires { IsLabelled (finished_labels table.now) row }
    ensures listed { OnOk result (listed.new.items ≡ listed.old.items ++ own_elements row) }
    ensures copy { IfOk result (IsRowCopy (finished_labels table.now) places.now listed.old.items row) }
{
    match row {
        Row::NotAllowed => Ok(Simple::NotAllowed),
        Row::Empty => Ok(Simple::Empty),
        Row::Text => Ok(Simple::Text),
        Row::Element(element) => {
            let id = ElementId(listed.len());
            listed.push(element)?;
            Ok(Simple::Element(id))
        }
        Row::Attribute(class, body) => {
            let class = class_copy(alloc, table, class)?;
            Ok(Simple::Attribute(class, PatternId(row_of(places, body))))
        }
        Row::List(body) => Ok(Simple::List(PatternId(row_of(places, body)))),
        Row::Data(datatype) => Ok(Simple::Data(datatype_copy(alloc, table, datatype)?)),
        Row::DataExcept(datatype, except) => {
            let datatype = datatype_copy(alloc, table, datatype)?;
            Ok(Simple::DataExcept(datatype, PatternId(row_of(places, except))))
        }
        Row::Value(value) => Ok(Simple::Value(value_copy(alloc, table.values[value])?)),
        Row::OneOrMore(body) => Ok(Simple::OneOrMore(PatternId(row_of(places, body)))),
        Row::Choice(a, b) => Ok(Simple::Choice(
            PatternId(row_of(places, a)),
            PatternId(row_of(places, b)),
        )),
        Row::Group(a, b) => Ok(Simple::Group(
            PatternId(row_of(places, a)),
            PatternId(row_of(places, b)),
        )),
        Row::Interleave(a, b) => Ok(Simple::Interleave(
            PatternId(row_of(places, a)),
            PatternId(row_of(places, b)),
        )),
    }
}

/// A copy of a name class, in simple form.
fn class_copy(
    alloc: Global,
    table: &FinishedRows<'_>,
    class: usize,
) -> Result<Box<NameClass>, AllocError>
    requires { class < length (finished_labels table.now).classes }
    ensures copy { IfOk result (λ copy. class_of copy.value ≡ class_at (finished_labels table.now) class) }
    ensures paired { IfOk result (λ copy. IsPaired copy.value) }
{
    let class = nested(alloc, table.classes[class])?;
    Ok(Box::new(alloc, class)?)
}

/// A copy of a text of a datatype.
fn value_copy(alloc: Global, value: &DatatypeValue) -> Result<Box<DatatypeValue>, AllocError>
    ensures { IfOk result (λ copy. (string_bytes copy.value.library ≡ string_bytes value.now.library)
        × (string_bytes copy.value.name ≡ string_bytes value.now.name) × (string_bytes copy.value.text ≡ string_bytes value.now.text)) }
{
    let value = DatatypeValue {
        library: String::from_str(alloc, value.library.as_str())?,
        name: String::from_str(alloc, value.name.as_str())?,
        text: String::from_str(alloc, value.text.as_str())?,
    };
    Ok(Box::new(alloc, value)?)
}

/// A copy of a datatype.
fn datatype_copy(
    alloc: Global,
    table: &FinishedRows<'_>,
    datatype: usize,
) -> Result<Box<Datatype>, AllocError>
    requires { datatype < length (finished_labels table.now).datatypes }
    ensures { IfOk result (λ copy. datatype_of copy.value ≡ datatype_at (finished_labels table.now) datatype) }
{
    let datatype = same_datatype(alloc, table.datatypes[datatype])?;
    Ok(Box::new(alloc, datatype)?)
}

fn same_datatype(alloc: Global, datatype: &Datatype) -> Result<Datatype, AllocError>
    ensures { IfOk result (λ copy. datatype_of copy ≡ datatype_of datatype.now) }
{
    let mut parameters = Vec::with_capacity(alloc, datatype.parameters.len())?;
    'parameters: for (name, value) in &datatype.parameters {
        let name = String::from_str(alloc, name.as_str())?;
        let value = String::from_str(alloc, value.as_str())?;
        parameters.push((name, value))?;
    }
    Ok(Datatype {
        library: String::from_str(alloc, datatype.library.as_str())?,
        name: String::from_str(alloc, datatype.name.as_str())?,
        parameters,
    })
}

/// The patterns of a grammar, made of rows.
#[derive(Drop)]
pub struct CopiedRows {
    /// For each row the number of its pattern, if the row is reached.
    pub places: Vec<usize>,
    pub patterns: Vec<Simple>,
    /// The elements that are reached, by their numbers in the graph.
    pub listed: Vec<usize>,
}

/// Copies the reached rows, in their order.
pub fn copied_rows(
    alloc: Global,
    table: &FinishedRows<'_>,
    reached: &[bool],
) -> Result<CopiedRows, AllocError>
    requires rows { AreRows (finished_labels table.now) table.now.rows.items }
    requires apart { AreDistinctRows table.now.rows.items }
    requires long { length reached.now ≡ length table.now.rows.items }
    requires closed { (i : ℕ) (r : Row) → slice_get table.now.rows.items i ≡ Some r → slice_get reached.now i ≡ Some true →
        AllChildren (λ a. slice_get reached.now a ≡ Some true) r }
    ensures copied { IfOk result (λ copied. AreCopied (finished_labels table.now) table.now.rows.items reached.now (length table.now.rows.items)
        copied.places.items copied.patterns.items copied.listed.items) }
{
    let mut places = Vec::with_capacity(alloc, reached.len())?;
    let mut patterns = Vec::with_capacity(alloc, reached_count(reached))?;
    let mut listed = Vec::new(alloc);
    'rows: for i in 0..table.rows.len() {
        if reached[i] {
            let row = table.rows[i];
            let pattern = copied_row(alloc, table, places.as_slice(), &mut listed, row)?;
            places.push(patterns.len())?;
            patterns.push(pattern)?;
        } else {
            places.push(0)?;
        }
    }
    Ok(CopiedRows {
        places,
        patterns,
        listed,
    })
}

/// The number of reached rows.
fn reached_count(reached: &[bool]) -> usize
    ensures { result ≡ length (filter (λ b. b) reached.now) }
{
    reached.iter().filter(|is_reached| **is_reached).count()
}
