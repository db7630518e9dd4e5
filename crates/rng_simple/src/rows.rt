// Patterns in simple form whose children are numbers, and the number of each pattern.
ghost use Rattle.std.specs.Prelude.{◌≡◌, slice_get, IfOk, OnOk, Some};
ghost use Rattle.rng_simple.specs.views.RowIndex.{IsIndex, number_of_row, with_row};

use std::alloc::AllocError;
use std::collections::HashMap;

/// A pattern in simple form. Its children, element, name class, datatype and value are numbers.
#[derive(Clone, Copy, PartialEq, Eq, Hash)]
pub enum Row {
    NotAllowed,
    Empty,
    Text,
    Element(usize),
    Attribute(usize, usize),
    List(usize),
    Data(usize),
    DataExcept(usize, usize),
    Value(usize),
    OneOrMore(usize),
    Choice(usize, usize),
    Group(usize, usize),
    Interleave(usize, usize),
}

/// Returns the number of a row. A new row gets the next number.
pub fn number(
    rows: &mut Vec<Row>,
    numbers: &mut HashMap<Row, usize>,
    row: Row,
) -> Result<usize, AllocError>
    requires { IsIndex rows.old.items numbers.old }
    ensures index { OnOk result (IsIndex rows.new.items numbers.new) }
    ensures there { IfOk result (λ i. slice_get rows.new.items i ≡ Some row) }
    ensures stays { OnOk result (rows.new.items ≡ with_row rows.old.items row (number_of_row numbers.old row)) }
{
    if let Some(i) = numbers.get(&row) {
        return Ok(*i);
    }
    let i = rows.len();
    rows.push(row)?;
    numbers.insert(row, i)?;
    Ok(i)
}
