// Compares what `rng_types` returns for each row of `types.txt`.
//
// A row is a call, a library, a type, the texts of the call, and then parameters, each a name and a value. For `find`
// the datatype is printed. For `allows` of one text, `equal` of two and `all` of three it is printed whether it holds.
// For each call the fault is printed if there is no such datatype.
use case_rows::{Row, compare_rows};
use rng_types::{Builtin, Datatype, TypeFault, are_all_equal};
use std::alloc::{AllocError, Global};
use std::io;
use std::rt::Files;

/// Compares the answers to the rows of `types.txt`.
pub fn compare(rt: &(impl Files + Print + AllocGlobal)) -> io::Result<()> {
    compare_rows(rt, "types.txt", |to, row| print_row(to, row))
}

/// Prints the line of a row.
fn print_row(rt: &(impl Print + AllocGlobal), row: &Row) -> io::Result<()> {
    match found(rt.alloc(), row)? {
        Ok(datatype) => print_answer(rt, row, datatype),
        Err(fault) => println!(rt; "{fault:?}"),
    }
}

/// Returns the datatype of a row, or the fault.
fn found(alloc: Global, row: &Row) -> io::Result<Result<Builtin, TypeFault>> {
    let texts = text_count(row.text(0)?);
    let library = row.text(1)?;
    let name = row.text(2)?;
    let parameters = parameters(alloc, row, texts.saturating_add(3))?;
    Ok(Builtin::find(library, name, parameters.as_slice()))
}

/// Returns the number of texts that a call takes.
pub fn text_count(call: &str) -> usize {
    match call {
        "allows" => 1,
        "equal" => 2,
        "all" => 3,
        _ => 0,
    }
}

/// Returns the parameters of a row, which are the fields from this one on.
pub fn parameters(alloc: Global, row: &Row, first: usize) -> io::Result<Vec<(String, String)>> {
    let mut all = Vec::new(alloc);
    for field in (first..row.field_count()).step_by(2) {
        all.push(parameter(alloc, row.text(field)?, row.text(field.saturating_add(1))?)?)?;
    }
    Ok(all)
}

/// Returns a parameter with this name and value.
fn parameter(alloc: Global, name: &str, value: &str) -> Result<(String, String), AllocError> {
    Ok((
        String::from_str(alloc, name)?,
        String::from_str(alloc, value)?,
    ))
}

/// Prints what a datatype returns for the texts of a row.
fn print_answer(rt: &impl Print, row: &Row, datatype: Builtin) -> io::Result<()> {
    let holds = match row.text(0)? {
        "allows" => datatype.allows(row.text(3)?),
        "equal" => datatype.equal(row.text(3)?, row.text(4)?),
        "all" => are_all_equal(&datatype, row.text(3)?, row.text(4)?, row.text(5)?),
        _ => return println!(rt; "{datatype:?}"),
    };
    println!(rt; "{holds}")
}
