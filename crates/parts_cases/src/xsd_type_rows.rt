// Compares what `xsd_types` returns for each row of `xsd_types.txt`.
//
// A row is a call, a type, the texts of the call, and then parameters, each a name and a value. For `find` it is printed
// that there is such a datatype, and for `values` whether a text may be given as its value. For `allows` of one text,
// `equal` of two and `all` of three it is printed whether it holds. For each call the fault is printed if there is no such
// datatype.
use crate::type_rows::{parameters, text_count};
use case_rows::{Row, compare_rows};
use rng_types::{Datatype, are_all_equal};
use std::alloc::Global;
use std::io;
use std::rt::Files;
use xsd_types::{TypeFault, XsdType, takes_values};

/// Compares the answers to the rows of `xsd_types.txt`.
pub fn compare(rt: &(impl Files + Print + AllocGlobal)) -> io::Result<()> {
    compare_rows(rt, "xsd_types.txt", |to, row| print_row(to, row))
}

/// Prints the line of a row.
fn print_row(rt: &(impl Print + AllocGlobal), row: &Row) -> io::Result<()> {
    match found(rt.alloc(), row)? {
        Ok(datatype) => print_answer(rt, row, &datatype),
        Err(TypeFault::Memory) => println!(rt; "out of memory"),
        Err(fault) => println!(rt; "{fault:?}"),
    }
}

/// Returns the datatype of a row, or the fault.
fn found(alloc: Global, row: &Row) -> io::Result<Result<XsdType, TypeFault>> {
    let texts = text_count(row.text(0)?);
    let parameters = parameters(alloc, row, texts.saturating_add(2))?;
    Ok(XsdType::find(alloc, row.text(1)?, parameters.as_slice()))
}

/// Prints what a datatype returns for the texts of a row.
fn print_answer(rt: &impl Print, row: &Row, datatype: &XsdType) -> io::Result<()> {
    let holds = match row.text(0)? {
        "allows" => datatype.allows(row.text(2)?),
        "equal" => datatype.equal(row.text(2)?, row.text(3)?),
        "values" => takes_values(row.text(1)?),
        "all" => are_all_equal(datatype, row.text(2)?, row.text(3)?, row.text(4)?),
        _ => return println!(rt; "found"),
    };
    println!(rt; "{holds}")
}
