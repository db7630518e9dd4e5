// Compares where the datatypes in the files of the rows of `datatypes.txt` break clause 12.
//
// A row is a file, as in `places.txt`. The answer has a line for each set of datatypes: the place of the first datatype that
// breaks the clause, by its offset, its line and its column.
use crate::place_rows::file_of;
use case_rows::{Row, compare_rows};
use rnc_places::datatype_place_of;
use rng_model::{OutOfMemory, TypeSet};
use std::io;
use std::rt::Files;

/// Compares the answers to the rows of `datatypes.txt`.
pub fn compare(rt: &(impl Files + Print + AllocGlobal)) -> io::Result<()> {
    compare_rows(rt, "datatypes.txt", |to, row| print_places(to, row))
}

/// Prints where the file of a row breaks the clause, with each set. After a call that is out of memory nothing more is
/// printed.
fn print_places(rt: &(impl Print + AllocGlobal), row: &Row) -> io::Result<()> {
    let file = file_of(rt.alloc(), row)?;
    for types in [TypeSet::Profile, TypeSet::XmlSchema] {
        match datatype_place_of(rt.alloc(), types, file.as_slice()) {
            Ok(None) => println!(rt; "none")?,
            Ok(Some(place)) => println!(rt; "{} {}:{}", place.offset, place.line, place.column)?,
            Err(OutOfMemory) => return println!(rt; "out of memory"),
        }
    }
    Ok(())
}
