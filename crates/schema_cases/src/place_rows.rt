// Compares where the files in the rows of `places.txt` break a clause.
//
// A row is a file: a text and how often it is repeated, and then more of them. The answer is the clause and its place: the
// offset, the line and the column.
use crate::load_rows::times_of;
use case_rows::{Row, compare_rows};
use rnc_places::place_of;
use rng_model::OutOfMemory;
use std::alloc::Global;
use std::io;
use std::rt::Files;

/// Compares the answers to the rows of `places.txt`.
pub fn compare(rt: &(impl Files + Print + AllocGlobal)) -> io::Result<()> {
    compare_rows(rt, "places.txt", |to, row| print_place(to, row))
}

/// Prints where the file of a row breaks a clause.
fn print_place(rt: &(impl Print + AllocGlobal), row: &Row) -> io::Result<()> {
    let file = file_of(rt.alloc(), row)?;
    for clause in 0..=9 {
        match place_of(rt.alloc(), file.as_slice(), clause) {
            Ok(None) => {}
            Ok(Some(place)) => {
                return println!(rt;
                    "S{clause} {} {}:{}",
                    place.offset, place.line, place.column
                );
            }
            Err(OutOfMemory) => return println!(rt; "out of memory"),
        }
    }
    println!(rt; "none")
}

/// Returns the file of a row of pieces, each with a number after it.
pub fn file_of(alloc: Global, row: &Row) -> io::Result<Vec<u8>> {
    let mut file = Vec::new(alloc);
    for field in (0..row.field_count()).step_by(2) {
        for _ in 0..times_of(row, field.wrapping_add(1)) {
            file.extend_from_slice(row.bytes(field)?)?;
        }
    }
    Ok(file)
}
