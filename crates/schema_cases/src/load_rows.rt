// Compares what `rng_load` returns for the files in the rows of `load.txt`: the clause that is broken, with the file that
// breaks it by itself, or the schema.
//
// A row has a request, and files: the name of each, a text, and how often the text is repeated in it. The first file is
// the main one. The request `schema` prints all grammars from the main one on, each before those that are nested in it, in
// the order in which they occur. The request of a place prints what is there. For a grammar its place is printed, the
// place of the grammar around it, and then each component on a line of its own.
use crate::faults::print_fault;
use crate::grammars::{print_grammar, print_grammars};
use case_rows::{Row, compare_rows};
use rng_load::{Schema, load};
use rng_model::{OutOfMemory, Place};
use std::alloc::Global;
use std::io;
use std::rt::Files;

/// Compares the answers to the rows of `load.txt`.
pub fn compare(rt: &(impl Files + Print + AllocGlobal)) -> io::Result<()> {
    compare_rows(rt, "load.txt", |to, row| print_answer(to, row))
}

/// Prints what is requested of the schema of a row, or why its files have none.
fn print_answer(rt: &(impl Print + AllocGlobal), row: &Row) -> io::Result<()> {
    let files = files_of(rt.alloc(), row)?;
    match load(rt.alloc(), files.as_slice(), row.text(1)?) {
        Ok(schema) => print_asked(rt, &schema, row.text(0)?),
        Err(fault) => print_fault(rt, fault),
    }
}

/// Prints all grammars of a schema, or what is at a place.
fn print_asked(rt: &(impl Print + AllocGlobal), schema: &Schema, asked: &str) -> io::Result<()> {
    if asked == "schema" {
        return print_grammars(rt, schema);
    }
    let numbers = numbers_of(rt.alloc(), asked)?;
    match Place::from_outermost(rt.alloc(), numbers.as_slice()) {
        Ok(place) => print_grammar(rt, schema, &place),
        Err(OutOfMemory) => println!(rt; "out of memory"),
    }
}

/// Returns the numbers of a place, each after a `/`.
fn numbers_of(alloc: Global, place: &str) -> io::Result<Vec<usize>> {
    let mut numbers = Vec::new(alloc);
    for written in place.split('/') {
        if let Ok(number) = written.parse() {
            numbers.push(number)?;
        }
    }
    Ok(numbers)
}

/// Returns the files from the second field on.
fn files_of(alloc: Global, row: &Row) -> io::Result<Vec<(String, Vec<u8>)>> {
    let mut files = Vec::new(alloc);
    for field in (1..row.field_count()).step_by(3) {
        let mut bytes = Vec::new(alloc);
        for _ in 0..times_of(row, field.wrapping_add(2)) {
            bytes.extend_from_slice(row.bytes(field.wrapping_add(1))?)?;
        }
        files.push((String::from_str(alloc, row.text(field)?)?, bytes))?;
    }
    Ok(files)
}

/// Returns how often a text is repeated in its file: once if there is no number.
pub fn times_of(row: &Row, field: usize) -> u32 {
    match row.text(field) {
        Ok(number) => number.parse().unwrap_or(1),
        Err(_) => 1,
    }
}
