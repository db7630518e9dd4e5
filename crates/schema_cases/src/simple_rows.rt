// Compares what `rng_load` and then `rng_simple` return for the files in the rows of `simple.txt`: the clause that is
// broken, or the simple form.
//
// A row has a request, and files: the name of each, a text, and how often the text is repeated in it. Consecutive texts
// with the same name are one file. In each text `^` is its number, from 0, and `^+` the next one. The first file is the
// main one. The request `form` prints the start and then each element, its name class and its body. An element is `eN`,
// numbered in the order in which elements are first mentioned. The request `size` prints how many patterns and elements
// the tables have.
use crate::faults::print_fault;
use crate::forms::{print_form, print_size};
use case_rows::{Row, compare_rows, files_of};
use simple_forms::simplified;
use std::io;
use std::rt::Files;

/// Compares the answers to the rows of `simple.txt`.
pub fn compare(rt: &(impl Files + Print + AllocGlobal)) -> io::Result<()> {
    compare_rows(rt, "simple.txt", |to, row| print_answer(to, row))
}

/// Prints what is requested of the simple form of a row's files, or why they have none.
fn print_answer(rt: &(impl Print + AllocGlobal), row: &Row) -> io::Result<()> {
    let files = files_of(rt.alloc(), row)?;
    match simplified(rt.alloc(), files.as_slice(), row.text(1)?) {
        Ok(grammar) if row.text(0)? == "size" => print_size(rt, &grammar),
        Ok(grammar) => print_form(rt, &grammar),
        Err(fault) => print_fault(rt, fault),
    }
}
