// Compares which names the files in the rows of `mentions.txt` mention.
//
// A row is a file: a text and how often it is repeated, and then more of them. The answer is the names, or the clause that
// the file breaks and its place: the offset, the line and the column.
use crate::place_rows::file_of;
use case_rows::{Row, compare_rows};
use rnc_places::{FileFault, mentioned_names};
use std::io;
use std::rt::Files;

/// Compares the answers to the rows of `mentions.txt`.
pub fn compare(rt: &(impl Files + Print + AllocGlobal)) -> io::Result<()> {
    compare_rows(rt, "mentions.txt", |to, row| print_mentions(to, row))
}

/// Prints which names the file of a row mentions, or where it breaks a clause.
fn print_mentions(rt: &(impl Print + AllocGlobal), row: &Row) -> io::Result<()> {
    let file = file_of(rt.alloc(), row)?;
    match mentioned_names(rt.alloc(), file.as_slice()) {
        Ok(names) => println!(rt; "{names:?}"),
        Err(FileFault::Broken { clause, place }) => println!(rt;
            "S{clause} {} {}:{}",
            place.offset, place.line, place.column
        ),
        Err(FileFault::Memory) => println!(rt; "out of memory"),
    }
}
