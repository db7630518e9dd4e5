// Compares what `rng_names` returns for each row of `names.txt`.
//
// A row is `contains`, a class and a name, or `overlap` and two classes, which are tried in both orders.

use crate::name_classes::{class_in, name_in};
use case_rows::{Row, compare_rows};
use rng_model::NameClass;
use rng_names::{contains, overlap};
use std::io;
use std::rt::Files;

/// Compares the answers to the rows of `names.txt`.
pub fn compare(rt: &(impl Files + Print + AllocGlobal)) -> io::Result<()> {
    compare_rows(rt, "names.txt", |to, row| print_answer(to, row))
}

/// Prints the line of a row.
fn print_answer(rt: &(impl Print + AllocGlobal), row: &Row) -> io::Result<()> {
    let call = row.text(0)?;
    let other = row.text(2)?;
    let class = class_in(rt.alloc(), row.text(1)?)?;
    match call {
        "contains" => print_contains(rt, &class, other),
        _ => print_overlap(rt, &class, other),
    }
}

/// Prints whether a class holds the name that is written like this.
fn print_contains(
    rt: &(impl Print + AllocGlobal),
    class: &NameClass,
    name: &str,
) -> io::Result<()> {
    let name = name_in(rt.alloc(), name)?;
    let holds = contains(class, &name);
    println!(rt; "{holds}")
}

/// Prints whether a class and the one that is written like this overlap, first in this order and then in the other.
fn print_overlap(
    rt: &(impl Print + AllocGlobal),
    first: &NameClass,
    second: &str,
) -> io::Result<()> {
    let second = class_in(rt.alloc(), second)?;
    let there = overlap(rt.alloc(), first, &second);
    let back = overlap(rt.alloc(), &second, first);
    match (there, back) {
        (Ok(there), Ok(back)) => println!(rt; "{there} {back}"),
        _ => println!(rt; "out of memory"),
    }
}
