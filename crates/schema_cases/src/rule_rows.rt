// Compares the first restriction that the grammar in each row of `rules.txt` breaks.
//
// A row has the number of elements of a grammar, and its tables, as `written_grammars` reads them.
use crate::faults::print_fault;
use case_rows::{Row, compare_rows};
use rng_rules::restrict;
use std::io;
use std::rt::Files;
use written_grammars::read_grammar;

/// Compares the answers to the rows of `rules.txt`.
pub fn compare(rt: &(impl Files + Print + AllocGlobal)) -> io::Result<()> {
    compare_rows(rt, "rules.txt", |to, row| print_answer(to, row))
}

/// Prints the result for the grammar of a row.
fn print_answer(rt: &(impl Print + AllocGlobal), row: &Row) -> io::Result<()> {
    let Some(grammar) = read_grammar(rt.alloc(), row.text(0)?, row.text(1)?) else {
        return println!(rt; "no grammar, or out of memory");
    };
    match restrict(rt.alloc(), &grammar) {
        Ok(()) => println!(rt; "ok"),
        Err(fault) => print_fault(rt, fault),
    }
}
