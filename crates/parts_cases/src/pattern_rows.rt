// Compares what `xsd_patterns` returns for each row of `patterns.txt`.
//
// A row is an expression, what becomes of white space, and a text. It is printed whether the expression matches the text once
// its white space is treated, or that the first text is no expression, or one that is too large.
use case_rows::{Row, compare_rows};
use std::io;
use std::rt::Files;
use xsd_patterns::{Pattern, PatternFault, WhiteSpace};

/// Compares the answers to the rows of `patterns.txt`.
pub fn compare(rt: &(impl Files + Print + AllocGlobal)) -> io::Result<()> {
    compare_rows(rt, "patterns.txt", |to, row| print_row(to, row))
}

/// Prints the line of a row.
fn print_row(rt: &(impl Print + AllocGlobal), row: &Row) -> io::Result<()> {
    match Pattern::compile(rt.alloc(), row.text(0)?) {
        Ok(pattern) => {
            let holds = pattern.matches(white_space(row.text(1)?), row.text(2)?);
            println!(rt; "{holds}")
        }
        Err(PatternFault::NoExpression) => println!(rt; "none"),
        Err(PatternFault::TooLarge) => println!(rt; "too large"),
        Err(PatternFault::Memory) => println!(rt; "out of memory"),
    }
}

/// Returns what becomes of white space, by its name in XML Schema.
fn white_space(name: &str) -> WhiteSpace {
    match name {
        "replace" => WhiteSpace::Replace,
        "collapse" => WhiteSpace::Collapse,
        _ => WhiteSpace::Preserve,
    }
}
