// Compares what a schema and a document give with each set of datatypes, for the rows of `datatypes.txt`.
//
// A row has the schema and the document. The answer has a word for the set `Profile`, and one for the set `XmlSchema`: the
// clause that the schema breaks, or a letter for the verdict on the document.
use crate::judged;
use case_rows::{Row, compare_rows};
use rncv_validator::{CompileFault, Validator};
use rng_model::{OutOfMemory, TypeSet};
use std::alloc::Global;
use std::io;
use std::rt::Files;

/// Compares the answers to the rows of `datatypes.txt`.
pub fn compare(rt: &(impl Files + Print + AllocGlobal)) -> io::Result<()> {
    compare_rows(rt, "datatypes.txt", |to, row| print_by_sets(to, row))
}

/// Prints a word for each set. After a call that is out of memory nothing more is printed.
fn print_by_sets(rt: &(impl Print + AllocGlobal), row: &Row) -> io::Result<()> {
    for (types, end) in [(TypeSet::Profile, " "), (TypeSet::XmlSchema, "\n")] {
        match word_with(rt.alloc(), types, row)? {
            Some(word) => print!(rt; "{word}{end}")?,
            None => return println!(rt; "out of memory"),
        }
    }
    Ok(())
}

/// Returns what a row gives with this set of datatypes, or none if a call is out of memory.
fn word_with(alloc: Global, types: TypeSet, row: &Row) -> io::Result<Option<String>> {
    let name = String::from_str(alloc, "s.rnc")?;
    let schema = Vec::from_slice(alloc, row.bytes(0)?)?;
    match Validator::compile_with(alloc, types, &[(name, schema)]) {
        Ok(validator) => match judged(alloc, validator, row.bytes(1)?) {
            Ok((_, letter)) => Ok(Some(format!(in alloc; "{letter}")?)),
            Err(OutOfMemory) => Ok(None),
        },
        Err(CompileFault::File { clause, .. } | CompileFault::Clause(clause)) => {
            Ok(Some(format!(in alloc; "S{clause}")?))
        }
        Err(CompileFault::Memory) => Ok(None),
    }
}
