//! Compares runs and validators for the rows of seven files.
//!
//! In `cases.txt`, `sizes.txt`, `files.txt` and `worked.txt` the answer is the status that `run` returns and what it
//! writes, with a reader that returns everything at once. Readers that return at most 1, 2, 3 and 4,096 bytes at a time
//! must give the same; any other result is printed after it. In `devices.txt` the answer is what a run over devices that
//! fail returns, how many reads and writes failed, how many bytes are unread, and what is written. A row of
//! `documents.txt` is a document, and the answer has a letter for each schema of `schemas.txt`: V for valid and I for
//! invalid. If validators that judge all these documents one after the other, in pieces, differ, their letters follow.
//! A row of `datatypes.txt` is a schema and a document, and the answer is what they give with each set of datatypes.
//!
//! The documents, the schemas and their letters come from a second program, `dev/rows/all_splits`.
#![tactic(auto)]

mod failures;
mod type_sets;

use case_rows::{Pace, Row, Source, compare_rows, rows};
use failures::print_over_devices;
use rncv_run::{Command, Status, run};
use rncv_validator::{Validator, Verdict};
use rng_model::{Device, OutOfMemory};
use std::alloc::Global;
use std::io;

fn main(rt: HostRuntime) -> io::Result<()> {
    compare_rows(&rt, "cases.txt", |to, row| print_of_document(to, row))?;
    compare_rows(&rt, "sizes.txt", |to, row| print_of_schema(to, row))?;
    compare_rows(&rt, "files.txt", |to, row| print_of_files(to, row))?;
    compare_rows(&rt, "worked.txt", |to, row| print_of_files(to, row))?;
    compare_rows(&rt, "devices.txt", |to, row| print_over_devices(to, row))?;
    let schemas = rows(&rt, "schemas.txt")?;
    let schemas = schemas.as_slice();
    let mut validators = validators_of(rt.alloc(), schemas)?;
    compare_rows(&rt, "documents.txt", |to, row| {
        print_letters(to, schemas, &mut validators, row)
    })?;
    type_sets::compare(&rt)
}

/// Prints the result for a row with a schema, and a document in pieces.
fn print_of_document(rt: &(impl Print + AllocGlobal), row: &Row) -> io::Result<()> {
    let document = joined(rt.alloc(), row)?;
    print!(rt;
        "{}",
        line_of(rt.alloc(), row, row.bytes(2)?, document.as_slice())?
    )
}

/// Prints the result for a row with a document, and a schema in pieces.
fn print_of_schema(rt: &(impl Print + AllocGlobal), row: &Row) -> io::Result<()> {
    let schema = joined(rt.alloc(), row)?;
    print!(rt;
        "{}",
        line_of(rt.alloc(), row, schema.as_slice(), row.bytes(2)?)?
    )
}

/// Prints the result for a row with a document and several files.
fn print_of_files(rt: &(impl Print + AllocGlobal), row: &Row) -> io::Result<()> {
    let files = files_of(rt.alloc(), row, 2)?;
    print!(rt;
        "{}",
        line_over(rt.alloc(), row, files.as_slice(), row.bytes(1)?)?
    )
}

/// Prints a letter for each schema. If the validators of the schemas have others, prints theirs too.
fn print_letters(
    rt: &(impl Print + AllocGlobal),
    schemas: &[Row],
    validators: &mut Vec<Option<Validator>>,
    document: &Row,
) -> io::Result<()> {
    let letters = letters_of(rt.alloc(), schemas, document.bytes(0)?)?;
    println!(rt; "{letters}")?;
    let others = letters_by(rt.alloc(), validators, document.bytes(0)?)?;
    if letters.as_str() != others.as_str() {
        println!(rt; "by validators {others}")?;
    }
    Ok(())
}

/// Returns the status of a run, and what it writes.
fn outcome(
    alloc: Global,
    command: Command,
    files: &[(String, Vec<u8>)],
    document: &[u8],
    most: usize,
) -> io::Result<(Status, Vec<u8>)> {
    if files.is_empty() {
        return Err(io::Error::from(io::ErrorKind::InvalidData));
    }
    let mut written = Vec::new(alloc);
    let mut input = Device::new(Source::new(document, Pace::of(most)));
    let mut output = Device::new(&mut written);
    match run(alloc, command, files, &mut input, &mut output) {
        Ok(status) => Ok((status, written)),
        Err(_) => Err(io::Error::from(io::ErrorKind::Other)),
    }
}

/// Returns a file with this name.
fn file_of(alloc: Global, name: &str, schema: &[u8]) -> io::Result<(String, Vec<u8>)> {
    Ok((
        String::from_str(alloc, name)?,
        Vec::from_slice(alloc, schema)?,
    ))
}

/// Returns the files from a field on.
fn files_of(alloc: Global, row: &Row, first: usize) -> io::Result<Vec<(String, Vec<u8>)>> {
    let mut files = Vec::new(alloc);
    for field in (first..row.field_count()).step_by(3) {
        let mut bytes = Vec::new(alloc);
        for _ in 0..times_of(row, field.wrapping_add(2)) {
            bytes.extend_from_slice(row.bytes(field.wrapping_add(1))?)?;
        }
        files.push((String::from_str(alloc, row.text(field)?)?, bytes))?;
    }
    Ok(files)
}

/// Returns the status and the output of a run over one file, with the command and the file's name at the start of a
/// row.
fn line_of(alloc: Global, row: &Row, schema: &[u8], document: &[u8]) -> io::Result<String> {
    let file = file_of(alloc, row.text(1)?, schema)?;
    line_over(alloc, row, &[file], document)
}

/// Returns the command at the start of a row.
fn command_of(row: &Row) -> io::Result<Command> {
    Ok(match row.text(0)? {
        "check" => Command::Check,
        "simple" => Command::Simple,
        _ => Command::Valid,
    })
}

/// Returns the status and the output of a run, with the command at the start of a row.
fn line_over(
    alloc: Global,
    row: &Row,
    files: &[(String, Vec<u8>)],
    document: &[u8],
) -> io::Result<String> {
    let command = command_of(row)?;
    let mut lines = line_by(alloc, command, files, document, usize::MAX)?;
    for most in [1, 2, 3, 4096] {
        let other = line_by(alloc, command, files, document, most)?;
        if !lines.ends_with(other.as_str()) {
            lines.push_str(other.as_str())?;
        }
    }
    Ok(lines)
}

/// Returns the status and the output of a run, with a reader that returns at most this many bytes in a call.
fn line_by(
    alloc: Global,
    command: Command,
    files: &[(String, Vec<u8>)],
    document: &[u8],
    most: usize,
) -> io::Result<String> {
    let (status, written) = outcome(alloc, command, files, document, most)?;
    match str::from_utf8(written.as_slice()) {
        Ok(line) => Ok(format!(in alloc; "{status:?} {line}")?),
        Err(_) => Err(io::Error::from(io::ErrorKind::InvalidData)),
    }
}

/// Returns the pieces from the fourth field on, each repeated as often as the field after it says.
fn joined(alloc: Global, row: &Row) -> io::Result<Vec<u8>> {
    let mut all = Vec::new(alloc);
    for field in (3..row.field_count()).step_by(2) {
        let piece = row.bytes(field)?;
        for _ in 0..times_of(row, field.wrapping_add(1)) {
            all.extend_from_slice(piece)?;
        }
    }
    Ok(all)
}

/// Returns how often a piece is repeated: once if there is no number.
fn times_of(row: &Row, field: usize) -> u32 {
    match row.text(field) {
        Ok(number) => number.parse().unwrap_or(1),
        Err(_) => 1,
    }
}

/// Returns a letter for each schema.
fn letters_of(alloc: Global, schemas: &[Row], document: &[u8]) -> io::Result<String> {
    let mut letters = String::new(alloc);
    for schema in schemas {
        let file = file_of(alloc, "s.rnc", schema.bytes(0)?)?;
        let (status, _) = outcome(alloc, Command::Valid, &[file], document, usize::MAX)?;
        letters.push(match status {
            Status::Good => 'V',
            Status::Invalid => 'I',
            Status::Malformed => 'M',
            Status::Refused => 'R',
        })?;
    }
    Ok(letters)
}

/// Returns a validator for each schema, or none if the schema is rejected.
fn validators_of(alloc: Global, schemas: &[Row]) -> io::Result<Vec<Option<Validator>>> {
    let mut validators = Vec::new(alloc);
    for schema in schemas {
        let file = file_of(alloc, "s.rnc", schema.bytes(0)?)?;
        validators.push(Validator::compile(alloc, &[file]).ok())?;
    }
    Ok(validators)
}

/// Returns a letter for each validator.
fn letters_by(
    alloc: Global,
    validators: &mut Vec<Option<Validator>>,
    document: &[u8],
) -> io::Result<String> {
    let mut letters = String::new(alloc);
    for held in validators.iter_mut() {
        let letter = match held.take() {
            Some(validator) => {
                let Ok((validator, letter)) = judged(alloc, validator, document) else {
                    return Err(io::Error::from(io::ErrorKind::Other));
                };
                *held = Some(validator);
                letter
            }
            None => 'R',
        };
        letters.push(letter)?;
    }
    Ok(letters)
}

/// Returns the validator, and a letter for its verdict on a document, in pieces of three bytes.
fn judged(
    alloc: Global,
    validator: Validator,
    bytes: &[u8],
) -> Result<(Validator, char), OutOfMemory> {
    let mut document = validator.document(alloc);
    for piece in bytes.chunks(3) {
        if document.feed(piece).is_err() {
            break;
        }
    }
    let (validator, verdict) = document.finish();
    match verdict {
        Ok(Verdict::Valid) => Ok((validator, 'V')),
        Ok(Verdict::Invalid(_)) => Ok((validator, 'I')),
        Ok(Verdict::Malformed { .. }) => Ok((validator, 'M')),
        Err(OutOfMemory) => Err(OutOfMemory),
    }
}
