//! Judges the document that the calls of a row of `cases.txt` tell.
//!
//! A row has a schema and calls. A call is `(` with the name of an element and its attributes after spaces, as
//! `(a x=1`, `-` with a text, or `)`. A name with a namespace is written `{u}a`. The place of a call is 10 times its
//! number, counted from 1.
//!
//! The answer is `valid`, `invalid at` with the place, or `not well formed`. Behind it are the number of the call that was
//! refused first, and the place that was known before the end, with the number of the call that made it known. The calls go
//! on after an error, and it is printed if one of them is taken. The validator then judges the document again, and an answer
//! that differs is printed in a line of its own.
#![tactic(auto)]

use case_rows::{Row, compare_rows};
use rncv_events::{Attribute, EventDocument, EventFault, ExpandedName, Outcome};
use rncv_validator::{CompileFault, Validator};
use std::alloc::Global;
use std::io;

fn main(rt: HostRuntime) -> io::Result<()> {
    compare_rows(&rt, "cases.txt", |to, row| print_case(to, row))
}

/// What the calls of a row gave.
#[derive(Clone, Copy, PartialEq, Eq)]
struct Judged {
    /// The number of the call that was refused.
    refused: Option<u64>,
    /// The place that `invalid_since` returned first, and the number of calls then.
    since: Option<(u64, u64)>,
    /// Whether calls after an error returned this error.
    is_sticky: bool,
    answer: Result<Outcome, EventFault>,
}

/// Prints what the calls of a row give. After a call that is out of memory nothing more is printed.
fn print_case(rt: &(impl Print + AllocGlobal), row: &Row) -> io::Result<()> {
    let validator = validator_of(rt.alloc(), row.bytes(0)?)?;
    let (validator, first) = judge(rt.alloc(), validator, row)?;
    print_judged(rt, first)?;
    if first.answer == Err(EventFault::Memory) {
        return Ok(());
    }
    let (_, again) = judge(rt.alloc(), validator, row)?;
    if again != first {
        print_judged(rt, again)?;
    }
    Ok(())
}

/// Returns the validator of a schema of one file.
fn validator_of(alloc: Global, schema: &[u8]) -> io::Result<Validator> {
    let name = String::from_str(alloc, "s.rnc")?;
    let bytes = Vec::from_slice(alloc, schema)?;
    match Validator::compile(alloc, &[(name, bytes)]) {
        Ok(validator) => Ok(validator),
        Err(CompileFault::Memory) => Err(io::Error::from(io::ErrorKind::OutOfMemory)),
        Err(_) => Err(io::Error::from(io::ErrorKind::InvalidData)),
    }
}

/// Makes the calls of a row, up to one that is out of memory.
fn judge(alloc: Global, validator: Validator, row: &Row) -> io::Result<(Validator, Judged)> {
    let mut document = EventDocument::new(alloc, validator);
    let mut judged = Judged {
        refused: None,
        since: None,
        is_sticky: true,
        answer: Err(EventFault::Memory),
    };
    for field in 1..row.field_count() {
        let number = field as u64;
        match tell(alloc, &mut document, number, row.text(field)?) {
            Ok(()) => judged.is_sticky &= judged.refused.is_none(),
            Err(EventFault::NotWellFormed) => judged.refused = judged.refused.or(Some(number)),
            Err(EventFault::Memory) => return Ok((document.finish().0, judged)),
        }
        if judged.since.is_none() {
            judged.since = document.invalid_since().map(|place| (place, number));
        }
    }
    let (validator, answer) = document.finish();
    judged.answer = answer;
    Ok((validator, judged))
}

/// Makes the call with this number.
fn tell(
    alloc: Global,
    document: &mut EventDocument,
    number: u64,
    call: &str,
) -> Result<(), EventFault> {
    let place = number.saturating_mul(10);
    if let Some(tag) = call.strip_prefix('(') {
        return tell_start(alloc, document, place, tag);
    }
    match call.strip_prefix('-') {
        Some(text) => document.text(text),
        None => document.end(place),
    }
}

/// Makes the call for a start.
fn tell_start(
    alloc: Global,
    document: &mut EventDocument,
    place: u64,
    tag: &str,
) -> Result<(), EventFault> {
    let mut words = tag.split(' ');
    let name = name_of(words.next().unwrap_or(""));
    let mut attributes = Vec::new(alloc);
    for word in words {
        let (name, value) = word.split_once('=').unwrap_or((word, ""));
        attributes.push(Attribute {
            name: name_of(name),
            value,
        })?;
    }
    document.start(place, name, attributes.as_slice())
}

/// Returns the name that is written so.
fn name_of(written: &str) -> ExpandedName<'_> {
    if let Some(rest) = written.strip_prefix('{') {
        if let Some((namespace, local)) = rest.split_once('}') {
            return ExpandedName { namespace, local };
        }
    }
    ExpandedName {
        namespace: "",
        local: written,
    }
}

/// Prints what the calls of a row gave.
fn print_judged(rt: &impl Print, judged: Judged) -> io::Result<()> {
    match judged.answer {
        Ok(Outcome::Valid) => print!(rt; "valid")?,
        Ok(Outcome::Invalid(place)) => print!(rt; "invalid at {place}")?,
        Err(EventFault::NotWellFormed) => print!(rt; "not well formed")?,
        Err(EventFault::Memory) => return println!(rt; "out of memory"),
    }
    if let Some(number) = judged.refused {
        print!(rt; ", call {number} is refused")?;
    }
    if let Some((place, number)) = judged.since {
        print!(rt; ", {place} is known after call {number}")?;
    }
    if !judged.is_sticky {
        print!(rt; ", a call after an error is taken")?;
    }
    println!(rt; "")
}
