//! Compares what `pyx` returns for each document of `cases.txt`, fed in pieces of 1, 2, 3 and 4,096 bytes.
//!
//! A row is a document. Or it is a front, a count, a part that is repeated so often, and an end, where the part may
//! have the same form. The answer is the events with their lines, then the number of bytes held before the end if there
//! are some, and then the outcome. For pieces of other sizes it only says where the result differs. After a fault the
//! reader is called again, and an answer other than the fault is the outcome.
#![tactic(auto)]

ghost use Rattle.std.specs.Prelude.{◌<◌};

use case_rows::{Row, compare_rows};
use pyx::{PyxFault, Reader};
use rng_model::{Attr, Event, EventKind, Events, Name, OutOfMemory};
use std::alloc::{AllocError, Global};
use std::io;

/// Records each event.
#[derive(Drop)]
struct Log {
    alloc: Global,
    text: String,
}

impl Log {
    fn name(&mut self, name: &Name) -> Result<(), AllocError> {
        if !name.ns.as_str().is_empty() {
            self.text.push('{')?;
            self.text.push_str(name.ns.as_str())?;
            self.text.push('}')?;
        }
        self.text.push_str(name.local.as_str())
    }

    fn attribute(&mut self, attribute: &Attr) -> Result<(), AllocError> {
        self.text.push(' ')?;
        self.name(&attribute.name)?;
        let value = format!(in self.alloc; "={:?}", attribute.value)?;
        self.text.push_str(value.as_str())
    }

    fn write(&mut self, event: Event<'_>) -> Result<(), AllocError> {
        let line = format!(in self.alloc; "{} ", event.line)?;
        self.text.push_str(line.as_str())?;
        match event.kind {
            EventKind::Start { name, attrs } => {
                self.text.push('(')?;
                self.name(name)?;
                for attribute in attrs {
                    self.attribute(attribute)?;
                }
            }
            EventKind::Text(text) => {
                let text = if text.len() > 100 {
                    format!(in self.alloc; "{} bytes", text.len())?
                } else {
                    format!(in self.alloc; "{text:?}")?
                };
                self.text.push_str(text.as_str())?;
            }
            EventKind::End => self.text.push(')')?,
        }
        self.text.push_str("; ")
    }
}

impl Events for Log {
    ghost stands = { λ first taker events. Unit {0} };

    fn event(&mut self, event: Event<'_>) -> Result<(), OutOfMemory> {
        self.write(event).map_err(|_| OutOfMemory)
    }
}

/// The most bytes that a document and a piece may have.
const DOCUMENT_LIMIT: u64 = 1 << 40;

const PIECE_LIMIT: usize = 1 << 20;

/// The outcome of a document for which there was no memory.
const OUT_OF_MEMORY: &str = "out of memory";

fn read(
    alloc: Global,
    document: &[u8],
    size: usize,
    log: &mut Log,
    held: &mut u64,
) -> Result<(), PyxFault>
    requires { 0 < size }
{
    let mut reader = Reader::new(alloc);
    for piece in document.chunks(size) {
        if reader.fed() > DOCUMENT_LIMIT || piece.len() > PIECE_LIMIT {
            return Err(PyxFault::Memory);
        }
        if let Err(fault) = reader.feed(piece, log) {
            return answer_after(reader, fault, log, held);
        }
    }
    *held = reader.held();
    reader.finish(log)
}

/// Returns what a reader answers after a fault: the same fault, by each call, and nothing is held. Any other answer is
/// returned in its place.
fn answer_after(
    mut reader: Reader,
    fault: PyxFault,
    log: &mut Log,
    held: &mut u64,
) -> Result<(), PyxFault> {
    if reader.fed() > DOCUMENT_LIMIT {
        return Err(PyxFault::Memory);
    }
    *held = reader.held();
    let again = reader.feed(b"(a\n)a\n", log);
    if !is_fault(again, fault) {
        return again;
    }
    reader.finish(log)
}

/// Returns whether an answer is this fault.
fn is_fault(answer: Result<(), PyxFault>, fault: PyxFault) -> bool {
    match (answer, fault) {
        (Err(PyxFault::Memory), PyxFault::Memory) => true,
        (
            Err(PyxFault::At { clause, line }),
            PyxFault::At {
                clause: wanted,
                line: at,
            },
        ) => clause == wanted && line == at,
        _ => false,
    }
}

/// What the reader hands out and returns.
#[derive(Drop, PartialEq, Eq)]
struct Answer {
    events: String,
    held: u64,
    outcome: String,
}

/// Returns the result for a document, fed in pieces of this size.
fn answer_to(alloc: Global, document: &[u8], size: usize) -> io::Result<Answer>
    requires { 0 < size }
{
    let mut log = Log {
        alloc,
        text: String::new(alloc),
    };
    let mut held = 0;
    let outcome = match read(alloc, document, size, &mut log, &mut held) {
        Ok(()) => format!(in alloc; "document")?,
        Err(PyxFault::At { clause, line }) => format!(in alloc; "P{clause} line {line}")?,
        Err(PyxFault::Memory) => String::from_str(alloc, OUT_OF_MEMORY)?,
    };
    Ok(Answer {
        events: log.text,
        held,
        outcome,
    })
}

/// Returns the number in a field of a row.
fn count_in(row: &Row, field: usize) -> io::Result<u32> {
    let Ok(count) = row.text(field)?.parse::<u32>() else {
        return Err(io::Error::from(io::ErrorKind::InvalidData));
    };
    Ok(count)
}

/// Appends a part to the bytes this many times.
fn repeat(bytes: &mut Vec<u8>, count: u32, part: &[u8]) -> io::Result<()> {
    for _ in 0..count {
        bytes.extend_from_slice(part)?;
    }
    Ok(())
}

/// Returns the part that a row repeats, and its end. If the row has seven fields, the part itself has a repeated part.
fn part_of<'a>(alloc: Global, row: &'a Row) -> io::Result<(Vec<u8>, &'a [u8])> {
    let mut part = Vec::new(alloc);
    part.extend_from_slice(row.bytes(2)?)?;
    if row.field_count() < 7 {
        return Ok((part, row.bytes(3)?));
    }
    repeat(&mut part, count_in(row, 3)?, row.bytes(4)?)?;
    part.extend_from_slice(row.bytes(5)?)?;
    Ok((part, row.bytes(6)?))
}

/// Returns the document of a row.
fn document_of(alloc: Global, row: &Row) -> io::Result<Vec<u8>> {
    let mut document = Vec::new(alloc);
    document.extend_from_slice(row.bytes(0)?)?;
    if row.field_count() > 1 {
        let (part, end) = part_of(alloc, row)?;
        repeat(&mut document, count_in(row, 1)?, part.as_slice())?;
        document.extend_from_slice(end)?;
    }
    Ok(document)
}

/// Prints what is returned for the document of a row.
fn print_answer(rt: &(impl Print + AllocGlobal), row: &Row) -> io::Result<()> {
    let document = document_of(rt.alloc(), row)?;
    let document = document.as_slice();
    let whole = answer_to(rt.alloc(), document, 4096)?;
    let outcome = whole.outcome.as_str();
    if outcome == OUT_OF_MEMORY {
        return println!(rt; "{OUT_OF_MEMORY}");
    }
    if whole.events.len() > 2000 {
        println!(rt; ".. {outcome}")?;
    } else if whole.held > 0 {
        println!(rt; "{}held {}; {outcome}", whole.events, whole.held)?;
    } else {
        println!(rt; "{}{outcome}", whole.events)?;
    }
    for size in 1..4 {
        let pieces = answer_to(rt.alloc(), document, size)?;
        if pieces.outcome.as_str() == OUT_OF_MEMORY {
            return println!(rt; "{OUT_OF_MEMORY}");
        }
        if pieces != whole {
            println!(rt; "in pieces of {size}: {}{}", pieces.events, pieces.outcome)?;
        }
    }
    Ok(())
}

fn main(rt: HostRuntime) -> io::Result<()> {
    compare_rows(&rt, "cases.txt", |to, row| print_answer(to, row))
}
