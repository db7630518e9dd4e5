// Runs over devices that fail.
use crate::{command_of, files_of};
use case_rows::{Pace, Row, Sink, Source};
use rncv_run::{RunFault, Status, run};
use rng_model::Device;
use std::alloc::Global;
use std::io;

/// What a run returned, and what its devices count and hold.
#[derive(Drop)]
struct Outcome {
    answer: Result<Status, RunFault>,
    failed_reads: u64,
    failed_writes: u64,
    unread: usize,
    sink: Sink,
}

/// Prints the outcome of a run over the devices of a row.
pub fn print_over_devices(rt: &(impl Print + AllocGlobal), row: &Row) -> io::Result<()> {
    let files = files_of(rt.alloc(), row, 4)?;
    let source = Source::new(row.bytes(1)?, Pace::written(row.text(2)?));
    let sink = Sink::new(rt.alloc(), Pace::written(row.text(3)?), false)?;
    let outcome = run_over(rt.alloc(), row, files.as_slice(), source, sink)?;
    print_outcome(rt, &outcome)
}

/// Returns the outcome of a run of the command at the start of a row.
fn run_over(
    alloc: Global,
    row: &Row,
    files: &[(String, Vec<u8>)],
    source: Source<'_>,
    sink: Sink,
) -> io::Result<Outcome> {
    if files.is_empty() {
        return Err(io::Error::from(io::ErrorKind::InvalidData));
    }
    let command = command_of(row)?;
    let mut input = Device::new(source);
    let mut output = Device::new(sink);
    Ok(Outcome {
        answer: run(alloc, command, files, &mut input, &mut output),
        failed_reads: input.failures(),
        failed_writes: output.failures(),
        unread: input.into_inner().unread(),
        sink: output.into_inner(),
    })
}

/// Prints an outcome. Out of memory is printed alone if no call failed and nothing was written.
fn print_outcome(rt: &impl Print, outcome: &Outcome) -> io::Result<()> {
    let written = outcome.sink.text()?;
    let (reads, writes) = (outcome.failed_reads, outcome.failed_writes);
    match outcome.answer {
        Ok(status) => print!(rt; "{status:?}")?,
        Err(RunFault::Memory) if reads == 0 && writes == 0 && written.is_empty() => {
            return println!(rt; "out of memory");
        }
        Err(fault) => print!(rt; "{fault:?}")?,
    }
    let unread = outcome.unread;
    println!(rt; ", failed {reads} {writes}, unread {unread}: {written}")
}
