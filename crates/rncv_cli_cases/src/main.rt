//! Compares runs of the program for the rows of `runs.txt`.
//!
//! The answer is what the run prints on standard error, and in the next line its exit status and what it writes. The files
//! that the words name are in `data/` too.
#![tactic(auto)]

mod environment;
mod errors;

use case_rows::{Answer, Pace, Row, Sink, Source, compare_rows};
use environment::Environment;
use errors::Errors;
use rncv_cli::run_program;
use rng_model::Device;
use std::process::ExitCode;
use std::rt::Files;
use std::{env, fs, io};

fn main(rt: HostRuntime) -> io::Result<()> {
    compare_rows(&rt, "runs.txt", |to, row| print_run(to, &rt, row))
}

/// Prints the line of a fault of a run over the devices and with the words of a row, and in the next line the exit
/// status of the run and what it writes.
fn print_run(to: &Answer, rt: &impl Files, row: &Row) -> io::Result<()> {
    let device = row.text(0)?;
    let source = Source::new(row.bytes(1)?, pace_of(device, "read "));
    let sink = Sink::new(to.alloc(), pace_of(device, "write "), device == "flush")?;
    let mut input = Device::new(source);
    let mut output = Device::new(sink);
    let given = env::args(&(Environment(row), to.alloc()));
    let open_file = |name: &str| fs::open(rt, name);
    let errors = (Errors(to), to.alloc());
    let exit_code = run_program(&errors, given, open_file, &mut input, &mut output);
    print_end(to, exit_code, output.into_inner().text()?)
}

/// Prints an exit status and what was written, ended by a line feed.
fn print_end(rt: &impl Print, exit_code: ExitCode, written: &str) -> io::Result<()> {
    print!(rt; "{exit_code:?}")?;
    if !written.is_empty() {
        print!(rt; " {written}")?;
    }
    if !written.ends_with('\n') {
        println!(rt;)?;
    }
    Ok(())
}

/// Returns the pace that is written after a word. The device has no limits if this is not its word.
fn pace_of(device: &str, word: &str) -> Pace {
    match device.strip_prefix(word) {
        Some(pace) => Pace::written(pace),
        None => Pace::FREE,
    }
}
