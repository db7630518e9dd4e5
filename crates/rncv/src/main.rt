//! `rncv valid FILES..` reports whether the document on standard input is valid against a RELAX NG schema. `rncv check
//! FILES..` names the first clause that the schema breaks. `rncv simple FILES..` prints the simple form of the schema.
//!
//! The words are judged first, then the files are read in order, then the document is judged. The first fault ends the
//! program: it prints one line on standard error, and returns the exit status. A terminal is told that the program waits
//! for a document.
#![tactic(auto)]

use rncv_cli::run_program;
use rng_model::Device;
use std::io::{IsTerminal, Read};
use std::process::ExitCode;
use std::{env, fs, io};

/// The reader of the document. If the document is typed, a line on standard error says so before the first read.
#[derive(Drop)]
struct DocumentReader<'a, R> {
    rt: &'a HostRuntime,
    reader: R,
    is_due: bool,
}

impl<R: Read> Read for DocumentReader<'_, R> {
    ghost remaining = { λ d. R.remaining d.reader };

    fn read(&mut self, buf: &mut [u8]) -> io::Result<usize> {
        announce_document(self.rt, self.is_due);
        self.is_due = false;
        self.reader.read(buf)
    }
}

/// Says, if it is due, what the program waits for.
fn announce_document(rt: &HostRuntime, is_due: bool) {
    if is_due {
        // If standard error fails, the document is read all the same.
        let _ = eprintln!(rt; "rncv: reading the document, PYX lines, from standard input");
    }
}

fn main(rt: HostRuntime) -> ExitCode {
    let reader = DocumentReader {
        rt: &rt,
        reader: rt.reader(),
        is_due: rt.stdin().is_terminal(),
    };
    let mut input = Device::new(reader);
    let mut output = Device::new(io::writer(&rt));
    let open_file = |name: &str| fs::open(&rt, name);
    run_program(&rt, env::args(&rt), open_file, &mut input, &mut output)
}
