// What a program prints for a row.
use std::alloc::Global;
use std::cell::{Cell, RefCell};
use std::fmt::Display;
use std::io;

/// What a program prints for a row. It serves as the runtime that is printed to, and gives the allocator.
///
/// The error of a call is `OutOfMemory`. After it nothing more is taken.
#[derive(Drop)]
pub struct Answer {
    alloc: Global,
    bytes: RefCell<Vec<u8>>,
    has_run_out: Cell<bool>,
}

impl Answer {
    /// Creates an empty answer.
    pub fn new(alloc: Global) -> Answer {
        Answer {
            alloc,
            bytes: RefCell::new(Vec::new(alloc)),
            has_run_out: Cell::new(false),
        }
    }

    /// Returns what was printed, and whether there was memory for all of it.
    pub(crate) fn finish(self) -> (Vec<u8>, bool) {
        let is_whole = !self.has_run_out.get();
        (self.bytes.into_inner(), is_whole)
    }

    /// Records that something is lost. Returns that error.
    fn run_out(&self) -> io::Result<()> {
        self.has_run_out.set(true);
        Err(io::Error::from(io::ErrorKind::OutOfMemory))
    }

    /// Adds bytes, unless some were lost before. Returns whether there was memory for them.
    fn add(&self, bytes: &[u8]) -> bool {
        if self.has_run_out.get() {
            return false;
        }
        match self.bytes.try_borrow_mut() {
            Ok(mut all) => all.extend_from_slice(bytes).is_ok(),
            Err(_) => false,
        }
    }
}

impl Alloc for Answer {
    type A = Global;

    fn alloc(&self) -> Global {
        self.alloc
    }
}

impl Print for Answer {
    fn print<D: Display + Drop>(&self, value: D) -> io::Result<()> {
        match format!(in self.alloc; "{value}") {
            Ok(text) => self.write_all(text.as_bytes()),
            Err(_) => self.run_out(),
        }
    }

    fn println<D: Display + Drop>(&self, value: D) -> io::Result<()> {
        self.print(value)?;
        self.write_all(b"\n")
    }

    fn write_all(&self, bytes: &[u8]) -> io::Result<()> {
        if self.add(bytes) {
            return Ok(());
        }
        self.run_out()
    }
}
