// The standard error of a run that is a case.
use std::fmt::Display;
use std::io;
use std::io::{Eprint, Print};

/// Prints as the answer to a row what a run prints on standard error.
#[derive(Drop)]
pub struct Errors<'a, P>(pub &'a P);

impl<P: Print> Eprint for Errors<'_, P> {
    fn eprint<D: Display + Drop>(&self, value: D) -> io::Result<()> {
        self.0.print(value)
    }

    fn eprintln<D: Display + Drop>(&self, value: D) -> io::Result<()> {
        self.0.println(value)
    }
}
