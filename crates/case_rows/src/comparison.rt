// What a program prints for rows, compared with their answers.
use crate::answer::Answer;
use crate::file::rows;
use crate::row::Row;
use percent_encoding::{AsciiSet, CONTROLS, ascii_set, percent_encode};
use std::io;
use std::rt::Files;

/// What is not printed of an answer as it is.
const ENCODED: AsciiSet = ascii_set!(CONTROLS.add(b'%'));

/// Prints each row of a file for which `print` prints something else than its answer, and then how many rows there are.
///
/// The errors are those of reading the file, as `rows` has them, and those of `print`.
pub fn compare_rows<R: Files + Print + AllocGlobal, F: FnMut(&Answer, &Row) -> io::Result<()>>(
    rt: &R,
    path: &str,
    mut print: F,
) -> io::Result<()>
    requires { F.IsAlwaysCallable print }
{
    let mut comparison = Comparison::of(path);
    for row in comparison.rows(rt)? {
        let answer = Answer::new(rt.alloc());
        let ended = print(&answer, &row);
        comparison.compare(rt, &row, answer, ended)?;
    }
    comparison.finish(rt)
}

/// The rows of a file whose answers are compared, for a program that goes through the rows itself.
#[derive(Drop)]
pub struct Comparison<'a> {
    path: &'a str,
    compared: u64,
}

impl<'a> Comparison<'a> {
    /// Creates the comparison of the rows of this file, before the first one.
    pub fn of(path: &'a str) -> Comparison<'a> {
        Comparison { path, compared: 0 }
    }

    /// Returns the rows of the file, as `rows` does.
    pub fn rows<R: Files + AllocGlobal>(&self, rt: &R) -> io::Result<Vec<Row>> {
        rows(rt, self.path)
    }

    /// Compares what was printed for a row with its answer, and prints both if they differ.
    ///
    /// If the printing ended with an error, prints both and returns the error. If there was no memory for all of it, the
    /// error is `OutOfMemory`.
    pub fn compare(
        &mut self,
        rt: &impl Print,
        row: &Row,
        answer: Answer,
        ended: io::Result<()>,
    ) -> io::Result<()> {
        let (printed, is_whole) = answer.finish();
        let text = printed.strip_suffix(b"\n");
        self.compared = self.compared.wrapping_add(1);
        if ended.is_err() || !is_whole || text.is_none() || text != row.answer() {
            self.print_difference(rt, row, printed.as_slice())?;
        }
        if ended.is_ok() && !is_whole {
            return Err(io::Error::from(io::ErrorKind::OutOfMemory));
        }
        ended
    }

    /// Prints the answer of a row, and what was printed for it, each in a line.
    fn print_difference(&self, rt: &impl Print, row: &Row, printed: &[u8]) -> io::Result<()> {
        let (path, line) = (self.path, row.line());
        match row.answer() {
            Some(wanted) => {
                println!(rt;
                    "{path}:{line}: wanted = {}",
                    percent_encode(wanted, ENCODED)
                )?;
            }
            None => println!(rt; "{path}:{line}: the row has no answer")?,
        }
        match printed.strip_suffix(b"\n") {
            Some(text) => println!(rt; "{path}:{line}: got = {}", percent_encode(text, ENCODED)),
            None => {
                let text = percent_encode(printed, ENCODED);
                println!(rt; "{path}:{line}: got, without its last line feed = {text}")
            }
        }
    }

    /// Prints how many rows were compared.
    pub fn finish(self, rt: &impl Print) -> io::Result<()> {
        println!(rt; "{}: {} rows", self.path, self.compared)
    }
}
