// A file of cases.
use crate::row::Row;
use std::rt::Files;
use std::{fs, io};

/// Returns the rows of a file, in order.
///
/// The errors are those of reading it, such as `NotFound`, `InvalidData` if it is not UTF-8, and `OutOfMemory`.
pub fn rows<R: Files + AllocGlobal>(rt: &R, path: &str) -> io::Result<Vec<Row>> {
    let text = fs::read_to_string(rt, path)?;
    let mut rows = Vec::new(rt.alloc());
    for (before, line) in text.lines().enumerate() {
        if !line.is_empty() && !line.starts_with('#') {
            rows.push(Row::new(rt.alloc(), before.wrapping_add(1), line)?)?;
        }
    }
    Ok(rows)
}
