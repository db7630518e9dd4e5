// The files of a row.
use crate::row::Row;
use std::alloc::Global;
use std::io;

/// Returns the files from the second field on. Each text has a name, the text and how often it is repeated. In a text
/// `^` is replaced by a number, which is 0 at first and increases by one with each repetition, and `^+` by the next
/// number. Consecutive texts with the same name are one file.
pub fn files_of(alloc: Global, row: &Row) -> io::Result<Vec<(String, Vec<u8>)>> {
    let mut files = Vec::new(alloc);
    for field in (1..row.field_count()).step_by(3) {
        let name = row.text(field)?;
        let text = row.text(field.wrapping_add(1))?;
        let times = row.text(field.wrapping_add(2))?;
        let mut bytes = contents_so_far(alloc, &mut files, name);
        append(alloc, &mut bytes, text, times.parse().unwrap_or(0))?;
        files.push((String::from_str(alloc, name)?, bytes))?;
    }
    Ok(files)
}

/// Removes and returns the bytes of the last file, if it has this name.
fn contents_so_far(alloc: Global, files: &mut Vec<(String, Vec<u8>)>, name: &str) -> Vec<u8> {
    if let Some((last, _)) = files.last() {
        if last.as_str() == name {
            if let Some((_, bytes)) = files.pop() {
                return bytes;
            }
        }
    }
    Vec::new(alloc)
}

/// Adds a text this many times, each time with its number.
fn append(alloc: Global, bytes: &mut Vec<u8>, text: &str, times: u32) -> io::Result<()> {
    for number in 0..times {
        append_numbered(alloc, bytes, text, number)?;
    }
    Ok(())
}

/// Adds a text with a number for `^`, and the next one for `^+`.
fn append_numbered(alloc: Global, bytes: &mut Vec<u8>, text: &str, number: u32) -> io::Result<()> {
    for (place, piece) in text.split('^').enumerate() {
        let next = piece.strip_prefix('+');
        if place > 0 {
            let number = number.wrapping_add(u32::from(next.is_some()));
            let digits = format!(in alloc; "{number}")?;
            bytes.extend_from_slice(digits.as_bytes())?;
        }
        let rest = if place > 0 {
            next.unwrap_or(piece)
        } else {
            piece
        };
        bytes.extend_from_slice(rest.as_bytes())?;
    }
    Ok(())
}
