// A row of a file of cases.
use percent_encoding::percent_decode;
use std::alloc::{AllocError, Global};
use std::io;

/// A row of a file of cases.
#[derive(Drop)]
pub struct Row {
    line: usize,
    fields: Vec<Vec<u8>>,
    // With its `=`.
    answer: Option<Vec<u8>>,
}

impl Row {
    /// Reads the row from the line with this number.
    pub(crate) fn new(alloc: Global, line: usize, text: &str) -> Result<Row, AllocError> {
        let mut fields = Vec::new(alloc);
        for written in text.split('\t') {
            let mut field = Vec::new(alloc);
            percent_decode(written.as_bytes()).append_to(&mut field)?;
            fields.push(field)?;
        }
        let answer = answer_in(&mut fields);
        Ok(Row {
            line,
            fields,
            answer,
        })
    }

    /// Returns the number of the row's line in its file, counted from 1.
    pub fn line(&self) -> usize {
        self.line
    }

    /// Returns the row's answer, if it has one.
    pub(crate) fn answer(&self) -> Option<&[u8]> {
        let text = self.answer.as_ref()?.strip_prefix(b"=")?;
        Some(text.strip_prefix(b" ").unwrap_or(text))
    }

    /// Returns the number of fields in the row without its answer.
    pub fn field_count(&self) -> usize {
        self.fields.len()
    }

    /// Returns the bytes of a field, counted from 0. The error is `UnexpectedEof` if the row has no such field.
    pub fn bytes(&self, field: usize) -> io::Result<&[u8]> {
        match self.fields.get(field) {
            Some(bytes) => Ok(bytes.as_slice()),
            None => Err(io::Error::from(io::ErrorKind::UnexpectedEof)),
        }
    }

    /// Returns the text of a field, as `bytes` does. The error is `InvalidData` if it is not UTF-8.
    pub fn text(&self, field: usize) -> io::Result<&str> {
        match str::from_utf8(self.bytes(field)?) {
            Ok(text) => Ok(text),
            Err(_) => Err(io::Error::from(io::ErrorKind::InvalidData)),
        }
    }
}

/// Removes and returns the last field, if it is an answer.
fn answer_in(fields: &mut Vec<Vec<u8>>) -> Option<Vec<u8>> {
    if fields.last()?.starts_with(b"=") {
        return fields.pop();
    }
    None
}
