// The verdict on a document by a schema.

/// The verdict on a document by a schema.
#[derive(Clone, Copy)]
pub enum Verdict {
    Valid,
    /// The clause that is broken first, 1 to 13, and its line, counted from 1. The line is 0 if the document has none.
    Malformed { clause: u8, line: u64 },
    /// No continuation after this line, counted from 1, is valid.
    Invalid(u64),
}
