// The outcome of a document.

/// Whether a document is valid.
#[derive(Clone, Copy, Debug, PartialEq, Eq)]
pub enum Outcome {
    Valid,
    /// The document is invalid. No continuation after the event of this line, counted from 1, is valid.
    Invalid(u64),
}
