// Characters of a decoded text.

/// A character of a decoded text.
#[derive(Clone, Copy, PartialEq, Eq)]
pub enum Character {
    /// A line end that is in the file as CR LF, CR or LF. It is one LF in the decoded text.
    LineEnd,
    /// Any other character, also a CR or LF that an escape writes.
    Ordinary(char),
}
