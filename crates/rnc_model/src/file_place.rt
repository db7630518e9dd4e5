// Places in a file.

/// A place in a schema file.
///
/// Lines and columns count from 1. A CR LF, a CR and an LF each end a line. Columns count characters as they are
/// written: an escape such as `\x{41}` has six, and a tab is one.
#[derive(Clone, Copy, Debug, PartialEq, Eq)]
pub struct FilePlace {
    /// The number of bytes of the file before the place.
    pub offset: u64,
    pub line: u64,
    pub column: u64,
}
