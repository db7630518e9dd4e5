// What to do with the files.

/// What to do with the files.
#[derive(Clone, Copy, Debug)]
pub enum Command {
    /// Judge a document by the schema.
    Valid,
    /// Judge only the schema. The document is not read.
    Check,
    /// Print the simple form of the schema. The document is not read.
    Simple,
}
