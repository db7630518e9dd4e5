// Why printing a grammar fails.

/// Why printing a grammar fails.
#[derive(Clone, Copy, Debug, PartialEq, Eq)]
pub enum PrintFault {
    /// A write failed, and the device counted the failure.
    Write,
    /// The call ran out of memory.
    Memory,
}
