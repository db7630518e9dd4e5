// Why a document fails.

/// Why a call on a document fails.
#[derive(Clone, Copy, Debug, PartialEq, Eq)]
pub enum DocumentFault {
    /// The document breaks this clause, 1 to 13, at this line, counted from 1. It is the broken clause of the least
    /// line, and of the least number there, whatever bytes follow.
    Malformed { clause: u8, line: u64 },
    /// The call ran out of memory.
    Memory,
}
