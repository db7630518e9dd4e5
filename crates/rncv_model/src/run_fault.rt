// Why a run fails.

/// Why a run fails.
#[derive(Clone, Copy, Debug, PartialEq, Eq)]
pub enum RunFault {
    /// A read failed, and the device counted the failure.
    Read,
    /// A write failed, and the device counted the failure.
    Write,
    /// The run ran out of memory.
    Memory,
}
