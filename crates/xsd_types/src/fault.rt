// Why a name and parameters name no datatype.

/// Why a search for a datatype returned none: what is wrong, or that memory is out.
#[derive(Clone, Copy, Debug)]
pub enum TypeFault {
    /// No datatype of the set has that name.
    UnknownType,
    /// The datatype does not take these parameters.
    BadParameter,
    /// Out of memory.
    Memory,
}
