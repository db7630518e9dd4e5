// The status of a run.

/// The status of a run. In this order, the exit status of the program is 0, 1, 2 or 3.
#[derive(Clone, Copy, Debug, PartialEq, Eq)]
pub enum Status {
    Good,
    Invalid,
    Malformed,
    Refused,
}
