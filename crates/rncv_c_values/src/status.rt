// The status of a call.
ghost use Rattle.std.specs.Prelude.{◌≡◌};
ghost use Rattle.rncv_c_values.specs.views.Codes.{code_of};

/// The status of a call.
#[derive(Clone, Copy)]
pub enum Status {
    Done,
    /// The files of a schema break a clause, or a file has no place to report.
    Refused,
    /// A document breaks a clause.
    Malformed,
    /// The call ran out of memory.
    Memory,
    /// A handle does not hold what the call needs, or the call does not take an argument.
    Misuse,
    /// The text does not fit the buffer.
    Space,
}

impl Status {
    /// Returns the number of the status in the header. Allocates nothing.
    pub fn code(self) -> i32
        ensures { result ≡ code_of self }
    {
        match self {
            Status::Done => 0,
            Status::Refused => 1,
            Status::Malformed => 2,
            Status::Memory => 3,
            Status::Misuse => 4,
            Status::Space => 5,
        }
    }
}
