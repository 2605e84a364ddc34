//! How the programs end.
ghost use Rattle.std.specs.Prelude.{◌≡◌};
ghost use Rattle.egl_flow.specs.Statuses.{status_number};

/// How a program ends.
#[derive(Clone, Copy, Debug, PartialEq, Eq, Drop)]
pub enum Status {
    /// The output was written.
    Ok,
    /// The words are no command.
    Usage,
    /// The input could not be read.
    ReadFault,
    /// The input is no trace, or no recording behind one.
    Malformed,
    /// The output could not be written.
    WriteFault,
    /// The trace's threads wait for one another.
    Stalled,
    /// Memory ran out.
    NoMemory,
    /// The input is longer than 33,554,432 bytes.
    TooLong,
    /// A recording differs from its trace.
    Differs,
}

impl Status {
    /// The exit status.
    pub fn number(&self) -> u8
        ensures { result ≡ status_number self.now }
    {
        match self {
            Status::Ok => 0,
            Status::Usage => 2,
            Status::ReadFault => 3,
            Status::Malformed => 4,
            Status::WriteFault => 5,
            Status::Stalled => 6,
            Status::NoMemory => 7,
            Status::TooLong => 8,
            Status::Differs => 9,
        }
    }
}
