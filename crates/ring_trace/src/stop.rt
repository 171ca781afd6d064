// Why a replay ended before every line was answered.
ghost use Rattle.std.specs.Prelude.{◌≡◌};

/// Why a replay ended before every line was answered.
#[derive(Clone, Copy, Debug, PartialEq, Eq)]
pub enum Stop {
    /// The arguments are not the program's name and one file name.
    Words,
    /// A line is malformed, or the file is empty.
    BadLine,
    /// There was no memory.
    Memory,
    /// The inputs failed.
    ReadFault,
    /// The file has more than 1048576 bytes.
    TooLong,
    /// The output failed.
    SinkFault,
}

impl Stop {
    ghost use Rattle.ring_trace.specs.Stop.{status_of};

    /// The exit status.
    pub fn status(self) -> u8
        ensures { result ≡ status_of self }
    {
        match self {
            Stop::Words => 2,
            Stop::BadLine => 3,
            Stop::Memory => 5,
            Stop::ReadFault => 6,
            Stop::TooLong => 8,
            Stop::SinkFault => 10,
        }
    }
}
