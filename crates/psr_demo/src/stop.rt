// Why there is no whole summary.
ghost use Rattle.std.specs.Prelude.{◌≡◌};

/// Why there is no whole summary.
#[derive(Clone, Copy, Debug, PartialEq, Eq)]
pub enum Stop {
    /// The arguments are not one number.
    Words,
    /// There was no memory.
    Memory,
    /// The output failed.
    SinkFault,
}

impl Stop {
    ghost use Rattle.psr_demo.specs.Stop.{status_of};

    /// The exit status.
    pub fn status(self) -> u8
        ensures { result ≡ status_of self }
    {
        match self {
            Stop::Words => 2,
            Stop::Memory => 5,
            Stop::SinkFault => 10,
        }
    }
}
