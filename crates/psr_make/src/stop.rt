// Why the program ended without a whole file.
ghost use Rattle.std.specs.Prelude.{◌≡◌};

use crate::opt::Opt;
use text_line::Line;

/// Why the program ended without a whole file.
#[derive(Clone, Copy, Debug, PartialEq, Eq)]
pub enum Stop {
    /// The arguments don't ask for an observation.
    Words,
    /// The value of an option is out of its range.
    Value(Opt),
    /// There was no memory.
    Memory,
    /// The files failed.
    RecordFault,
}

impl Stop {
    ghost use Rattle.psr_make.specs.Stop.{status_of, note_of};

    /// The exit status.
    pub fn status(self) -> u8
        ensures { result ≡ status_of self }
    {
        match self {
            Stop::Words | Stop::Value(_) => 2,
            Stop::Memory => 5,
            Stop::RecordFault => 11,
        }
    }

    /// The line that tells the user why.
    pub fn note(self) -> Line
        ensures { result ≡ note_of self }
    {
        let mut line = Line::new();
        match self {
            Stop::Words => line.push_str("words refused\n"),
            Stop::Value(opt) => {
                line.push_str("option --");
                line.push_str(opt.name());
                line.push_str(" refused\n");
            }
            Stop::Memory => line.push_str("no memory\n"),
            Stop::RecordFault => line.push_str("record fault\n"),
        }
        line
    }
}
