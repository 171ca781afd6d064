// Why a run stopped.
ghost use Rattle.std.specs.Prelude.{◌≡◌, ◌≤◌, ◌++◌, codes, length};
ghost use Rattle.std.specs.Fmt.{decimal};
ghost use Rattle.run_outcome.specs.Texts.{cause_text};

use crate::causes::{PlanCause, RecordingCause, push_header_cause};
use crate::line::{push_named_number, push_named_word, push_option};
use disk_feeder::HeaderCause;
use search_words::Opt;
use text_line::Line;

/// Why a run ended before it did all that was asked. Files count from 0 over all transfers.
#[derive(Clone, Copy, Debug, PartialEq, Eq)]
pub enum Stop {
    /// The arguments are refused.
    Words,
    /// The value of an option is out of its range.
    Value(Opt),
    /// The header of a file is refused.
    Header {
        file: u32,
        cause: HeaderCause,
    },
    /// The search of an observation is refused.
    Plan(PlanCause),
    /// The recording of a transfer is refused.
    Recording(RecordingCause),
    /// There was no memory.
    Memory,
    /// The inputs failed.
    ReadFault,
    /// The OBS_OFFSET of a file is `found`, but the one that continues its transfer is `expected`: both in bytes.
    Gap {
        file: u32,
        expected: u64,
        found: u64,
    },
    /// There are more data bytes than the limit.
    TooLong {
        limit: u64,
    },
    /// There are more candidates than the limit.
    TooMany {
        count: u64,
        limit: u32,
    },
    /// The output failed.
    SinkFault,
    /// A call on the files that are made failed.
    FileFault,
}

// The line of a header that is refused.
fn header_line(file: u32, cause: HeaderCause) -> Line
    ensures { result ≡ codes "header of file " ++ decimal file ++ codes " refused: "
        ++ cause_text cause ++ codes "\n" }
{
    let mut line = Line::new();
    push_named_word(&mut line, "header of file ", file);
    line.push_str(" refused: ");
    push_header_cause(&mut line, cause);
    line.push_str("\n");
    line
}

// The line of a file that leaves a gap.
fn gap_line(file: u32, expected: u64, found: u64) -> Line
    ensures { result ≡ codes "file " ++ decimal file ++ codes " has OBS_OFFSET "
        ++ decimal found ++ codes " where " ++ decimal expected ++ codes " was expected\n" }
{
    let mut line = Line::new();
    push_named_word(&mut line, "file ", file);
    push_named_number(&mut line, " has OBS_OFFSET ", found);
    push_named_number(&mut line, " where ", expected);
    line.push_str(" was expected\n");
    line
}

// The line of too many candidates.
fn many_line(count: u64, limit: u32) -> Line
    ensures { result ≡ decimal count ++ codes " candidates, limit " ++ decimal limit
        ++ codes "\n" }
{
    let mut line = Line::new();
    line.push_number(count);
    push_named_word(&mut line, " candidates, limit ", limit);
    line.push_str("\n");
    line
}

// A line without numbers.
fn plain_line(text: &str) -> Line
    requires { length text.now ≤ 64 }
    ensures { result ≡ text.now }
{
    let mut line = Line::new();
    line.push_str(text);
    line
}

impl Stop {
    ghost use Rattle.run_outcome.specs.Texts.{status_of, note_of};

    /// The exit status.
    pub fn status(self) -> u8
        ensures { result ≡ status_of self }
    {
        match self {
            Stop::Words | Stop::Value(_) => 2,
            Stop::Header { .. } => 3,
            Stop::Plan(_) | Stop::Recording(_) => 4,
            Stop::Memory => 5,
            Stop::ReadFault => 6,
            Stop::Gap { .. } => 7,
            Stop::TooLong { .. } => 8,
            Stop::TooMany { .. } => 9,
            Stop::SinkFault => 10,
            Stop::FileFault => 11,
        }
    }

    /// The line on standard error.
    pub fn note(self) -> Line
        ensures { result ≡ note_of self }
    {
        let mut line = Line::new();
        match self {
            Stop::Words => return plain_line("words refused\n"),
            Stop::Value(opt) => {
                push_option(&mut line, opt);
                line.push_str(" refused\n");
            }
            Stop::Header { file, cause } => return header_line(file, cause),
            Stop::Plan(cause) => {
                line.push_str("plan refused: ");
                cause.push_to(&mut line);
                line.push_str("\n");
            }
            Stop::Recording(cause) => {
                line.push_str("plan refused: ");
                cause.push_to(&mut line);
                line.push_str("\n");
            }
            Stop::Memory => return plain_line("no memory\n"),
            Stop::ReadFault => return plain_line("read fault\n"),
            Stop::Gap {
                file,
                expected,
                found,
            } => return gap_line(file, expected, found),
            Stop::TooLong { limit } => {
                push_named_number(&mut line, "more than ", limit);
                line.push_str(" bytes\n");
            }
            Stop::TooMany { count, limit } => return many_line(count, limit),
            Stop::SinkFault => return plain_line("sink fault\n"),
            Stop::FileFault => return plain_line("record fault\n"),
        }
        line
    }
}
