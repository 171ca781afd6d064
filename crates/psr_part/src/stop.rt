//! Why the search of a part stopped.
ghost use Rattle.std.specs.Prelude.{◌≡◌, ◌≤◌, ◌++◌, codes, length};
ghost use Rattle.std.specs.Fmt.{decimal};

use run_outcome::Stop;
use text_line::Line;
use warm_restart::CheckpointFault;

/// Why no part goes on from a checkpoint, in the order in which causes are judged. Places and counts are in spectra.
#[derive(Clone, Copy, Debug, PartialEq, Eq)]
pub enum CheckpointRefusal {
    /// The text isn't exactly one CHECK line.
    Form,
    /// The part would stop before spectrum `until`, which is not after spectrum `place`, where it begins.
    Place { place: u64, until: u64 },
    /// The checkpoint is at `place`, after the last of the data's `spectra` spectra.
    Beyond { place: u64, spectra: u64 },
}

/// Why the search of a part ended without all that it was asked for.
#[derive(Clone, Copy, Debug, PartialEq, Eq)]
pub enum PartStop {
    /// As any run can stop.
    Run(Stop),
    /// Its checkpoint is refused.
    Refused(CheckpointRefusal),
}

// A line of a name and two numbers.
fn numbers_line(name: &str, first: u64, second: u64) -> Line
    requires { length name.now ≤ 64 }
    ensures { result ≡ name.now ++ decimal first ++ codes " " ++ decimal second ++ codes "\n" }
{
    let mut line = Line::new();
    line.push_str(name);
    line.push_number(first);
    line.push_str(" ");
    line.push_number(second);
    line.push_str("\n");
    line
}

impl CheckpointRefusal {
    ghost use Rattle.psr_part.specs.Texts.{refusal_text};

    /// The line on standard error.
    pub fn note(self) -> Line
        ensures { result ≡ refusal_text self }
    {
        match self {
            CheckpointRefusal::Form => {
                let mut line = Line::new();
                line.push_str("checkpoint refused: Form\n");
                line
            }
            CheckpointRefusal::Place { place, until } => {
                numbers_line("checkpoint refused: Place ", place, until)
            }
            CheckpointRefusal::Beyond { place, spectra } => {
                numbers_line("checkpoint refused: Beyond ", place, spectra)
            }
        }
    }
}

impl PartStop {
    ghost use Rattle.psr_part.specs.Texts.{stop_of_checkpoint};

    /// The stop if no checkpoint was read.
    pub fn of_checkpoint(fault: CheckpointFault) -> PartStop
        ensures { result ≡ stop_of_checkpoint fault }
    {
        match fault {
            CheckpointFault::Failed => PartStop::Run(Stop::ReadFault),
            CheckpointFault::Form => PartStop::Refused(CheckpointRefusal::Form),
            CheckpointFault::Place { place, until } => {
                PartStop::Refused(CheckpointRefusal::Place { place, until })
            }
        }
    }
}
