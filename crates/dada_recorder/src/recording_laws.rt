// A law of what a recorder stands for, which the contract of a function that does nothing carries. A caller whose proof
// needs the law calls the function.
ghost use Rattle.dada_recorder.specs.RecordingLaws.{RecordingsEnd};

use stream_model::{bytes_are_joined, entries_are_of_transfers};

/// Once a recorder has cleared a complete stream, this is how it ends and what files it has made.
pub fn recordings_end()
    ensures { RecordingsEnd }
{
    bytes_are_joined();
    entries_are_of_transfers();
}
