// Checkpoints, and their text.
ghost use Rattle.std.specs.Prelude.{◌≡◌, ◌≢◌, Err, IfSome, IfNone};
ghost use Rattle.psr_base.specs.Written.{Wrote};
ghost use Rattle.search_model.specs.Parts.{check_line as check_line_of};
ghost use Rattle.warm_restart.specs.Checkpoint.{IsCheckpointText, IsNoCheckpointText, IsJudged, CanBeSaid, judged_place, checkpoint_of};

use crate::counts::count_in;
use crate::lines::check_line;
use crate::text::check_words;
use candidate_book::SinkStop;
use psr_base::{Sink, write_all};
// Laws: they do nothing when they run, and the proofs use what they ensure.
use crate::laws::{lines_are_read_back, texts_say_one};
use thiserror::Error;

/// The place at which a search goes on.
#[derive(Clone, Copy, Debug, PartialEq, Eq)]
pub struct Checkpoint {
    /// The first spectrum at which pulses still to be found end. The part before stopped before it.
    pub place: u64,
    /// The number of pulses that end before it.
    pub pulses: u64,
}

/// Why a part can't go on from a checkpoint. The causes are judged in this order.
#[derive(Clone, Copy, Debug, PartialEq, Eq, Drop, Error)]
pub enum CheckpointFault {
    /// The inputs failed.
    #[error("the inputs failed")]
    Failed,
    /// The text isn't exactly one CHECK line.
    #[error("no checkpoint")]
    Form,
    /// The part would stop before spectrum `until`, which is not after `place`, where it begins.
    #[error("a checkpoint at {place} for a part that stops before {until}")]
    Place { place: u64, until: u64 },
}

impl Checkpoint {
    /// The checkpoint at spectrum 0, before which no pulse ends.
    pub fn first() -> Checkpoint
        ensures { result ≡ record { place = 0; pulses = 0 } }
    {
        Checkpoint {
            place: 0,
            pulses: 0,
        }
    }

    /// Reads a checkpoint text: `CHECK`, the place and the number of pulses, each after one space, and a line feed.
    /// Both numbers are at most 2^48, with 1 to 15 decimal digits. `None` if and only if the text is no such text.
    pub fn read(text: &[u8]) -> Option<Checkpoint>
        ensures value { result ≡ checkpoint_of text.now }
        ensures some { IfSome result (IsCheckpointText text.now) }
        ensures none { IfNone result (IsNoCheckpointText text.now) }
    {
        texts_say_one();
        let Some((place, pulses)) = check_words(text) else {
            return None;
        };
        let Some(place) = count_in(place) else {
            return None;
        };
        match count_in(pulses) {
            Some(pulses) => Some(Checkpoint { place, pulses }),
            None => None,
        }
    }

    /// Reads a checkpoint text for a part that stops before spectrum `until`. The error is never `Failed`.
    pub fn judge(text: &[u8], until: u64) -> Result<Checkpoint, CheckpointFault>
        ensures judged { IsJudged text.now until result }
        ensures reads_nothing { result ≢ Err CheckpointFault.Failed }
    {
        texts_say_one();
        match Checkpoint::read(text) {
            Some(checkpoint) => checkpoint.before(until),
            None => Err(CheckpointFault::Form),
        }
    }

    /// Writes the CHECK line of this checkpoint. After a fault the sink has taken a beginning of the line.
    pub fn write<K: Sink>(&self, sink: &mut K) -> Result<(), SinkStop>
        ensures wrote { Wrote (check_line_of self.now.place self.now.pulses) (K.seen sink.old)
            (K.seen sink.new) result }
        ensures read_back { CanBeSaid self.now
            → IsCheckpointText (check_line_of self.now.place self.now.pulses) self.now }
    {
        lines_are_read_back();
        match write_all(sink, check_line(self.place, self.pulses).as_bytes()) {
            Ok(()) => Ok(()),
            Err(_) => Err(SinkStop::Fault),
        }
    }

    // This checkpoint, if its place is before spectrum `until`.
    pub(crate) fn before(self, until: u64) -> Result<Checkpoint, CheckpointFault>
        ensures { result ≡ judged_place until self }
    {
        if self.place < until {
            Ok(self)
        } else {
            Err(CheckpointFault::Place {
                place: self.place,
                until,
            })
        }
    }
}
