//! A piece of data is taken.
ghost use Rattle.std.specs.Prelude.{◌<◌, length, OnOk, OnErr};
ghost use Rattle.drive_stream.specs.Endings.{Failed as FailedSink, Midway};
ghost use Rattle.drive_stream.specs.Streams.{IsStreaming, StreamsOn, LeavesAt};

use crate::streaming::Streaming;
use obs_plan::Observation;
use psr_base::{Failed, Sink};

/// Gives a task all of these bytes.
pub(crate) fn take_in<K: Sink, T: Streaming>(
    task: &T,
    stream: &mut T::Stream,
    observation: &Observation,
    bytes: &[u8],
    out: &mut K,
) -> Result<(), Failed>
    requires { IsStreaming (T.streams task.now observation.now) (length bytes.now) stream.old
        (K.seen out.old) }
    ensures took { OnOk result (StreamsOn (T.streams task.now observation.now) stream.old bytes.now
        stream.new (K.seen out.old) (K.seen out.new)) }
    ensures broke { OnErr result (LeavesAt (T.streams task.now observation.now)
        (T.leaves task.now observation.now) stream.old bytes.now (FailedSink Midway)
        (K.seen out.old) (K.seen out.new)) }
    ensures some { OnErr result (0 < length bytes.now) }
{
    let mut taken = 0;
    while taken < bytes.len() {
        match task.feed(stream, observation, &bytes[taken..], out) {
            Ok(count) => taken += count,
            Err(failed) => return Err(failed),
        }
    }
    Ok(())
}
