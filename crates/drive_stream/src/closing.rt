//! A stream is closed, once its data have ended.
ghost use Rattle.std.specs.Prelude.{◌≡◌, ◌≢◌, ◌⊎◌, ℕ, Some, None};
ghost use Rattle.disk_feeder.specs.declared.answers.FeedEnd.TheVariants.{Whole};
ghost use Rattle.run_outcome.specs.Conversions.{stop_of_feed};
ghost use Rattle.drive_stream.specs.Streams.{IsStreaming};
ghost use Rattle.drive_stream.specs.Stops.{Closes, BreaksClosing};

use crate::faults::FinishFault;
use crate::stop::StreamStop;
use crate::streaming::Streaming;
use disk_feeder::FeedEnd;
use obs_plan::Observation;
use psr_base::Sink;
use run_outcome::Stop;

// Closes a stream whose data all came.
fn close_whole<K: Sink, T: Streaming>(
    task: &T,
    stream: &mut T::Stream,
    observation: &Observation,
    out: &mut K,
) -> Option<StreamStop<T::Refusal>>
    requires { IsStreaming (T.streams task.now observation.now) 0 stream.old (K.seen out.old) }
    ensures { (bytes : ℕ) → Closes (T.streams task.now observation.now)
        (T.leaves task.now observation.now) stream.old (Whole bytes) (K.seen out.old)
        (K.seen out.new) result
        ⊎ BreaksClosing (T.streams task.now observation.now)
        (T.leaves task.now observation.now) stream.old (Whole bytes) (K.seen out.old)
        (K.seen out.new) result }
{
    match task.finish(stream, observation, out) {
        Ok(()) => None,
        Err(FinishFault::Refused(refusal)) => Some(StreamStop::Refused(refusal)),
        Err(FinishFault::Failed) => Some(StreamStop::Run(Stop::SinkFault)),
    }
}

// Closes a stream whose data stopped at a fault of the inputs, which is told whether the output fails or not.
fn close_at_fault<K: Sink, T: Streaming>(
    task: &T,
    stream: &mut T::Stream,
    observation: &Observation,
    out: &mut K,
) -> Option<StreamStop<T::Refusal>>
    requires { IsStreaming (T.streams task.now observation.now) 0 stream.old (K.seen out.old) }
    ensures { Closes (T.streams task.now observation.now) (T.leaves task.now observation.now)
        stream.old FeedEnd.ReadFault (K.seen out.old) (K.seen out.new) result }
{
    match task.stop(stream, observation, out) {
        Ok(()) => Some(StreamStop::Run(Stop::ReadFault)),
        Err(_failed) => Some(StreamStop::Run(Stop::ReadFault)),
    }
}

// Closes a stream whose data were refused from some file on, for which the run stops.
fn close_early<K: Sink, T: Streaming>(
    task: &T,
    stream: &mut T::Stream,
    observation: &Observation,
    end: FeedEnd,
    stop: Stop,
    out: &mut K,
) -> Option<StreamStop<T::Refusal>>
    requires stands { IsStreaming (T.streams task.now observation.now) 0 stream.old
        (K.seen out.old) }
    requires stop { stop_of_feed end ≡ Some stop }
    requires read { end ≢ FeedEnd.ReadFault }
    ensures { Closes (T.streams task.now observation.now) (T.leaves task.now observation.now)
        stream.old end (K.seen out.old) (K.seen out.new) result
        ⊎ BreaksClosing (T.streams task.now observation.now)
        (T.leaves task.now observation.now) stream.old end (K.seen out.old) (K.seen out.new)
        result }
{
    match task.stop(stream, observation, out) {
        Ok(()) => Some(StreamStop::Run(stop)),
        Err(_failed) => Some(StreamStop::Run(Stop::SinkFault)),
    }
}

/// Closes a stream whose data ended so, and answers why the run stops, if it does.
pub(crate) fn close<K: Sink, T: Streaming>(
    task: &T,
    stream: &mut T::Stream,
    observation: &Observation,
    end: FeedEnd,
    out: &mut K,
) -> Option<StreamStop<T::Refusal>>
    requires { IsStreaming (T.streams task.now observation.now) 0 stream.old (K.seen out.old) }
    ensures { Closes (T.streams task.now observation.now) (T.leaves task.now observation.now)
        stream.old end (K.seen out.old) (K.seen out.new) result
        ⊎ BreaksClosing (T.streams task.now observation.now)
        (T.leaves task.now observation.now) stream.old end (K.seen out.old) (K.seen out.new)
        result }
{
    if end == FeedEnd::ReadFault {
        return close_at_fault(task, stream, observation, out);
    }
    match Stop::of_feed(end) {
        Some(stop) => close_early(task, stream, observation, end, stop, out),
        None => close_whole(task, stream, observation, out),
    }
}
