//! A stream goes through, from its head to its end.
ghost use Rattle.std.specs.Prelude.{◌≡◌, ◌≤◌, ◌^◌, ◌⊎◌, [], None};
ghost use Rattle.disk_feeder.specs.Feeder.{FeederFaultless, HasOpenFile, has_end, plan_at, block_size};
ghost use Rattle.disk_feeder.specs.Handing.{FeederHands};
ghost use Rattle.drive_stream.specs.Streams.{IsAtHead};
ghost use Rattle.drive_stream.specs.Writings.{WritesTo, BreaksWriting};

use crate::closing::close;
use crate::flow::flow;
use crate::stop::StreamStop;
use crate::streaming::Streaming;
use disk_feeder::Feeder;
use obs_plan::Observation;
use psr_base::{Inputs, Sink};
use run_outcome::Stop;
use std::sync::Wait;

/// Writes what a task makes of the data of a feeder, and answers why the run stops, if it does.
pub(crate) fn write_stream<'a, R: Wait, I: Inputs, K: Sink, T: Streaming>(
    rt: &R,
    feeder: &mut Feeder<'a, I>,
    task: &T,
    stream: &mut T::Stream,
    observation: &Observation,
    out: &mut K,
) -> Option<StreamStop<T::Refusal>>
    requires running { (has_end feeder.old ≡ None) × FeederFaultless feeder.old }
    requires file { HasOpenFile feeder.old → I.is_open feeder.old.inputs.now }
    requires stands { FeederHands (I.told feeder.old.inputs.now) feeder.old [] }
    requires limit { (plan_at feeder.old).max_bytes ≤ 2 ^ 48 }
    requires size { block_size feeder.old ≤ 2 ^ 24 }
    requires head { IsAtHead (T.opens task.now observation.now) stream.old }
    ensures same_reference { feeder.new.inputs.ghost_name ≡ feeder.old.inputs.ghost_name }
    ensures wrote { WritesTo I.told I.is_calm I.faults (T.opens task.now observation.now)
        (T.leaves task.now observation.now) feeder.old feeder.new stream.old (K.seen out.old)
        (K.seen out.new) result
        ⊎ BreaksWriting I.told I.is_calm I.faults (T.opens task.now observation.now)
        (T.leaves task.now observation.now) feeder.old feeder.new stream.old (K.seen out.old)
        (K.seen out.new) result }
{
    match task.begin(stream, observation, out) {
        Ok(()) => {}
        Err(_failed) => return Some(StreamStop::Run(Stop::SinkFault)),
    }
    match flow(rt, feeder, task, stream, observation, out) {
        Ok(end) => close(task, stream, observation, end, out),
        Err(_failed) => Some(StreamStop::Run(Stop::SinkFault)),
    }
}
