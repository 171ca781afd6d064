//! The data, from the files to the task.
ghost use Rattle.std.specs.Prelude.{◌≡◌, ◌≤◌, ◌^◌, [], None, IfOk, OnErr};
ghost use Rattle.disk_feeder.specs.Feeder.{HasOpenFile, has_end, plan_at, block_size};
ghost use Rattle.disk_feeder.specs.Handing.{FeederHands};
ghost use Rattle.drive_stream.specs.Flows.{HasBegun, FlowsTo, BreaksFlow};

use crate::streaming::Streaming;
use crate::taking::take_in;
use disk_feeder::{FeedEnd, Feeder};
use obs_plan::Observation;
use psr_base::{Failed, Inputs, Sink};
use std::sync::Wait;
// A law: it does nothing when it runs, and the proofs use what it ensures.
use stream_model::bytes_are_joined;

/// Gives a task the data of a feeder as they come, and answers how they ended.
pub(crate) fn flow<'a, R: Wait, I: Inputs, K: Sink, T: Streaming>(
    rt: &R,
    feeder: &mut Feeder<'a, I>,
    task: &T,
    stream: &mut T::Stream,
    observation: &Observation,
    out: &mut K,
) -> Result<FeedEnd, Failed>
    requires running { has_end feeder.old ≡ None }
    requires file { HasOpenFile feeder.old → I.is_open feeder.old.inputs.now }
    requires stands { FeederHands (I.told feeder.old.inputs.now) feeder.old [] }
    requires limit { (plan_at feeder.old).max_bytes ≤ 2 ^ 48 }
    requires size { block_size feeder.old ≤ 2 ^ 24 }
    requires begun { HasBegun (T.streams task.now observation.now) stream.old (K.seen out.old) }
    ensures same_reference { feeder.new.inputs.ghost_name ≡ feeder.old.inputs.ghost_name }
    ensures flowed { IfOk result (FlowsTo I.told I.is_calm I.faults
        (T.streams task.now observation.now) feeder.old feeder.new stream.old stream.new
        (K.seen out.old) (K.seen out.new)) }
    ensures broke { OnErr result (BreaksFlow I.told I.is_calm I.faults
        (T.streams task.now observation.now) (T.leaves task.now observation.now) feeder.old
        feeder.new stream.old (K.seen out.old) (K.seen out.new)) }
{
    bytes_are_joined();
    for _turn in rt.forever() {
        let handed = feeder.next();
        let bytes = &feeder.block()[..handed.used];
        match take_in(task, stream, observation, bytes, out) {
            Ok(()) => {}
            Err(failed) => return Err(failed),
        }
        if let Some(end) = handed.end {
            return Ok(end);
        }
    }
    unreachable!()
}
