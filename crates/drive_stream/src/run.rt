//! A run from its settings to its end.
ghost use Rattle.std.specs.Prelude.{◌≡◌, ◌≢◌, Some, length};
ghost use Rattle.psr_base.specs.Inputs.{HasReadFrom};
ghost use Rattle.psr_base.specs.Told.{Told};
ghost use Rattle.search_words.specs.Settings.{RunInRange, run_seen};
ghost use Rattle.disk_feeder.specs.Feeder.{FeederRead};
ghost use Rattle.disk_feeder.specs.Filling.{HoldsAll};
ghost use Rattle.drive_stream.specs.Opening.{IsOfOne, IsOpened};
ghost use Rattle.drive_stream.specs.Outcome.{BreaksFed, EndsStream, LeavesInputs, ReadsRefused};

use crate::lent::{Lent, give_back};
use crate::open::{Opened, open};
use crate::stop::StreamStop;
use crate::streaming::Streaming;
use crate::writing::write_stream;
use disk_feeder::{Feeder, FeederSpace};
use psr_base::{Inputs, Sink};
use run_outcome::Stop;
use search_words::RunSettings;
use std::alloc::Global;
use std::sync::Wait;
// Laws: they do nothing when they run, and the proofs use what they ensure.
use disk_feeder::{faults_leave, feeders_begin};
use search_opening::cuts_stay_told;
use stream_model::{bytes_are_joined, walk_joins_data};

// Streams the data of a run of which all is opened.
fn stream_all<'a, R: Wait, I: Inputs, K: Sink, T: Streaming>(
    rt: &R,
    run: &RunSettings,
    task: &T,
    feeder: &mut Feeder<'a, I>,
    opened: Opened<T::Stream>,
    out: &mut K,
) -> Option<StreamStop<T::Refusal>>
    requires run { IsOfOne (run_seen run.now) }
    requires opened { IsOpened I.told I.is_open (T.block task.now) (T.takes task.now)
        (T.opens task.now) (run_seen run.now) feeder.old opened.observation opened.stream }
    ensures same_reference { feeder.new.inputs.ghost_name ≡ feeder.old.inputs.ghost_name }
    ensures inputs { HasReadFrom I.told I.is_calm I.faults
        (result ≡ Some (StreamStop.Run Stop.ReadFault)) feeder.old.inputs.now
        feeder.new.inputs.now }
    ensures serves { I.is_calm feeder.old.inputs.now
        → HoldsAll (I.told feeder.old.inputs.now) (run_seen run.now).names
        → result ≢ Some (StreamStop.Run Stop.ReadFault) }
    ensures memory { result ≢ Some (StreamStop.Run Stop.Memory) }
    ensures ends { (before : Told)
        → (I.told feeder.old.inputs.now).bytes_under ≡ before.bytes_under
        → EndsStream (T.block task.now) (T.takes task.now) (T.refuses task.now)
        (T.leaves task.now) (run_seen run.now) before (K.seen out.old) (K.seen out.new) result }
    ensures broken { result ≡ Some (StreamStop.Run Stop.ReadFault) → (before : Told)
        → (I.told feeder.old.inputs.now).bytes_under ≡ before.bytes_under
        → FeederRead before (I.told feeder.old.inputs.now) feeder.old
        → BreaksFed (T.block task.now) (T.takes task.now) (T.leaves task.now)
        (run_seen run.now) (I.is_calm feeder.old.inputs.now) before
        (I.told feeder.new.inputs.now) (K.seen out.old) (K.seen out.new) }
    ensures refused { (before : Told)
        → (I.told feeder.old.inputs.now).bytes_under ≡ before.bytes_under
        → ReadsRefused (T.leaves task.now) (run_seen run.now) before
        (I.told feeder.new.inputs.now) (K.seen out.old) (K.seen out.new) result }
{
    faults_leave::<I>();
    feeders_begin::<I>();
    cuts_stay_told();
    bytes_are_joined();
    walk_joins_data();
    let Opened {
        observation,
        mut stream,
    } = opened;
    write_stream(rt, feeder, task, &mut stream, &observation, out)
}

// The same with all that is borrowed in one lifetime.
fn within<'a, R: Wait, I: Inputs, K: Sink, T: Streaming>(
    rt: &R,
    alloc: Global,
    run: &'a RunSettings,
    task: &T,
    inputs: &'a mut I,
    out: &mut K,
) -> Lent<'a, I, Option<StreamStop<T::Refusal>>>
    requires run { IsOfOne (run_seen run.now) }
    requires task { T.holds task.now }
    ensures same_inputs { result.inputs.ghost_name ≡ inputs.entry.ghost_name }
    ensures inputs { HasReadFrom I.told I.is_calm I.faults
        (result.done ≡ Some (StreamStop.Run Stop.ReadFault)) inputs.old result.inputs.now }
    ensures serves { I.is_calm inputs.old
        → HoldsAll (I.told inputs.old) (run_seen run.now).names
        → result.done ≢ Some (StreamStop.Run Stop.ReadFault) }
    ensures ends { EndsStream (T.block task.now) (T.takes task.now) (T.refuses task.now)
        (T.leaves task.now) (run_seen run.now) (I.told inputs.old) (K.seen out.old)
        (K.seen out.new) result.done }
    ensures leaves { LeavesInputs (T.block task.now) (T.takes task.now) (T.leaves task.now)
        (run_seen run.now) (I.is_calm inputs.old) (I.told inputs.old)
        (I.told result.inputs.now) (K.seen out.old) (K.seen out.new) result.done }
    ensures refused { ReadsRefused (T.leaves task.now) (run_seen run.now) (I.told inputs.old)
        (I.told result.inputs.now) (K.seen out.old) (K.seen out.new) result.done }
{
    let space = match FeederSpace::reserve(
        alloc,
        run.names.as_slice(),
        run.starts.as_slice(),
        run.size,
        run.max_bytes,
    ) {
        Ok(space) => space,
        Err(_memory) => {
            return Lent {
                inputs,
                done: Some(StreamStop::Run(Stop::Memory)),
            };
        }
    };
    let mut feeder = Feeder::over(inputs, space);
    match open(alloc, run, task, &mut feeder) {
        Ok(opened) => {
            let done = stream_all(rt, run, task, &mut feeder, opened, out);
            Lent {
                inputs: feeder.close(),
                done,
            }
        }
        Err(stop) => Lent {
            inputs: feeder.close(),
            done: Some(stop),
        },
    }
}

/// Streams the data of the files of settings, of one transfer, through to the output as the task does it, and answers
/// why it stopped early, if it did. All memory is taken before the first data byte is read. It may not end.
pub fn drive_stream<R: Wait, I: Inputs, K: Sink, T: Streaming>(
    rt: &R,
    alloc: Global,
    run: &RunSettings,
    task: &T,
    inputs: &mut I,
    out: &mut K,
) -> Option<StreamStop<T::Refusal>>
    requires range { RunInRange (run_seen run.now) }
    requires one { length (run_seen run.now).starts ≡ 1 }
    requires task { T.holds task.now }
    ensures inputs { HasReadFrom I.told I.is_calm I.faults
        (result ≡ Some (StreamStop.Run Stop.ReadFault)) inputs.old inputs.new }
    ensures serves { I.is_calm inputs.old
        → HoldsAll (I.told inputs.old) (run_seen run.now).names
        → result ≢ Some (StreamStop.Run Stop.ReadFault) }
    ensures ends { EndsStream (T.block task.now) (T.takes task.now) (T.refuses task.now)
        (T.leaves task.now) (run_seen run.now) (I.told inputs.old) (K.seen out.old)
        (K.seen out.new) result }
    ensures leaves { LeavesInputs (T.block task.now) (T.takes task.now) (T.leaves task.now)
        (run_seen run.now) (I.is_calm inputs.old) (I.told inputs.old) (I.told inputs.new)
        (K.seen out.old) (K.seen out.new) result }
    ensures refused { ReadsRefused (T.leaves task.now) (run_seen run.now) (I.told inputs.old)
        (I.told inputs.new) (K.seen out.old) (K.seen out.new) result }
{
    give_back(within(rt, alloc, run, task, inputs, out))
}
