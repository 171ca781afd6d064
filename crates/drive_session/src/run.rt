// A run from its settings to the end of its session.
ghost use Rattle.std.specs.Prelude.{◌≡◌, true, IfOk, IfErr, OnErr};
ghost use Rattle.psr_base.specs.Inputs.{HasReadFrom};
ghost use Rattle.search_words.specs.Settings.{run_seen};
ghost use Rattle.disk_feeder.specs.Filling.{HoldsAll};
ghost use Rattle.run_outcome.specs.Runs.{task_of, settings_for};
ghost use Rattle.search_opening.specs.Settings.{CanBeDriven};
ghost use Rattle.drive_session.specs.Wholes.{FailsReading, IsStopped, LeavesInputs, IsDriven};

use crate::found::Found;
use crate::lent::{Lent, give_back};
use crate::session::go_on;
use arrayvec::ArrayVec;
use disk_feeder::{Feeder, FeederSpace};
use psr_base::{Files, Inputs};
use run_outcome::{Purpose, Stop};
use search_model::MOST_TRANSFERS;
use search_opening::open_run;
use search_session::Gate;
use search_words::RunSettings;
use std::alloc::Global;
use std::sync::Wait;
use std::thread::Threads;
use std::time::Clock;
// A law: it does nothing when it runs, and the proofs use what it ensures.
use search_opening::early_stops_are_said;

// Drives a run as `drive` does, with one lifetime for all borrows, so that their final values are known. `offsets` gets
// the OBS_OFFSET of the first data byte of each transfer.
fn within<'a, I: Inputs + Send, F: Files + Send, G: Gate + Sync, R: Threads + Wait + Clock + Sync>(
    rt: &R,
    alloc: Global,
    purpose: Purpose,
    run: &'a RunSettings,
    inputs: &'a mut I,
    files: &'a mut F,
    offsets: &'a mut ArrayVec<u64, MOST_TRANSFERS>,
    gate: &G,
) -> Lent<'a, I, F, Result<Found, Stop>>
    requires drivable { CanBeDriven (task_of purpose) (settings_for purpose run.now) }
    requires closed { run.now.recording ≡ true → ¬ F.is_open files.old }
    ensures same_inputs { result.inputs.ghost_name ≡ inputs.entry.ghost_name }
    ensures same_files { result.files.ghost_name ≡ files.entry.ghost_name }
    ensures inputs { HasReadFrom I.told I.is_calm I.faults (FailsReading result.done) inputs.old
        result.inputs.now }
    ensures serves { I.is_calm inputs.old
        → HoldsAll (I.told inputs.old) (run_seen run.now).names
        → ¬ FailsReading result.done }
    ensures stopped { IfErr result.done (IsStopped (task_of purpose) (settings_for purpose run.now)
        (I.told inputs.old)) }
    ensures stands { OnErr result.done (result.files.now ≡ files.old) }
    ensures leaves { LeavesInputs (task_of purpose) (settings_for purpose run.now)
        (I.is_calm inputs.old) (I.told inputs.old) (I.told result.inputs.now) result.done }
    ensures driven { IfOk result.done (IsDriven (task_of purpose) (settings_for purpose run.now)
        (I.told inputs.old) F.is_open F.seen files.old result.files.now) }
{
    early_stops_are_said::<I>();
    let space = match FeederSpace::reserve(
        alloc,
        run.names.as_slice(),
        run.starts.as_slice(),
        run.size,
        run.max_bytes,
    ) {
        Ok(space) => space,
        Err(_memory) => {
            return Lent {
                inputs,
                files,
                done: Err(Stop::Memory),
            };
        }
    };
    let mut feeder = Feeder::over(inputs, space);
    match open_run(rt, alloc, purpose, run, &mut feeder, offsets) {
        Ok(opened) => {
            let Lent {
                inputs,
                files,
                done,
            } = go_on(rt, run.turns, opened, feeder, files, gate);
            Lent {
                inputs,
                files,
                done: Ok(done),
            }
        }
        Err(stop) => Lent {
            inputs: feeder.close(),
            files,
            done: Err(stop),
        },
    }
}

/// Drives a run of psr_search or psr_record, from its settings to the end of its session. It may not end.
///
/// At `Ok` the session came to its end; `feed` of the result tells whether all data were read. At `Err` the run stopped
/// before its session, and no file was made: the first header of a transfer, the search or the recording is refused,
/// the inputs failed, or there was no memory.
pub fn drive<I: Inputs + Send, F: Files + Send, G: Gate + Sync, R: Threads + Wait + Clock + Sync>(
    rt: &R,
    alloc: Global,
    purpose: Purpose,
    run: &RunSettings,
    inputs: &mut I,
    files: &mut F,
    gate: &G,
) -> Result<Found, Stop>
    requires drivable { CanBeDriven (task_of purpose) (settings_for purpose run.now) }
    requires closed { run.now.recording ≡ true → ¬ F.is_open files.old }
    ensures inputs { HasReadFrom I.told I.is_calm I.faults (FailsReading result) inputs.old
        inputs.new }
    ensures serves { I.is_calm inputs.old
        → HoldsAll (I.told inputs.old) (run_seen run.now).names
        → ¬ FailsReading result }
    ensures stopped { IfErr result (IsStopped (task_of purpose) (settings_for purpose run.now)
        (I.told inputs.old)) }
    ensures stands { OnErr result (files.new ≡ files.old) }
    ensures leaves { LeavesInputs (task_of purpose) (settings_for purpose run.now)
        (I.is_calm inputs.old) (I.told inputs.old) (I.told inputs.new) result }
    ensures driven { IfOk result (IsDriven (task_of purpose) (settings_for purpose run.now)
        (I.told inputs.old) F.is_open F.seen files.old files.new) }
{
    let mut offsets = ArrayVec::new();
    give_back(within(rt, alloc, purpose, run, inputs, files, &mut offsets, gate))
}
