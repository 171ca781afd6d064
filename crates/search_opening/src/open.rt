// Opens the session of a run.
ghost use Rattle.std.specs.Prelude.{◌≡◌, ◌≢◌, Err, IfOk, IfErr, OnOk};
ghost use Rattle.psr_base.specs.Told.{Told};
ghost use Rattle.psr_base.specs.Inputs.{HasReadFrom};
ghost use Rattle.search_words.specs.Settings.{run_seen};
ghost use Rattle.disk_feeder.specs.Feeder.{HasPlan, IsFresh, FeederRead};
ghost use Rattle.disk_feeder.specs.Filling.{HoldsAll};
ghost use Rattle.run_outcome.specs.Runs.{task_of, settings_for};
ghost use Rattle.search_opening.specs.Settings.{CanBeDriven};
ghost use Rattle.search_opening.specs.Early.{StopsEarly, LeavesEarly};
ghost use Rattle.search_opening.specs.Begun.{HasFirsts};
ghost use Rattle.search_opening.specs.Ready.{IsOpened};

use crate::accept::accept_all;
use crate::begin::begin_run;
use crate::judge::judge;
use crate::offsets::first_offsets;
use crate::spaces::Spaces;
use arrayvec::ArrayVec;
use disk_feeder::Feeder;
use obs_plan::Observation;
use psr_base::{Files, Inputs};
use run_outcome::{Purpose, Stop};
use search_model::MOST_TRANSFERS;
use search_words::RunSettings;
use std::alloc::Global;
use std::thread::Threads;

/// An opened run. All memory of its session and of its recorder is taken.
pub struct OpenedRun<'a, I, F> {
    /// The observation of each transfer, in order. Each slot is `Some`.
    pub observations: ArrayVec<Option<Observation>, MOST_TRANSFERS>,
    /// The space of the session and of the recorder.
    pub spaces: Spaces<'a, I, F>,
}

// Judges what the first headers say, and takes all memory.
fn open_begun<'a, I: Inputs, F: Files, R: Threads + Sync>(
    rt: &R,
    alloc: Global,
    purpose: Purpose,
    run: &RunSettings,
    feeder: &mut Feeder<'a, I>,
    observations: ArrayVec<Option<Observation>, MOST_TRANSFERS>,
    offsets: &'a mut ArrayVec<u64, MOST_TRANSFERS>,
) -> Result<OpenedRun<'a, I, F>, Stop>
    requires drivable { CanBeDriven (task_of purpose) (settings_for purpose run.now) }
    requires firsts { HasFirsts I.told I.is_open (run_seen run.now) feeder.old
        observations.items }
    ensures same_reference { feeder.new.inputs.ghost_name ≡ feeder.old.inputs.ghost_name }
    ensures inputs { feeder.new.inputs.now ≡ feeder.old.inputs.now }
    ensures opened { IfOk result (λ o. IsOpened I.told I.is_open (task_of purpose)
        (settings_for purpose run.now) feeder.new o.observations.items o.spaces) }
    ensures stopped { IfErr result (StopsEarly (task_of purpose) (settings_for purpose run.now)
        (I.told feeder.old.inputs.now)) }
    ensures readable { result ≢ Err Stop.ReadFault }
    ensures reads_on { (before told : Told) → FeederRead before told feeder.old
        → FeederRead before told feeder.new }
{
    match judge(alloc, purpose, run, feeder, observations.as_slice()) {
        Ok(()) => {}
        Err(stop) => return Err(stop),
    }
    *offsets = first_offsets(observations.as_slice());
    match Spaces::reserve(
        rt,
        alloc,
        purpose,
        run,
        feeder.header(0),
        observations.as_slice(),
        offsets.as_slice(),
    ) {
        Ok(spaces) => {
            accept_all(feeder, observations.as_slice());
            Ok(OpenedRun {
                observations,
                spaces,
            })
        }
        Err(_memory) => Err(Stop::Memory),
    }
}

/// Reads and judges the first headers, and takes all memory. `offsets` is space for the OBS_OFFSET of the first data
/// byte of each transfer.
pub fn open_run<'a, I: Inputs, F: Files, R: Threads + Sync>(
    rt: &R,
    alloc: Global,
    purpose: Purpose,
    run: &RunSettings,
    feeder: &mut Feeder<'a, I>,
    offsets: &'a mut ArrayVec<u64, MOST_TRANSFERS>,
) -> Result<OpenedRun<'a, I, F>, Stop>
    requires drivable { CanBeDriven (task_of purpose) (settings_for purpose run.now) }
    requires plan { HasPlan feeder.old (run_seen run.now).names
        run.now.starts.items run.now.size run.now.max_bytes }
    requires fresh { IsFresh feeder.old }
    ensures same_reference { feeder.new.inputs.ghost_name ≡ feeder.old.inputs.ghost_name }
    ensures inputs { HasReadFrom I.told I.is_calm I.faults (result ≡ Err Stop.ReadFault)
        feeder.old.inputs.now feeder.new.inputs.now }
    ensures serves { I.is_calm feeder.old.inputs.now
        → HoldsAll (I.told feeder.old.inputs.now) (run_seen run.now).names
        → result ≢ Err Stop.ReadFault }
    ensures opened { IfOk result (λ o. IsOpened I.told I.is_open (task_of purpose)
        (settings_for purpose run.now) feeder.new o.observations.items o.spaces) }
    ensures stopped { IfErr result (StopsEarly (task_of purpose) (settings_for purpose run.now)
        (I.told feeder.old.inputs.now)) }
    ensures leaves { IfErr result (LeavesEarly (run_seen run.now)
        (I.is_calm feeder.old.inputs.now) (I.told feeder.old.inputs.now)
        (I.told feeder.new.inputs.now)) }
    ensures begins { OnOk result (FeederRead (I.told feeder.old.inputs.now)
        (I.told feeder.new.inputs.now) feeder.new) }
{
    match begin_run(alloc, run, feeder) {
        Ok(observations) => { open_begun(rt, alloc, purpose, run, feeder, observations, offsets) }
        Err(stop) => Err(stop),
    }
}
