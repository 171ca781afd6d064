// The space of a run.
ghost use Rattle.std.specs.Prelude.{◌≡◌, ◌+◌, ◌^◌, ◌≤◌, true, All, IsSome, IfOk, List, length, Option};
ghost use Rattle.search_model.specs.Search.{SettingsInRange};
ghost use Rattle.dada_model.specs.Observation.{Observation as Observed};
ghost use Rattle.search_words.specs.Settings.{RunSeen, RunInRange, with_search, run_seen};
ghost use Rattle.dada_recorder.specs.Blocks.{PlanInRange};
ghost use Rattle.search_opening.specs.Plans.{PlansFit};
ghost use Rattle.search_opening.specs.Space.{hands_in};
ghost use Rattle.run_outcome.specs.Runs.{Task, SearchFor, IfSearch, task_of, search_for, settings_for};
ghost use Rattle.search_opening.specs.Spaces.{AreBanksOf, IsStageSpace, HasRecorderSpace, recorders, plan_for};

use crate::engines::open_banks;
use crate::rings::run_shape;
use crate::space::StageSpace;
use arrayvec::ArrayVec;
use dada_header::Header;
use dada_recorder::RecorderSpace;
use obs_plan::Observation;
use psr_base::{Files, Inputs, Memory};
use run_outcome::Purpose;
use search_model::MOST_SHARDS;
use search_session::Bank;
use search_words::RunSettings;
use std::alloc::Global;
use std::thread::Threads;

// A bank for each shard of a search, or none if files are only recorded. At most `hands` threads open them at the same
// time.
fn take_banks<R: Threads + Sync>(
    rt: &R,
    alloc: Global,
    purpose: Purpose,
    hands: u32,
    observations: &[Option<Observation>],
) -> Result<ArrayVec<Option<Bank>, MOST_SHARDS>, Memory>
    requires few { length observations.now ≤ 8 }
    requires there { All IsSome observations.now }
    requires fit { IfSearch (task_of purpose) (search_for purpose) (λ search.
        PlansFit search observations.now) }
    requires range { IfSearch (task_of purpose) (search_for purpose) SettingsInRange }
    requires hands { 1 ≤ hands }
    ensures { (run : RunSeen) → IfOk result (λ banks. AreBanksOf (task_of purpose)
        (with_search (search_for purpose) run) observations.now banks.items) }
{
    match purpose {
        Purpose::Search(search) => open_banks(rt, alloc, observations, &search, hands),
        Purpose::Record => Ok(ArrayVec::new()),
    }
}

// The space of a recorder, if the run records.
fn take_recorder<'a>(
    alloc: Global,
    run: &RunSettings,
    offsets: &'a [u64],
) -> Result<Option<RecorderSpace<'a>>, Memory>
    requires plan { PlanInRange
        (plan_for (run_seen run.now) offsets.now) }
    requires block { (1 ≤ run.now.size) × (run.now.size ≤ 2 ^ 24) }
    ensures { IfOk result (HasRecorderSpace run.now.recording
        (plan_for (run_seen run.now) offsets.now)
        run.now.size) }
{
    if !run.recording {
        return Ok(None);
    }
    match RecorderSpace::reserve(alloc, offsets, run.size, run.file_size, run.max_bytes) {
        Ok(space) => Ok(Some(space)),
        Err(memory) => Err(memory),
    }
}

// The number of recorders of a run: 0 or 1.
fn recorder_count(run: &RunSettings) -> u32
    ensures { result ≡ recorders (run_seen run.now) }
{
    if run.recording { 1 } else { 0 }
}

// The rings, the banks and the hands of a run.
fn take_stage<'a, I: Inputs, F: Files>(
    alloc: Global,
    run: &RunSettings,
    banks: ArrayVec<Option<Bank>, MOST_SHARDS>,
    header: &Header,
) -> Result<StageSpace<'a, I, F>, Memory>
    requires range { RunInRange (run_seen run.now) }
    requires few { length banks.items ≤ 7 }
    requires some { 1 ≤ length banks.items + recorders (run_seen run.now) }
    ensures space { (task : Task) (search : SearchFor task) (observations : List (Option Observed))
        → AreBanksOf task (with_search search (run_seen run.now)) observations banks.items
        → IfOk result (IsStageSpace task (with_search search (run_seen run.now)) observations
        header.now) }
    ensures hands { IfOk result (λ stage. hands_in stage ≡ run.now.hands) }
{
    let shape = run_shape(
        run.buffers,
        run.size,
        banks.len() as u32 + recorder_count(run),
        run.max_bytes,
        run.starts.len() as u32,
    );
    StageSpace::reserve(alloc, banks, shape, header, run.hands)
}

/// All memory of a run.
pub struct Spaces<'a, I, F> {
    /// The space of its session.
    pub stage: StageSpace<'a, I, F>,
    /// The space of its recorder, if it has one.
    pub recorder: Option<RecorderSpace<'a>>,
}

impl<'a, I: Inputs, F: Files> Spaces<'a, I, F> {
    ghost use Rattle.search_opening.specs.Spaces.{AreSpaces};

    /// Takes all memory of a run with this first header. The data of transfer k begin at OBS_OFFSET `offsets[k]`.
    pub(crate) fn reserve<R: Threads + Sync>(
        rt: &R,
        alloc: Global,
        purpose: Purpose,
        run: &RunSettings,
        header: &Header,
        observations: &[Option<Observation>],
        offsets: &'a [u64],
    ) -> Result<Spaces<'a, I, F>, Memory>
        requires range { RunInRange (run_seen run.now) }
        requires search { IfSearch (task_of purpose) (search_for purpose) SettingsInRange }
        requires few { length observations.now ≤ 8 }
        requires there { All IsSome observations.now }
        requires fit { IfSearch (task_of purpose) (search_for purpose) (λ search.
            PlansFit search observations.now) }
        requires records { purpose ≡ Purpose.Record → run.now.recording ≡ true }
        requires plan { PlanInRange
            (plan_for (run_seen run.now) offsets.now) }
        ensures { IfOk result (AreSpaces (task_of purpose) (settings_for purpose run.now)
            observations.now header.now offsets.now) }
    {
        let banks = take_banks(rt, alloc, purpose, run.hands, observations)?;
        let stage = take_stage(alloc, run, banks, header)?;
        let recorder = take_recorder(alloc, run, offsets)?;
        Ok(Spaces { stage, recorder })
    }
}
