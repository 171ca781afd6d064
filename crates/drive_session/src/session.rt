// The session of a run.
ghost use Rattle.std.specs.Prelude.{◌≡◌, ℕ, List, Some, IsSome};
ghost use Rattle.std.specs.Borrow.{MutBor};
ghost use Rattle.psr_base.specs.Inputs.{HasReadFrom};
ghost use Rattle.disk_feeder.specs.declared.answers.FeedEnd.TheVariants.{ReadFault};
ghost use Rattle.run_outcome.specs.Runs.{Task, SettingsFor};
ghost use Rattle.search_opening.specs.Ended.{HasReadSince, HasFedFiles};
ghost use Rattle.search_opening.specs.Ready.{IsOpened};
ghost use Rattle.drive_session.specs.Sessions.{RecordsReady, SearchesReady};
ghost use Rattle.drive_session.specs.Ends.{IsFoundOf};
ghost use Rattle.drive_session.specs.Wholes.{IsDriven};

use crate::found::Found;
use crate::lent::Lent;
use arrayvec::ArrayVec;
use dada_recorder::Recorder;
use disk_feeder::Feeder;
use obs_plan::Observation;
use psr_base::{Files, Inputs};
use search_model::MOST_TRANSFERS;
use search_opening::{OpenedRun, Spaces, StageSpace};
use search_session::{Gate, SessionEnd, run_session};
use std::sync::Wait;
use std::thread::Threads;
use std::time::Clock;
// Laws: they do nothing when they run, and the proofs use what they ensure.
use run_outcome::runs_record_blocks;
use search_opening::{firsts_stay_told, recordings_are_said, sessions_feed_files};
use transfer_text::totals_are_counted;

// What a session with a recorder left.
fn found_of<'a, I, F>(
    observations: ArrayVec<Option<Observation>, MOST_TRANSFERS>,
    end: SessionEnd<'a, I, F>,
) -> Lent<'a, I, F, Found>
    requires { (files : MutBor F) × (end.files ≡ Some files) }
    ensures files { (files : MutBor F) → end.entry.files ≡ Some files
        → (result.files.now ≡ files.now) × (result.files.ghost_name ≡ files.ghost_name) }
    ensures inputs { result.inputs.now ≡ end.entry.inputs.now }
    ensures same_inputs { result.inputs.ghost_name ≡ end.entry.inputs.ghost_name }
    ensures found { IsFoundOf observations end.entry result.done }
{
    let SessionEnd {
        feed,
        books,
        spectra,
        recorded,
        blocks,
        inputs,
        files,
    } = end;
    let Some(files) = files else { unreachable!() };
    Lent {
        inputs,
        files,
        done: Found {
            observations,
            feed,
            books,
            spectra,
            recorded,
            blocks,
        },
    }
}

// What a session without a recorder left. `files` were not lent to it.
fn found_without<'a, I, F>(
    observations: ArrayVec<Option<Observation>, MOST_TRANSFERS>,
    end: SessionEnd<'a, I, F>,
    files: &'a mut F,
) -> Lent<'a, I, F, Found>
    ensures files { result.files.now ≡ files.old }
    ensures same_files { result.files.ghost_name ≡ files.entry.ghost_name }
    ensures inputs { result.inputs.now ≡ end.entry.inputs.now }
    ensures same_inputs { result.inputs.ghost_name ≡ end.entry.inputs.ghost_name }
    ensures found { IsFoundOf observations end.entry result.done }
{
    let SessionEnd {
        feed,
        books,
        spectra,
        recorded,
        blocks,
        inputs,
        files: _,
    } = end;
    Lent {
        inputs,
        files,
        done: Found {
            observations,
            feed,
            books,
            spectra,
            recorded,
            blocks,
        },
    }
}

// Drives a session with a recorder.
fn with_recorder<
    'a,
    I: Inputs + Send,
    F: Files + Send,
    G: Gate + Sync,
    R: Threads + Wait + Clock + Sync,
>(
    rt: &R,
    turns: u32,
    observations: ArrayVec<Option<Observation>, MOST_TRANSFERS>,
    stage: StageSpace<'a, I, F>,
    feeder: Feeder<'a, I>,
    recorder: Recorder<'a, F>,
    gate: &G,
) -> Lent<'a, I, F, Found>
    requires ready { (task : Task) × (s : SettingsFor task) × (offsets : List ℕ)
        × RecordsReady I.told I.is_open F.is_open task s offsets feeder observations.items stage
        recorder }
    ensures same_inputs { result.inputs.ghost_name ≡ feeder.entry.inputs.ghost_name }
    ensures same_files { result.files.ghost_name ≡ recorder.entry.files.ghost_name }
    ensures inputs { HasReadFrom I.told I.is_calm I.faults (result.done.feed ≡ ReadFault)
        feeder.entry.inputs.now result.inputs.now }
    ensures fed { HasFedFiles I.told I.is_calm feeder.entry result.inputs.now result.done.blocks
        result.done.feed }
    ensures went { (task : Task) (s : SettingsFor task) (offsets : List ℕ) (before : I)
        → RecordsReady I.told I.is_open F.is_open task s offsets feeder.entry observations.items
        stage.entry recorder.entry → HasReadSince I.told I.is_calm before feeder.entry
        → IsDriven task s (I.told before) F.is_open F.seen recorder.entry.files.now
        result.files.now result.done }
{
    runs_record_blocks();
    sessions_feed_files::<I, F>();
    firsts_stay_told();
    recordings_are_said();
    totals_are_counted();
    let stage = stage.stage(feeder, Some(recorder));
    let end = run_session(rt, stage, turns, gate);
    found_of(observations, end)
}

// Drives a session without a recorder. `files` are not lent to it.
fn without_recorder<
    'a,
    I: Inputs + Send,
    F: Files + Send,
    G: Gate + Sync,
    R: Threads + Wait + Clock + Sync,
>(
    rt: &R,
    turns: u32,
    observations: ArrayVec<Option<Observation>, MOST_TRANSFERS>,
    stage: StageSpace<'a, I, F>,
    feeder: Feeder<'a, I>,
    files: &'a mut F,
    gate: &G,
) -> Lent<'a, I, F, Found>
    requires ready { (task : Task) × (s : SettingsFor task) × (offsets : List ℕ)
        × SearchesReady I.told I.is_open task s offsets feeder observations.items stage }
    ensures same_inputs { result.inputs.ghost_name ≡ feeder.entry.inputs.ghost_name }
    ensures same_files { result.files.ghost_name ≡ files.entry.ghost_name }
    ensures inputs { HasReadFrom I.told I.is_calm I.faults (result.done.feed ≡ ReadFault)
        feeder.entry.inputs.now result.inputs.now }
    ensures fed { HasFedFiles I.told I.is_calm feeder.entry result.inputs.now result.done.blocks
        result.done.feed }
    ensures went { (task : Task) (s : SettingsFor task) (offsets : List ℕ) (before : I)
        → SearchesReady I.told I.is_open task s offsets feeder.entry observations.items stage.entry
        → HasReadSince I.told I.is_calm before feeder.entry
        → IsDriven task s (I.told before) F.is_open F.seen files.old result.files.now result.done }
{
    sessions_feed_files::<I, F>();
    firsts_stay_told();
    recordings_are_said();
    totals_are_counted();
    let stage = stage.stage(feeder, None);
    let end = run_session(rt, stage, turns, gate);
    found_without(observations, end, files)
}

/// Drives the session of an opened run.
pub(crate) fn go_on<
    'a,
    I: Inputs + Send,
    F: Files + Send,
    G: Gate + Sync,
    R: Threads + Wait + Clock + Sync,
>(
    rt: &R,
    turns: u32,
    opened: OpenedRun<'a, I, F>,
    feeder: Feeder<'a, I>,
    files: &'a mut F,
    gate: &G,
) -> Lent<'a, I, F, Found>
    requires opened { (task : Task) × (s : SettingsFor task)
        × IsOpened I.told I.is_open task s feeder opened.observations.items opened.spaces }
    requires closed { IsSome opened.spaces.recorder → ¬ F.is_open files.old }
    ensures same_inputs { result.inputs.ghost_name ≡ feeder.entry.inputs.ghost_name }
    ensures same_files { result.files.ghost_name ≡ files.entry.ghost_name }
    ensures inputs { HasReadFrom I.told I.is_calm I.faults (result.done.feed ≡ ReadFault)
        feeder.entry.inputs.now result.inputs.now }
    ensures fed { HasFedFiles I.told I.is_calm feeder.entry result.inputs.now result.done.blocks
        result.done.feed }
    ensures went { (task : Task) (s : SettingsFor task) (before : I)
        → IsOpened I.told I.is_open task s feeder.entry opened.entry.observations.items
        opened.entry.spaces → HasReadSince I.told I.is_calm before feeder.entry
        → IsDriven task s (I.told before) F.is_open F.seen files.old result.files.now result.done }
{
    let OpenedRun {
        observations,
        spaces,
    } = opened;
    let Spaces { stage, recorder } = spaces;
    match recorder {
        Some(space) => {
            let recorder = Recorder::over(files, space);
            with_recorder(rt, turns, observations, stage, feeder, recorder, gate)
        }
        None => without_recorder(rt, turns, observations, stage, feeder, files, gate),
    }
}
