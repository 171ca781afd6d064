// Judges what the first headers of all transfers say.
ghost use Rattle.std.specs.Prelude.{◌≡◌, ◌≤◌, ◌^◌, ◌⊎◌, true, IfErr, OnOk, OnErr, length};
ghost use Rattle.search_model.specs.Search.{SettingsInRange};
ghost use Rattle.search_words.specs.Settings.{RunInRange, run_seen};
ghost use Rattle.stream_model.specs.Walk.{FileStream};
ghost use Rattle.disk_feeder.specs.Feeder.{headers_of};
ghost use Rattle.search_opening.specs.First.{AreFirsts, AreHeadersOf, AreObserved};
ghost use Rattle.search_opening.specs.Plans.{PlansFit, IsOfPlan, StopsSearch};
ghost use Rattle.search_opening.specs.Recordings.{RecordingsFit, AreReadBack, IsOfRecording, StopsRecording};
ghost use Rattle.run_outcome.specs.declared.stop.Stop.TheVariants.{Memory};
ghost use Rattle.run_outcome.specs.Runs.{is_search, IfSearch, CanSearchFirst, CanRecordFirst, task_of, search_for, settings_for};
ghost use Rattle.search_opening.specs.Judged.{AreFit, IsRefused};

use crate::plans::check_plans;
use crate::recordings::fit_all;
use dada_header::Header;
use disk_feeder::Feeder;
use obs_plan::Observation;
use psr_base::Inputs;
use run_outcome::{Purpose, Stop};
use search_words::RunSettings;
use std::alloc::Global;

// Checks that all transfers can be searched, if the run searches.
fn judge_search(purpose: Purpose, observations: &[Option<Observation>]) -> Result<(), Stop>
    requires range { IfSearch (task_of purpose) (search_for purpose) SettingsInRange }
    ensures fit { OnOk result (IfSearch (task_of purpose) (search_for purpose) (λ search.
        PlansFit search observations.now)) }
    ensures searched { OnOk result (IfSearch (task_of purpose) (search_for purpose) (λ search.
        (w : FileStream) → AreFirsts w observations.now
        → CanSearchFirst search w (length w.starts))) }
    ensures kind { IfErr result IsOfPlan }
    ensures searches { OnErr result (is_search (task_of purpose) ≡ true) }
    ensures refused { IfErr result (λ stop. IfSearch (task_of purpose) (search_for purpose)
        (λ search. StopsSearch search observations.now stop)) }
{
    match purpose {
        Purpose::Search(search) => check_plans(observations, &search),
        Purpose::Record => Ok(()),
    }
}

// Checks that all transfers can be recorded, if the run records.
fn judge_recording<'a, I: Inputs>(
    alloc: Global,
    run: &RunSettings,
    feeder: &Feeder<'a, I>,
    observations: &[Option<Observation>],
) -> Result<(), Stop>
    requires observed { AreObserved (headers_of feeder.now) observations.now }
    requires file_size { (1 ≤ run.now.file_size) × (run.now.file_size ≤ 2 ^ 40) }
    requires limit { run.now.max_bytes ≤ 2 ^ 48 }
    ensures fit { OnOk result (run.now.recording ≡ true
        → RecordingsFit run.now.file_size run.now.max_bytes (headers_of feeder.now)
        observations.now (length observations.now)) }
    ensures read_back { OnOk result (run.now.recording ≡ true
        → AreReadBack (headers_of feeder.now)) }
    ensures recorded { OnOk result (run.now.recording ≡ true → (w : FileStream)
        → AreFirsts w observations.now → AreHeadersOf w (headers_of feeder.now)
        → w.max_bytes ≡ run.now.max_bytes
        → CanRecordFirst run.now.file_size w (length w.starts)) }
    ensures kind { IfErr result (λ stop. (stop ≡ Memory) ⊎ IsOfRecording stop) }
    ensures records { OnErr result (run.now.recording ≡ true) }
    ensures refused { IfErr result (λ stop. (stop ≡ Memory)
        ⊎ StopsRecording run.now.file_size run.now.max_bytes (headers_of feeder.now)
        observations.now stop) }
{
    if !run.recording {
        return Ok(());
    }
    match Header::blank(alloc) {
        Ok(mut space) => fit_all(
            feeder,
            observations,
            &mut space,
            run.file_size,
            run.max_bytes,
        ),
        Err(_memory) => Err(Stop::Memory),
    }
}

/// Checks that all transfers can be searched and recorded, as far as the run does so. The error is the first refusal.
pub(crate) fn judge<'a, I: Inputs>(
    alloc: Global,
    purpose: Purpose,
    run: &RunSettings,
    feeder: &Feeder<'a, I>,
    observations: &[Option<Observation>],
) -> Result<(), Stop>
    requires range { RunInRange (run_seen run.now) }
    requires search { IfSearch (task_of purpose) (search_for purpose) SettingsInRange }
    requires observed { AreObserved (headers_of feeder.now) observations.now }
    ensures fit { OnOk result (AreFit (task_of purpose) (settings_for purpose run.now)
        (headers_of feeder.now) observations.now) }
    ensures refused { IfErr result (IsRefused (task_of purpose) (settings_for purpose run.now)
        (headers_of feeder.now) observations.now) }
{
    match judge_search(purpose, observations) {
        Ok(()) => judge_recording(alloc, run, feeder, observations),
        Err(stop) => Err(stop),
    }
}
