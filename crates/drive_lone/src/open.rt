// What comes before the session of a lone run.
ghost use Rattle.std.specs.Prelude.{◌≡◌, ◌≢◌, ◌*◌, ◌≤◌, ◌∷◌, [], None, Some, Err, IfOk, IfErr, OnOk, length};
ghost use Rattle.dada_model.specs.Bounds.{ObservationInRange};
ghost use Rattle.dada_model.specs.Observation.{Observation as Described};
ghost use Rattle.psr_base.specs.Inputs.{HasReadFrom};
ghost use Rattle.search_model.specs.Search.{SettingsInRange, in_one_shard as in_one_shard_of};
ghost use Rattle.search_model.specs.Plan.{plan_refusal};
ghost use Rattle.search_words.specs.Settings.{AllInRange, RunInRange, run_seen, settings_seen};
ghost use Rattle.stream_model.specs.Walk.{FileStream};
ghost use Rattle.search_engine.specs.Scope.{Scope as Sought, FitsObservation};
ghost use Rattle.search_engine.specs.Engine.{most_fed, IsOpenedEngine, StandsForPart, scope_of};
ghost use Rattle.psr_base.specs.Told.{Told};
ghost use Rattle.disk_feeder.specs.Feeder.{FeederRead};
ghost use Rattle.disk_feeder.specs.Filling.{HoldsAll};
ghost use Rattle.search_session.specs.Lone.{IsLoneSpace};
ghost use Rattle.search_opening.specs.First.{AreFirsts};
ghost use Rattle.search_opening.specs.Plans.{PlansFit};
ghost use Rattle.search_opening.specs.Begun.{HasFirsts};
ghost use Rattle.run_outcome.specs.Lone.{IsOfOne};
ghost use Rattle.run_outcome.specs.Runs.{CanSearchFirst};
ghost use Rattle.drive_lone.specs.Scopes.{IsBankOf};
ghost use Rattle.drive_lone.specs.Stops.{LeavesAlone, StopsEarly, StopsBank};
ghost use Rattle.drive_lone.specs.Openings.{IsFreshFor, OpensScope, shape_for};

use crate::scoping::{ScopeFault, Scoping};
use crate::stop::LoneStop;
use arrayvec::ArrayVec;
use dada_header::Header;
use disk_feeder::Feeder;
use obs_plan::Observation;
use psr_base::{Inputs, Memory};
use run_outcome::Stop;
use search_engine::{Engine, PlanFault, Scope};
use search_model::{MOST_TRANSFERS, Search};
use search_opening::{accept_all, begin_run, check_plans, run_shape};
use search_session::{Bank, LoneSpace};
use search_words::{RunSettings, Settings};
use std::alloc::Global;
// Laws: they do nothing when they run, and the proofs use what they ensure.
use search_opening::{early_stops_stand, firsts_stay_told};

/// An opened lone run: all memory of its session is taken.
pub(crate) struct OpenedAlone {
    pub(crate) observation: Observation,
    pub(crate) space: LoneSpace,
}

// The engine of all delays of a search that fits.
fn open_engine(
    alloc: Global,
    observation: &Observation,
    search: &Search,
    scope: Scope,
) -> Result<Engine, Memory>
    requires range { SettingsInRange search.now }
    requires fits { plan_refusal observation.now search.now ≡ None }
    requires scope { FitsObservation observation.now search.now scope }
    ensures opened { IfOk result (λ e. IsOpenedEngine e (in_one_shard_of search.now) 0) }
    ensures scope { IfOk result (λ e. scope_of e ≡ scope) }
    ensures stands { IfOk result (StandsForPart observation.now []) }
{
    match Engine::open_for(alloc, observation, &search.in_one_shard(), 0, scope) {
        Ok(engine) => Ok(engine),
        Err(PlanFault::Memory) => Err(Memory),
        // The plan fits.
        Err(_) => unreachable!(),
    }
}

// The bank that has only the engine of all delays.
fn open_bank(
    alloc: Global,
    observation: &Observation,
    search: &Search,
    scope: Scope,
) -> Result<Bank, Memory>
    requires range { SettingsInRange search.now }
    requires fits { plan_refusal observation.now search.now ≡ None }
    requires scope { FitsObservation observation.now search.now scope }
    ensures { IfOk result (IsBankOf search.now observation.now scope) }
{
    let engine = open_engine(alloc, observation, search, scope)?;
    let mut engines = ArrayVec::new();
    engines.push(Some(engine));
    match Box::new(alloc, engines) {
        Ok(engines) => Ok(Bank { engines }),
        Err(_memory) => Err(Memory),
    }
}

// The bank that searches what the program finds in the observation of a transfer, if it accepts that and the plan of the
// search fits.
fn bank_for<S: Scoping>(
    alloc: Global,
    scoping: &S,
    observations: &[Option<Observation>],
    search: &Search,
) -> Result<Bank, LoneStop<S::Refusal>>
    requires range { SettingsInRange search.now }
    requires one { (o : Described) × (observations.now ≡ Some o ∷ []) }
    ensures opened { IfOk result (λ bank. (o : Described) → observations.now ≡ Some o ∷ []
        → (scope : Sought) × S.scopes scoping.now o search.now scope
        × IsBankOf search.now o scope bank) }
    ensures plan { OnOk result (PlansFit search.now observations.now) }
    ensures fits { OnOk result ((w : FileStream) → AreFirsts w observations.now
        → CanSearchFirst search.now w (length w.starts)) }
    ensures range { (o : Described) → observations.now ≡ Some o ∷ [] → ObservationInRange o }
    ensures stopped { IfErr result (λ stop. (o : Described) → observations.now ≡ Some o ∷ []
        → StopsBank (S.accepts scoping.now) (S.refuses scoping.now) search.now o stop) }
{
    let Some(observation) = &observations[0] else {
        unreachable!()
    };
    observation.lies_in_range();
    let accepted = match scoping.judge(alloc, observation) {
        Ok(accepted) => accepted,
        Err(ScopeFault::Refused(refusal)) => return Err(LoneStop::Unscoped(refusal)),
        Err(ScopeFault::Memory) => return Err(LoneStop::Run(Stop::Memory)),
    };
    match check_plans(observations, search) {
        Ok(()) => {}
        Err(stop) => return Err(LoneStop::Run(stop)),
    }
    let scope = match scoping.scope(alloc, observation, search, accepted) {
        Ok(scope) => scope,
        Err(_memory) => return Err(LoneStop::Run(Stop::Memory)),
    };
    match open_bank(alloc, observation, search, scope) {
        Ok(bank) => Ok(bank),
        Err(_memory) => Err(LoneStop::Run(Stop::Memory)),
    }
}

// The space of the session of a bank, for this first header.
fn take_space(
    alloc: Global,
    run: &RunSettings,
    bank: Bank,
    header: &Header,
) -> Result<LoneSpace, Memory>
    requires { RunInRange (run_seen run.now) }
    ensures space { IfOk result (IsLoneSpace bank (shape_for (run_seen run.now)) header.now) }
    ensures total { OnOk result ((shape_for (run_seen run.now)).max_blocks * run.now.size
        ≤ most_fed) }
{
    let shape = run_shape(run.buffers, run.size, 1, run.max_bytes, 1);
    LoneSpace::reserve(alloc, bank, shape, header)
}

// The observation of a transfer.
fn only_one(mut observations: ArrayVec<Option<Observation>, MOST_TRANSFERS>) -> Observation
    requires { (o : Described) × (observations.items ≡ Some o ∷ []) }
    ensures { (o : Described) → observations.items ≡ Some o ∷ [] → result ≡ o }
{
    let Some(Some(observation)) = observations.pop_at(0) else {
        unreachable!()
    };
    observation
}

// Judges the observation and the plan of its search, finds what is searched, and takes all memory.
fn open_begun<'a, I: Inputs, S: Scoping>(
    alloc: Global,
    settings: &Settings,
    scoping: &S,
    feeder: &mut Feeder<'a, I>,
    observations: ArrayVec<Option<Observation>, MOST_TRANSFERS>,
) -> Result<OpenedAlone, LoneStop<S::Refusal>>
    requires range { AllInRange (settings_seen settings.now) }
    requires one { IsOfOne (settings_seen settings.now) }
    requires begun { HasFirsts I.told I.is_open (run_seen settings.now.run) feeder.old
        observations.items }
    ensures same_reference { feeder.new.inputs.ghost_name ≡ feeder.old.inputs.ghost_name }
    ensures inputs { feeder.new.inputs.now ≡ feeder.old.inputs.now }
    ensures opened { IfOk result (λ r. OpensScope (S.scopes scoping.now) I.told I.is_open
        (settings_seen settings.now) feeder.new r.observation r.space) }
    ensures stopped { IfErr result (StopsEarly (S.accepts scoping.now) (S.refuses scoping.now)
        (settings_seen settings.now) (I.told feeder.old.inputs.now)) }
    ensures readable { result ≢ Err (LoneStop.Run Stop.ReadFault) }
    ensures reads_on { (before told : Told) → FeederRead before told feeder.old
        → FeederRead before told feeder.new }
{
    let bank = match bank_for(alloc, scoping, observations.as_slice(), &settings.search) {
        Ok(bank) => bank,
        Err(stop) => return Err(stop),
    };
    match take_space(alloc, &settings.run, bank, feeder.header(0)) {
        Ok(space) => {
            accept_all(feeder, observations.as_slice());
            Ok(OpenedAlone {
                observation: only_one(observations),
                space,
            })
        }
        Err(_memory) => Err(LoneStop::Run(Stop::Memory)),
    }
}

/// Reads the first header, judges its observation and then the plan of the search, finds what is searched, and takes all
/// memory.
pub(crate) fn open_alone<'a, I: Inputs, S: Scoping>(
    alloc: Global,
    settings: &Settings,
    scoping: &S,
    feeder: &mut Feeder<'a, I>,
) -> Result<OpenedAlone, LoneStop<S::Refusal>>
    requires range { AllInRange (settings_seen settings.now) }
    requires one { IsOfOne (settings_seen settings.now) }
    requires fresh { IsFreshFor (settings_seen settings.now) feeder.old }
    ensures same_reference { feeder.new.inputs.ghost_name ≡ feeder.old.inputs.ghost_name }
    ensures inputs { HasReadFrom I.told I.is_calm I.faults
        (result ≡ Err (LoneStop.Run Stop.ReadFault)) feeder.old.inputs.now
        feeder.new.inputs.now }
    ensures serves { I.is_calm feeder.old.inputs.now
        → HoldsAll (I.told feeder.old.inputs.now) (settings_seen settings.now).names
        → result ≢ Err (LoneStop.Run Stop.ReadFault) }
    ensures opened { IfOk result (λ r. OpensScope (S.scopes scoping.now) I.told I.is_open
        (settings_seen settings.now) feeder.new r.observation r.space) }
    ensures stopped { IfErr result (StopsEarly (S.accepts scoping.now) (S.refuses scoping.now)
        (settings_seen settings.now) (I.told feeder.old.inputs.now)) }
    ensures leaves { IfErr result (LeavesAlone (run_seen settings.now.run)
        (I.is_calm feeder.old.inputs.now) (I.told feeder.old.inputs.now)
        (I.told feeder.new.inputs.now)) }
    ensures begins { OnOk result (FeederRead (I.told feeder.old.inputs.now)
        (I.told feeder.new.inputs.now) feeder.new) }
{
    early_stops_stand();
    firsts_stay_told();
    match begin_run(alloc, &settings.run, feeder) {
        Ok(observations) => open_begun(alloc, settings, scoping, feeder, observations),
        Err(stop) => Err(LoneStop::Run(stop)),
    }
}
