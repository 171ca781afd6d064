// The beams, whose headers are accepted and whose search fits.
ghost use Rattle.std.specs.Prelude.{◌≡◌, ◌<◌, ◌≤◌, ◌++◌, ◌∷◌, [], ℕ, List, length, IsSome, Some, None, All, IfOk, IfErr};
ghost use Rattle.psr_base.specs.Told.{Told};
ghost use Rattle.search_words.specs.Settings.{AllInRange, settings_seen};
ghost use Rattle.search_model.specs.Plan.{plan_refusal};
ghost use Rattle.psr_beams.specs.Judged.{headers_in, AreOfOne};
ghost use Rattle.psr_beams.specs.Engines.{IsEngineOf, HaveEngines};
ghost use Rattle.psr_beams.specs.Joined.{CanJoin, IsJoined, CanJoinSlot, IsSlotJoined, CanJoinAll, AreJoined};
ghost use Rattle.psr_beams.specs.Opened.{StopsOpening};

use crate::engines::open_engines;
use crate::judge::judge;
use arrayvec::ArrayVec;
use beam_set::{Beam, BeamSpace, MOST_BEAMS};
use disk_feeder::FeederSpace;
use obs_plan::Observation;
use psr_base::Memory;
use run_outcome::Stop;
use search_engine::{Engine, check_plan};
use search_opening::run_shape;
use search_words::Settings;
use std::alloc::Global;
use std::thread::Threads;

/// Judges the headers of all beams and then the search: the observation of all beams, whose search fits.
pub(crate) fn judge_all(
    alloc: Global,
    settings: &Settings,
    slots: &[Option<FeederSpace<'_>>],
) -> Result<Observation, Stop>
    requires range { AllInRange (settings_seen settings.now) }
    requires beams { (1 ≤ length slots.now) × (length slots.now ≤ 7) }
    requires headers { (k : ℕ) → k < length slots.now → IsSome (headers_in slots.now k) }
    ensures accepted { IfOk result (AreOfOne (headers_in slots.now) (length slots.now)) }
    ensures fits { IfOk result (λ o. plan_refusal o settings.now.search ≡ None) }
    ensures stopped { IfErr result (StopsOpening settings.now.search (headers_in slots.now)
        (length slots.now)) }
{
    let observation = match judge(alloc, slots) {
        Ok(observation) => observation,
        Err(stop) => return Err(stop),
    };
    match check_plan(&observation, &settings.search) {
        Ok(()) => Ok(observation),
        Err(fault) => Err(Stop::of_plan(fault)),
    }
}

// The last engine of a list.
fn take_engine(engines: &mut ArrayVec<Option<Engine>, MOST_BEAMS>) -> Engine
    requires some { 0 < length engines.old.items }
    requires there { All IsSome engines.old.items }
    ensures { engines.old.items ≡ engines.new.items ++ Some result ∷ [] }
{
    let Some(Some(engine)) = engines.pop() else {
        unreachable!()
    };
    engine
}

// The beam of an engine and of a feeder, which accepts the observation. It takes all memory of a beam except that of
// these.
fn open_beam<'a>(
    alloc: Global,
    settings: &Settings,
    observation: &Observation,
    engine: Engine,
    mut feeder: FeederSpace<'a>,
) -> Result<Beam<'a>, Memory>
    requires range { AllInRange (settings_seen settings.now) }
    requires engine { IsEngineOf settings.now.search observation.now engine }
    requires can { (told : Told) × (name : List ℕ)
        × CanJoin told (settings_seen settings.now) observation.now name feeder }
    ensures { (told : Told) (name : List ℕ)
        → CanJoin told (settings_seen settings.now) observation.now name feeder.entry
        → IfOk result (IsJoined told (settings_seen settings.now) observation.now name
        feeder.entry) }
{
    let shape = run_shape(
        settings.run.buffers,
        settings.run.size,
        1,
        settings.run.max_bytes,
        1,
    );
    let space = BeamSpace::reserve(alloc, engine, shape, feeder.header(0))?;
    feeder.accept(0, observation);
    Ok(space.beam(feeder))
}

// The beam of an engine and of the feeder of a slot.
fn open_slot<'a>(
    alloc: Global,
    settings: &Settings,
    observation: &Observation,
    engine: Engine,
    slot: Option<FeederSpace<'a>>,
) -> Result<Beam<'a>, Memory>
    requires range { AllInRange (settings_seen settings.now) }
    requires engine { IsEngineOf settings.now.search observation.now engine }
    requires there { IsSome slot }
    requires can { (told : Told) × (name : List ℕ)
        × CanJoinSlot told (settings_seen settings.now) observation.now name slot }
    ensures { (told : Told) (name : List ℕ)
        → CanJoinSlot told (settings_seen settings.now) observation.now name slot.entry
        → IfOk result (λ beam. IsSlotJoined told (settings_seen settings.now) observation.now name
        slot.entry (Some beam)) }
{
    match slot {
        Some(feeder) => open_beam(alloc, settings, observation, engine, feeder),
        None => unreachable!(),
    }
}

// The beams of these engines and feeders, which accept the observation.
fn open_beams<'a>(
    alloc: Global,
    settings: &Settings,
    observation: &Observation,
    mut engines: ArrayVec<Option<Engine>, MOST_BEAMS>,
    mut feeders: ArrayVec<Option<FeederSpace<'a>>, MOST_BEAMS>,
) -> Result<ArrayVec<Option<Beam<'a>>, MOST_BEAMS>, Memory>
    requires range { AllInRange (settings_seen settings.now) }
    requires many { length engines.items ≡ length feeders.items }
    requires engines { HaveEngines settings.now.search observation.now engines.items }
    requires can { (told : ℕ → Told) × (count : ℕ)
        × CanJoinAll told (settings_seen settings.now) observation.now count feeders.items }
    ensures { (told : ℕ → Told) (count : ℕ)
        → CanJoinAll told (settings_seen settings.now) observation.now count feeders.entry.items
        → IfOk result (λ beams. AreJoined told (settings_seen settings.now) observation.now count
        feeders.entry.items beams.items) }
{
    let mut beams = ArrayVec::new();
    for _place in 0..engines.len() {
        let engine = take_engine(&mut engines);
        let feeder = feeders.remove(0);
        let beam = open_slot(alloc, settings, observation, engine, feeder)?;
        beams.push(Some(beam));
    }
    Ok(beams)
}

/// The beams of these feeders, before their first turns: takes all memory of a search that fits except that of the
/// feeders, which accept the observation.
pub(crate) fn open_all<'a, R: Threads + Sync>(
    rt: &R,
    alloc: Global,
    settings: &Settings,
    observation: &Observation,
    feeders: ArrayVec<Option<FeederSpace<'a>>, MOST_BEAMS>,
) -> Result<ArrayVec<Option<Beam<'a>>, MOST_BEAMS>, Memory>
    requires range { AllInRange (settings_seen settings.now) }
    requires fits { plan_refusal observation.now settings.now.search ≡ None }
    requires beams { (1 ≤ length feeders.items) × (length feeders.items ≤ 7) }
    requires can { (told : ℕ → Told) × (count : ℕ)
        × CanJoinAll told (settings_seen settings.now) observation.now count feeders.items }
    ensures { (told : ℕ → Told) (count : ℕ)
        → CanJoinAll told (settings_seen settings.now) observation.now count feeders.entry.items
        → IfOk result (λ beams. AreJoined told (settings_seen settings.now) observation.now count
        feeders.entry.items beams.items) }
{
    let engines = open_engines(rt, alloc, observation, &settings.search, feeders.len())?;
    open_beams(alloc, settings, observation, engines, feeders)
}
