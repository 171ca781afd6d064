// The engines of all beams.
ghost use Rattle.std.specs.Prelude.{◌≡◌, ◌≤◌, ◌<◌, ◌↔◌, None, All, IsSome, IsTrue, IfOk, IfSome, ℕ, length, slice_index_or};
ghost use Rattle.search_model.specs.Search.{SettingsInRange};
ghost use Rattle.search_model.specs.Plan.{plan_refusal};
ghost use Rattle.psr_beams.specs.Engines.{IsEngineOf, HaveEngines};

use arrayvec::ArrayVec;
use beam_set::MOST_BEAMS;
use obs_plan::Observation;
use psr_base::Memory;
use search_engine::{Engine, PlanFault};
use search_model::Search;
use std::alloc::Global;
use std::thread::{Threads, for_each_mut};

// The engine of all delays of a search that fits; `None` if there was no memory.
fn open_engine(alloc: Global, observation: &Observation, search: &Search) -> Option<Engine>
    requires range { SettingsInRange search.now }
    requires fits { plan_refusal observation.now search.now ≡ None }
    ensures { IfSome result (IsEngineOf search.now observation.now) }
{
    match Engine::open(alloc, observation, &search.in_one_shard(), 0) {
        Ok(engine) => Some(engine),
        Err(PlanFault::Memory) => None,
        // The plan fits.
        Err(_) => unreachable!(),
    }
}

// `beams` empty slots.
fn no_engines(beams: usize) -> ArrayVec<Option<Engine>, MOST_BEAMS>
    requires { beams ≤ 7 }
    ensures { length result.items ≡ beams }
{
    let mut slots = ArrayVec::new();
    for _beam in 0..beams {
        slots.push(None);
    }
    slots
}

// Whether each slot has an engine.
fn are_opened(slots: &[Option<Engine>]) -> bool
    ensures { IsTrue result ↔ All IsSome slots.now }
{
    for place in 0..slots.len() {
        if slots[place].is_none() {
            return false;
        }
    }
    true
}

// Opens an engine in each slot, if there is memory, at the same time in `threads` threads at most.
fn fill_engines<R: Threads + Sync>(
    rt: &R,
    alloc: Global,
    observation: &Observation,
    search: &Search,
    threads: usize,
    slots: &mut [Option<Engine>],
)
    requires range { SettingsInRange search.now }
    requires fits { plan_refusal observation.now search.now ≡ None }
    requires threads { 1 ≤ threads }
    ensures count { length slots.new ≡ length slots.old }
    ensures engines { (beam : ℕ) → beam < length slots.old
        → IfSome (slice_index_or slots.new beam None) (IsEngineOf search.now observation.now) }
{
    for_each_mut(
        rt,
        slots,
        threads,
        &|_beam: usize, slot: &mut Option<Engine>|
            requires { SettingsInRange search.now
                × (plan_refusal observation.now search.now ≡ None) }
            ensures { IfSome slot.new (IsEngineOf search.entry.now observation.entry.now) }
        { *slot = open_engine(alloc, observation, search) },
    );
}

/// Takes the memory for a search that fits: an engine of all delays for each beam, all opened at the same time.
pub(crate) fn open_engines<R: Threads + Sync>(
    rt: &R,
    alloc: Global,
    observation: &Observation,
    search: &Search,
    beams: usize,
) -> Result<ArrayVec<Option<Engine>, MOST_BEAMS>, Memory>
    requires range { SettingsInRange search.now }
    requires fits { plan_refusal observation.now search.now ≡ None }
    requires beams { (1 ≤ beams) × (beams ≤ 7) }
    ensures count { IfOk result (λ slots. length slots.items ≡ beams) }
    ensures engines { IfOk result (λ slots.
        HaveEngines search.now observation.now slots.items) }
{
    let mut slots = no_engines(beams);
    fill_engines(rt, alloc, observation, search, beams, slots.as_mut_slice());
    if are_opened(slots.as_slice()) {
        Ok(slots)
    } else {
        Err(Memory)
    }
}
