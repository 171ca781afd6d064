// The engines of all shards.
ghost use Rattle.std.specs.Prelude.{◌≡◌, ◌≤◌, ◌<◌, ◌↔◌, None, Some, All, IsSome, IsTrue, IfOk, IfSome, ℕ, length, slice_index_or};
ghost use Rattle.dada_model.specs.Observation.{Observation as Described};
ghost use Rattle.search_model.specs.Search.{SettingsInRange};
ghost use Rattle.search_model.specs.Plan.{plan_refusal};
ghost use Rattle.search_opening.specs.Engines.{CanBeSearched, IsEngineFor, AreEnginesFor, AreOpenedBanks};
ghost use Rattle.session_readers.specs.Banks.{engines_of};

use arrayvec::ArrayVec;
use obs_plan::Observation;
use psr_base::Memory;
use search_engine::{Engine, PlanFault};
use search_model::{MOST_SHARDS, MOST_TRANSFERS, Search};
use search_session::Bank;
use std::alloc::Global;
use std::thread::{Threads, for_each_mut};

// The engine of a shard of an observation.
fn open_engine(
    alloc: Global,
    observation: &Option<Observation>,
    search: &Search,
    shard: u32,
) -> Result<Engine, Memory>
    requires there { IsSome observation.now }
    requires fits { IfSome observation.now (λ o. plan_refusal o search.now ≡ None) }
    requires range { SettingsInRange search.now }
    requires shard { shard < search.now.shards }
    ensures { IfOk result (λ e. (o : Described) → observation.now ≡ Some o
        → IsEngineFor search.now shard o e) }
{
    let Some(observation) = observation else {
        unreachable!()
    };
    match Engine::open(alloc, observation, search, shard) {
        Ok(engine) => Ok(engine),
        Err(PlanFault::Memory) => Err(Memory),
        // The plan fits.
        Err(_) => unreachable!(),
    }
}

// Takes the memory for the search of a shard: an engine for each transfer, in order, which was fed nothing.
fn open_engines(
    alloc: Global,
    observations: &[Option<Observation>],
    search: &Search,
    shard: u32,
) -> Result<ArrayVec<Option<Engine>, MOST_TRANSFERS>, Memory>
    requires searched { CanBeSearched search.now observations.now }
    requires shard { shard < search.now.shards }
    ensures { IfOk result (λ engines.
        AreEnginesFor search.now shard observations.now engines.items) }
{
    let mut engines = ArrayVec::new();
    for k in 0..observations.len() {
        let engine = open_engine(alloc, &observations[k], search, shard)?;
        engines.push(Some(engine));
    }
    Ok(engines)
}

// The bank of a shard, with an engine for each transfer, in order; `None` if there was no memory.
fn open_bank(
    alloc: Global,
    observations: &[Option<Observation>],
    search: &Search,
    shard: u32,
) -> Option<Bank>
    requires searched { CanBeSearched search.now observations.now }
    requires shard { shard < search.now.shards }
    ensures { IfSome result (λ bank.
        AreEnginesFor search.now shard observations.now (engines_of bank)) }
{
    let Ok(engines) = open_engines(alloc, observations, search, shard) else {
        return None;
    };
    match Box::new(alloc, engines) {
        Ok(engines) => Some(Bank { engines }),
        Err(_memory) => None,
    }
}

// `shards` empty slots.
fn no_banks(shards: u32) -> ArrayVec<Option<Bank>, MOST_SHARDS>
    requires { shards ≤ 7 }
    ensures { length result.items ≡ shards }
{
    let mut banks = ArrayVec::new();
    for _shard in 0..shards {
        banks.push(None);
    }
    banks
}

// Whether each slot has a bank.
fn are_opened(banks: &[Option<Bank>]) -> bool
    ensures { IsTrue result ↔ All IsSome banks.now }
{
    for place in 0..banks.len() {
        if banks[place].is_none() {
            return false;
        }
    }
    true
}

// Opens the bank of each shard in its slot, if there is memory. At most `threads` threads do so at the same time.
fn fill_banks<R: Threads + Sync>(
    rt: &R,
    alloc: Global,
    observations: &[Option<Observation>],
    search: &Search,
    threads: u32,
    banks: &mut [Option<Bank>],
)
    requires searched { CanBeSearched search.now observations.now }
    requires threads { 1 ≤ threads }
    requires count { length banks.old ≡ search.now.shards }
    ensures count { length banks.new ≡ length banks.old }
    ensures banks { (shard : ℕ) → shard < length banks.old
        → IfSome (slice_index_or banks.new shard None) (λ bank.
        AreEnginesFor search.now shard observations.now (engines_of bank)) }
{
    for_each_mut(
        rt,
        banks,
        threads as usize,
        &|shard: usize, bank: &mut Option<Bank>|
            requires { CanBeSearched search.now observations.now × (shard < search.now.shards) }
            ensures { IfSome bank.new (λ l.
                AreEnginesFor search.entry.now shard observations.entry.now (engines_of l)) }
        { *bank = open_bank(alloc, observations, search, shard as u32) },
    );
}

/// Takes the memory for a search whose plans fit: a bank for each shard, with an engine for each transfer, in order. At
/// most `threads` threads open them at the same time.
pub fn open_banks<R: Threads + Sync>(
    rt: &R,
    alloc: Global,
    observations: &[Option<Observation>],
    search: &Search,
    threads: u32,
) -> Result<ArrayVec<Option<Bank>, MOST_SHARDS>, Memory>
    requires searched { CanBeSearched search.now observations.now }
    requires threads { 1 ≤ threads }
    ensures { IfOk result (λ banks. AreOpenedBanks search.now observations.now banks.items) }
{
    let mut banks = no_banks(search.shards);
    fill_banks(
        rt,
        alloc,
        observations,
        search,
        threads,
        banks.as_mut_slice(),
    );
    if are_opened(banks.as_slice()) {
        Ok(banks)
    } else {
        Err(Memory)
    }
}
