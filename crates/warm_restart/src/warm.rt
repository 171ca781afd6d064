// The search of a part of an observation.
ghost use Rattle.std.specs.Prelude.{◌≡◌, ℕ, ◌+◌, ◌^◌, ◌++◌, ◌≤◌, ◌<◌, [], List, true, false, None, OnOk, IfOk, IfErr, length};
ghost use Rattle.dada_model.specs.Observation.{Observation as Described};
ghost use Rattle.psr_base.specs.Written.{Wrote};
ghost use Rattle.search_model.specs.Search.{SettingsInRange, in_one_shard as in_one_shard_of};
ghost use Rattle.search_model.specs.Plan.{plan_refusal};
ghost use Rattle.search_model.specs.Observed.{filterbank_of};
ghost use Rattle.search_engine.specs.Engine.{IsOpenedEngine, StandsForPart, most_fed, scope_of, spectra_fed};
ghost use Rattle.search_engine.specs.Plan.{Explains};
ghost use Rattle.search_engine.specs.Scope.{FitsObservation};
ghost use Rattle.warm_restart.specs.Warm.{HasFound, IsOpenedWarm, IsPart, IsWarmOf, KeepsPart, SamePart, SearchedPart, WasFed, book_in, fed_of, has_ended as has_ended_of, part_scope as part_scope_of, text_of_part};

use crate::checkpoint::Checkpoint;
use crate::part::{first_needed, write_part};
use candidate_book::{Book, SinkStop};
use obs_plan::Observation;
use psr_base::{Memory, Sink};
use search_engine::{Engine, PlanFault, Scope, check_plan};
use search_model::Search;
use std::alloc::Global;
// Laws: they do nothing when they run, and the proofs use what they ensure.
use search_engine::scopes_are_found;
use search_model::{candidates_are_listed, one_shard_is_all};

/// The search of a part of an observation, from a checkpoint on. Data bytes are fed in pieces of any length, from the
/// first spectrum of the observation on, and the pulses that end in the part are kept in a book. `open` takes all
/// memory.
#[derive(Drop)]
pub struct Warm {
    search: Search,
    checkpoint: Checkpoint,
    until: u64,
    engine: Engine,
}

impl Warm {
    /// Takes the memory for the search of the part from a checkpoint up to, but without, spectrum `until`. The error
    /// says why the search is refused, exactly as one of the whole observation is. Nothing is folded. One engine
    /// searches all delays, whatever number of shards the settings have.
    pub fn open(
        alloc: Global,
        observation: &Observation,
        search: &Search,
        checkpoint: Checkpoint,
        until: u64,
    ) -> Result<Warm, PlanFault>
        requires range { SettingsInRange search.now }
        requires unfolded { search.now.fold_max < search.now.fold_min }
        requires part { IsPart checkpoint until }
        ensures fits { OnOk result (plan_refusal observation.now search.now ≡ None) }
        ensures opened { IfOk result (IsOpenedWarm search.now checkpoint until) }
        ensures fed { IfOk result (WasFed observation.now []) }
        ensures refused { IfErr result (Explains (plan_refusal observation.now search.now)) }
    {
        check_plan(observation, search)?;
        match open_engine(alloc, observation, search, checkpoint.place, until) {
            Ok(engine) => Ok(Warm {
                search: *search,
                checkpoint,
                until,
                engine,
            }),
            Err(_memory) => Err(PlanFault::Memory),
        }
    }

    /// The search of the part from a checkpoint up to, but without, spectrum `until`, by an engine that has searched
    /// it. The engine has all delays, and was opened for the scope of `part_scope`.
    pub fn of_engine(search: &Search, checkpoint: Checkpoint, until: u64, engine: Engine) -> Warm
        ensures is { IsWarmOf search.now checkpoint until engine result }
        ensures found { (o : Described) (bytes : List ℕ)
            → SearchedPart o search.now checkpoint until bytes engine → HasFound o bytes result }
    {
        scopes_are_found();
        one_shard_is_all();
        Warm {
            search: *search,
            checkpoint,
            until,
            engine,
        }
    }

    /// Takes the next data bytes, and searches each chunk that they fill.
    pub fn feed(&mut self, bytes: &[u8])
        requires running { has_ended_of self.old ≡ false }
        requires few { fed_of self.old + length bytes.now ≤ most_fed }
        ensures same { SamePart self.new self.old }
        ensures running { has_ended_of self.new ≡ false }
        ensures fed { fed_of self.new ≡ fed_of self.old + length bytes.now }
        ensures takes { (o : Described) (before : List ℕ) → WasFed o before self.old
            → WasFed o (before ++ bytes.now) self.new }
    {
        self.engine.feed(bytes);
    }

    /// Ends the data. All that is left of the part is searched, except an incomplete last spectrum.
    pub fn end(&mut self)
        requires { has_ended_of self.old ≡ false }
        ensures same { SamePart self.new self.old }
        ensures ended { has_ended_of self.new ≡ true }
        ensures fed { fed_of self.new ≡ fed_of self.old }
        ensures found { (o : Described) (bytes : List ℕ) → WasFed o bytes self.old
            → HasFound o bytes self.new }
    {
        scopes_are_found();
        one_shard_is_all();
        self.engine.end();
    }

    /// The number of bytes that were fed.
    pub fn fed(&self) -> u64
        ensures { result ≡ fed_of self.now }
    {
        self.engine.fed()
    }

    /// Whether `end` was called.
    pub fn has_ended(&self) -> bool
        ensures { result ≡ has_ended_of self.now }
    {
        self.engine.has_ended()
    }

    /// The number of complete spectra that were fed, including those that are not searched.
    pub fn spectra(&self) -> u64
        ensures value { result ≡ spectra_fed self.now.engine }
        ensures fed { (o : Described) (bytes : List ℕ) → WasFed o bytes self.now
            → result ≡ (filterbank_of o bytes).spectra }
        ensures found { (o : Described) (bytes : List ℕ) → HasFound o bytes self.now
            → result ≡ (filterbank_of o bytes).spectra }
    {
        self.engine.whole_spectra()
    }

    /// The pulses so far: after `end`, those of the part. Their ends count from the first spectrum of the observation.
    pub fn book(&self) -> &Book
        ensures { result.now ≡ book_in self.now }
    {
        self.engine.book()
    }

    /// Writes the text of the part: the lines of its pulses, and the last line, which adds their number to that of the
    /// checkpoint. The part must have ended, and its book must keep all its pulses. After a fault the sink has taken a
    /// beginning of the text.
    pub fn write<K: Sink>(&self, observation: &Observation, sink: &mut K) -> Result<(), SinkStop>
        requires { KeepsPart observation.now self.now }
        ensures { let w = self.now in (bytes : List ℕ) → HasFound observation.now bytes w
            → Wrote (text_of_part observation.now w.search w.checkpoint w.until bytes)
            (K.seen sink.old) (K.seen sink.new) result }
    {
        candidates_are_listed();
        write_part(
            self.book(),
            observation,
            &self.checkpoint,
            self.until,
            self.spectra(),
            sink,
        )
    }
}

/// The scope of the part from spectrum `place` up to, but without, spectrum `until`: the ends of the part, in the
/// spectra that it needs.
pub fn part_scope(observation: &Observation, search: &Search, place: u64, until: u64) -> Scope
    requires place { place ≤ 2 ^ 48 }
    requires until { until ≤ 2 ^ 48 }
    ensures value { result ≡ part_scope_of observation.now search.now place until }
    ensures fits { FitsObservation observation.now search.now result }
{
    let first = first_needed(search, place);
    Scope::of_part(observation.channels(), first, place, until)
}

// The engine of all delays for a part of a search that fits.
fn open_engine(
    alloc: Global,
    observation: &Observation,
    search: &Search,
    place: u64,
    until: u64,
) -> Result<Engine, Memory>
    requires range { SettingsInRange search.now }
    requires fits { plan_refusal observation.now search.now ≡ None }
    requires place { place ≤ 2 ^ 48 }
    requires until { until ≤ 2 ^ 48 }
    ensures opened { IfOk result (λ e. IsOpenedEngine e (in_one_shard_of search.now) 0) }
    ensures scope { IfOk result (λ e. scope_of e
        ≡ part_scope_of observation.now search.now place until) }
    ensures stands { IfOk result (StandsForPart observation.now []) }
{
    let scope = part_scope(observation, search, place, until);
    match Engine::open_for(alloc, observation, &search.in_one_shard(), 0, scope) {
        Ok(engine) => Ok(engine),
        Err(PlanFault::Memory) => Err(Memory),
        // The plan fits.
        Err(_) => unreachable!(),
    }
}
