// A search that writes while the data come.
ghost use Rattle.std.specs.Prelude.{◌≡◌, ℕ, ◌+◌, ◌*◌, ◌^◌, ◌++◌, ◌≤◌, ◌<◌, [], All, List, OnOk, OnErr, IfOk, IfErr, true, false, None, length, take};
ghost use Rattle.dada_model.specs.Observation.{Observation as Described};
ghost use Rattle.psr_base.specs.Written.{SinkSeen, Wrote, WroteAll};
ghost use Rattle.candidate_book.specs.Book.{book_of};
ghost use Rattle.candidate_book.specs.Conditions.{IsSearched};
ghost use Rattle.search_model.specs.declared.candidate.Candidate.{Candidate};
ghost use Rattle.search_model.specs.Parts.{check_line};
ghost use Rattle.search_model.specs.Observed.{candidates_of, filterbank_of};
ghost use Rattle.search_model.specs.Plan.{plan_refusal};
ghost use Rattle.search_model.specs.Search.{SettingsInRange};
ghost use Rattle.search_engine.specs.Engine.{most_fed};
ghost use Rattle.search_engine.specs.Plan.{Explains};
ghost use Rattle.search_engine.specs.Scope.{spectrum_size as spectrum_size_of};
ghost use Rattle.live_search.specs.LiveText.{layout_of, live_text, stopped_text};
ghost use Rattle.live_search.specs.Live.{BeginsFor, BrokeOff, Came, HasBegun, HasEnded, IsLive, IsOpenedFrom, IsTask, Task, WasFed, WroteOn, after_line, due_line, fed_of, last_count, last_pulses, settings_of, so_far};

use crate::laws::laws_hold;
use crate::lines::write_pulses;
use candidate_book::SinkStop;
use obs_plan::Observation;
use psr_base::{Memory, Sink};
use search_engine::{Engine, PlanFault, Scope, check_plan};
use search_model::Search;
use std::alloc::Global;
use warm_restart::{Checkpoint, first_needed, write_last_line};
// A law: it does nothing when it runs, and the proofs use what it ensures.
use psr_base::pieces_join;

/// A part has a number of steps of so many spectra, which are searched at a time: so no chunk of them lies in two
/// parts.
pub const STEP: u32 = 512;

/// The greatest place of a checkpoint, 2^48.
const GREATEST_PLACE: u64 = 281_474_976_710_656;

/// The search of an observation from a checkpoint on, in parts that end at the multiples of a number of spectra: data
/// bytes are fed in pieces that are cut anywhere, from the first spectrum of the observation on. As soon as all
/// spectra of a part are searched, the lines of its pulses are written, and as soon as a spectrum follows, its CHECK
/// line. All memory is taken by `open`.
#[derive(Drop)]
pub struct LiveSearch {
    pub(crate) every: u64,
    // how many bytes a spectrum has
    pub(crate) spectrum: u64,
    pub(crate) engine: Engine,
    // where the part begins that is searched, and before which spectrum it stops
    pub(crate) from: Checkpoint,
    pub(crate) until: u64,
    // whether the CHECK line of the checkpoint is still to be written
    pub(crate) due: bool,
}

// The settings of the engine: one shard, and chunks that no part divides.
fn engine_settings(search: &Search) -> Search
    requires { SettingsInRange search.now }
    ensures value { result ≡ settings_of search.now }
    ensures range { SettingsInRange result }
{
    Search {
        chunk: STEP,
        ..search.in_one_shard()
    }
}

// With which spectrum an engine begins that looks for the pulses from spectrum `place` on.
fn first_spectrum(search: &Search, place: u64) -> u64
    ensures begins { BeginsFor search.now place result }
    ensures early { result ≤ place }
{
    let needed = first_needed(search, place);
    needed - needed % u64::from(STEP)
}

// How many bytes a spectrum of an observation has.
fn spectrum_size(observation: &Observation) -> u64
    ensures value { result ≡ spectrum_size_of observation.now }
{
    observation.lies_in_range();
    u64::from(observation.channels()) * u64::from(observation.npol() * observation.nbit() / 8)
}

// Writes the CHECK line of a place.
fn write_check<K: Sink>(place: u64, pulses: u64, sink: &mut K) -> Result<(), SinkStop>
    ensures { Wrote (check_line place pulses) (K.seen sink.old) (K.seen sink.new) result }
{
    Checkpoint { place, pulses }.write(sink)
}

// The engine of all delays that looks for the pulses from spectrum `place` on, for a search that fits.
fn open_engine(
    alloc: Global,
    observation: &Observation,
    search: &Search,
    place: u64,
) -> Result<Engine, Memory>
    requires range { SettingsInRange search.now }
    requires fits { plan_refusal observation.now search.now ≡ None }
    requires place { place ≤ 2 ^ 48 }
    ensures { IfOk result (IsOpenedFrom observation.now search.now place) }
{
    let first = first_spectrum(search, place);
    let scope = Scope::of_part(observation.channels(), first, place, GREATEST_PLACE);
    match Engine::open_for(alloc, observation, &engine_settings(search), 0, scope) {
        Ok(engine) => Ok(engine),
        Err(PlanFault::Memory) => Err(Memory),
        // The plan fits.
        Err(_) => unreachable!(),
    }
}

impl LiveSearch {
    /// Takes the memory for the search from a checkpoint on, in parts of `every` spectra, or says why the search is
    /// refused, as one of the whole observation is. Nothing is folded. One engine searches all delays.
    pub fn open(
        alloc: Global,
        observation: &Observation,
        search: &Search,
        every: u64,
        from: Checkpoint,
    ) -> Result<LiveSearch, PlanFault>
        requires task { IsTask (record { search = search.now; every = every; from = from }) }
        ensures fits { OnOk result (plan_refusal observation.now search.now ≡ None) }
        ensures opened { IfOk result (WasFed observation.now
            (record { search = search.now; every = every; from = from }) []) }
        ensures refused { IfErr result (Explains (plan_refusal observation.now search.now)) }
    {
        check_plan(observation, search)?;
        match open_engine(alloc, observation, search, from.place) {
            Ok(engine) => Ok(LiveSearch {
                every,
                spectrum: spectrum_size(observation),
                engine,
                from,
                until: (from.place / every + 1) * every,
                due: false,
            }),
            Err(_memory) => Err(PlanFault::Memory),
        }
    }

    /// Takes the next data bytes, and writes what the parts are that they end: see `WasFed` and `text_so_far`.
    pub fn feed<K: Sink>(
        &mut self,
        observation: &Observation,
        bytes: &[u8],
        sink: &mut K,
    ) -> Result<(), SinkStop>
        requires live { IsLive observation.now self.old }
        requires few { fed_of self.old + length bytes.now ≤ most_fed }
        ensures live { OnOk result (IsLive observation.now self.new) }
        ensures count { OnOk result (fed_of self.new ≡ fed_of self.old + length bytes.now) }
        ensures fed { OnOk result ((t : Task) (before : List ℕ)
            → WasFed observation.now t before self.old
            → WasFed observation.now t (before ++ bytes.now) self.new) }
        ensures wrote { OnOk result ((t : Task) (before : List ℕ)
            → WasFed observation.now t before self.old
            → WroteOn observation.now t before bytes.now (K.seen sink.old) (K.seen sink.new)) }
        ensures broke { OnErr result ((t : Task) (before : List ℕ)
            → WasFed observation.now t before self.old
            → BrokeOff observation.now t before bytes.now (K.seen sink.old) (K.seen sink.new)) }
    {
        let mut done = 0;
        while done < bytes.len() {
            match self.step(observation, &bytes[done..], sink) {
                Ok(count) => done += count,
                Err(stop) => return Err(stop),
            }
        }
        Ok(())
    }

    /// Ends data that came to their end: writes the lines of the last part, and END. Nothing is fed after it.
    pub fn finish<K: Sink>(
        &mut self,
        observation: &Observation,
        sink: &mut K,
    ) -> Result<(), SinkStop>
        requires live { IsLive observation.now self.old }
        ensures wrote { (t : Task) (bytes : List ℕ) (start : SinkSeen)
            → WasFed observation.now t bytes self.old
            → WroteAll (so_far observation.now t bytes bytes) start (K.seen sink.old)
            → Wrote (live_text observation.now t.search t.every t.from bytes) start
            (K.seen sink.new) result }
    {
        laws_hold();
        let spectra = self.end_data();
        match self.write_last(observation, spectra, sink) {
            Ok(pulses) => write_last_line(spectra, spectra, pulses, sink),
            Err(stop) => Err(stop),
        }
    }

    /// Ends data that stopped early: writes the lines of the part that was begun, and a CHECK line that says how many
    /// spectra came, where they came past its place. Nothing is fed after it.
    pub fn stop<K: Sink>(&mut self, observation: &Observation, sink: &mut K) -> Result<(), SinkStop>
        requires live { IsLive observation.now self.old }
        ensures wrote { (t : Task) (bytes : List ℕ) (start : SinkSeen)
            → WasFed observation.now t bytes self.old
            → WroteAll (so_far observation.now t bytes bytes) start (K.seen sink.old)
            → Wrote (stopped_text (layout_of observation.now t.search t.every) t.from
            (filterbank_of observation.now bytes).spectra
            (candidates_of observation.now t.search bytes)) start (K.seen sink.new) result }
    {
        laws_hold();
        let spectra = self.end_data();
        if self.came_no_further(spectra) {
            return Ok(());
        }
        match self.write_last(observation, spectra, sink) {
            Ok(pulses) => write_check(spectra, pulses, sink),
            Err(stop) => Err(stop),
        }
    }

    // Ends the data: all of them are searched. Answers how many whole spectra came.
    fn end_data(&mut self) -> u64
        requires { self.old.engine.has_ended ≡ false }
        ensures ended { (o : Described) (t : Task) (bytes : List ℕ) → WasFed o t bytes self.old
            → HasEnded o t bytes self.old self.new result }
    {
        self.engine.end();
        self.engine.whole_spectra()
    }

    // Whether so many spectra came no further than to the place of the checkpoint, whose CHECK line is written.
    fn came_no_further(&self, spectra: u64) -> bool
        ensures nothing { result ≡ true
            → (self.now.due ≡ false) × (spectra ≤ self.now.from.place) }
        ensures further { result ≡ false → self.now.due ≡ false → self.now.from.place < spectra }
    {
        if self.due {
            return false;
        }
        spectra <= self.from.place
    }

    // Writes the lines of the pulses of the last part, of so many spectra in all, unless they were written. Answers how
    // many pulses are printed with them.
    fn write_last<K: Sink>(
        &self,
        observation: &Observation,
        spectra: u64,
        sink: &mut K,
    ) -> Result<u64, SinkStop>
        requires searched { All IsSearched self.now.engine.book.kept }
        ensures lines { let w = self.now in (part : List Candidate)
            → w.engine.book ≡ book_of w.engine.book.limit part
            → Wrote (last_pulses observation.now w spectra part) (K.seen sink.old)
            (K.seen sink.new) result }
        ensures count { let w = self.now in (part : List Candidate)
            → w.engine.book ≡ book_of w.engine.book.limit part
            → IfOk result (λ n. n ≡ last_count w part) }
    {
        pieces_join();
        if self.due {
            return Ok(self.from.pulses);
        }
        match write_pulses(self.engine.book(), observation, spectra, sink) {
            Ok(pulses) => Ok(self.from.pulses.saturating_add(pulses)),
            Err(stop) => Err(stop),
        }
    }

    /// How many whole spectra the bytes are that were fed.
    pub fn spectra(&self) -> u64
        ensures { (o : Described) (t : Task) (bytes : List ℕ) → WasFed o t bytes self.now
            → result ≡ (filterbank_of o bytes).spectra }
    {
        self.engine.whole_spectra()
    }

    // Takes bytes up to the end of the part at most, and writes what is due then. Answers how many it took.
    fn step<K: Sink>(
        &mut self,
        observation: &Observation,
        bytes: &[u8],
        sink: &mut K,
    ) -> Result<usize, SinkStop>
        requires live { IsLive observation.now self.old }
        requires some { 0 < length bytes.now }
        requires few { fed_of self.old + length bytes.now ≤ most_fed }
        ensures live { OnOk result (IsLive observation.now self.new) }
        ensures taken { IfOk result (λ n. (0 < n) × (n ≤ length bytes.now)
            × (fed_of self.new ≡ fed_of self.old + n)) }
        ensures fed { IfOk result (λ n. (t : Task) (before : List ℕ)
            → WasFed observation.now t before self.old
            → WasFed observation.now t (before ++ take n bytes.now) self.new) }
        ensures wrote { IfOk result (λ n. (t : Task) (before : List ℕ)
            → WasFed observation.now t before self.old
            → WroteOn observation.now t before (take n bytes.now) (K.seen sink.old)
            (K.seen sink.new)) }
        ensures broke { OnErr result ((t : Task) (before : List ℕ)
            → WasFed observation.now t before self.old
            → BrokeOff observation.now t before bytes.now (K.seen sink.old) (K.seen sink.new)) }
    {
        laws_hold();
        let count = self.take_bytes(bytes);
        let spectra = self.engine.whole_spectra();
        match self.write_due(spectra, sink) {
            Ok(()) => {}
            Err(stop) => return Err(stop),
        }
        if self.engine.searched_to() < self.until {
            return Ok(count);
        }
        match write_pulses(self.engine.book(), observation, self.until, sink) {
            Ok(pulses) => {
                self.begin_next(pulses);
                Ok(count)
            }
            Err(stop) => Err(stop),
        }
    }

    // Takes bytes up to the end of the part at most. Answers how many.
    fn take_bytes(&mut self, bytes: &[u8]) -> usize
        requires running { self.old.engine.has_ended ≡ false }
        requires some { 0 < length bytes.now }
        requires few { fed_of self.old + length bytes.now ≤ most_fed }
        ensures some { 0 < result }
        ensures most { result ≤ length bytes.now }
        ensures fed { fed_of self.new ≡ fed_of self.old + result }
        ensures came { (o : Described) (t : Task) (before : List ℕ) → WasFed o t before self.old
            → Came o t before bytes.now result self.old self.new }
    {
        let count = self.room(bytes);
        self.engine.feed(&bytes[..count]);
        count
    }

    // How many of some bytes lie before the end of the part, or one.
    fn room(&self, bytes: &[u8]) -> usize
        requires { 0 < length bytes.now }
        ensures some { 0 < result }
        ensures most { result ≤ length bytes.now }
        ensures within { self.now.engine.fed < 2 ^ 63
            → self.now.engine.fed < self.now.until * self.now.spectrum
            → self.now.engine.fed + result ≤ self.now.until * self.now.spectrum }
    {
        let end = self.until.saturating_mul(self.spectrum);
        let room = end.saturating_sub(self.engine.fed()).max(1);
        room.min(bytes.len() as u64) as usize
    }

    // Writes the CHECK line that is due, if so many spectra came, one after its place among them.
    fn write_due<K: Sink>(&mut self, spectra: u64, sink: &mut K) -> Result<(), SinkStop>
        ensures state { OnOk result (self.new ≡ after_line spectra self.old) }
        ensures wrote { Wrote (due_line spectra self.old) (K.seen sink.old) (K.seen sink.new)
            result }
    {
        pieces_join();
        if !self.due || spectra <= self.from.place {
            return Ok(());
        }
        match self.from.write(sink) {
            Ok(()) => {
                self.due = false;
                Ok(())
            }
            Err(stop) => Err(stop),
        }
    }

    // Begins the next part, after one of which so many pulses were printed.
    fn begin_next(&mut self, pulses: u64)
        ensures { HasBegun pulses self.old self.new }
    {
        self.from = Checkpoint {
            place: self.until,
            pulses: self.from.pulses.saturating_add(pulses),
        };
        self.until = self.until.saturating_add(self.every);
        self.due = true;
        self.engine.begin_part();
    }
}
