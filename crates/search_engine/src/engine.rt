// The engine: data bytes in, candidates out.
ghost use Rattle.std.specs.Prelude.{◌≡◌, ℕ, ◌+◌, ◌-◌, ◌*◌, ◌/◌, ◌^◌, ◌≤◌, ◌<◌, ◌++◌, [], true, false, None, OnOk, IfOk, IfErr, IfSome, List, length, take};
ghost use Rattle.dada_model.specs.Observation.{Observation as Described};
ghost use Rattle.search_model.specs.Search.{SettingsInRange, shard_start as shard_start_of};
ghost use Rattle.search_model.specs.Plan.{plan_refusal};
ghost use Rattle.search_engine.specs.Plan.{Explains};
ghost use Rattle.row_schedule.specs.Samples.{values_of};
ghost use Rattle.spectra_rows.specs.Unpacking.{StandsForBytes};
ghost use Rattle.search_engine.specs.Engine.{EngineState, EngineIsSound, IsOpenedSums, StandsForData, StandsForPart, HasTakenChunks, HoldsNoFullChunk, KnowsSizes, HasSearched, HasFoundPart, IsOpenedEngine, IsOpenedUnpacker, SameShard, most_fed, scope_of, searched_to as searched_to_of, spectra_fed};
ghost use Rattle.search_engine.specs.Scope.{FitsObservation, marks_of, scope_from, count_before as count_before_of, limit_in_bytes as limit_in_bytes_of, spectrum_size as spectrum_size_of};
ghost use Rattle.search_model.specs.Observed.{filterbank_of};
ghost use Rattle.shard_search.specs.Sought.{CanBeSought, cells_in};

use crate::chunk::chunk_of;
use crate::fault::PlanFault;
use crate::hiding::Masked;
use crate::plan::check_plan;
use crate::scope::Scope;
use candidate_book::Book;
use fdmt_carry::Carry;
use obs_plan::Observation;
use psr_base::Memory;
use row_schedule::Samples;
use search_model::Search;
use shard_search::{ShardSearch, Sought};
use spectra_rows::Unpacker;
use std::alloc::Global;
use std::marker::Model;
// Laws: they do nothing when they run, and the proofs use what they ensure.
use dada_model::edges_fall;
use search_model::samples_of_bytes;
use shard_search::shards_are_listed;

/// The search of one shard of an observation. Data bytes are fed in pieces of any length, and the candidates of the
/// shard's delays are kept in a book. `open` takes all memory.
#[derive(Drop)]
pub struct Engine {
    search: Search,
    shard: u32,
    masked: Masked,
    // in bytes: the size of a spectrum, how many are skipped at first, and after how many the search stops
    spectrum: u64,
    skipped: u64,
    stop: Option<u64>,
    fed: u64,
    has_ended: bool,
    chunk: u32,
    unpacker: Unpacker,
    sums: ShardSearch,
    book: Book,
}

impl Model for Engine {
    ghost Value = { EngineState };

    ghost view = { λ e. record {
      search = e.search;
      shard = e.shard;
      masked = marks_of e.masked;
      fed = e.fed;
      has_ended = e.has_ended;
      unpacker = e.unpacker;
      sums = e.sums;
      book = e.book;
    } };

    ghost invariant = { λ e. EngineIsSound (record {
      search = e.search;
      shard = e.shard;
      masked = marks_of e.masked;
      fed = e.fed;
      has_ended = e.has_ended;
      unpacker = e.unpacker;
      sums = e.sums;
      book = e.book;
    }) × (KnowsSizes e.chunk e.spectrum e.skipped e.stop e.unpacker e.sums.pulses.sought) };
}

impl Engine {
    /// Takes the memory for shard `shard` of a search of an observation. The error says why the search is refused.
    pub fn open(
        alloc: Global,
        observation: &Observation,
        search: &Search,
        shard: u32,
    ) -> Result<Engine, PlanFault>
        requires range { SettingsInRange search.now }
        requires shard { shard < search.now.shards }
        ensures fits { OnOk result (plan_refusal observation.now search.now ≡ None) }
        ensures opened { IfOk result (λ e. IsOpenedEngine e search.now shard) }
        ensures stands { IfOk result (StandsForData observation.now []) }
        ensures refused { IfErr result (Explains (plan_refusal observation.now search.now)) }
    {
        Engine::open_for(
            alloc,
            observation,
            search,
            shard,
            Scope::whole(observation.channels()),
        )
    }

    /// Takes the memory for shard `shard` of a search of what lies in a scope. The search is refused exactly as one of
    /// the whole observation is.
    pub fn open_for(
        alloc: Global,
        observation: &Observation,
        search: &Search,
        shard: u32,
        scope: Scope,
    ) -> Result<Engine, PlanFault>
        requires range { SettingsInRange search.now }
        requires shard { shard < search.now.shards }
        requires scope { FitsObservation observation.now search.now scope }
        ensures fits { OnOk result (plan_refusal observation.now search.now ≡ None) }
        ensures opened { IfOk result (λ e. IsOpenedEngine e search.now shard) }
        ensures scope { IfOk result (λ e. scope_of e ≡ scope) }
        ensures stands { IfOk result (StandsForPart observation.now []) }
        ensures refused { IfErr result (Explains (plan_refusal observation.now search.now)) }
    {
        check_plan(observation, search)?;
        observation.lies_in_range();
        edges_fall();
        let chunk = chunk_of(search);
        let spectrum = spectrum_size(observation);
        let skipped = scope.first * spectrum;
        let stop = limit_in_bytes(scope.until, spectrum);
        let unpacker = open_unpacker(alloc, observation, chunk)?;
        let book = Book::open(alloc, search.max_candidates)?;
        let sums = open_sums(alloc, observation, search, shard, chunk, scope.sought)?;
        Ok(Engine {
            search: *search,
            shard,
            masked: scope.masked,
            spectrum,
            skipped,
            stop,
            fed: 0,
            has_ended: false,
            chunk,
            unpacker,
            sums,
            book,
        })
    }

    /// Takes the next data bytes, and searches each chunk that they fill.
    pub fn feed(&mut self, bytes: &[u8])
        requires running { self.old.has_ended ≡ false }
        requires few { self.old.fed + length bytes.now ≤ most_fed }
        ensures same { SameShard self.new self.old }
        ensures scope { scope_of self.new ≡ scope_of self.old }
        ensures running { self.new.has_ended ≡ false }
        ensures fed { self.new.fed ≡ self.old.fed + length bytes.now }
        ensures part { (o : Described) (before : List ℕ) → StandsForPart o before self.old
            → StandsForPart o (before ++ bytes.now) self.new }
        ensures stands { (o : Described) (before : List ℕ) → StandsForData o before self.old
            → StandsForData o (before ++ bytes.now) self.new }
        ensures searched { HoldsNoFullChunk self.new }
    {
        self.unpack(bytes);
        self.search_full();
    }

    /// Takes the next data bytes as `feed` does, but leaves a chunk that becomes full at their end. `search_full` or
    /// `end` searches it, or the call that takes the next bytes.
    pub fn unpack(&mut self, bytes: &[u8])
        requires running { self.old.has_ended ≡ false }
        requires few { self.old.fed + length bytes.now ≤ most_fed }
        ensures same { SameShard self.new self.old }
        ensures scope { scope_of self.new ≡ scope_of self.old }
        ensures running { self.new.has_ended ≡ false }
        ensures fed { self.new.fed ≡ self.old.fed + length bytes.now }
        ensures part { (o : Described) (before : List ℕ) → StandsForPart o before self.old
            → StandsForPart o (before ++ bytes.now) self.new }
        ensures stands { (o : Described) (before : List ℕ) → StandsForData o before self.old
            → StandsForData o (before ++ bytes.now) self.new }
    {
        let to = count_before(self.stop, self.fed, bytes.len());
        let from = count_before(Some(self.skipped), self.fed, to);
        self.fed += from as u64;
        self.take_pieces(&bytes[from..to]);
        self.fed += (bytes.len() - to) as u64;
    }

    /// At least this many more bytes are needed to fill the chunk; bytes outside the scope fill nothing. `unpack`
    /// searches nothing if it takes no more than these. It is a hint: no clause speaks of the answer.
    pub fn room(&self) -> u64 {
        let spectra = u64::from(self.chunk - self.unpacker.spectra());
        let part = self.fed % self.spectrum;
        spectra.saturating_mul(self.spectrum).saturating_sub(part)
    }

    /// Searches the chunk, if it is full.
    pub fn search_full(&mut self)
        requires { self.old.has_ended ≡ false }
        ensures same { SameShard self.new self.old }
        ensures scope { scope_of self.new ≡ scope_of self.old }
        ensures running { self.new.has_ended ≡ false }
        ensures fed { self.new.fed ≡ self.old.fed }
        ensures taken { (o : Described) (bytes : List ℕ) → HasTakenChunks o bytes self.old
            → HasTakenChunks o bytes self.new }
        ensures part { (o : Described) (bytes : List ℕ) → StandsForPart o bytes self.old
            → StandsForPart o bytes self.new }
        ensures stands { (o : Described) (bytes : List ℕ) → StandsForData o bytes self.old
            → StandsForData o bytes self.new }
        ensures searched { HoldsNoFullChunk self.new }
    {
        if self.unpacker.spectra() == self.chunk {
            self.search_chunk();
        }
    }

    // Takes bytes that are searched. A chunk that becomes full at their end is left.
    fn take_pieces(&mut self, bytes: &[u8])
        requires running { self.old.has_ended ≡ false }
        requires few { self.old.fed + length bytes.now ≤ most_fed }
        ensures same { SameShard self.new self.old }
        ensures scope { scope_of self.new ≡ scope_of self.old }
        ensures running { self.new.has_ended ≡ false }
        ensures fed { self.new.fed ≡ self.old.fed + length bytes.now }
        ensures taken { (o : Described) (before : List ℕ) → HasTakenChunks o before self.old
            → HasTakenChunks o (before ++ bytes.now) self.new }
    {
        let mut done = 0;
        while done < bytes.len() {
            self.search_full();
            done += self.take_piece(&bytes[done..]);
        }
    }

    /// Ends the data. All that is left of them is searched, except an incomplete last spectrum, and then all folds.
    pub fn end(&mut self)
        requires { self.old.has_ended ≡ false }
        ensures same { SameShard self.new self.old }
        ensures scope { scope_of self.new ≡ scope_of self.old }
        ensures ended { self.new.has_ended ≡ true }
        ensures fed { self.new.fed ≡ self.old.fed }
        ensures found { (o : Described) (bytes : List ℕ) → StandsForPart o bytes self.old
            → HasFoundPart o bytes self.new }
        ensures searched { (o : Described) (bytes : List ℕ) → StandsForData o bytes self.old
            → HasSearched o bytes self.new }
    {
        self.search_full();
        self.end_part();
    }

    /// All pulses that end before this spectrum of the observation were judged.
    pub fn searched_to(&self) -> u64
        ensures { result ≡ searched_to_of self.now }
    {
        self.sums.searched_to()
    }

    /// Begins a part. The book forgets its candidates, and from now on only pulses that end at later spectra are looked
    /// for. The law `parts_are_found` says which pulses the book had, and which it will have.
    pub fn begin_part(&mut self)
        ensures same { SameShard self.new self.old }
        ensures scope { scope_of self.new ≡ scope_from (searched_to_of self.old) (scope_of self.old) }
        ensures ended { self.new.has_ended ≡ self.old.has_ended }
        ensures fed { self.new.fed ≡ self.old.fed }
        ensures carry { self.new.sums.carry ≡ self.old.sums.carry }
        ensures unpacker { self.new.unpacker ≡ self.old.unpacker }
        ensures part { (o : Described) (bytes : List ℕ) → StandsForPart o bytes self.old
            → StandsForPart o bytes self.new }
    {
        let place = self.sums.searched_to();
        self.sums.leave_out(place);
        self.book.clear();
    }

    /// The number of bytes that were fed.
    pub fn fed(&self) -> u64
        ensures { result ≡ self.now.fed }
    {
        self.fed
    }

    /// Whether `end` was called.
    pub fn has_ended(&self) -> bool
        ensures { result ≡ self.now.has_ended }
    {
        self.has_ended
    }

    /// The number of complete spectra that were fed, including those that are not searched.
    pub fn whole_spectra(&self) -> u64
        ensures value { result ≡ spectra_fed self.now }
        ensures all { (o : Described) (bytes : List ℕ) → StandsForPart o bytes self.now
            → result ≡ (filterbank_of o bytes).spectra }
    {
        self.fed / self.spectrum
    }

    /// The number of spectra that were searched: after `end`, all complete spectra that were fed and lie in the scope.
    pub fn spectra(&self) -> u64
        ensures { result ≡ self.now.sums.carry.fed }
    {
        self.sums.fed()
    }

    /// The candidates so far: after `end`, those of the shard.
    pub fn book(&self) -> &Book
        ensures { result.now ≡ self.now.book }
    {
        &self.book
    }

    /// Gives the candidates, and drops all else.
    pub fn into_book(self) -> Book
        ensures { result ≡ self.book }
    {
        self.book
    }

    /// How many cells a path sum of `delay` adds up.
    pub fn cells(&self, delay: u32) -> u32
        requires { cells_in (scope_of self.now).sought delay < 2 ^ 32 }
        ensures { result ≡ cells_in (scope_of self.now).sought delay }
    {
        self.sums.cells(delay)
    }

    /// The path sums of the shard's delays: after `end`, over all complete spectra. The rows of all nodes can be read
    /// for the last of these only: those after the last full chunk, at most 16.
    pub fn carry(&self) -> &Carry
        ensures { result.now ≡ self.now.sums.carry }
    {
        self.sums.carry()
    }

    // Takes bytes up to the end of the chunk, which is not full, and answers how many it took.
    fn take_piece(&mut self, bytes: &[u8]) -> usize
        requires room { HoldsNoFullChunk self.old }
        requires some { 0 < length bytes.now }
        requires few { self.old.fed + length bytes.now ≤ most_fed }
        ensures some { 0 < result }
        ensures most { result ≤ length bytes.now }
        ensures same { SameShard self.new self.old }
        ensures scope { scope_of self.new ≡ scope_of self.old }
        ensures ended { self.new.has_ended ≡ self.old.has_ended }
        ensures fed { self.new.fed ≡ self.old.fed + result }
        ensures taken { (o : Described) (before : List ℕ) → HasTakenChunks o before self.old
            → HasTakenChunks o (before ++ take result bytes.now) self.new }
    {
        samples_of_bytes();
        let count = self.unpacker.push(bytes);
        self.fed += count as u64;
        count
    }

    // Searches the chunk, which is full.
    fn search_chunk(&mut self)
        requires running { self.old.has_ended ≡ false }
        requires full { self.old.unpacker.whole ≡ self.old.unpacker.chunk }
        ensures same { SameShard self.new self.old }
        ensures scope { scope_of self.new ≡ scope_of self.old }
        ensures running { self.new.has_ended ≡ false }
        ensures fed { self.new.fed ≡ self.old.fed }
        ensures taken { (o : Described) (bytes : List ℕ) → HasTakenChunks o bytes self.old
            → HasTakenChunks o bytes self.new }
        ensures searched { HoldsNoFullChunk self.new }
    {
        edges_fall();
        samples_of_bytes();
        shards_are_listed();
        self.masked.hide(&mut self.unpacker);
        let rows = samples(&self.unpacker);
        self.sums.pass(rows, self.chunk, &mut self.book);
        self.unpacker.taken();
    }

    // Ends the data, if the chunk is not full.
    fn end_part(&mut self)
        requires running { self.old.has_ended ≡ false }
        requires part { HoldsNoFullChunk self.old }
        ensures same { SameShard self.new self.old }
        ensures scope { scope_of self.new ≡ scope_of self.old }
        ensures ended { self.new.has_ended ≡ true }
        ensures fed { self.new.fed ≡ self.old.fed }
        ensures found { (o : Described) (bytes : List ℕ) → StandsForPart o bytes self.old
            → HasFoundPart o bytes self.new }
        ensures searched { (o : Described) (bytes : List ℕ) → StandsForData o bytes self.old
            → HasSearched o bytes self.new }
    {
        edges_fall();
        samples_of_bytes();
        shards_are_listed();
        let spectra = self.unpacker.spectra();
        self.masked.hide(&mut self.unpacker);
        self.sums
            .take(samples(&self.unpacker), spectra, &mut self.book);
        self.unpacker.taken();
        self.sums.end(&mut self.book);
        self.has_ended = true;
    }
}

// The smallest delay of a shard. The shard ends where the next one begins.
fn shard_start(search: &Search, shard: u32) -> u32
    requires range { SettingsInRange search.now }
    requires shard { shard ≤ search.now.shards }
    ensures { result ≡ shard_start_of search.now shard }
{
    search.min_delay + shard * (search.max_delay + 1 - search.min_delay) / search.shards
}

// The number of bytes of a spectrum.
fn spectrum_size(observation: &Observation) -> u64
    ensures value { result ≡ spectrum_size_of observation.now }
    ensures most { result ≤ 2 ^ 14 }
{
    observation.lies_in_range();
    u64::from(observation.channels()) * u64::from(observation.npol() * observation.nbit() / 8)
}

// A limit in spectra as a limit in bytes.
fn limit_in_bytes(limit: Option<u64>, spectrum: u64) -> Option<u64>
    requires few { IfSome limit (λ m. m ≤ 2 ^ 48) }
    requires small { spectrum ≤ 2 ^ 14 }
    ensures { result ≡ limit_in_bytes_of spectrum limit }
{
    match limit {
        Some(limit) => Some(limit * spectrum),
        None => None,
    }
}

// How many of the `count` bytes after the first `past` come before the limit; all if there is none.
fn count_before(limit: Option<u64>, past: u64, count: usize) -> usize
    ensures value { result ≡ count_before_of limit past count }
    ensures most { result ≤ count }
{
    match limit {
        Some(limit) => limit.saturating_sub(past).min(count as u64) as usize,
        None => count,
    }
}

// Whether each sample is a single byte.
fn are_bytes(observation: &Observation) -> bool
    ensures bits { result ≡ true → observation.now.nbit ≡ 8 }
    ensures polarisation { result ≡ true → observation.now.npol ≡ 1 }
    ensures always { observation.now.nbit ≡ 8 → observation.now.npol ≡ 1 → result ≡ true }
{
    observation.nbit() == 8 && observation.npol() == 1
}

// An empty unpacker of an observation's data bytes. Its rows have a byte a sample if the samples are single bytes.
fn open_unpacker(alloc: Global, observation: &Observation, chunk: u32) -> Result<Unpacker, Memory>
    requires some { 1 ≤ chunk }
    requires most { chunk ≤ 65536 }
    ensures opened { IfOk result (IsOpenedUnpacker observation.now chunk) }
    ensures bytes { IfOk result (λ u. observation.now.nbit ≡ 8 → observation.now.npol ≡ 1
        → u.in_bytes ≡ true) }
    ensures nothing { IfOk result (λ u. StandsForBytes u [] 0) }
{
    observation.lies_in_range();
    if are_bytes(observation) {
        return Unpacker::open_bytes(alloc, observation.channels(), observation.falling(), chunk);
    }
    Unpacker::open(
        alloc,
        observation.channels(),
        observation.falling(),
        observation.nbit(),
        observation.npol(),
        chunk,
    )
}

// The samples of the complete spectra that an unpacker holds.
fn samples(unpacker: &Unpacker) -> Samples<'_>
    ensures long { length (values_of result) ≡ unpacker.now.channels * unpacker.now.chunk }
    ensures rows { values_of result ≡ unpacker.now.rows }
{
    if unpacker.in_bytes() {
        Samples::Bytes(unpacker.byte_rows())
    } else {
        Samples::Words(unpacker.rows())
    }
}

// The search of a shard's path sums, without any spectrum yet.
fn open_sums(
    alloc: Global,
    observation: &Observation,
    search: &Search,
    shard: u32,
    chunk: u32,
    sought: Sought,
) -> Result<ShardSearch, Memory>
    requires range { SettingsInRange search.now }
    requires shard { shard < search.now.shards }
    requires accepted { plan_refusal observation.now search.now ≡ None }
    requires some { 1 ≤ chunk }
    requires most { chunk ≤ 65536 }
    requires sought { CanBeSought sought observation.now.channels (search.now.max_delay + 1) }
    ensures { IfOk result (IsOpenedSums observation.now search.now shard chunk sought) }
{
    observation.lies_in_range();
    let first = shard_start(search, shard);
    let end = shard_start(search, shard + 1);
    ShardSearch::open(
        alloc,
        observation.edges(),
        search,
        sought,
        first,
        end,
        chunk,
        observation.max_sample(),
    )
}
