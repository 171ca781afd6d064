// Searches the path sums of a shard, chunk by chunk.
ghost use Rattle.std.specs.Prelude.{◌≡◌, ℕ, ◌+◌, ◌-◌, ◌*◌, ◌^◌, ◌≤◌, ◌<◌, ◌≢◌, ◌++◌, [], true, false, All, List, IfOk, length, drop, min};
ghost use Rattle.band_paths.specs.Edges.{channels_of};
ghost use Rattle.fdmt_carry.specs.Carrying.{AreNext, AreThere, IsOpened, IsStream, StandsForSamples, StandsMidway};
ghost use Rattle.fdmt_carry.specs.Making.{CanLeaveOut};
ghost use Rattle.row_schedule.specs.Samples.{values_of};
ghost use Rattle.search_model.specs.Samples.{Filterbank};
ghost use Rattle.search_model.specs.Search.{SettingsInRange};
ghost use Rattle.dada_model.specs.Edges.{AreEdges};
ghost use Rattle.fold_search.specs.Counts.{most_folds};
ghost use Rattle.shard_search.specs.Counts.{most_pulses_at_end};
ghost use Rattle.shard_search.specs.declared.tables.TheConstants.{MOST_TABLES};
ghost use Rattle.fold_search.specs.FoldSearch.{IsDelayRange, HasDelay, FoldsAlike, KeepsFrontOf};
ghost use Rattle.fold_search.specs.Judging.{Adds};
ghost use Rattle.shard_search.specs.Opening.{SumsFit, IsOpenedShard};
ghost use Rattle.shard_search.specs.PulseSearch.{SearchesDelay, SearchAlike};
ghost use Rattle.shard_search.specs.Pulses.{IsRowOf};
ghost use Rattle.shard_search.specs.Sought.{CanBeSought, cells_in, sought_from};
ghost use Rattle.shard_search.specs.Sums.{ShardState, FitTogether, StandsForStream, HasStream, ContinuesStream, PassesStream, AreDelaysOf, IsAtRow, GoOnAlike, IsPassedTo, HaveTaken, HasSmallRow, HasTakenNext, sums_of, folds_of_plan};

use crate::pulse_search::PulseSearch;
use crate::sought::Sought;
use crate::tables::MOST_TABLES;
use candidate_book::Book;
use fdmt_carry::Carry;
use fold_search::FoldSearch;
use psr_base::Memory;
use row_schedule::Samples;
use search_model::Search;
// A law: it does nothing when it runs, and the proofs use what it ensures.
use search_model::sums_are_bounded;
use std::alloc::Global;
use std::marker::Model;
use subband_plan::Plan;

/// The path sums of a shard's delays, and the search for pulses and folds in them.
#[derive(Drop)]
pub struct ShardSearch {
    carry: Carry,
    pulses: PulseSearch,
    folds: FoldSearch,
    first: u32,
    end: u32,
}

impl Model for ShardSearch {
    ghost Value = { ShardState };

    ghost view = { λ s. record { carry = s.carry; pulses = s.pulses; folds = s.folds } };

    ghost invariant = { λ s. FitTogether (record {
      carry = s.carry;
      pulses = s.pulses;
      folds = s.folds;
    }) × (s.first ≡ s.pulses.first) × (s.end ≡ s.pulses.end)
        × (s.carry.is_passing ≡ false) };
}

impl ShardSearch {
    /// Takes the memory for the delays from `first` up to, but without, `end`, in spectra, for chunks of at most
    /// `chunk` spectra of samples up to `max_sample`. `edges` are the edges of the channels in kHz, the highest first.
    /// `sought` tells which pulses are looked for.
    pub fn open(
        alloc: Global,
        edges: &[u32],
        search: &Search,
        sought: Sought,
        first: u32,
        end: u32,
        chunk: u32,
        max_sample: u32,
    ) -> Result<ShardSearch, Memory>
        requires range { SettingsInRange search.now }
        requires band { AreEdges (channels_of edges.now) edges.now }
        requires few_channels { channels_of edges.now ≤ 4096 }
        requires delays { IsDelayRange search.now first end }
        requires some_delays { first < end }
        requires some_spectra { 1 ≤ chunk }
        requires most_spectra { chunk ≤ 65536 }
        requires fits { SumsFit search.now
            (max_sample * (channels_of edges.now + search.now.max_delay)) }
        requires sought { CanBeSought sought (channels_of edges.now) end }
        ensures { IfOk result
            (IsOpenedShard edges.now search.now sought first end chunk max_sample) }
    {
        let channels = (edges.len() - 1) as u32;
        let bound = max_sample * (channels + search.max_delay);
        let pulses = PulseSearch::open(alloc, search, sought, first, end, chunk, bound)?;
        let folds = FoldSearch::open(alloc, search, first, end, bound)?;
        let plan = Plan::open(alloc, edges, first, end - 1)?;
        let carry = open_carry(alloc, plan, chunk, max_sample)?;
        Ok(ShardSearch {
            carry,
            pulses,
            folds,
            first,
            end,
        })
    }

    /// Takes the next `spectra` spectra, and adds the pulses that end at them to a book. The samples of channel `c`
    /// begin at `c` times the chunk. The row of each delay is searched as it is made. It may be left out if no fold
    /// needs it and no pulse can end at its sums.
    pub fn pass(&mut self, samples: Samples<'_>, spectra: u32, book: &mut Book)
        requires rows { length (values_of samples)
            ≡ channels_of self.old.carry.tables.plan.edges * self.old.carry.tables.chunk }
        requires short { spectra ≤ self.old.carry.tables.chunk }
        requires few { self.old.carry.fed + spectra ≤ 2 ^ 48 }
        requires stream { ContinuesStream self.old.carry (values_of samples) spectra }
        requires room { book.old.count + most_pulses_at_end * spectra < 2 ^ 63 }
        ensures { HasTakenNext self.old self.new (values_of samples.entry) spectra book.old
            book.new }
    {
        let start = self.carry.fed();
        self.carry.begin(samples, spectra);
        self.pulses.begin();
        pass_rows(
            &mut self.pulses,
            &mut self.folds,
            &mut self.carry,
            samples,
            start,
            self.first,
            self.end,
        );
        self.carry.finish();
        self.pulses.report(start, spectra, book);
    }

    // Takes the next spectra as `pass` does, but makes the rows of all nodes, which can be read after it. They are few.
    fn take_tables(&mut self, samples: Samples<'_>, spectra: u32, book: &mut Book)
        requires rows { AreThere self.old.carry (values_of samples) spectra }
        requires most { spectra ≤ self.old.carry.tables.most }
        requires short { spectra ≤ self.old.carry.tables.chunk }
        requires few { self.old.carry.fed + spectra ≤ 2 ^ 48 }
        requires stream { ContinuesStream self.old.carry (values_of samples) spectra }
        requires room { book.old.count + most_pulses_at_end * spectra < 2 ^ 63 }
        ensures taken { HasTakenNext self.old self.new (values_of samples.entry) spectra book.old
            book.new }
        ensures tables { self.new.carry.has_tables ≡ true }
        ensures last { self.new.carry.last ≡ spectra }
    {
        let start = self.carry.fed();
        self.carry.take(samples, spectra);
        self.pulses.begin();
        take_rows(
            &mut self.pulses,
            &mut self.folds,
            &self.carry,
            start,
            self.first,
            self.end,
        );
        self.pulses.report(start, spectra, book);
    }

    /// Takes the next spectra as `pass` does. For the last of them it makes the rows of all nodes, which can be read
    /// after it; these are as many as there is room for.
    pub fn take(&mut self, samples: Samples<'_>, spectra: u32, book: &mut Book)
        requires rows { length (values_of samples)
            ≡ channels_of self.old.carry.tables.plan.edges * self.old.carry.tables.chunk }
        requires short { spectra ≤ self.old.carry.tables.chunk }
        requires few { self.old.carry.fed + spectra ≤ 2 ^ 48 }
        requires stream { ContinuesStream self.old.carry (values_of samples) spectra }
        requires room { book.old.count + most_pulses_at_end * spectra < 2 ^ 63 }
        ensures taken { HasTakenNext self.old self.new (values_of samples.entry) spectra book.old
            book.new }
        ensures tables { self.new.carry.has_tables ≡ true }
        ensures last { self.new.carry.last ≡ min spectra self.old.carry.tables.most }
    {
        let last = spectra.min(self.carry.most());
        let before = spectra - last;
        self.pass(samples, before, book);
        self.take_tables(samples.skip(before as usize), last, book);
    }

    /// Adds the folds of all spectra that were taken to a book.
    pub fn end(&mut self, book: &mut Book)
        requires { book.old.count + most_folds ≤ 2 ^ 63 }
        ensures same { self.new ≡ self.old }
        ensures count { book.new.count ≤ book.old.count + most_folds }
        ensures folds { (f : Filterbank) → StandsForStream self.old f
            → f.spectra ≡ self.old.carry.fed
            → Adds book.old book.new
            (folds_of_plan f self.old.carry.tables.plan self.old.pulses.search
            self.old.pulses.sought) }
    {
        self.folds.end(self.pulses.sought().counts(), book);
    }

    /// All pulses that end before this spectrum of the observation were judged.
    pub fn searched_to(&self) -> u64
        requires { self.now.carry.fed ≤ 2 ^ 48 }
        ensures { result ≡ self.now.pulses.sought.first + self.now.carry.fed }
    {
        self.pulses.sought().first() + self.carry.fed()
    }

    /// From now on also leaves out the pulses that end before spectrum `place` of the observation. All that was taken
    /// stays.
    pub fn leave_out(&mut self, place: u64)
        ensures sought { self.new.pulses.sought ≡ sought_from place self.old.pulses.sought }
        ensures search { self.new.pulses.search ≡ self.old.pulses.search }
        ensures carry { self.new.carry ≡ self.old.carry }
        ensures stands { (f : Filterbank) → StandsForStream self.old f
            → StandsForStream self.new f }
    {
        self.pulses.leave_out(place);
    }

    /// How many spectra were taken.
    pub fn fed(&self) -> u64
        ensures { result ≡ self.now.carry.fed }
    {
        self.carry.fed()
    }

    /// How many cells a path sum of a delay adds up.
    pub fn cells(&self, delay: u32) -> u32
        requires { cells_in self.now.pulses.sought delay < 2 ^ 32 }
        ensures { result ≡ cells_in self.now.pulses.sought delay }
    {
        self.pulses.sought().cells(delay)
    }

    /// The rows that are carried from chunk to chunk.
    pub fn carry(&self) -> &Carry
        ensures { result.now ≡ self.now.carry }
    {
        &self.carry
    }
}

// The carry of a plan, with room for the rows of all nodes over a few spectra only.
fn open_carry(alloc: Global, plan: Plan, chunk: u32, max_sample: u32) -> Result<Carry, Memory>
    requires some { 1 ≤ chunk }
    requires short { chunk ≤ 65536 }
    requires fits { max_sample * (channels_of plan.edges + plan.last) < 2 ^ 32 }
    ensures opened { IfOk result (λ c. IsOpened c plan chunk (min chunk MOST_TABLES) max_sample) }
    ensures stands { IfOk result (λ c. (f : Filterbank) → IsStream plan max_sample f
        → StandsForSamples c f) }
{
    let most = chunk.min(MOST_TABLES);
    Carry::open_passing(alloc, plan, chunk, most, max_sample)
}

// Makes the rows of all delays in a pass, and takes them; those that need not be made may be left out. Their sums end
// at spectrum `start` and after it.
fn pass_rows(
    pulses: &mut PulseSearch,
    folds: &mut FoldSearch,
    carry: &mut Carry,
    samples: Samples<'_>,
    start: u64,
    first: u32,
    end: u32,
)
    requires delays { AreDelaysOf pulses.old first end }
    requires fit { FitTogether (record {
      carry = carry.old;
      pulses = pulses.old;
      folds = folds.old;
    }) }
    requires begun { IsAtRow carry.old first start }
    requires rows { length (values_of samples)
        ≡ channels_of carry.old.tables.plan.edges * carry.old.tables.chunk }
    requires stream { PassesStream carry.old (values_of samples) }
    requires none { pulses.old.hits ≡ [] }
    ensures carry { IsPassedTo carry.old carry.new end }
    ensures alike { GoOnAlike pulses.old pulses.new folds.old folds.new first end }
    ensures stands { (f : Filterbank) → StandsMidway carry.old f
        → AreNext carry.old f (values_of samples.entry) carry.old.last
        → StandsMidway carry.new f }
    ensures taken { (f : Filterbank) → StandsMidway carry.old f
        → AreNext carry.old f (values_of samples.entry) carry.old.last
        → HaveTaken (sums_of f carry.old.tables.plan.edges) pulses.old folds.old start
        carry.old.last first
        → HaveTaken (sums_of f carry.old.tables.plan.edges) pulses.new folds.new start
        carry.old.last end }
{
    sums_are_bounded();
    for d in first..end {
        carry.reach_row(samples);
        if take_quiet(pulses, folds, carry, d) {
            carry.leave_out();
        } else {
            carry.make_row(samples);
            take_row(pulses, folds, carry.made(), start, d);
        }
    }
}

// Takes the row of the next delay of a pass without making it, if no pulse ends at its sums and no fold needs it.
// Answers whether it did.
fn take_quiet(pulses: &mut PulseSearch, folds: &FoldSearch, carry: &Carry, d: u32) -> bool
    requires delay { SearchesDelay pulses.old d }
    requires fold { HasDelay folds.now d }
    requires row { HasSmallRow carry.now pulses.old d }
    ensures alike { SearchAlike pulses.new pulses.old }
    ensures hits { pulses.new.hits ≡ pulses.old.hits }
    ensures leave { result ≡ true → CanLeaveOut carry.now.tables carry.now.pass carry.now.next
        carry.now.done }
    ensures taken { result ≡ true → (f : Filterbank) → StandsMidway carry.now f
        → HaveTaken (sums_of f carry.now.tables.plan.edges) pulses.old folds.now carry.now.fed
        carry.now.last d
        → HaveTaken (sums_of f carry.now.tables.plan.edges) pulses.new folds.now carry.now.fed
        carry.now.last (d + 1) }
    ensures untaken { result ≡ false → pulses.new ≡ pulses.old }
{
    if folds.is_folded(d) {
        return false;
    }
    match carry.halves() {
        Some(halves) => pulses.take_quiet(d, halves),
        None => false,
    }
}

// Takes the rows of all delays, which the carry has. Their sums end at spectrum `start` and after it.
fn take_rows(
    pulses: &mut PulseSearch,
    folds: &mut FoldSearch,
    carry: &Carry,
    start: u64,
    first: u32,
    end: u32,
)
    requires delays { AreDelaysOf pulses.old first end }
    requires fit { FitTogether (record {
      carry = carry.now;
      pulses = pulses.old;
      folds = folds.old;
    }) }
    requires tables { carry.now.has_tables ≡ true }
    requires short { carry.now.last ≤ carry.now.tables.chunk }
    requires start { start + carry.now.last ≡ carry.now.fed }
    requires stream { HasStream carry.now }
    requires none { pulses.old.hits ≡ [] }
    ensures alike { GoOnAlike pulses.old pulses.new folds.old folds.new first end }
    ensures taken { (f : Filterbank) → StandsForSamples carry.now f
        → HaveTaken (sums_of f carry.now.tables.plan.edges) pulses.old folds.old start
        carry.now.last first
        → HaveTaken (sums_of f carry.now.tables.plan.edges) pulses.new folds.new start
        carry.now.last end }
{
    sums_are_bounded();
    for d in first..end {
        take_row(pulses, folds, carry.row(d), start, d);
    }
}

// Takes the row of delay `d`, whose sums end at spectrum `start` and after it.
fn take_row(pulses: &mut PulseSearch, folds: &mut FoldSearch, row: &[u32], start: u64, d: u32)
    requires delay { SearchesDelay pulses.old d }
    requires fold { HasDelay folds.old d }
    requires short { length row.now ≤ pulses.old.boxes.chunk }
    requires small { All (λ x. x ≤ pulses.old.boxes.bound) row.now }
    requires bound { pulses.old.boxes.bound ≡ folds.old.bound }
    requires room { length pulses.old.hits + 6 ≤ 6 * (pulses.old.end - pulses.old.first) }
    ensures pulses { SearchAlike pulses.new pulses.old }
    ensures folds { FoldsAlike folds.new folds.old }
    ensures few { length pulses.new.hits ≤ length pulses.old.hits + 6 }
    ensures taken { (y : ℕ → ℕ → ℕ) → IsRowOf y d start row.now
        → HaveTaken y pulses.old folds.old start (length row.now) d
        → HaveTaken y pulses.new folds.new start (length row.now) (d + 1) }
{
    pulses.take(d, row);
    take_folds(folds, row, start, d);
}

// Takes the row of delay `d` for its folds, if it is folded.
fn take_folds(folds: &mut FoldSearch, row: &[u32], start: u64, d: u32)
    requires fold { HasDelay folds.old d }
    requires small { All (λ x. x ≤ folds.old.bound) row.now }
    ensures alike { FoldsAlike folds.new folds.old }
    ensures own { (xs : List ℕ) → KeepsFrontOf folds.old d xs
        → KeepsFrontOf folds.new d (xs ++ drop (d - start) row.now) }
    ensures others { (e : ℕ) (xs : List ℕ) → HasDelay folds.old e → e ≢ d
        → KeepsFrontOf folds.old e xs → KeepsFrontOf folds.new e xs }
{
    if !folds.is_folded(d) {
        return;
    }
    folds.take(d, from_delay(row, start, d));
}

// The sums of a row that end at spectrum `d` or later. The first sum of the row ends at spectrum `start`.
fn from_delay(row: &[u32], start: u64, d: u32) -> &[u32]
    ensures value { result.now ≡ drop (d - start) row.now }
    ensures small { (bound : ℕ) → All (λ x. x ≤ bound) row.now
        → All (λ x. x ≤ bound) result.now }
{
    let before = u64::from(d).saturating_sub(start) as usize;
    &row[before.min(row.len())..]
}
