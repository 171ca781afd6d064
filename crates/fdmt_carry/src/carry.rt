// Rows that are carried from chunk to chunk.
ghost use Rattle.std.specs.Prelude.{◌≡◌, ℕ, ◌+◌, ◌-◌, ◌*◌, ◌^◌, ◌<◌, ◌≤◌, true, false, length, slice_index, None, IfOk, IfSome};
ghost use Rattle.band_paths.specs.Edges.{channels_of};
ghost use Rattle.row_schedule.specs.Halves.{HaveLength, half_sum};
ghost use Rattle.row_schedule.specs.Samples.{values_of};
ghost use Rattle.search_model.specs.Samples.{Filterbank};
ghost use Rattle.search_model.specs.Sums.{path_sum};
ghost use Rattle.search_model.specs.Subbands.{node_sum};
ghost use Rattle.subband_plan.specs.Nodes.{HasRow, root};
ghost use Rattle.subband_plan.specs.Values.{AreAtMost};
ghost use Rattle.fdmt_carry.specs.Tables.{node_of, node_count};
ghost use Rattle.fdmt_carry.specs.Making.{CanLeaveOut};
ghost use Rattle.fdmt_carry.specs.Carrying.{Carrying, AreThere, IsOpened, IsFed, IsBegun, IsRowOn, IsReached, IsStream, AreNext, HasMade, IsSettled, StandsForSamples, StandsMidway, IsSound, HasSpare, carrying};

use crate::opening::{Passes, Spare};
use crate::passing::Passing;
use crate::tables::Tables;
use psr_base::Memory;
use row_schedule::{Halves, Samples, Stores, nothing_kept, running_begins, running_ends};
use search_model::whole_band_is_path_sum;
use std::alloc::Global;
use std::marker::Model;
use std::mem;
use subband_plan::{Plan, plans_are_laid, rows_begin_empty};

/// The rows of a plan, over a stream of spectra that is fed chunk by chunk. Between two calls it keeps as many of the
/// last values of each row as later spectra need, or some more.
///
/// `feed` and `take` make the rows of all nodes, and `table` reads them. A pass makes the rows of the whole band one
/// after another, by rising delay, and each can be read only once it is made: `begin`, then `make_row` or
/// `make_reaching_row` for each delay, and `finish`; `made` reads the row that was made last. In place of
/// `make_reaching_row`, `reach_row` makes all that a row is made of; then `halves` lends the two rows of which it is
/// the sum, and `make_row` makes it or `leave_out` leaves it out.
///
/// The rows of a pass have 16 bits if the samples so far allow it. Once a greater sample comes, a pass for all samples
/// takes over. No clause says which rows have 16 bits.
#[derive(Drop)]
pub struct Carry {
    tables: Tables,
    pass: Passing,
    limit: u32,
    spare: Option<Spare>,
    max_sample: u32,
    fed: u64,
    last: u32,
    has_tables: bool,
    is_passing: bool,
    next: u32,
    done: usize,
    stores: Stores,
}

impl Model for Carry {
    ghost Value = { Carrying };

    ghost view = { λ c. carrying c.tables c.pass c.limit c.max_sample c.fed c.last c.has_tables
        c.is_passing c.next c.done c.stores };

    ghost invariant = { λ c. IsSound (carrying c.tables c.pass c.limit c.max_sample c.fed c.last
        c.has_tables c.is_passing c.next c.done c.stores)
        × HasSpare (carrying c.tables c.pass c.limit c.max_sample c.fed c.last c.has_tables
        c.is_passing c.next c.done c.stores) c.spare };
}

impl Carry {
    /// Takes the memory for calls of at most `chunk` spectra, with samples up to `max_sample`.
    pub fn open(alloc: Global, plan: Plan, chunk: u32, max_sample: u32) -> Result<Carry, Memory>
        requires some { 1 ≤ chunk }
        requires most { chunk ≤ 65536 }
        requires fits { max_sample * (channels_of plan.edges + plan.last) < 2 ^ 32 }
        ensures opened { IfOk result (λ c. IsOpened c plan chunk chunk max_sample) }
        ensures stands { IfOk result (λ c. (f : Filterbank) → IsStream plan max_sample f
            → StandsForSamples c f) }
    {
        Carry::open_passing(alloc, plan, chunk, chunk, max_sample)
    }

    /// Takes the memory for passes over at most `chunk` spectra and for calls that make the rows of all nodes over at
    /// most `most` spectra, with samples up to `max_sample`.
    pub fn open_passing(
        alloc: Global,
        plan: Plan,
        chunk: u32,
        most: u32,
        max_sample: u32,
    ) -> Result<Carry, Memory>
        requires some { 1 ≤ chunk }
        requires short { chunk ≤ 65536 }
        requires within { most ≤ chunk }
        requires fits { max_sample * (channels_of plan.edges + plan.last) < 2 ^ 32 }
        ensures opened { IfOk result (λ c. IsOpened c plan chunk most max_sample) }
        ensures stands { IfOk result (λ c. (f : Filterbank) → IsStream plan max_sample f
            → StandsForSamples c f) }
    {
        nothing_kept();
        rows_begin_empty();
        let tables = Tables::of(alloc, plan, chunk, most)?;
        let passes = Passes::of(alloc, &tables, max_sample)?;
        let stores = Stores::zeros(alloc, tables.room(&passes.pass))?;
        tables.hold();
        let Passes { pass, limit, spare } = passes;
        Ok(Carry {
            tables,
            pass,
            limit,
            spare,
            max_sample,
            fed: 0,
            last: 0,
            has_tables: false,
            is_passing: false,
            next: 0,
            done: 0,
            stores,
        })
    }

    /// Takes the next `spectra` spectra, and makes the rows of all nodes. The samples of channel `c`, the highest
    /// frequency first, begin at place `c * chunk` of `rows`. After `open`, a call can have a whole chunk of spectra;
    /// after `open_passing`, at most `most`.
    pub fn feed(&mut self, rows: &[u32], spectra: u32)
        requires rows { length rows.now
            ≡ channels_of self.old.tables.plan.edges * self.old.tables.chunk }
        requires short { spectra ≤ self.old.tables.most }
        requires few { self.old.fed + spectra ≤ 2 ^ 48 }
        requires whole { self.old.is_passing ≡ false }
        ensures fed { IsFed self.old self.new spectra }
        ensures tables { self.new.has_tables ≡ true }
        ensures stands { (f : Filterbank) → StandsForSamples self.old f
            → AreNext self.old f rows.now spectra → StandsForSamples self.new f }
    {
        self.take(Samples::Words(rows), spectra);
    }

    /// Takes the next `spectra` spectra as `feed` does, with samples of either width. Those of channel `c`, the highest
    /// frequency first, begin at `c * chunk`.
    pub fn take(&mut self, samples: Samples<'_>, spectra: u32)
        requires rows { AreThere self.old (values_of samples) spectra }
        requires short { spectra ≤ self.old.tables.most }
        requires few { self.old.fed + spectra ≤ 2 ^ 48 }
        requires whole { self.old.is_passing ≡ false }
        ensures fed { IsFed self.old self.new spectra }
        ensures tables { self.new.has_tables ≡ true }
        ensures stands { (f : Filterbank) → StandsForSamples self.old f
            → AreNext self.old f (values_of samples.entry) spectra → StandsForSamples self.new f }
    {
        self.settle(samples);
        self.fill(samples, spectra);
    }

    // Makes the rows of all nodes over the next spectra. No sample is above the limit.
    fn fill(&mut self, samples: Samples<'_>, spectra: u32)
        requires rows { AreThere self.old (values_of samples) spectra }
        requires short { spectra ≤ self.old.tables.most }
        requires few { self.old.fed + spectra ≤ 2 ^ 48 }
        requires whole { self.old.is_passing ≡ false }
        ensures fed { IsFed self.old self.new spectra }
        ensures tables { self.new.has_tables ≡ true }
        ensures stands { (f : Filterbank) → StandsForSamples self.old f
            → AreNext self.old f (values_of samples.entry) spectra
            → AreAtMost f (self.old.fed + spectra) self.old.limit → StandsForSamples self.new f }
    {
        self.tables.hold();
        self.tables
            .fill(&self.pass, &mut self.stores, samples, spectra as usize);
        self.fed += u64::from(spectra);
        self.last = spectra;
        self.has_tables = true;
    }

    /// Begins a pass over the next `spectra` spectra. The samples of channel `c`, the highest frequency first, begin at
    /// `c * chunk`. This call only looks at them: each call that makes a row must be given them again.
    pub fn begin(&mut self, samples: Samples<'_>, spectra: u32)
        requires short { spectra ≤ self.old.tables.chunk }
        requires few { self.old.fed + spectra ≤ 2 ^ 48 }
        requires whole { self.old.is_passing ≡ false }
        ensures begun { IsBegun self.old self.new spectra }
        ensures stands { (f : Filterbank) → StandsForSamples self.old f
            → AreNext self.old f (values_of samples.entry) spectra → StandsMidway self.new f }
    {
        self.settle(samples);
        self.start(spectra);
    }

    // If a sample is above the limit, goes over to the pass for all samples. The rows of all nodes can't be read after
    // it.
    fn settle(&mut self, samples: Samples<'_>)
        requires whole { self.old.is_passing ≡ false }
        ensures settled { IsSettled self.old self.new (values_of samples.entry) }
        ensures stands { (f : Filterbank) → StandsForSamples self.old f
            → StandsForSamples self.new f }
    {
        self.has_tables = false;
        if self.limit >= self.max_sample || samples.bound() <= self.limit {
            return;
        }
        let Some(spare) = mem::replace(&mut self.spare, None) else {
            unreachable!();
        };
        let Spare { pass, stores } = spare;
        self.tables.hold();
        self.tables
            .go_over(&self.pass, &pass, stores, &mut self.stores);
        self.pass = pass;
        self.limit = self.max_sample;
    }

    // Begins a pass over `spectra` spectra. No sample is above the limit.
    fn start(&mut self, spectra: u32)
        requires short { spectra ≤ self.old.tables.chunk }
        requires few { self.old.fed + spectra ≤ 2 ^ 48 }
        requires whole { self.old.is_passing ≡ false }
        ensures begun { IsBegun self.old self.new spectra }
        ensures stands { (f : Filterbank) → StandsForSamples self.old f
            → AreAtMost f (self.old.fed + spectra) self.old.limit → StandsMidway self.new f }
    {
        running_begins();
        self.tables.hold();
        self.tables.begins(&self.pass);
        let (first, _) = self.tables.delays();
        self.next = first;
        self.done = 0;
        self.last = spectra;
        self.has_tables = false;
        self.is_passing = true;
    }

    /// Makes the row of the whole band of the next delay, over the spectra of the pass. `samples` are those given to
    /// `begin`.
    pub fn make_row(&mut self, samples: Samples<'_>)
        requires rows { AreThere self.old (values_of samples) self.old.last }
        requires passing { self.old.is_passing ≡ true }
        requires more { self.old.next ≤ self.old.tables.plan.last }
        ensures row_on { IsRowOn self.old self.new }
        ensures stands { (f : Filterbank) → StandsMidway self.old f
            → AreNext self.old f (values_of samples.entry) self.old.last
            → StandsMidway self.new f }
        ensures made { (f : Filterbank) → StandsMidway self.old f
            → AreNext self.old f (values_of samples.entry) self.old.last → HasMade self.new f }
    {
        self.tables.hold();
        self.done = self.tables.make_row(
            &self.pass,
            self.next,
            self.done,
            &mut self.stores,
            samples,
            self.last as usize,
        );
        self.next += 1;
    }

    /// Makes all rows that the row of the next delay is made of, so that `halves` can be asked for it. Then `make_row`
    /// makes the row, or `leave_out` leaves it out. `samples` are those given to `begin`.
    pub fn reach_row(&mut self, samples: Samples<'_>)
        requires rows { AreThere self.old (values_of samples) self.old.last }
        requires passing { self.old.is_passing ≡ true }
        requires more { self.old.next ≤ self.old.tables.plan.last }
        ensures reached { IsReached self.old self.new }
        ensures stands { (f : Filterbank) → StandsMidway self.old f
            → AreNext self.old f (values_of samples.entry) self.old.last
            → StandsMidway self.new f }
    {
        self.tables.hold();
        self.done = self.tables.reach_row(
            &self.pass,
            self.next,
            self.done,
            &mut self.stores,
            samples,
            self.last as usize,
        );
    }

    /// The two rows of 16 bits whose sum is the row of the next delay. `None` if what it is made of was not made yet or
    /// has other widths, or if rows of the whole band are needed for other rows.
    pub fn halves(&self) -> Option<Halves<'_>>
        requires passing { self.now.is_passing ≡ true }
        requires more { self.now.next ≤ self.now.tables.plan.last }
        ensures long { IfSome result (HaveLength self.now.last) }
        ensures leave { IfSome result (λ halves. CanLeaveOut self.now.tables self.now.pass
            self.now.next self.now.done) }
        ensures sums { IfSome result (λ halves. (f : Filterbank) (k : ℕ) → StandsMidway self.now f
            → k < self.now.last → half_sum halves k
            ≡ path_sum f self.now.tables.plan.edges (self.now.fed + k) self.now.next) }
    {
        self.tables.hold();
        self.tables.halves(
            &self.pass,
            self.next,
            self.done,
            &self.stores,
            self.last as usize,
        )
    }

    /// Goes on to the next delay without making the row of this one. `halves` must have answered its two rows.
    pub fn leave_out(&mut self)
        requires passing { self.old.is_passing ≡ true }
        requires leave { CanLeaveOut self.old.tables self.old.pass self.old.next self.old.done }
        ensures row_on { IsRowOn self.old self.new }
        ensures stands { (f : Filterbank) → StandsMidway self.old f → StandsMidway self.new f }
    {
        self.tables.hold();
        self.done = self.tables.leave_out(&self.pass, self.next, self.done);
        self.next += 1;
    }

    // Whether all path sums of the next delay are below `least`, and its row can be left out. May answer `false` even
    // if that is so.
    fn is_below(&self, least: u32) -> bool
        requires passing { self.now.is_passing ≡ true }
        requires more { self.now.next ≤ self.now.tables.plan.last }
        ensures leave { result ≡ true → CanLeaveOut self.now.tables self.now.pass self.now.next
            self.now.done }
        ensures below { result ≡ true → (f : Filterbank) (k : ℕ) → StandsMidway self.now f
            → k < self.now.last
            → path_sum f self.now.tables.plan.edges (self.now.fed + k) self.now.next < least }
    {
        match self.halves() {
            Some(halves) => halves.bound() < least,
            None => false,
        }
    }

    /// Goes on to the next delay as `make_row` does, but may leave the row out if all its path sums are below `least`.
    /// Answers whether it made the row. A row can be left out only if both rows that it is made of have 16 bits, and no
    /// row of the whole band is needed for another row.
    pub fn make_reaching_row(&mut self, samples: Samples<'_>, least: u32) -> bool
        requires rows { AreThere self.old (values_of samples) self.old.last }
        requires passing { self.old.is_passing ≡ true }
        requires more { self.old.next ≤ self.old.tables.plan.last }
        ensures row_on { IsRowOn self.old self.new }
        ensures stands { (f : Filterbank) → StandsMidway self.old f
            → AreNext self.old f (values_of samples.entry) self.old.last
            → StandsMidway self.new f }
        ensures made { result ≡ true → (f : Filterbank) → StandsMidway self.old f
            → AreNext self.old f (values_of samples.entry) self.old.last → HasMade self.new f }
        ensures below { result ≡ false → (f : Filterbank) (k : ℕ) → StandsMidway self.old f
            → AreNext self.old f (values_of samples.entry) self.old.last → k < self.old.last
            → path_sum f self.old.tables.plan.edges (self.old.fed + k) self.old.next < least }
    {
        self.reach_row(samples);
        if self.is_below(least) {
            self.leave_out();
            return false;
        }
        self.make_row(samples);
        true
    }

    /// The row that was made last, if `make_row` made it: the path sums of its delay that end at the spectra of the
    /// pass.
    pub fn made(&self) -> &[u32]
        requires passing { self.now.is_passing ≡ true }
        requires some { self.now.tables.plan.first < self.now.next }
        ensures long { length result.now ≡ self.now.last }
        ensures sums { (f : Filterbank) (k : ℕ) → HasMade self.now f → k < self.now.last
            → slice_index result.now k
            ≡ path_sum f self.now.tables.plan.edges (self.now.fed + k) (self.now.next - 1) }
    {
        self.tables.made(&self.pass, self.next - 1, &self.stores, self.last as usize)
    }

    /// Ends the pass. It must have come past all delays.
    pub fn finish(&mut self)
        requires passing { self.old.is_passing ≡ true }
        requires all { self.old.next ≡ self.old.tables.plan.last + 1 }
        ensures fed { IsFed self.old self.new self.old.last }
        ensures tables { self.new.has_tables ≡ false }
        ensures stands { (f : Filterbank) → StandsMidway self.old f → StandsForSamples self.new f }
    {
        running_ends();
        self.tables.hold();
        self.fed += u64::from(self.last);
        self.is_passing = false;
    }

    /// Makes a whole pass over the next `spectra` spectra, at most a chunk. The samples of channel `c`, the highest
    /// frequency first, begin at `c * chunk`. No row can be read after it.
    pub fn pass(&mut self, samples: Samples<'_>, spectra: u32)
        requires rows { AreThere self.old (values_of samples) spectra }
        requires short { spectra ≤ self.old.tables.chunk }
        requires few { self.old.fed + spectra ≤ 2 ^ 48 }
        requires whole { self.old.is_passing ≡ false }
        ensures fed { IsFed self.old self.new spectra }
        ensures tables { self.new.has_tables ≡ false }
        ensures stands { (f : Filterbank) → StandsForSamples self.old f
            → AreNext self.old f (values_of samples.entry) spectra → StandsForSamples self.new f }
    {
        self.begin(samples, spectra);
        let (first, last) = self.tables.delays();
        for d in first..last + 1 {
            prove!(self.next == d);
            self.make_row(samples);
        }
        self.finish();
    }

    /// How many spectra were taken in all. Those of a pass count once it has ended.
    pub fn fed(&self) -> u64
        ensures { result ≡ self.now.fed }
    {
        self.fed
    }

    /// Whether the rows of all nodes can be read.
    pub fn has_tables(&self) -> bool
        ensures { result ≡ self.now.has_tables }
    {
        self.has_tables
    }

    /// The maximum number of spectra over which a call can make the rows of all nodes.
    pub fn most(&self) -> u32
        ensures { result ≡ self.now.tables.most }
    {
        self.tables.most()
    }

    /// The plan.
    pub fn plan(&self) -> &Plan
        ensures { result.now ≡ self.now.tables.plan }
    {
        self.tables.plan()
    }

    /// The path sums of delay `d` that end at the spectra of the last call, which made the rows of all nodes.
    pub fn row(&self, d: u32) -> &[u32]
        requires tables { self.now.has_tables ≡ true }
        requires row { HasRow (root self.now.tables.plan) d }
        ensures long { length result.now ≡ self.now.last }
        ensures sums { (f : Filterbank) (k : ℕ) → StandsForSamples self.now f → k < self.now.last
            → slice_index result.now k
            ≡ path_sum f self.now.tables.plan.edges (self.now.fed - self.now.last + k) d }
    {
        whole_band_is_path_sum();
        plans_are_laid();
        self.tables.hold();
        self.table(0, d)
    }

    /// The path sum of delay `d` that ends at spectrum `k` of the last call, counted from 0. That call made the rows of
    /// all nodes.
    pub fn sum(&self, d: u32, k: u32) -> u32
        requires tables { self.now.has_tables ≡ true }
        requires row { HasRow (root self.now.tables.plan) d }
        requires spectrum { k < self.now.last }
        ensures { (f : Filterbank) → StandsForSamples self.now f → result
            ≡ path_sum f self.now.tables.plan.edges (self.now.fed - self.now.last + k) d }
    {
        self.row(d)[k as usize]
    }

    /// The sums over node `k` of the plan along the path of delay `d` that end at the spectra of the last call. That
    /// call made the rows of all nodes.
    pub fn table(&self, k: usize, d: u32) -> &[u32]
        requires tables { self.now.has_tables ≡ true }
        requires node { k < node_count self.now.tables }
        requires row { HasRow (node_of self.now.tables k) d }
        ensures long { length result.now ≡ self.now.last }
        ensures sums { (f : Filterbank) (i : ℕ) → StandsForSamples self.now f → i < self.now.last
            → slice_index result.now i
            ≡ node_sum f self.now.tables.plan.edges (node_of self.now.tables k).lo
            (node_of self.now.tables k).hi d (self.now.fed - self.now.last + i) 0 }
    {
        self.tables.table(k, d, &self.stores, self.last as usize)
    }
}
