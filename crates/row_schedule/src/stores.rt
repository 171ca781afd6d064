// The lists that schedules work on.
ghost use Rattle.std.specs.Prelude.{◌≡◌, ◌≢◌, ℕ, ◌+◌, ◌^◌, ◌<◌, ◌≤◌, length, replicate, slice_index, IfOk};
ghost use Rattle.row_model.specs.Sums.{Sums};
ghost use Rattle.row_model.specs.Tails.{AreRows, row_count};
ghost use Rattle.row_schedule.specs.Samples.{values_of};
ghost use Rattle.row_schedule.specs.Follows.{Follows};
ghost use Rattle.row_schedule.specs.Running.{HaveRoom};
ghost use Rattle.row_schedule.specs.Moving.{GoesOver};
ghost use Rattle.row_schedule.specs.Filling.{AreGiven, AreShort, HasSources, HaveSamples, HaveTableRoom, IsOfOthers, KeepsOn, StandsAtPlace, WroteKept, WroteWide, own_place};
ghost use Rattle.row_schedule.specs.Schedules.{Scheduled};
ghost use Rattle.row_schedule.specs.Sizes.{AreEnough, AreEnoughForTables, AreZeros, HaveSizes};

use crate::filling::{fill_row, keep_rows, own_place};
use crate::kept::take_rows;
use crate::samples::Samples;
use crate::schedule::Schedule;
use crate::spare::{SpareStores, fill_up};
use psr_base::Memory;
use row_model::Rows;
use std::alloc::Global;
use std::marker::Model;

/// The lengths of the lists that schedules work on. They include the unused values in front.
#[derive(Clone, Copy)]
pub struct Sizes {
    /// The slots of rows of 16 bits.
    pub narrow: usize,
    /// The slots of rows of 32 bits.
    pub wide: usize,
    /// What is kept of rows of 16 bits.
    pub kept_narrow: usize,
    /// What is kept of rows of 32 bits.
    pub kept_wide: usize,
}

impl Sizes {
    /// The sizes for rows that are each made at a place of its own, of `room` values. What is kept of the rows is not
    /// counted: a schedule's `sizes` has that.
    pub fn of_tables(rows: &Rows, room: usize) -> Sizes
        requires rows { (c : ℕ) × AreRows c rows.now }
        requires few { room ≤ 65536 }
        ensures { AreEnoughForTables rows.now room result }
    {
        Sizes {
            narrow: 0,
            wide: own_place(room, rows.sources.len()),
            kept_narrow: 0,
            kept_wide: 0,
        }
    }

    /// The maximum of both, list by list.
    pub fn most(self, other: Sizes) -> Sizes
        ensures tables { (rows : Rows) (room : ℕ) → AreEnoughForTables rows room self
            → AreEnoughForTables rows room result }
        ensures own { (s : Scheduled) → AreEnough s self → AreEnough s result }
        ensures others { (s : Scheduled) → AreEnough s other → AreEnough s result }
    {
        Sizes {
            narrow: self.narrow.max(other.narrow),
            wide: self.wide.max(other.wide),
            kept_narrow: self.kept_narrow.max(other.kept_narrow),
            kept_wide: self.kept_wide.max(other.kept_wide),
        }
    }
}

/// The lists that schedules work on: samples and sums of samples. Each list begins with some unused values.
#[derive(Drop)]
pub struct Stores {
    /// The slots in which rows of 16 bits are made.
    pub(crate) narrow: Vec<u16>,
    /// The slots in which rows of 32 bits are made.
    pub(crate) wide: Vec<u32>,
    /// What is kept of rows of 16 bits for the next spectra.
    pub(crate) kept_narrow: Vec<u16>,
    /// What is kept of rows of 32 bits.
    pub(crate) kept_wide: Vec<u32>,
}

impl Model for Stores {
    ghost use Rattle.row_schedule.specs.Running.{Stores, stores};

    ghost Value = { Stores };

    ghost view = { λ s. stores s.narrow.items s.wide.items s.kept_narrow.items s.kept_wide.items };
}

impl Stores {
    /// Takes the memory for lists of zeros, of these sizes.
    pub fn zeros(alloc: Global, sizes: Sizes) -> Result<Stores, Memory>
        ensures { IfOk result (AreZeros sizes) }
    {
        Ok(Stores {
            narrow: narrow_zeros(alloc, sizes.narrow)?,
            wide: zeros(alloc, sizes.wide)?,
            kept_narrow: narrow_zeros(alloc, sizes.kept_narrow)?,
            kept_wide: zeros(alloc, sizes.kept_wide)?,
        })
    }

    // The slots of rows of 16 bits.
    pub(crate) fn narrow(&self) -> &[u16]
        ensures { result.now ≡ self.now.narrow }
    {
        self.narrow.as_slice()
    }

    // The slots of rows of 32 bits.
    pub(crate) fn wide(&self) -> &[u32]
        ensures { result.now ≡ self.now.wide }
    {
        self.wide.as_slice()
    }

    /// Replaces the lists by those of another schedule, and moves what is kept of rows there. The kept values stay the
    /// same if they fit into the next schedule's rows of 16 bits.
    pub fn go_over(&mut self, rows: &Rows, before: &Schedule, next: &Schedule, spare: SpareStores)
        requires before { Follows rows.now before.now }
        requires next { Follows rows.now next.now }
        requires room { HaveRoom before.now self.old }
        requires next_room { AreEnough next.now spare }
        ensures sizes { HaveSizes spare self.new }
        ensures kept { GoesOver rows.now before.now.narrow next.now.narrow self.old self.new }
    {
        let SpareStores {
            sizes,
            narrow,
            wide,
            mut kept_narrow,
            mut kept_wide,
        } = spare;
        // The old slots are dropped before a new list is touched, and new ones are touched last.
        self.narrow = narrow;
        self.wide = wide;
        fill_up(&mut kept_narrow, sizes.kept_narrow, 0);
        fill_up(&mut kept_wide, sizes.kept_wide, 0);
        take_rows(
            rows,
            before,
            next,
            self.kept_narrow.as_slice(),
            self.kept_wide.as_slice(),
            kept_narrow.as_mut_slice(),
            kept_wide.as_mut_slice(),
        );
        self.kept_narrow = kept_narrow;
        self.kept_wide = kept_wide;
        fill_up(&mut self.narrow, sizes.narrow, 0);
        fill_up(&mut self.wide, sizes.wide, 0);
    }
}

impl Stores {
    /// Makes row `row` of the next `spectra` spectra, in 32 bits, at its place; each row has a place of `room` values.
    /// The samples of channel `c` begin at `c * chunk`. The rows that it is made of stand at their places, and of all
    /// rows is kept what the schedule keeps.
    pub fn fill_row(
        &mut self,
        rows: &Rows,
        schedule: &Schedule,
        row: usize,
        room: usize,
        samples: Samples<'_>,
        chunk: usize,
        spectra: usize,
    )
        requires follows { Follows rows.now schedule.now }
        requires samples { HaveSamples rows.now chunk spectra (values_of samples) }
        requires row { row < row_count rows.now }
        requires others { IsOfOthers rows.now row }
        requires short { AreShort spectra room chunk }
        requires room { HaveTableRoom rows.now room self.old }
        requires kept_room { HaveRoom schedule.now self.old }
        ensures wrote { WroteWide self.old self.new }
        ensures stands { (x : ℕ → ℕ → ℕ) (y : Sums) (u : ℕ)
            → AreGiven rows.now schedule.now.narrow x y u chunk spectra (values_of samples.entry)
            self.old
            → HasSources rows.now room y u spectra self.old.wide row
            → StandsAtPlace room y u spectra self.new.wide row }
        ensures others { (y : Sums) (u q : ℕ) → q ≢ row
            → StandsAtPlace room y u spectra self.old.wide q
            → StandsAtPlace room y u spectra self.new.wide q }
    {
        fill_row(
            rows,
            schedule,
            row,
            room,
            samples,
            chunk,
            spectra,
            self.kept_narrow.as_slice(),
            self.kept_wide.as_slice(),
            self.wide.as_mut_slice(),
        );
    }

    /// Keeps the last values of all rows, which stand at their places of `room` values, for later spectra, as the
    /// schedule keeps them. The kept values are right if they fit into the schedule's rows of 16 bits.
    pub fn keep_rows(&mut self, rows: &Rows, schedule: &Schedule, room: usize, spectra: usize)
        requires follows { Follows rows.now schedule.now }
        requires short { spectra ≤ room }
        requires few { room ≤ 65536 }
        requires room { HaveTableRoom rows.now room self.old }
        requires kept_room { HaveRoom schedule.now self.old }
        ensures wrote { WroteKept self.old self.new }
        ensures keeps { KeepsOn rows.now schedule.now.narrow room spectra self.old.wide self.old
            self.new }
    {
        keep_rows(
            rows,
            schedule,
            room,
            spectra,
            self.wide.as_slice(),
            self.kept_narrow.as_mut_slice(),
            self.kept_wide.as_mut_slice(),
        );
    }

    /// The first `spectra` values of row `row`, which stands at its place of `room` values.
    pub fn filled(&self, room: usize, row: usize, spectra: usize) -> &[u32]
        requires few { row ≤ 2 ^ 32 }
        requires most { room ≤ 65536 }
        requires short { spectra ≤ room }
        requires there { (count : ℕ) × (row < count)
            × (own_place room count ≤ length self.now.wide) }
        ensures long { length result.now ≡ spectra }
        ensures values { (i : ℕ) → i < spectra → slice_index result.now i
            ≡ slice_index self.now.wide (own_place room row + i) }
    {
        let at = own_place(room, row);
        &self.wide()[at..at + spectra]
    }
}

// `count` zeros.
fn zeros(alloc: Global, count: usize) -> Result<Vec<u32>, Memory>
    ensures { IfOk result (λ v. v.items ≡ replicate count 0) }
{
    Ok(vec![in alloc; 0; count]?)
}

// `count` zeros of 16 bits.
fn narrow_zeros(alloc: Global, count: usize) -> Result<Vec<u16>, Memory>
    ensures { IfOk result (λ v. v.items ≡ replicate count 0) }
{
    Ok(vec![in alloc; 0; count]?)
}
