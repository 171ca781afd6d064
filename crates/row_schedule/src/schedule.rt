// A schedule, and how its orders are carried out.
ghost use Rattle.std.specs.Prelude.{◌≡◌, ℕ, ◌+◌, ◌-◌, ◌*◌, ◌%◌, ◌^◌, ◌<◌, ◌≤◌, false, length, slice_index, IfSome};
ghost use Rattle.row_model.specs.Sums.{Sums, AddUp, Fit, is_narrow};
ghost use Rattle.row_model.specs.Tails.{row_count};
ghost use Rattle.row_schedule.specs.Samples.{values_of, AreNext};
ghost use Rattle.row_schedule.specs.Orders.{order_at};
ghost use Rattle.row_schedule.specs.Steps.{IsSafe, step_at};
ghost use Rattle.row_schedule.specs.Follows.{Follows};
ghost use Rattle.row_schedule.specs.Running.{Stores, HaveRoom, AreAsLong, Running, Stands};
ghost use Rattle.row_schedule.specs.Making.{StepMade};
ghost use Rattle.row_schedule.specs.Halves.{HaveLength, half_sum};
ghost use Rattle.row_schedule.specs.Moving.{IsHold};

use crate::builder::Order;
use crate::halves::Halves;
use crate::kept::Hold;
use crate::making::{
    add_narrow, add_narrow_wide, add_wide, add_wide_narrow, add_widened, copy_narrow, copy_wide,
};
use crate::reading::{row_is_narrow, tail};
use crate::samples::Samples;
use crate::step::{Kind, Step};
use crate::stores::{Sizes, Stores};
use row_model::Rows;
use std::marker::Model;

/// Steps that make the rows of the next spectra. `Builder::finish` lays it.
#[derive(Drop)]
pub struct Schedule {
    pub(crate) channels: usize,
    pub(crate) chunk: usize,
    pub(crate) most: usize,
    pub(crate) narrow: Vec<bool>,
    pub(crate) slots: Vec<bool>,
    pub(crate) orders: Vec<Order>,
    pub(crate) places: Vec<usize>,
    pub(crate) held: Vec<usize>,
    pub(crate) steps: Vec<Step>,
    pub(crate) narrow_size: usize,
    pub(crate) wide_size: usize,
    pub(crate) kept_narrow_size: usize,
    pub(crate) kept_wide_size: usize,
}

impl Model for Schedule {
    ghost use Rattle.row_schedule.specs.Schedules.{Scheduled, scheduled};
    ghost use Rattle.row_schedule.specs.Steps.{IsSafe};

    ghost Value = { Scheduled };

    ghost view = { λ s. scheduled s.channels s.chunk s.most s.narrow.items s.slots.items s.orders.items
        s.places.items s.held.items s.steps.items s.narrow_size s.wide_size s.kept_narrow_size
        s.kept_wide_size };

    ghost invariant = { λ s. IsSafe (scheduled s.channels s.chunk s.most s.narrow.items s.slots.items
        s.orders.items s.places.items s.held.items s.steps.items s.narrow_size s.wide_size
        s.kept_narrow_size s.kept_wide_size) };
}

impl Schedule {
    /// How many values each of the lists must have at least.
    pub fn sizes(&self) -> Sizes
        ensures narrow { result.narrow ≡ self.now.narrow_size }
        ensures wide { result.wide ≡ self.now.wide_size }
        ensures kept_narrow { result.kept_narrow ≡ self.now.kept_narrow_size }
        ensures kept_wide { result.kept_wide ≡ self.now.kept_wide_size }
    {
        Sizes {
            narrow: self.narrow_size,
            wide: self.wide_size,
            kept_narrow: self.kept_narrow_size,
            kept_wide: self.kept_wide_size,
        }
    }

    // Where the values stand that are kept of row `row`.
    pub(crate) fn hold(&self, rows: &Rows, row: usize) -> Hold
        requires follows { Follows rows.now self.now }
        requires row { row < row_count rows.now }
        ensures { IsHold rows.now self.now.narrow row result }
    {
        Hold {
            narrow: row_is_narrow(&self.narrow, row),
            at: self.held[row],
            size: tail(rows, row) as usize,
        }
    }

    /// The number of orders.
    pub fn orders(&self) -> usize
        ensures { result ≡ length self.now.orders }
    {
        self.orders.len()
    }

    // Order `j`.
    fn order(&self, j: usize) -> Order
        requires { j < length self.now.orders }
        ensures { result ≡ order_at self.now.orders j }
    {
        self.orders[j]
    }

    // Law: each step reads and writes within the lists. It does nothing.
    fn holds(&self)
        ensures { IsSafe self.now }
    {
        let _ = &self.steps;
    }

    // Where slot `slot` begins.
    fn place(&self, slot: usize) -> usize
        requires { slot < length self.now.slots }
        ensures { result ≡ slice_index self.now.places slot }
    {
        self.places[slot]
    }

    // Carries out step `j`.
    #[inline(always)]
    fn make(&self, j: usize, stores: &mut Stores, samples: Samples<'_>, spectra: usize)
        requires step { j < length self.now.orders }
        requires room { HaveRoom self.now stores.old }
        requires short { spectra ≤ self.now.most }
        requires samples { self.now.channels * self.now.chunk
            ≤ length (values_of samples) + (self.now.chunk - spectra) }
        ensures long { AreAsLong stores.old stores.new }
        ensures made { StepMade (step_at self.now.steps j).kind (step_at self.now.steps j) spectra
            (values_of samples.entry) stores.old stores.new }
    {
        let step = self.steps[j];
        let Stores {
            narrow,
            wide,
            kept_narrow,
            kept_wide,
        } = stores;
        match step.kind {
            Kind::CopyNarrow => copy_narrow(step, narrow, kept_narrow, samples, spectra),
            Kind::CopyWide => copy_wide(step, wide, kept_wide, samples, spectra),
            Kind::AddNarrow => add_narrow(step, narrow, kept_narrow, spectra),
            Kind::AddWidened => add_widened(step, wide, kept_wide, narrow, spectra),
            Kind::AddWideNarrow => add_wide_narrow(step, wide, kept_wide, narrow, spectra),
            Kind::AddNarrowWide => add_narrow_wide(step, wide, kept_wide, narrow, spectra),
            Kind::AddWide => add_wide(step, wide, kept_wide, spectra),
        }
    }

    /// Carries out the orders from `from` up to, but without, `to`, over the next `spectra` spectra. The samples of
    /// channel `c`, the highest frequency first, begin at `c * chunk`. `samples` may end with the last sample used, so
    /// a slice that begins at a later spectrum can be passed. The lists have at least as many values as `sizes` says.
    pub fn run(
        &self,
        from: usize,
        to: usize,
        stores: &mut Stores,
        samples: Samples<'_>,
        spectra: usize,
    )
        requires begins { from ≤ to }
        requires ends { to ≤ length self.now.orders }
        requires room { HaveRoom self.now stores.old }
        requires short { spectra ≤ self.now.most }
        requires samples { self.now.channels * self.now.chunk
            ≤ length (values_of samples) + (self.now.chunk - spectra) }
        ensures long { AreAsLong stores.old stores.new }
        ensures runs { (rows : Rows) (x : ℕ → ℕ → ℕ) (y : Sums) (u : ℕ) → Follows rows self.now
            → AddUp rows.sources.items x y → Fit self.now.narrow y (u + spectra)
            → AreNext x self.now.channels self.now.chunk u spectra (values_of samples.entry)
            → Running rows self.now y u spectra from stores.old
            → Running rows self.now y u spectra to stores.new }
        ensures stands { (rows : Rows) (x : ℕ → ℕ → ℕ) (y : Sums) (u : ℕ) → Follows rows self.now
            → AddUp rows.sources.items x y → Fit self.now.narrow y (u + spectra)
            → AreNext x self.now.channels self.now.chunk u spectra (values_of samples.entry)
            → Running rows self.now y u spectra from stores.old
            → from < to → Stands rows self.now y u spectra stores.new (to - 1) }
    {
        for j in from..to {
            self.make(j, stores, samples, spectra);
        }
    }

    /// The two rows of 16 bits whose sum is the 32-bit row of order `order`, which is to be carried out next: their
    /// values of the next spectra. `None` if that row is made of anything else.
    pub fn halves<'a>(&self, order: usize, stores: &'a Stores, spectra: usize) -> Option<Halves<'a>>
        requires order { order < length self.now.orders }
        requires room { HaveRoom self.now stores.now }
        requires short { spectra ≤ self.now.most }
        ensures long { IfSome result (HaveLength spectra) }
        ensures sums { IfSome result (λ halves. (rows : Rows) (x : ℕ → ℕ → ℕ) (y : Sums) (u k : ℕ)
            → Follows rows self.now → AddUp rows.sources.items x y
            → Fit self.now.narrow y (u + spectra)
            → Running rows self.now y u spectra order stores.now → k < spectra
            → half_sum halves k ≡ y (order_at self.now.orders order).row (u + k) 0) }
    {
        let step = self.steps[order];
        match step.kind {
            Kind::AddWidened => Some(Halves::of(stores.narrow(), step.upper, step.lower, spectra)),
            _ => None,
        }
    }

    /// The values of the next spectra in the row of order `order`, which has 32 bits and stands in its slot.
    pub fn row<'a>(
        &self,
        rows: &Rows,
        stores: &'a Stores,
        order: usize,
        spectra: usize,
    ) -> &'a [u32]
        requires follows { Follows rows.now self.now }
        requires order { order < length self.now.orders }
        requires width { is_narrow self.now.narrow (order_at self.now.orders order).row ≡ false }
        requires room { self.now.wide_size ≤ length stores.now.wide }
        requires short { spectra ≤ self.now.most }
        ensures long { length result.now ≡ spectra }
        ensures values { (x : ℕ → ℕ → ℕ) (y : Sums) (u k : ℕ) (st : Stores)
            → AddUp rows.now.sources.items x y → st.wide ≡ stores.now.wide
            → Stands rows.now self.now y u spectra st order
            → k < spectra → slice_index result.now k
            ≡ y (order_at self.now.orders order).row (u + k) 0 % 2 ^ 32 }
    {
        self.holds();
        let Order { row, slot } = self.order(order);
        let wide = stores.wide();
        let at = self.place(slot as usize) + tail(rows, row as usize) as usize;
        &wide[at..at + spectra]
    }
}
