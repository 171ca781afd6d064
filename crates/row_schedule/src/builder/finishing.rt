// Lays the slots and the steps of a schedule for the orders that were taken.
ghost use Rattle.std.specs.Prelude.{◌≡◌, ℕ, ◌+◌, ◌*◌, ◌^◌, ◌<◌, ◌≤◌, ◌↔◌, true, false, IsTrue, IsSome, IfOk, IfSome, Ok, Some, None, length, slice_get, slice_index};
ghost use Rattle.row_model.specs.declared.Source.TheVariants.{Sum};
ghost use Rattle.row_model.specs.Sums.{is_narrow};
ghost use Rattle.row_model.specs.Tails.{AreRows, row_count};
ghost use Rattle.row_schedule.specs.Orders.{MakeAll, order_at};
ghost use Rattle.row_schedule.specs.Marks.{slot_of};
ghost use Rattle.row_schedule.specs.Schedules.{IsInOrder, HasParts};
ghost use Rattle.row_schedule.specs.Layout.{HasHolds, IsLaid, tail_of};
ghost use Rattle.row_schedule.specs.Follows.{Follows, IsStep, AreSteps};
ghost use Rattle.row_schedule.specs.Steps.{makes_narrow, copies, upper_narrow, lower_narrow};

use super::{Builder, Order};
use crate::layout::{Layout, slot_sizes};
use crate::marks::slot_found;
use crate::reading::{source, tail};
use crate::schedule::Schedule;
use crate::step::{Kind, Step};
use psr_base::Memory;
use row_model::{Merge, Rows, Source};
use std::alloc::Global;

// The kind of step that copies samples.
fn copy_kind(narrow: bool) -> Kind
    ensures copies { copies result ≡ true }
    ensures width { makes_narrow result ≡ narrow }
{
    if narrow {
        return Kind::CopyNarrow;
    }
    Kind::CopyWide
}

// The kind of step that adds two rows. A row of 16 bits is always the sum of two rows of 16 bits.
fn sum_kind(narrow: bool, upper: bool, lower: bool) -> Kind
    requires upper { narrow ≡ true → upper ≡ true }
    requires lower { narrow ≡ true → lower ≡ true }
    ensures adds { copies result ≡ false }
    ensures width { makes_narrow result ≡ narrow }
    ensures upper { upper_narrow result ≡ upper }
    ensures lower { lower_narrow result ≡ lower }
{
    match (narrow, upper, lower) {
        (true, _, _) => Kind::AddNarrow,
        (false, true, true) => Kind::AddWidened,
        (false, false, true) => Kind::AddWideNarrow,
        (false, true, false) => Kind::AddNarrowWide,
        (false, false, false) => Kind::AddWide,
    }
}

impl Builder {
    // Whether every row of which something is kept was made.
    fn makes_all(&self, rows: &Rows) -> bool
        requires { length rows.now.tails.items ≡ row_count rows.now }
        ensures { IsTrue result ↔ MakeAll rows.now self.now.orders }
    {
        for r in 0..rows.tails.len() {
            if rows.tails[r] > 0 && !self.was_made(r) {
                return false;
            }
        }
        true
    }

    // Order `j`.
    fn order(&self, j: usize) -> Order
        requires { j < length self.now.orders }
        ensures { result ≡ order_at self.now.orders j }
    {
        self.orders[j]
    }

    // The place in the list at which the values of the next spectra begin, for a row that was made.
    fn begins_at(&self, rows: &Rows, places: &[usize], row: usize) -> usize
        requires rows { (c : ℕ) × AreRows c rows.now }
        requires row { row < row_count rows.now }
        requires made { (slot : ℕ) × (slot_of self.now.orders (length self.now.orders) row
            ≡ Some slot) × (slot < length places.now) }
        requires short { (s : ℕ) → slice_index places.now s ≤ 2 ^ 50 }
        ensures { (slot : ℕ) → slot_of self.now.orders (length self.now.orders) row ≡ Some slot
            → result ≡ slice_index places.now slot + tail_of rows.now row }
    {
        let slot = slot_found(&self.found, row).unwrap();
        places[slot as usize] + tail(rows, row) as usize
    }

    // The step that carries out order `j`, whose row is the sum of two others.
    fn sum_step(
        &self,
        rows: &Rows,
        places: &[usize],
        held: &[usize],
        j: usize,
        merge: Merge,
    ) -> Step
        requires rows { (c : ℕ) × AreRows c rows.now }
        requires order { IsInOrder rows.now self.now }
        requires places { length places.now ≡ length self.now.slots }
        requires near { (s : ℕ) → slice_index places.now s ≤ 2 ^ 50 }
        requires held { HasHolds rows.now self.now.narrow held.now }
        requires number { j < length self.now.orders }
        requires source { slice_get rows.now.sources.items (order_at self.now.orders j).row
            ≡ Some (Sum merge) }
        ensures { (chunk : ℕ) → IsStep rows.now self.now.narrow self.now.orders places.now chunk j
            result }
    {
        let order = self.order(j);
        let row = order.row as usize;
        let narrow = self.is_narrow(order.row);
        let upper_narrow = self.is_narrow(merge.upper);
        let lower_narrow = self.is_narrow(merge.lower);
        Step {
            kind: sum_kind(narrow, upper_narrow, lower_narrow),
            tail: tail(rows, row),
            out: places[order.slot as usize],
            hold: held[row],
            upper: self.begins_at(rows, places, merge.upper as usize) - merge.late as usize,
            lower: self.begins_at(rows, places, merge.lower as usize),
        }
    }

    // The step that carries out order `j`.
    fn step(&self, rows: &Rows, places: &[usize], held: &[usize], chunk: usize, j: usize) -> Step
        requires rows { (c : ℕ) × AreRows c rows.now }
        requires order { IsInOrder rows.now self.now }
        requires places { length places.now ≡ length self.now.slots }
        requires near { (s : ℕ) → slice_index places.now s ≤ 2 ^ 50 }
        requires held { HasHolds rows.now self.now.narrow held.now }
        requires short { chunk ≤ 65536 }
        requires number { j < length self.now.orders }
        ensures { IsStep rows.now self.now.narrow self.now.orders places.now chunk j result }
    {
        let order = self.order(j);
        let row = order.row as usize;
        match source(rows, row) {
            Source::Channel(channel) => {
                let narrow = self.is_narrow(order.row);
                Step {
                    kind: copy_kind(narrow),
                    tail: tail(rows, row),
                    out: places[order.slot as usize],
                    hold: held[row],
                    upper: channel as usize * chunk,
                    lower: 0,
                }
            }
            Source::Sum(merge) => self.sum_step(rows, places, held, j, merge),
        }
    }

    // The steps that carry out all orders.
    fn steps(
        &self,
        alloc: Global,
        rows: &Rows,
        places: &[usize],
        held: &[usize],
        chunk: usize,
    ) -> Result<Vec<Step>, Memory>
        requires rows { (c : ℕ) × AreRows c rows.now }
        requires order { IsInOrder rows.now self.now }
        requires places { length places.now ≡ length self.now.slots }
        requires near { (s : ℕ) → slice_index places.now s ≤ 2 ^ 50 }
        requires held { HasHolds rows.now self.now.narrow held.now }
        requires short { chunk ≤ 65536 }
        ensures entries { IfOk result (λ steps. length steps.items ≡ length self.now.orders) }
        ensures steps { IfOk result (λ steps. AreSteps rows.now self.now.narrow self.now.orders
            places.now chunk steps.items) }
    {
        let mut steps = Vec::with_capacity(alloc, self.orders.len())?;
        for j in 0..self.orders.len() {
            steps.push(self.step(rows, places, held, chunk, j))?;
        }
        Ok(steps)
    }

    // Places the slots, for at most `most` spectra at a time.
    fn lay(&self, alloc: Global, rows: &Rows, most: usize) -> Result<Layout, Memory>
        requires rows { (c : ℕ) × AreRows c rows.now }
        requires order { IsInOrder rows.now self.now }
        requires short { most ≤ 65536 }
        ensures { IfOk result (λ l. IsLaid rows.now self.now most l.places.items l.narrow_size
            l.wide_size) }
    {
        let sizes = slot_sizes(alloc, rows, &self.orders, self.slots.len(), most)?;
        let layout = Layout::of(alloc, &self.slots, &sizes)?;
        Ok(layout)
    }

    /// Lays the slots and the steps, for at most `most` spectra at a time. The samples of one of the `channels`
    /// channels begin `chunk` places after those of the one before. Answers `None` if a row of which something is kept
    /// is not made.
    pub fn finish(
        self,
        alloc: Global,
        rows: &Rows,
        channels: u32,
        chunk: u32,
        most: u32,
    ) -> Result<Option<Schedule>, Memory>
        requires rows { AreRows channels rows.now }
        requires order { IsInOrder rows.now self }
        requires short { chunk ≤ 65536 }
        requires within { most ≤ chunk }
        ensures all { IfOk result (λ made. IsSome made ↔ MakeAll rows.now self.orders) }
        ensures parts { IfOk result
            (λ made. IfSome made (λ s. HasParts self channels chunk most s)) }
        ensures follows { IfOk result (λ made. IfSome made (λ s. Follows rows.now s)) }
    {
        if !self.makes_all(rows) {
            return Ok(None);
        }
        let apart = chunk as usize;
        let room = most as usize;
        let layout = self.lay(alloc, rows, room)?;
        let kept = Layout::of_kept(alloc, rows, &self.narrow)?;
        let steps = self.steps(alloc, rows, &layout.places, &kept.places, apart)?;
        let Layout {
            places,
            narrow_size,
            wide_size,
        } = layout;
        let Layout {
            places: held,
            narrow_size: kept_narrow_size,
            wide_size: kept_wide_size,
        } = kept;
        let Builder {
            narrow,
            slots,
            orders,
            marks: _,
            found: _,
        } = self;
        Ok(Some(Schedule {
            channels: channels as usize,
            chunk: apart,
            most: room,
            narrow,
            slots,
            orders,
            places,
            held,
            steps,
            narrow_size,
            wide_size,
            kept_narrow_size,
            kept_wide_size,
        }))
    }
}
