// Takes orders one by one, and checks each.
ghost use Rattle.std.specs.Prelude.{◌≡◌, ℕ, ◌+◌, ◌<◌, ◌++◌, ◌∷◌, [], ◌↔◌, IsTrue, IfOk, OnErr, Ok, true, false, length};
ghost use Rattle.row_model.specs.Sums.{is_narrow};
ghost use Rattle.row_model.specs.Tails.{AreRows};
ghost use Rattle.row_schedule.specs.Orders.{IsReady, StandsBeside, is_made};
ghost use Rattle.row_schedule.specs.Marks.{HasBoth, HasWidth};
ghost use Rattle.row_schedule.specs.Schedules.{building, IsInOrder};

mod finishing;

use crate::marks::{has_row, reach, slot_found, unmarked};
use crate::reading::{find_source, row_is_narrow};
use psr_base::Memory;
use row_model::{Merge, Rows, Source};
use std::alloc::Global;
use std::marker::Model;

// The maximum number of slots: as many as there may be rows.
const MOST_SLOTS: usize = 134217728;

/// An order to make a row in a slot.
#[derive(Clone, Copy, PartialEq, Eq, Debug)]
pub struct Order {
    /// The number of the row.
    pub row: u32,
    /// The number of the slot.
    pub slot: u32,
}

/// The orders taken so far. Each can be carried out after those before it.
#[derive(Drop)]
pub struct Builder {
    narrow: Vec<bool>,
    slots: Vec<bool>,
    orders: Vec<Order>,
    marks: Vec<Option<u32>>,
    found: Vec<Option<u32>>,
}

impl Model for Builder {
    ghost use Rattle.row_schedule.specs.Schedules.{Building, building};
    ghost use Rattle.row_schedule.specs.Marks.{AreMarked};

    ghost Value = { Building };

    ghost view = { λ b. building b.narrow.items b.slots.items b.orders.items };

    ghost invariant = { λ b. AreMarked (building b.narrow.items b.slots.items b.orders.items)
        b.marks.items b.found.items };
}

impl Builder {
    /// A builder without orders. `narrow` tells which rows have 16 bits, `slots` which slots are for such rows. More
    /// than 2^27 slots are refused with `Memory`.
    pub fn open(
        alloc: Global,
        rows: &Rows,
        narrow: Vec<bool>,
        slots: Vec<bool>,
    ) -> Result<Builder, Memory>
        requires { (c : ℕ) × AreRows c rows.now }
        ensures { IfOk result (λ b. b ≡ building narrow.items slots.items []) }
    {
        if slots.len() > MOST_SLOTS {
            return Err(Memory);
        }
        let marks = unmarked(alloc, slots.len())?;
        let found = unmarked(alloc, rows.sources.len())?;
        Ok(Builder {
            narrow,
            slots,
            orders: Vec::new(alloc),
            marks,
            found,
        })
    }

    // Whether row `row` has 16 bits.
    fn is_narrow(&self, row: u32) -> bool
        ensures { result ≡ is_narrow self.now.narrow row }
    {
        row_is_narrow(&self.narrow, row as usize)
    }

    // Whether row `row` stands in a slot other than `slot`.
    fn stands_beside(&self, slot: u32, row: u32) -> bool
        ensures { IsTrue result
            ↔ StandsBeside self.now.orders (length self.now.orders) slot row }
    {
        match slot_found(&self.found, row as usize) {
            Some(place) => place != slot && has_row(&self.marks, place, row),
            None => false,
        }
    }

    // Whether both rows of `merge` stand in slots other than that of the order. A row of 16 bits needs two of 16 bits.
    fn has_both(&self, order: Order, merge: Merge) -> bool
        ensures { IsTrue result ↔ HasBoth self.now order merge }
    {
        if self.is_narrow(order.row)
            && !(self.is_narrow(merge.upper) && self.is_narrow(merge.lower))
        {
            return false;
        }
        self.stands_beside(order.slot, merge.upper) && self.stands_beside(order.slot, merge.lower)
    }

    // Whether row `row` was made.
    fn was_made(&self, row: usize) -> bool
        ensures { result ≡ is_made self.now.orders (length self.now.orders) row }
    {
        slot_found(&self.found, row).is_some()
    }

    // Whether the slot of an order exists and is as wide as its row.
    fn has_width(&self, order: Order) -> bool
        ensures { IsTrue result ↔ HasWidth self.now order }
    {
        match self.slots.get(order.slot as usize) {
            Some(narrow) => *narrow == self.is_narrow(order.row),
            None => false,
        }
    }

    // Whether an order can be carried out next.
    fn is_ready(&self, rows: &Rows, order: Order) -> bool
        ensures { IsTrue result ↔ IsReady rows.now self.now.narrow self.now.slots self.now.orders
            (length self.now.orders) order }
    {
        let Some(source) = find_source(rows, order.row as usize) else {
            return false;
        };
        if !self.has_width(order) {
            return false;
        }
        if self.was_made(order.row as usize) {
            return false;
        }
        match source {
            Source::Channel(_) => true,
            Source::Sum(merge) => self.has_both(order, merge),
        }
    }

    /// Takes an order if it can be carried out next, and answers whether it can.
    pub fn add(&mut self, rows: &Rows, order: Order) -> Result<bool, Memory>
        ensures exact { IfOk result (λ taken. IsTrue taken ↔ IsReady rows.now self.old.narrow
            self.old.slots self.old.orders (length self.old.orders) order) }
        ensures taken { result ≡ Ok true → self.new
            ≡ building self.old.narrow self.old.slots (self.old.orders ++ order ∷ []) }
        ensures refused { result ≡ Ok false → self.new ≡ self.old }
        ensures fault { OnErr result (self.new ≡ self.old) }
        ensures in_order { IsInOrder rows.now self.old → IsInOrder rows.now self.new }
    {
        if !self.is_ready(rows, order) {
            return Ok(false);
        }
        let (row, slot) = (order.row as usize, order.slot as usize);
        reach(&mut self.found, order.row)?;
        self.orders.push(order)?;
        self.found[row] = Some(order.slot);
        self.marks[slot] = Some(order.row);
        Ok(true)
    }
}
