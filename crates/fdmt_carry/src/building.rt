// Builds a schedule from orders, each of which is checked.
ghost use Rattle.std.specs.Prelude.{◌≤◌, ◌<◌, ◌≢◌, IfOk, IfSome, None};
ghost use Rattle.row_model.specs.Tails.{AreRows};
ghost use Rattle.row_schedule.specs.Orders.{AreInOrder, MakeAll};
ghost use Rattle.row_schedule.specs.Schedules.{HasParts, building};
ghost use Rattle.row_schedule.specs.Follows.{Follows};

use psr_base::Memory;
use row_model::Rows;
use row_schedule::{Builder, Order, Schedule};
use std::alloc::Global;

/// A schedule of `orders`, for `channels` channels and at most `most` spectra at a time. The samples of a channel begin
/// `chunk` places after those of the channel before. `None` if the orders can't be carried out one after another, or if
/// they don't make a row of which something is kept.
pub fn schedule_of(
    alloc: Global,
    rows: &Rows,
    narrow: Vec<bool>,
    slots: Vec<bool>,
    orders: &[Order],
    channels: u32,
    chunk: u32,
    most: u32,
) -> Result<Option<Schedule>, Memory>
    requires rows { AreRows channels rows.now }
    requires short { chunk ≤ 65536 }
    requires within { most ≤ chunk }
    ensures parts { IfOk result (λ made. IfSome made (λ s.
        HasParts (building narrow.items slots.items orders.now) channels chunk most s)) }
    ensures follows { IfOk result (λ made. IfSome made (λ s. Follows rows.now s)) }
    ensures all { IfOk result (λ made. AreInOrder rows.now narrow.items slots.items orders.now
        → MakeAll rows.now orders.now → made ≢ None) }
{
    let mut builder = Builder::open(alloc, rows, narrow, slots)?;
    for i in 0..orders.len() {
        if !builder.add(rows, orders[i])? {
            return Ok(None);
        }
    }
    builder.finish(alloc, rows, channels, chunk, most)
}
