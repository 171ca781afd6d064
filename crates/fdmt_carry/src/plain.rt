// The plain order: from the last node to the first, the rows of each by rising delay, each in a slot of its own.
ghost use Rattle.std.specs.Prelude.{◌≡◌, ◌+◌, ◌-◌, ◌≤◌, ◌<◌, false, List, length, replicate, IfOk, OnOk};
ghost use Rattle.subband_plan.specs.Nodes.{IsPlan, nodes_of};
ghost use Rattle.subband_plan.specs.Rows.{ArePlanRows};
ghost use Rattle.fdmt_carry.specs.Orders.{ArePlain, AreStops, IsPlainlyMade};
ghost use Rattle.fdmt_carry.specs.Plain.{NodesAreMade};
ghost use Rattle.fdmt_carry.specs.Tables.{IsPlain};

use crate::building::schedule_of;
use crate::numbers::{place_in_order, row_number, whole_band};
use psr_base::Memory;
use row_schedule::{Order, Schedule};
use std::alloc::Global;
use subband_plan::{Plan, PlanRows, plans_are_laid, rows_are_numbered, rows_come_after};

// Appends the rows of node `k`.
fn order_node(plan: &Plan, rows: &PlanRows, k: usize, orders: &mut Vec<Order>) -> Result<(), Memory>
    requires plan { IsPlan plan.now }
    requires rows { ArePlanRows plan.now rows.now }
    requires node { k < length (nodes_of plan.now) }
    requires made { NodesAreMade plan.now rows.now (k + 1) orders.old.items }
    ensures { OnOk result (NodesAreMade plan.now rows.now k orders.new.items) }
{
    plans_are_laid();
    rows_are_numbered();
    rows_come_after();
    for r in rows.starts[k]..rows.starts[k + 1] {
        let number = r as u32;
        orders.push(Order {
            row: number,
            slot: number,
        })?;
    }
    Ok(())
}

// The plain order of all rows.
fn plain_orders(alloc: Global, plan: &Plan, rows: &PlanRows) -> Result<Vec<Order>, Memory>
    requires rows { ArePlanRows plan.now rows.now }
    ensures plain { IfOk result (λ orders. ArePlain plan.now rows.now orders.items) }
    ensures made { IfOk result (λ orders. IsPlainlyMade rows.now orders.items) }
{
    plans_are_laid();
    rows_are_numbered();
    let count = plan.nodes();
    let mut orders = Vec::with_capacity(alloc, rows.rows.sources.len())?;
    for done in 0..count {
        order_node(plan, rows, count - 1 - done, &mut orders)?;
    }
    Ok(orders)
}

// `count` times `false`: no row has 16 bits.
fn all_wide(alloc: Global, count: usize) -> Result<Vec<bool>, Memory>
    ensures items { IfOk result (λ narrow. narrow.items ≡ replicate count false) }
{
    Ok(vec![in alloc; false; count]?)
}

/// The schedule that makes all rows in the plain order, in 32 bits, of at most `most` spectra at a time.
pub fn plain_schedule(
    alloc: Global,
    plan: &Plan,
    rows: &PlanRows,
    chunk: u32,
    most: u32,
) -> Result<Schedule, Memory>
    requires rows { ArePlanRows plan.now rows.now }
    requires short { chunk ≤ 65536 }
    requires within { most ≤ chunk }
    ensures { IfOk result (λ s. IsPlain plan.now rows.now chunk most s) }
{
    let orders = plain_orders(alloc, plan, rows)?;
    let count = orders.len();
    let narrow = all_wide(alloc, count)?;
    let slots = all_wide(alloc, count)?;
    let channels = (plan.edges().len() - 1) as u32;
    match schedule_of(
        alloc,
        &rows.rows,
        narrow,
        slots,
        orders.as_slice(),
        channels,
        chunk,
        most,
    )? {
        Some(schedule) => Ok(schedule),
        None => unreachable!(),
    }
}

/// The stops of the plain order: 0, and for each row of the whole band the number of orders that are carried out once
/// it is made.
pub fn plain_stops(alloc: Global, plan: &Plan, rows: &PlanRows) -> Result<Vec<usize>, Memory>
    requires rows { ArePlanRows plan.now rows.now }
    ensures { IfOk result (λ stops. (orders : List Order) → ArePlain plan.now rows.now orders
        → AreStops plan.now rows.now orders stops.items) }
{
    plans_are_laid();
    rows_are_numbered();
    let band = whole_band(plan);
    let mut stops = Vec::with_capacity(alloc, (band.last_row - band.first_row) as usize + 2)?;
    stops.push(0)?;
    for d in band.first_row..band.last_row + 1 {
        let r = row_number(plan, rows, 0, d);
        stops.push(place_in_order(plan, rows, 0, r) + 1)?;
    }
    Ok(stops)
}
