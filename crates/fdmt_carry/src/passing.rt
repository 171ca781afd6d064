// The schedule of a pass, which makes the rows of the whole band one after another.
ghost use Rattle.std.specs.Prelude.{◌≡◌, ℕ, ◌+◌, ◌-◌, ◌*◌, ◌^◌, ◌≤◌, ◌<◌, true, false, length, IfOk, IfSome};
ghost use Rattle.dada_model.specs.Bounds.{most_delay};
ghost use Rattle.dada_model.specs.Edges.{most_channels};
ghost use Rattle.subband_plan.specs.Rows.{ArePlanRows};
ghost use Rattle.fdmt_carry.specs.Orders.{AreLow, AreParts, AreStops, IsStop};
ghost use Rattle.fdmt_carry.specs.Leaving.{AreMadeOfLater, IsMadeOfLater, KeepNothing};
ghost use Rattle.fdmt_carry.specs.Passing.{BandRowsAreLast};

use crate::building::schedule_of;
use crate::draft::Draft;
use crate::numbers::{row_number, whole_band};
use crate::plain::{plain_schedule, plain_stops};
use psr_base::Memory;
use row_model::Source;
use row_schedule::{Order, Schedule};
use std::alloc::Global;
use subband_plan::{Node, Plan, PlanRows};

// A sum below this fits into 16 bits.
const NARROW_SUMS: u32 = 65536;

// The smallest limit of a first pass. Samples that had 4 bits or fewer stay below it, and so does noise of a small
// mean.
const LEAST_LIMIT: u32 = 40;

/// A pass.
#[derive(Drop)]
pub struct Passing {
    /// The schedule of all rows.
    pub schedule: Schedule,
    /// The stops: 0, and for each row of the whole band the number of orders that are carried out once it is made.
    pub stops: Vec<usize>,
    /// Whether rows of the whole band can be left out.
    pub can_leave_out: bool,
}

impl Passing {
    ghost use Rattle.fdmt_carry.specs.Passing.{IsPass};

    /// The pass over the rows of a plan, for samples up to `limit`. It is the drafted one, or the plain one if the
    /// draft can't be carried out or doesn't make the rows of the whole band by their delays. No clause says which.
    pub fn of(
        alloc: Global,
        plan: &Plan,
        rows: &PlanRows,
        chunk: u32,
        limit: u32,
    ) -> Result<Passing, Memory>
        requires rows { ArePlanRows plan.now rows.now }
        requires short { chunk ≤ 65536 }
        ensures { IfOk result (λ pass. IsPass plan.now rows.now chunk limit pass) }
    {
        let narrow = narrow_rows(alloc, plan, rows, limit)?;
        let draft = Draft::of(alloc, plan.all_nodes(), rows, narrow.as_slice())?;
        match Passing::drafted(alloc, plan, rows, chunk, narrow, draft)? {
            Some(pass) => Ok(pass),
            None => Passing::plain(alloc, plan, rows, chunk),
        }
    }

    // The pass of a draft, or `None` if the draft can't be used.
    fn drafted(
        alloc: Global,
        plan: &Plan,
        rows: &PlanRows,
        chunk: u32,
        narrow: Vec<bool>,
        draft: Draft,
    ) -> Result<Option<Passing>, Memory>
        requires rows { ArePlanRows plan.now rows.now }
        requires short { chunk ≤ 65536 }
        requires parts { AreParts rows.now narrow.items }
        ensures { (m : ℕ) → AreLow plan.now rows.now narrow.items m → IfOk result
            (λ made. IfSome made (λ pass. IsPass plan.now rows.now chunk m pass)) }
    {
        let Draft {
            orders,
            slots,
            stops,
        } = draft;
        if !are_stops(plan, rows, orders.as_slice(), stops.as_slice()) {
            return Ok(None);
        }
        let channels = (plan.edges().len() - 1) as u32;
        let made = schedule_of(
            alloc,
            &rows.rows,
            narrow,
            slots,
            orders.as_slice(),
            channels,
            chunk,
            chunk,
        )?;
        match made {
            Some(schedule) => Ok(Some(Passing {
                schedule,
                stops,
                can_leave_out: are_last(plan, rows),
            })),
            None => Ok(None),
        }
    }

    // The plain pass, which makes the rows of the whole band last.
    fn plain(alloc: Global, plan: &Plan, rows: &PlanRows, chunk: u32) -> Result<Passing, Memory>
        requires rows { ArePlanRows plan.now rows.now }
        requires short { chunk ≤ 65536 }
        ensures { (m : ℕ) → IfOk result (λ pass. IsPass plan.now rows.now chunk m pass) }
    {
        let schedule = plain_schedule(alloc, plan, rows, chunk, chunk)?;
        Ok(Passing {
            schedule,
            stops: plain_stops(alloc, plan, rows)?,
            can_leave_out: are_last(plan, rows),
        })
    }
}

// Whether the row of `delay` of node `k` has 16 bits: all its sums fit, and it is no row of the whole band. `node` is
// node `k`.
fn is_low(k: usize, node: Node, delay: u32, limit: u32) -> bool
    requires order { node.lo ≤ node.hi }
    requires channels { node.hi ≤ most_channels }
    requires delays { delay ≤ most_delay }
    ensures part { result ≡ true → 0 < k }
    ensures low { result ≡ true → limit * (node.hi - node.lo + delay) < 2 ^ 16 }
{
    let cells = u64::from(node.hi - node.lo + delay);
    k > 0 && u64::from(limit) * cells < u64::from(NARROW_SUMS)
}

/// A limit of samples for a first pass. Up to it the sums of all rows but those of the whole band fit into 16 bits,
/// unless that limit would be too low to last: then it is raised, and fewer rows have 16 bits. Nothing rests on it: a
/// pass for samples up to any limit has rows as wide as they need.
pub fn narrow_limit(plan: &Plan) -> u32 {
    let nodes = plan.all_nodes();
    let mut cells = 1;
    for k in 1..nodes.len() {
        let channels = nodes[k].hi.saturating_sub(nodes[k].lo);
        cells = channels.saturating_add(nodes[k].last_row).max(cells);
    }
    match (NARROW_SUMS - 1).checked_div(cells) {
        Some(limit) => limit.max(LEAST_LIMIT),
        None => LEAST_LIMIT,
    }
}

// Which rows have 16 bits.
fn narrow_rows(alloc: Global, plan: &Plan, rows: &PlanRows, limit: u32) -> Result<Vec<bool>, Memory>
    requires rows { ArePlanRows plan.now rows.now }
    ensures low { IfOk result (λ narrow. AreLow plan.now rows.now narrow.items limit) }
    ensures parts { IfOk result (λ narrow. AreParts rows.now narrow.items) }
{
    let nodes = plan.all_nodes();
    let mut narrow = Vec::with_capacity(alloc, rows.nodes.len())?;
    for r in 0..rows.nodes.len() {
        let k = rows.nodes[r] as usize;
        narrow.push(is_low(k, nodes[k], rows.delays[r], limit))?;
    }
    Ok(narrow)
}

// Whether the last order before stop `i + 1` makes row `r`.
fn is_stop(orders: &[Order], stops: &[usize], i: usize, r: usize) -> bool
    requires { i + 1 < length stops.now }
    ensures { result ≡ true → IsStop orders.now stops.now i r }
{
    let (from, to) = (stops[i], stops[i + 1]);
    from < to && to <= orders.len() && orders[to - 1].row as usize == r
}

// Whether nothing is kept of the rows 0..count.
fn keep_nothing(tails: &[u32], count: usize) -> bool
    requires { count ≤ length tails.now }
    ensures { result ≡ true → KeepNothing tails.now count }
{
    for r in 0..count {
        if tails[r] > 0 {
            return false;
        }
    }
    true
}

// Whether a row is made of any of the rows 0..count.
fn is_made_of_first(source: Source, count: usize) -> bool
    ensures { result ≡ false → IsMadeOfLater source count }
{
    match source {
        Source::Channel(_) => false,
        Source::Sum(merge) => (merge.upper as usize) < count || (merge.lower as usize) < count,
    }
}

// Whether no row is made of any of the rows 0..count.
fn are_made_of_later(sources: &[Source], count: usize) -> bool
    ensures { result ≡ true → AreMadeOfLater sources.now (length sources.now) count }
{
    for r in 0..sources.len() {
        if is_made_of_first(sources[r], count) {
            return false;
        }
    }
    true
}

// Whether no row is made of a row of the whole band, and nothing is kept of these. Their numbers come first.
fn are_last(plan: &Plan, rows: &PlanRows) -> bool
    requires rows { ArePlanRows plan.now rows.now }
    ensures { result ≡ true → BandRowsAreLast plan.now rows.now }
{
    let band = whole_band(plan);
    let count = row_number(plan, rows, 0, band.last_row) + 1;
    keep_nothing(rows.rows.tails.as_slice(), count)
        && are_made_of_later(rows.rows.sources.as_slice(), count)
}

// Whether `stops` are the stops of all rows of the whole band.
fn are_stops(plan: &Plan, rows: &PlanRows, orders: &[Order], stops: &[usize]) -> bool
    requires rows { ArePlanRows plan.now rows.now }
    ensures { result ≡ true → AreStops plan.now rows.now orders.now stops.now }
{
    let band = whole_band(plan);
    let count = (band.last_row - band.first_row) as usize + 1;
    if stops.len() != count + 1 || stops[0] != 0 || stops[count] != orders.len() {
        return false;
    }
    for d in band.first_row..band.last_row + 1 {
        let i = (d - band.first_row) as usize;
        if !is_stop(orders, stops, i, row_number(plan, rows, 0, d)) {
            return false;
        }
    }
    true
}
