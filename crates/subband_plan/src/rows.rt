// The rows of a plan that are carried from chunk to chunk.
ghost use Rattle.std.specs.Prelude.{◌≡◌, ℕ, ◌+◌, ◌<◌, List, length, slice_index, IfOk};
ghost use Rattle.subband_plan.specs.NodeLaws.{AreLaid};
ghost use Rattle.subband_plan.specs.Rows.{AreStarts, AreTails};
ghost use Rattle.subband_plan.specs.Making.{AreLabels, AreLabelled, AreWithin};

use crate::laws::rows_are_numbered;
use crate::nodes::Node;
use crate::plan::Plan;
use crate::sources::make_rows;
use psr_base::Memory;
use row_model::{Rows, Source};
use std::alloc::Global;

// Tails are rounded up to multiples of this: the number of 16-bit values of a vector, and of 32-bit values of a cache
// line. If chunks are such multiples too, rows begin at whole vectors of their slots, and tails are copied in whole
// vectors.
const LANES: u32 = 16;

/// All rows of a plan. They are numbered node by node, and those of a node by rising delay. The rows of nodes of one
/// and two channels begin at delay 0, because each is made of the one before.
#[derive(Drop)]
pub struct PlanRows {
    /// For each node, the number of its first row; at the end, the number of all rows.
    pub starts: Vec<usize>,
    /// For each row, the number of its node.
    pub nodes: Vec<u32>,
    /// For each row, its delay in spectra.
    pub delays: Vec<u32>,
    /// What each row is made of, and how much of it is kept.
    pub rows: Rows,
}

impl PlanRows {
    ghost use Rattle.subband_plan.specs.Rows.{ArePlanRows};

    /// All rows of a plan.
    pub fn of(alloc: Global, plan: &Plan) -> Result<PlanRows, Memory>
        ensures { IfOk result (λ rows. ArePlanRows plan.now rows) }
    {
        rows_are_numbered();
        let edges = plan.edges();
        let nodes = plan.all_nodes();
        let starts = start_rows(alloc, nodes)?;
        let labels = label_rows(alloc, nodes, starts.as_slice())?;
        let delays = delay_rows(alloc, nodes, starts.as_slice(), labels.as_slice())?;
        let sources = make_rows(
            alloc,
            edges,
            nodes,
            starts.as_slice(),
            labels.as_slice(),
            delays.as_slice(),
        )?;
        let tails = keep_tails(alloc, sources.as_slice())?;
        Ok(PlanRows {
            starts,
            nodes: labels,
            delays,
            rows: Rows { sources, tails },
        })
    }
}

// The number of each node's first row.
fn start_rows(alloc: Global, nodes: &[Node]) -> Result<Vec<usize>, Memory>
    requires { (edges : List ℕ) × AreLaid edges nodes.now }
    ensures { IfOk result (λ starts. AreStarts nodes.now starts.items) }
{
    let mut starts = Vec::with_capacity(alloc, nodes.len() + 1)?;
    let mut start = 0;
    starts.push(start)?;
    for node in nodes {
        start += (node.last_row + 1 - node.least_row()) as usize;
        starts.push(start)?;
    }
    Ok(starts)
}

// The number of each row's node.
fn label_rows(alloc: Global, nodes: &[Node], starts: &[usize]) -> Result<Vec<u32>, Memory>
    requires laid { (edges : List ℕ) × AreLaid edges nodes.now }
    requires starts { AreStarts nodes.now starts.now }
    ensures { IfOk result (λ labels. AreLabels nodes.now starts.now
        (slice_index starts.now (length nodes.now)) labels.items) }
{
    rows_are_numbered();
    let mut labels = Vec::with_capacity(alloc, starts[nodes.len()])?;
    for k in 0..nodes.len() {
        labels.resize(starts[k + 1], k as u32)?;
    }
    Ok(labels)
}

// The delay of each row.
fn delay_rows(
    alloc: Global,
    nodes: &[Node],
    starts: &[usize],
    labels: &[u32],
) -> Result<Vec<u32>, Memory>
    requires laid { (edges : List ℕ) × AreLaid edges nodes.now }
    requires starts { AreStarts nodes.now starts.now }
    requires labels { AreLabels nodes.now starts.now
        (slice_index starts.now (length nodes.now)) labels.now }
    ensures entries { IfOk result (λ delays. length delays.items ≡ length labels.now) }
    ensures labelled { IfOk result (λ delays.
        AreLabelled nodes.now starts.now labels.now delays.items) }
{
    let mut delays = Vec::with_capacity(alloc, labels.len())?;
    for r in 0..labels.len() {
        let k = labels[r] as usize;
        delays.push(nodes[k].least_row() + (r - starts[k]) as u32)?;
    }
    Ok(delays)
}

// How many values are kept of each row.
fn keep_tails(alloc: Global, sources: &[Source]) -> Result<Vec<u32>, Memory>
    requires within { (channels : ℕ) × AreWithin channels (length sources.now) sources.now }
    ensures tails { IfOk result (λ tails. AreTails sources.now (length sources.now) tails.items) }
{
    let mut tails = vec![in alloc; 0u32; sources.len()]?;
    for r in 0..sources.len() {
        keep_tail(sources, r, &mut tails);
    }
    Ok(tails)
}

// Raises the tail of the upper row that row `r` is made of to what row `r` needs of it.
fn keep_tail(sources: &[Source], r: usize, tails: &mut Vec<u32>)
    requires within { (channels : ℕ) × AreWithin channels (length sources.now) sources.now }
    requires row { r < length sources.now }
    requires tails { AreTails sources.now r tails.old.items }
    ensures { AreTails sources.now (r + 1) tails.new.items }
{
    if let Source::Sum(merge) = sources[r] {
        let upper = merge.upper as usize;
        tails[upper] = tails[upper].max(merge.late.next_multiple_of(LANES));
    }
}
