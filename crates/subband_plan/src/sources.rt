// What the rows of a plan are made of.
ghost use Rattle.std.specs.Prelude.{◌≡◌, ◌+◌, ◌<◌, length, slice_index, IfOk};
ghost use Rattle.band_paths.specs.Edges.{channels_of};
ghost use Rattle.subband_plan.specs.Nodes.{HasKept, node_at};
ghost use Rattle.subband_plan.specs.NodeLaws.{AreLaid};
ghost use Rattle.subband_plan.specs.Rows.{AreStarts, IsMadeOfOne, IsMadeOfTwo, IsMade, row_at};
ghost use Rattle.subband_plan.specs.Making.{AreLabelled, IsWithin, AreSources};

use crate::laws::rows_are_numbered;
use crate::nodes::Node;
use psr_base::Memory;
use row_model::{Merge, Source};
use std::alloc::Global;

// The number of the row of delay `d` of node `k`.
fn number(edges: &[u32], nodes: &[Node], starts: &[usize], k: usize, d: u32) -> u32
    requires laid { AreLaid edges.now nodes.now }
    requires starts { AreStarts nodes.now starts.now }
    requires node { k < length nodes.now }
    requires row { HasKept (node_at nodes.now k) d }
    ensures value { result ≡ row_at nodes.now starts.now k d }
    ensures within { result < slice_index starts.now (length nodes.now) }
{
    rows_are_numbered();
    (starts[k] + (d - nodes[k].least_row()) as usize) as u32
}

// What the row of delay `d` of a single channel is made of.
fn made_of_one(edges: &[u32], nodes: &[Node], starts: &[usize], k: usize, d: u32) -> Source
    requires laid { AreLaid edges.now nodes.now }
    requires starts { AreStarts nodes.now starts.now }
    requires node { k < length nodes.now }
    requires one { (node_at nodes.now k).hi ≡ (node_at nodes.now k).lo + 1 }
    requires row { HasKept (node_at nodes.now k) d }
    ensures made { IsMadeOfOne nodes.now starts.now k d result }
    ensures within { IsWithin (channels_of edges.now)
        (slice_index starts.now (length nodes.now)) result }
{
    rows_are_numbered();
    if d == 0 {
        return Source::Channel(nodes[k].lo);
    }
    Source::Sum(Merge {
        upper: number(edges, nodes, starts, k, 0),
        lower: number(edges, nodes, starts, k, d - 1),
        late: d,
    })
}

// What the row of delay `d` of two channels is made of.
fn made_of_two(edges: &[u32], nodes: &[Node], starts: &[usize], k: usize, d: u32) -> Source
    requires laid { AreLaid edges.now nodes.now }
    requires starts { AreStarts nodes.now starts.now }
    requires node { k < length nodes.now }
    requires two { (node_at nodes.now k).hi ≡ (node_at nodes.now k).lo + 2 }
    requires row { HasKept (node_at nodes.now k) d }
    ensures made { IsMadeOfTwo edges.now nodes.now starts.now k d result }
    ensures within { IsWithin (channels_of edges.now)
        (slice_index starts.now (length nodes.now)) result }
{
    rows_are_numbered();
    let node = nodes[k];
    let upper = number(edges, nodes, starts, k + 1, 0);
    let lower = number(edges, nodes, starts, node.lower_number(k), 0);
    if d == 0 {
        return Source::Sum(Merge {
            upper,
            lower,
            late: 0,
        });
    }
    let before = number(edges, nodes, starts, k, d - 1);
    if node.grows(edges, d) {
        return Source::Sum(Merge {
            upper,
            lower: before,
            late: d,
        });
    }
    Source::Sum(Merge {
        upper: before,
        lower,
        late: 1,
    })
}

// What the row of delay `d` of node `k` is made of.
fn made(edges: &[u32], nodes: &[Node], starts: &[usize], k: usize, d: u32) -> Source
    requires laid { AreLaid edges.now nodes.now }
    requires starts { AreStarts nodes.now starts.now }
    requires node { k < length nodes.now }
    requires row { HasKept (node_at nodes.now k) d }
    ensures made { IsMade edges.now nodes.now starts.now k d result }
    ensures within { IsWithin (channels_of edges.now)
        (slice_index starts.now (length nodes.now)) result }
{
    rows_are_numbered();
    let node = nodes[k];
    if node.hi - node.lo < 2 {
        return made_of_one(edges, nodes, starts, k, d);
    }
    if node.hi - node.lo < 3 {
        return made_of_two(edges, nodes, starts, k, d);
    }
    let upper = node.split(edges, d);
    let late = d - upper;
    Source::Sum(Merge {
        upper: number(edges, nodes, starts, k + 1, upper),
        lower: number(edges, nodes, starts, node.lower_number(k), late),
        late,
    })
}

// What each row is made of. `labels` has the node of each row, and `delays` its delay.
pub(crate) fn make_rows(
    alloc: Global,
    edges: &[u32],
    nodes: &[Node],
    starts: &[usize],
    labels: &[u32],
    delays: &[u32],
) -> Result<Vec<Source>, Memory>
    requires laid { AreLaid edges.now nodes.now }
    requires starts { AreStarts nodes.now starts.now }
    requires entries { length delays.now ≡ length labels.now }
    requires labelled { AreLabelled nodes.now starts.now labels.now delays.now }
    ensures entries { IfOk result (λ sources. length sources.items ≡ length labels.now) }
    ensures made { IfOk result (λ sources. AreSources edges.now nodes.now starts.now
        labels.now delays.now sources.items) }
{
    let mut sources = Vec::with_capacity(alloc, labels.len())?;
    for r in 0..labels.len() {
        sources.push(made(edges, nodes, starts, labels[r] as usize, delays[r]))?;
    }
    Ok(sources)
}
