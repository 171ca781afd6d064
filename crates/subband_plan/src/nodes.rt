// A part of the band and its rows, and how it is halved.
ghost use Rattle.std.specs.Prelude.{◌≡◌, ◌+◌, ◌-◌, ◌*◌, ◌^◌, ◌<◌, ◌≤◌, OnOk};
ghost use Rattle.dada_model.specs.Edges.{AreEdges};
ghost use Rattle.band_paths.specs.Edges.{channels_of};
ghost use Rattle.search_model.specs.Paths.{middle as middle_of};
ghost use Rattle.dada_model.specs.Bounds.{most_delay};
ghost use Rattle.subband_plan.specs.NodeLaws.{AskedRowsAreThere};

use band_paths::split;
use psr_base::Memory;
use search_model::{splits_fit, splits_step};

/// A part of the band, with a row for each delay. Channels are counted from the highest frequency, delays are in
/// spectra.
#[derive(Clone, Copy, PartialEq, Eq, Debug)]
pub struct Node {
    /// The first channel.
    pub lo: u32,
    /// The channel after the last one.
    pub hi: u32,
    /// The smallest delay.
    pub first_row: u32,
    /// The greatest delay.
    pub last_row: u32,
    /// How many of the last values of each row the node above needs at most. `PlanRows` can keep more: it rounds counts
    /// up, and rows of one and two channels need more.
    pub tail: u32,
}

impl Node {
    ghost use Rattle.subband_plan.specs.Nodes.{IsBranch, IsGrown, HasRow, least_row as least_row_of, split_of, upper_half as upper_half_of, lower_half as lower_half_of};
    ghost use Rattle.subband_plan.specs.NodeLaws.{AreBranches, Grows, HalvesHave, lower_number as lower_number_of};

    // The first channel of the lower half.
    pub(crate) fn middle(self) -> u32
        requires { self.lo ≤ self.hi }
        ensures { result ≡ middle_of self.lo self.hi }
    {
        self.lo + (self.hi - self.lo) / 2
    }

    /// The number of the lower half, if this is node `k`. The upper half is node `k + 1`.
    pub fn lower_number(self, k: usize) -> usize
        requires order { self.lo ≤ self.hi }
        requires number { k < 2 ^ 32 }
        ensures { result ≡ lower_number_of self k }
    {
        k + 2 * (self.middle() - self.lo) as usize
    }

    /// The smallest delay of the rows that `PlanRows` has of this node: 0 for one or two channels.
    pub fn least_row(self) -> u32
        requires { self.lo ≤ self.hi }
        ensures { result ≡ least_row_of self }
    {
        if self.hi - self.lo >= 3 {
            self.first_row
        } else {
            0
        }
    }

    // The part of a delay of `d` spectra that lies in the upper half.
    pub(crate) fn split(self, edges: &[u32], d: u32) -> u32
        requires edges { AreEdges (channels_of edges.now) edges.now }
        requires node { IsBranch edges.now self }
        requires two { self.lo + 2 ≤ self.hi }
        requires row { HasRow self d }
        ensures value { result ≡ split_of edges.now self d }
        ensures halves { HalvesHave edges.now self d }
    {
        asked_rows_are_there();
        let middle = self.middle() as usize;
        split(edges, self.lo as usize, middle, self.hi as usize, d)
    }

    // Whether the upper half's part of the delay `d` is greater than its part of `d - 1`.
    pub(crate) fn grows(self, edges: &[u32], d: u32) -> bool
        requires edges { AreEdges (channels_of edges.now) edges.now }
        requires node { IsBranch edges.now self }
        requires two { self.lo + 2 ≤ self.hi }
        requires some { 1 ≤ d }
        requires few { d ≤ most_delay }
        ensures { Grows edges.now self d result }
    {
        splits_step();
        let (lo, middle, hi) = (self.lo as usize, self.middle() as usize, self.hi as usize);
        split(edges, lo, middle, hi, d) > split(edges, lo, middle, hi, d - 1)
    }

    // The upper half and the lower half.
    pub(crate) fn halves(self, edges: &[u32]) -> (Node, Node)
        requires edges { AreEdges (channels_of edges.now) edges.now }
        requires node { IsBranch edges.now self }
        requires two { self.lo + 2 ≤ self.hi }
        ensures upper { result.0 ≡ upper_half_of edges.now self }
        ensures lower { result.1 ≡ lower_half_of edges.now self }
        ensures branches { AreBranches edges.now result.0 result.1 }
    {
        let middle = self.middle();
        let first = self.split(edges, self.first_row);
        let last = self.split(edges, self.last_row);
        let upper = Node {
            lo: self.lo,
            hi: middle,
            first_row: first,
            last_row: last,
            tail: self.last_row - last,
        };
        let lower = Node {
            lo: middle,
            hi: self.hi,
            first_row: self.first_row - first,
            last_row: self.last_row - last,
            tail: 0,
        };
        (upper, lower)
    }

    // Appends the node, then all nodes of its upper half, then all nodes of its lower half.
    pub(crate) fn grow(self, edges: &[u32], nodes: &mut Vec<Node>) -> Result<(), Memory>
        requires edges { AreEdges (channels_of edges.now) edges.now }
        requires node { IsBranch edges.now self }
        ensures { OnOk result (IsGrown edges.now nodes.old.items self nodes.new.items) }
    {
        nodes.push(self)?;
        if self.hi - self.lo >= 2 {
            let (upper, lower) = self.halves(edges);
            upper.grow(edges, nodes)?;
            lower.grow(edges, nodes)?;
        }
        Ok(())
    }
}

/// Law: the rows that a node's row is made of are rows of its halves.
pub fn asked_rows_are_there()
    ensures { AskedRowsAreThere }
{
    splits_fit();
    splits_step();
}
