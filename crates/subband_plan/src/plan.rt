// The plan of the tables over a band.
ghost use Rattle.std.specs.Prelude.{◌≡◌, ◌+◌, ◌-◌, ◌*◌, ◌<◌, ◌≤◌, length, sum_by, IfOk};
ghost use Rattle.dada_model.specs.Bounds.{most_delay};
ghost use Rattle.dada_model.specs.Edges.{AreEdges};
ghost use Rattle.band_paths.specs.Edges.{channels_of};
ghost use Rattle.subband_plan.specs.Nodes.{BandPlan, IsPlan, nodes_of, node_at, row_count, word_count};
ghost use Rattle.subband_plan.specs.NodeLaws.{AreLaid, PlansAreLaid};
ghost use Rattle.subband_plan.specs.Plans.{band_plan, HoldsNodes};

use crate::nodes::{Node, asked_rows_are_there};
use psr_base::Memory;
use std::alloc::Global;
use std::marker::Model;

/// The plan of a band and a range of delays: the nodes of the halving tree, each with the delays of its rows. The nodes
/// are in preorder: a node, those of its upper half, those of its lower half.
#[derive(Drop)]
pub struct Plan {
    edges: Vec<u32>,
    first: u32,
    last: u32,
    nodes: Vec<Node>,
}

impl Model for Plan {
    ghost Value = { BandPlan };

    ghost view = { λ p. band_plan p.edges.items p.first p.last };

    ghost invariant = { λ p. HoldsNodes (band_plan p.edges.items p.first p.last) p.nodes.items };
}

impl Plan {
    /// The plan for the delays from `dmin` to `dmax`, in spectra. `edges` are the edges of the channels in kHz, the
    /// highest first.
    pub fn open(alloc: Global, edges: &[u32], dmin: u32, dmax: u32) -> Result<Plan, Memory>
        requires edges { AreEdges (channels_of edges.now) edges.now }
        requires order { dmin ≤ dmax }
        requires few { dmax ≤ most_delay }
        ensures { IfOk result (λ plan.
            plan ≡ record { edges = edges.now; first = dmin; last = dmax }) }
    {
        let channels = edges.len() - 1;
        let root = Node {
            lo: 0,
            hi: channels as u32,
            first_row: dmin,
            last_row: dmax,
            tail: 0,
        };
        let mut nodes = Vec::with_capacity(alloc, 2 * channels)?;
        root.grow(edges, &mut nodes)?;
        Ok(Plan {
            edges: Vec::from_slice(alloc, edges)?,
            first: dmin,
            last: dmax,
            nodes,
        })
    }

    /// The edges of the channels in kHz, the highest first.
    pub fn edges(&self) -> &[u32]
        ensures value { result.now ≡ self.now.edges }
        ensures plan { IsPlan self.now }
    {
        self.edges.as_slice()
    }

    /// All nodes, in preorder.
    pub fn all_nodes(&self) -> &[Node]
        ensures value { result.now ≡ nodes_of self.now }
        ensures laid { AreLaid self.now.edges result.now }
    {
        plans_are_laid();
        self.nodes.as_slice()
    }

    /// The number of nodes: `2n - 1` for `n` channels.
    pub fn nodes(&self) -> usize
        ensures value { result ≡ length (nodes_of self.now) }
        ensures count { result + 1 ≡ 2 * channels_of self.now.edges }
        ensures plan { IsPlan self.now }
    {
        plans_are_laid();
        self.nodes.len()
    }

    /// Node `k`. Node 0 is the whole band.
    pub fn node(&self, k: usize) -> Node
        requires { k < length (nodes_of self.now) }
        ensures { result ≡ node_at (nodes_of self.now) k }
    {
        self.nodes[k]
    }

    /// The number of rows of all nodes. `PlanRows` can have more: its rows of one and two channels begin at delay 0.
    pub fn rows(&self) -> u64
        ensures { result ≡ sum_by row_count (nodes_of self.now) }
    {
        let mut rows = 0;
        for node in self.all_nodes() {
            rows += u64::from(node.last_row + 1 - node.first_row);
        }
        rows
    }

    /// The number of values of all rows: `chunk` for each row, and the `tail` of its node.
    pub fn words(&self, chunk: u32) -> u64
        ensures { result ≡ sum_by (word_count chunk) (nodes_of self.now) }
    {
        let mut words = 0;
        for node in self.all_nodes() {
            let rows = u64::from(node.last_row + 1 - node.first_row);
            words += rows * (u64::from(chunk) + u64::from(node.tail));
        }
        words
    }
}

/// Law: the nodes of a plan are in preorder, so the numbers of both halves of a node are known.
pub fn plans_are_laid()
    ensures { PlansAreLaid }
{
    asked_rows_are_there();
}
