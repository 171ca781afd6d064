// The numbers of rows, and their places in the plain order.
ghost use Rattle.std.specs.Prelude.{◌≡◌, ◌+◌, ◌-◌, ◌≤◌, ◌<◌, length};
ghost use Rattle.subband_plan.specs.Nodes.{IsPlan, HasRow, root, nodes_of, node_at};
ghost use Rattle.subband_plan.specs.Rows.{ArePlanRows, IsRow, all_rows, row_at};
ghost use Rattle.fdmt_carry.specs.Orders.{start_of, place_of};

use subband_plan::{Node, Plan, PlanRows, plans_are_laid, rows_are_numbered};

/// Node 0, the whole band.
pub fn whole_band(plan: &Plan) -> Node
    ensures band { result ≡ root plan.now }
    ensures first { node_at (nodes_of plan.now) 0 ≡ root plan.now }
    ensures some { 0 < length (nodes_of plan.now) }
    ensures plan { IsPlan plan.now }
{
    plans_are_laid();
    let count = plan.nodes();
    prove!(count > 0);
    plan.node(0)
}

/// The number of the row of delay `d` of node `k`.
pub fn row_number(plan: &Plan, rows: &PlanRows, k: usize, d: u32) -> usize
    requires rows { ArePlanRows plan.now rows.now }
    requires node { k < length (nodes_of plan.now) }
    requires row { HasRow (node_at (nodes_of plan.now) k) d }
    ensures number { result ≡ row_at (nodes_of plan.now) rows.now.starts.items k d }
    ensures row { IsRow rows.now k d result }
    ensures from { start_of rows.now k ≤ result }
    ensures to { result < start_of rows.now (k + 1) }
{
    rows_are_numbered();
    let node = plan.all_nodes()[k];
    rows.starts[k] + (d - node.least_row()) as usize
}

/// The place of row `r`, one of node `k`, in the plain order.
pub fn place_in_order(plan: &Plan, rows: &PlanRows, k: usize, r: usize) -> usize
    requires rows { ArePlanRows plan.now rows.now }
    requires node { k < length (nodes_of plan.now) }
    requires from { start_of rows.now k ≤ r }
    requires to { r < start_of rows.now (k + 1) }
    ensures place { result ≡ place_of rows.now k r }
    ensures within { result < all_rows rows.now }
{
    rows_are_numbered();
    let nodes = plan.all_nodes();
    prove!(k < nodes.len());
    rows.rows.sources.len() - rows.starts[k + 1] + (r - rows.starts[k])
}
