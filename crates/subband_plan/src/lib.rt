//! Plans the rows of a search: the nodes of the halving tree with their rows, and what each row is made of.
//!
//! Source: Zackay & Ofek, ApJ 835:11, 2017.
#![tactic(auto)]

mod laws;
mod nodes;
mod plan;
mod rows;
mod sources;

pub use laws::{
    band_rows_are_path_sums, rows_add_up, rows_are_bounded, rows_are_numbered, rows_begin_empty,
    rows_come_after,
};
pub use nodes::{Node, asked_rows_are_there};
pub use plan::{Plan, plans_are_laid};
pub use rows::PlanRows;
