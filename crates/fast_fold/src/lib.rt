//! Folding by halves: all trials of a period over 2^m rows, in m passes over the rows.
//!
//! Source: Staelin, Proc. IEEE 57:724, 1969.
#![tactic(auto)]

mod folder;
mod merge;
mod powers;
mod tiles;

pub use folder::{Folder, folds_see_rows};
pub use tiles::MOST_HALVINGS;
