//! Delay paths over a band, and the sums of samples along them, cell by cell.
//!
//! Source: Zackay & Ofek, ApJ 835:11, 2017.
#![tactic(auto)]

mod delays;
mod sums;

pub use delays::{edge_delays, split};
pub use sums::path_sum;
