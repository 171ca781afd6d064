//! Sums of the last 1, 2, 4, 8, 16 or 32 values of rows that are fed in pieces.
#![tactic(auto)]

mod boxes;
mod excess;
mod keep;
mod sums;

pub use boxes::{Boxes, sums_add_values};
