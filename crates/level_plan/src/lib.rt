//! Turns the options of `psr_level` and an observation into a plan: how the data are levelled, which channels are
//! masked, and the header of the levelled file.
#![tactic(auto)]

mod field;
mod header;
mod marks;
mod plans;

pub use header::{HeaderStop, level_header};
pub use marks::marks_in_file;
pub use plans::{format_of, plan_of, takes_time};
