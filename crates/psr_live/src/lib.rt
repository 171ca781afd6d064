//! The search of a stream that prints part after part while the data come.
#![tactic(auto)]

mod in_memory;
mod laws;
mod stop;
mod task;
mod telling;
mod top;
mod words;

pub use in_memory::run_live_in_memory;
pub use laws::{causes_are_answered, samples_are_found};
pub use top::run_live;
