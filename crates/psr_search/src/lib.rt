//! The search of files of filterbank samples for dispersed pulses and folded periods: `run` is the whole program
//! `psr_search`, over inputs, files and streams of the caller's; `run_in_memory` is `run` over those in memory.
#![tactic(auto)]

mod in_memory;
mod laws;
mod top;
mod writing;

pub use in_memory::run_in_memory;
pub use laws::{
    accepted_is_searched, both_samples_are_recorded, both_samples_are_too_many,
    causes_are_answered, sample_is_found, told_room_is_enough,
};
pub use top::run;
