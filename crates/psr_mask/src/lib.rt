//! The search of files of filterbank samples without the channels that a mask names: `run_mask` is the whole program
//! `psr_mask`, over inputs and streams of the caller's; `run_mask_in_memory` is `run_mask` over those in memory.
#![tactic(auto)]

mod in_memory;
mod laws;
mod masking;
mod refusal;
mod telling;
mod top;
mod words;
mod writing;

pub use in_memory::run_mask_in_memory;
pub use laws::{accepted_is_searched, causes_are_answered, sample_is_found, told_room_is_enough};
pub use refusal::MaskRefusal;
pub use top::run_mask;
