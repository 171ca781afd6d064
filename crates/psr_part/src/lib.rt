//! The search of a part of an observation, which goes on where an earlier search stopped: `run_part` is the whole
//! program `psr_part`, over inputs and streams of the caller's; `run_part_in_memory` is `run_part` over those in
//! memory.
#![tactic(auto)]

mod in_memory;
mod laws;
mod scope;
mod stop;
mod telling;
mod top;
mod words;
mod writing;

pub use in_memory::run_part_in_memory;
pub use laws::{
    accepted_is_searched, causes_are_answered, parts_are_joined, sample_is_found,
    told_room_is_enough,
};
pub use stop::{CheckpointRefusal, PartStop};
pub use top::run_part;
pub use words::{check_of, is_unfolded};
