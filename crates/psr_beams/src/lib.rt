//! The search of several beams beside each other, each over a file of its own, and the marks of pulses that too many of
//! them have.
#![tactic(auto)]

mod drive;
mod ends;
mod engines;
mod feeders;
mod judge;
mod laws;
mod opened;
mod top;
mod words;

pub use laws::{
    accepted_is_searched, causes_are_answered, sample_is_found, sample_is_refused,
    short_beams_are_answered, told_room_is_enough, told_stops_are_of_files,
};
pub use top::run_beams;
