//! Turns data bytes, in pieces of any length, into rows of samples: a row for each channel, from the highest frequency
//! down.
#![tactic(auto)]

mod held;
mod kept;
mod layout;
mod row_sample;
mod rows;
mod samples;
mod tile;
mod unpacker;

pub use unpacker::Unpacker;
