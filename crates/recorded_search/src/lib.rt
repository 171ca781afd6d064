//! What was recorded is read and searched again. These are laws alone: the files of a recording have the data and the
//! observations that were recorded; if a search of files is accepted, so is that of a recording of their data; and both
//! write one text.
#![tactic(auto)]

mod laws;

pub use laws::{
    recorded_can_be_searched, recorded_files_are_read_back, recorded_is_accepted,
    recorded_is_found_alike, recorded_is_observed_alike, recorded_is_read_back,
    recorded_is_searched_alike,
};
