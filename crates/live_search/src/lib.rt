//! A search that writes its text while the data come, part by part: the lines of each part as soon as its spectra are
//! searched.
#![tactic(auto)]

mod laws;
mod lines;
mod live;

pub use laws::{
    live_data_grow, live_stops_are_said, live_stops_go_on, live_texts_are_plain, live_texts_go_on,
    live_texts_grow,
};
pub use lines::write_pulses;
pub use live::{LiveSearch, STEP};
