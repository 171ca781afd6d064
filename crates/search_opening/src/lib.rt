//! Opens a run: reads and judges the first headers of all transfers, the plans of their search and their recordings,
//! takes all memory, and makes the stage of a session, before the first data byte is sealed.
//!
//! `open_run` does all of it; `begin_run`, `check_plans`, `fit_all` and `open_banks` are its steps.
#![tactic(auto)]

mod accept;
mod begin;
mod engines;
mod first;
mod judge;
mod laws;
mod offsets;
mod open;
mod plans;
mod recordings;
mod rings;
mod space;
mod spaces;

pub use accept::accept_all;
pub use begin::begin_run;
pub use engines::open_banks;
pub use first::begin_feed;
pub use laws::{
    cuts_stay_told, early_stops_are_said, early_stops_stand, firsts_stay_told, recordings_are_said,
    sessions_feed_files,
};
pub use offsets::first_offsets;
pub use open::{OpenedRun, open_run};
pub use plans::check_plans;
pub use recordings::fit_all;
pub use rings::run_shape;
pub use space::StageSpace;
pub use spaces::Spaces;
