//! A flat and steady band: one observation, levelled stretch by stretch as its data come.
#![tactic(auto)]

mod drain;
mod laws;
mod refusal;
mod stop;
mod task;
mod top;

pub use laws::sample_is_levelled;
pub use stop::LevelStop;
pub use top::run_level;
