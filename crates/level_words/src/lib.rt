//! The settings of `psr_level`, read from its arguments by clap. The table of options, what arguments mean and why they
//! are refused are defined in `specs/`.
#![tactic(auto)]

mod command;
mod fault;
mod opt;
mod reading;
mod settings;
mod values;

pub use fault::LevelFault;
pub use opt::{Flag, Opt};
pub use settings::{LevelOptions, LevelSettings};
