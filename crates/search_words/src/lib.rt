//! The settings of the programs, read from their arguments by clap. The table of options, what arguments mean and why
//! they are refused are defined in `specs/`.
#![tactic(auto)]

mod command;
mod fault;
mod laws;
mod opt;
mod reading;
mod settings;
mod table;
mod transfers;
mod values;

pub use fault::WordFault;
pub use laws::said_is_in_range;
pub use opt::Opt;
pub use settings::{RunSettings, Settings};
