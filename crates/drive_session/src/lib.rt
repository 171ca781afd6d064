//! A run of psr_search or psr_record. `drive` opens it by its settings, and drives its session to the end.
#![tactic(auto)]

mod found;
mod lent;
mod run;
mod session;

pub use found::{Found, ProgramEnd};
pub use run::drive;
