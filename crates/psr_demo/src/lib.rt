//! The demonstration: the observation of a number is made and searched in memory, and what was found is summed up.
//! `run_demo` is the whole program `psr_demo`.
#![tactic(auto)]

mod asking;
mod finding;
mod last_line;
mod laws;
mod making;
mod stop;
mod summary;
mod top;

pub use laws::text_ends_in_its_end_line;
pub use stop::Stop;
pub use top::run_demo;
