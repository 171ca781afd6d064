//! The recording of files of filterbank samples into new files: `run_record` is the whole program `psr_record`, over
//! inputs, files and notes of the caller's.
#![tactic(auto)]

mod laws;
mod top;

pub use laws::accepted_is_recorded;
pub use top::run_record;
