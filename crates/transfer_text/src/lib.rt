//! The output of a search of one or more transfers: the candidate list of each transfer.
#![tactic(auto)]

mod found;
mod laws;
mod texts;

pub use found::{TextStop, write_found};
pub use laws::{candidates_are_few, totals_are_counted};
pub use texts::write_texts;
