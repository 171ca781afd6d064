//! Headers in the DADA form (PSRDADA manual): lines of a keyword and a value in a block of 4096 to 65536 bytes.
//! They are read, looked up and changed in place.
#![tactic(auto)]

mod blank;
mod change;
mod faults;
mod fields;
mod header;
mod words;

pub use faults::{HeaderFault, SetFault};
pub use header::Header;
