//! A run that streams the data of one transfer through to its output. What becomes of the data, the program says.
#![tactic(auto)]

mod closing;
mod faults;
mod flow;
mod laws;
mod lent;
mod open;
mod run;
mod stop;
mod streaming;
mod taking;
mod writing;

pub use faults::{FinishFault, OpenFault};
pub use laws::{causes_are_answered, streams_end};
pub use run::drive_stream;
pub use stop::StreamStop;
pub use streaming::Streaming;
