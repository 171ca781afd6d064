//! The data of files, through rings: a feeder reads the files of one or more transfers in order and seals their headers
//! and their data as blocks, and an empty block marked Cut if they end early.
//! `FeederSpace::reserve` takes all memory, `Feeder::over` borrows the inputs, `begin` reads the first headers, and
//! `accept` takes their observations. Then `turn` seals a block in two rings, or `next` hands one out without rings.
#![tactic(auto)]

mod answers;
mod due;
mod feeder;
mod front;
mod laws;
mod place;
mod reached;
mod source;
mod stream;
mod writing;

pub use answers::{FeedEnd, FeedFault, FeedTurn, Handed, HeaderCause};
pub use feeder::{Feeder, FeederSpace, Lent};
pub use laws::{faults_leave, feeders_begin, feeders_end, headers_are_first};
