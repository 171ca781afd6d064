//! The readers of a session: the shards of a search, and the recorder. Each takes turns at a header ring and a data
//! ring.
//!
//! A turn makes one read: of the header ring before the data of each transfer, otherwise of the data ring. The block
//! that it finds is cleared. A shard feeds a block of data to the engine of its transfer, and the recorder writes it
//! into files. No turn waits: one that finds nothing pauses. The session decides who takes turns, and when.
#![tactic(auto)]

mod bank;
mod pausing;
mod reading;
mod record;
mod shard;

pub use bank::Bank;
pub use pausing::pause;
pub use record::RecordActor;
pub use shard::ShardActor;
