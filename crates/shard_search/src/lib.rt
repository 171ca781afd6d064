//! Searches the delays of one shard in rows of samples, chunk by chunk. The path sums are judged by boxes and folds,
//! and what is detected is added to a book.
#![tactic(auto)]

mod laws;
mod pulse_search;
mod shard;
mod sought;
mod tables;
mod thresholds;

pub use laws::shards_are_listed;
pub use shard::ShardSearch;
pub use sought::Sought;
