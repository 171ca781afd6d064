//! What a lone run found.
use disk_feeder::FeedEnd;
use obs_plan::Observation;
use ring_ends::Finished;
use search_engine::Engine;

/// What a lone run found.
#[derive(Drop)]
pub struct LoneFound {
    /// How the feeder ended.
    pub feed: FeedEnd,
    /// The observation of the transfer.
    pub observation: Observation,
    /// The engine that searched it.
    pub engine: Engine,
    /// What went through the data ring.
    pub blocks: Finished,
}
