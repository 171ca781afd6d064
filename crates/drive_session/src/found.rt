//! What a run found, and what a program that drives one came to.
use arrayvec::ArrayVec;
use candidate_book::Book;
use dada_recorder::RecordEnd;
use disk_feeder::FeedEnd;
use obs_plan::Observation;
use ring_ends::Finished;
use run_outcome::Stop;
use search_model::{MOST_SHARDS, MOST_TRANSFERS};

/// What a run found. Each slot is `Some`.
#[derive(Drop)]
pub struct Found {
    /// The observation of each transfer, in order.
    pub observations: ArrayVec<Option<Observation>, MOST_TRANSFERS>,
    /// How the feeder ended.
    pub feed: FeedEnd,
    /// The books, by transfer and then by shard, if files are searched.
    pub books: ArrayVec<ArrayVec<Option<Book>, MOST_SHARDS>, MOST_TRANSFERS>,
    /// How many spectra of each transfer were searched, if files are searched.
    pub spectra: ArrayVec<u64, MOST_TRANSFERS>,
    /// How the recorder ended, if there is one.
    pub recorded: Option<RecordEnd>,
    /// What went through the data ring.
    pub blocks: Finished,
}

/// How a program ended.
#[derive(Drop)]
pub struct ProgramEnd {
    /// Why it stopped early, or `None` if it went to its end.
    pub stop: Option<Stop>,
    /// What went through its data ring, if there was one.
    pub blocks: Option<Finished>,
    /// How its recorder ended, if there was one.
    pub recorded: Option<RecordEnd>,
}
