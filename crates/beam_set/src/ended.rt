// Beams that have ended.
use candidate_book::Book;
use disk_feeder::FeedEnd;

/// How a beam ended.
#[derive(Drop)]
pub struct BeamEnd {
    /// How its files ended.
    pub feed: FeedEnd,
    /// The book of its candidates.
    pub book: Book,
    /// How many spectra were searched.
    pub spectra: u64,
}
