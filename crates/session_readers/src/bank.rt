//! The engines of a shard.
ghost use Rattle.std.specs.Borrow.{sem};
ghost use Rattle.std.specs.Prelude.{◌≡◌, ◌≤◌, true, false, [], length};
ghost use Rattle.search_engine.specs.Engine.{EngineState};
ghost use Rattle.session_readers.specs.Banks.{HasEngine, CanFeedAt, WasFedAt, engines_of, lends_engine};

use arrayvec::ArrayVec;
use dada_hdu::{BlockTaker, Mark};
use search_engine::Engine;
use search_model::MOST_TRANSFERS;

/// The engines of a shard, one for each transfer in order. They lie on the heap, so a bank is moved as one pointer.
#[derive(Drop)]
pub struct Bank {
    /// The engine of each transfer. Each slot is `Some`.
    pub engines: Box<ArrayVec<Option<Engine>, MOST_TRANSFERS>>,
}

impl Bank {
    // The engine of a transfer.
    fn engine(&mut self, transfer: usize) -> &mut Engine
        requires { (e : EngineState) × HasEngine (engines_of self.old) transfer e }
        ensures* lends { sem 𝓛 (lends_engine self.entry transfer result) }
        ensures value { HasEngine (engines_of self.old) transfer result.now }
    {
        match self.engines.get_mut(transfer) {
            Some(Some(engine)) => engine,
            Some(None) | None => unreachable!(),
        }
    }

    /// Searches the chunk of a transfer's engine, if it is full.
    pub(crate) fn search_full(&mut self, transfer: usize)
        requires { CanFeedAt (engines_of self.old) transfer [] }
        ensures { WasFedAt (engines_of self.old) transfer [] false (engines_of self.new) }
    {
        self.engine(transfer).search_full();
    }

    /// Ends the engine of a transfer: it searches what is left.
    pub(crate) fn end(&mut self, transfer: usize)
        requires { CanFeedAt (engines_of self.old) transfer [] }
        ensures { WasFedAt (engines_of self.old) transfer [] true (engines_of self.new) }
    {
        self.engine(transfer).end();
    }

    /// The number of engines, at most eight.
    pub fn count(&self) -> usize
        ensures count { result ≡ length (engines_of self.now) }
        ensures most { result ≤ 8 }
    {
        self.engines.len()
    }

    /// At least this many bytes are needed to fill the chunk of a transfer's engine. It is a hint: no clause speaks of
    /// the answer.
    pub(crate) fn room(&self, transfer: usize) -> u64 {
        match self.engines.get(transfer) {
            Some(Some(engine)) => engine.room(),
            Some(None) | None => 0,
        }
    }
}

/// Feeds a block to the engine of transfer `part`, from where it lies in the ring or from a copy. The engine does not
/// end, and leaves a chunk that becomes full at the end of the block: a block that lies in the ring is given back before
/// that chunk and folds are searched.
impl BlockTaker for Bank {
    ghost use Rattle.session_readers.specs.Banks.{CanFeed, WasFedBlock};

    ghost can_take = { CanFeed };

    ghost took = { WasFedBlock };

    fn take(&mut self, part: usize, bytes: &[u8], _mark: Mark) {
        self.engine(part).unpack(bytes);
    }
}
