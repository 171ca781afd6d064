//! A shard: the engines of a part of the search, and the reader that feeds them.
ghost use Rattle.std.specs.Prelude.{◌≡◌, false, true, if◌then◌else◌, nat_le, ◌||◌, []};
ghost use Rattle.stream_model.specs.Blocks.{is_end, is_cut};
ghost use Rattle.session_readers.specs.Banks.{CanFeedAt, WasFedAt, engines_of};

use crate::bank::Bank;
use crate::reading::{feed_block, has_next, read_header, retire};
use dada_hdu::{Hdu, HduEnded, Mark};
// Laws: they do nothing when they run, and the proofs use what they ensure.
use stream_model::{ends_are_counted, entries_are_of_transfers};

/// The shard of a search, which takes turns.
#[derive(Drop)]
pub struct ShardActor {
    /// The engine of each transfer.
    pub part: Bank,
    /// The reader of both rings.
    pub pass: HduEnded,
    /// Space for headers, and for blocks of data that end past the engine's chunk, if it is large enough for one.
    pub space: Vec<u8>,
    /// How many turns it took, at most `u64::MAX`.
    pub turns: u64,
    /// How many of its engines ended.
    pub done: u32,
    /// Whether no block comes after those that it cleared.
    pub ended: bool,
}

// Does what comes after a block with this mark, which the engine of a transfer was fed: ends the engine if that was its
// last block, otherwise searches its chunk if it is full.
fn end_or_search(bank: &mut Bank, transfer: usize, mark: Mark)
    requires { CanFeedAt (engines_of bank.old) transfer [] }
    ensures { WasFedAt (engines_of bank.old) transfer [] (is_end mark) (engines_of bank.new) }
{
    match mark {
        Mark::End => bank.end(transfer),
        Mark::More | Mark::Cut => bank.search_full(transfer),
    }
}

// How many transfers end with a block of this mark: 1 or 0.
fn ended_with(mark: Mark) -> u32
    ensures { result ≡ (if is_end mark then 1 else 0) }
{
    match mark {
        Mark::End => 1,
        Mark::More | Mark::Cut => 0,
    }
}

// Whether nothing comes after a block with this mark, if `done` of the transfers have ended.
fn ends_stream(mark: Mark, done: usize, transfers: usize) -> bool
    ensures { result ≡ (nat_le transfers done || is_cut mark) }
{
    match mark {
        Mark::Cut => true,
        Mark::More | Mark::End => transfers <= done,
    }
}

impl ShardActor {
    ghost use Rattle.session_readers.specs.Reads.{header_is_next};
    ghost use Rattle.session_readers.specs.Shards.{shard_cleared, IsRetired, KeepsEngines, ShardOn, ShardMoved, ShardStepped};

    /// Takes one turn. Before the data of each transfer it reads a header and clears it. Otherwise it clears a block of
    /// data, feeds it to the engine of its transfer, and ends the engine after the last block.
    ///
    /// A block that ends within the engine's chunk is unpacked where it lies; a full chunk is searched once the block
    /// is cleared. A block that ends past the chunk is copied to the space, if that is large enough, and cleared before
    /// the engine is fed; otherwise the engine is fed where the block lies. A turn that finds nothing pauses.
    #[tactic(auto, using(crate::proofs::Moves::shard_turned))]
    pub fn turn(&mut self, hdu: &Hdu)
        requires on { ShardOn hdu.now self.old }
        requires running { self.old.ended ≡ false }
        ensures on { ShardOn hdu.now self.new }
        ensures moved { ShardMoved 1 self.old self.new }
        ensures idle { shard_cleared self.new ≡ shard_cleared self.old
            → KeepsEngines self.old self.new }
    {
        self.turns = self.turns.saturating_add(1);
        if self.pass.cleared_headers() == u64::from(self.done) {
            self.take_header(hdu);
        } else {
            self.take_block(hdu);
        }
    }

    // Reads the header of a transfer, and clears it.
    fn take_header(&mut self, hdu: &Hdu)
        requires on { ShardOn hdu.now self.old }
        requires running { self.old.ended ≡ false }
        requires next { header_is_next self.old.pass ≡ true }
        ensures on { ShardOn hdu.now self.new }
        ensures stepped { ShardStepped self.old self.new }
    {
        let HduEnded::Here(reader) = &mut self.pass else {
            unreachable!()
        };
        read_header(hdu, reader, self.space.as_mut_slice());
    }

    // Clears the next block of data, and feeds it to the engine of its transfer. The engine searches a full chunk, and
    // ends, only once the block is cleared: meanwhile other shards can take the block, and the writer its buffer. No
    // clause asks for that order.
    fn take_block(&mut self, hdu: &Hdu)
        requires on { ShardOn hdu.now self.old }
        requires running { self.old.ended ≡ false }
        requires next { header_is_next self.old.pass ≡ false }
        ensures on { ShardOn hdu.now self.new }
        ensures stepped { ShardStepped self.old self.new }
    {
        ends_are_counted();
        entries_are_of_transfers();
        let transfers = self.part.count();
        let transfer = self.done as usize;
        let HduEnded::Here(reader) = &mut self.pass else {
            unreachable!()
        };
        let space = self.space.as_mut_slice();
        let Some(taken) = feed_block(hdu, reader, &mut self.part, transfer, space) else {
            return;
        };
        end_or_search(&mut self.part, transfer, taken.mark);
        self.done += ended_with(taken.mark);
        self.ended = ends_stream(taken.mark, self.done as usize, transfers);
    }

    /// Whether a turn may read a block at this moment: the shard has not ended, and a next block lies in either ring.
    /// It is a hint: no clause speaks of the answer.
    pub fn could_move(&self, hdu: &Hdu) -> bool
        requires { ShardOn hdu.now self.now }
    {
        !self.ended && has_next(hdu, &self.pass)
    }

    /// The shard itself; once it ended, the writer of the rings no longer waits for it.
    pub fn retired(self, hdu: &Hdu) -> ShardActor
        requires { ShardOn hdu.now self }
        ensures on { ShardOn hdu.now result }
        ensures moved { ShardMoved 0 self result }
        ensures retired { result.ended ≡ true → IsRetired result.pass }
    {
        if !self.ended {
            return self;
        }
        let ShardActor {
            part,
            pass,
            space,
            turns,
            done,
            ended,
        } = self;
        ShardActor {
            part,
            pass: retire(hdu, pass),
            space,
            turns,
            done,
            ended,
        }
    }
}
