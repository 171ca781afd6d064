//! The ring, which threads share by reference.
ghost use Rattle.std.specs.Prelude.{◌≡◌, All, IsSomeAnd, ◌+◌, ◌<◌, ◌≤◌, true, false, length, take, IfOk, MatchOption, MatchResult, OnOk, OnErr, EachIndex, IsTrue, ◌↔◌, ◌/◌, ◌%◌, ◌-◌, nat_le, if◌then◌else◌};

use crate::answers::{ReadStop, Taken, WriteStop};
use crate::passes::{ReaderPass, RetiredPass, WriterPass};
use arrayvec::ArrayVec;
use ring_blocks::{BlockTaker, Mark};
use ring_core::Memory;
use ring_words::{MOST_READERS, RingShape, Words};
use std::alloc::Global;

/// A ring of blocks, from one writer to its readers.
#[derive(Drop)]
pub struct Ring {
    pub(crate) words: Words,
}

impl Ring {
    ghost use Rattle.ring_words.specs.Views.{after_clear, after_retire, seated_writer};
    ghost use Rattle.ring_words.specs.Plays.{ReaderSettled};
    ghost use Rattle.ring_words.specs.Shape.{IsRing};
    ghost use Rattle.ring_ends.specs.Passes.{ring_shape, writer_knows, reader_knows, is_read, retired_knows, WritesTo, ReadsFrom, RetiredFrom, HasFreshPass};
    ghost use Rattle.ring_ends.specs.Answers.{FitsMark, CanTakeNext, IsWritten, IsWriteStop, IsRead, IsLent, IsReadStop, SawAllPast, IsFull};

    /// Opens a ring. The pass at place `i` is that of reader `i`.
    pub fn open(
        alloc: Global,
        shape: RingShape,
    ) -> Result<(Ring, WriterPass, ArrayVec<Option<ReaderPass>, MOST_READERS>), Memory>
        requires { IsRing shape }
        ensures shape { IfOk result (λ r. ring_shape r.0 ≡ shape) }
        ensures writer { IfOk result (λ r. WritesTo r.0 r.1
            × (writer_knows r.1 ≡ seated_writer shape shape.readers)) }
        ensures count { IfOk result (λ r. length r.2.items ≡ shape.readers) }
        ensures readers { IfOk result (λ r.
            EachIndex r.2.items (λ i. HasFreshPass r.0 r.2.items i)) }
        ensures passes { IfOk result (λ r. All (λ o. IsSomeAnd o (ReadsFrom r.0)) r.2.items) }
    {
        let (words, seat, mut seats) = Words::open(alloc, shape)?;
        let ring = Ring { words };
        let mut readers = ArrayVec::new();
        for _number in 0..shape.readers {
            let Some(seat) = seats.remove(0) else {
                unreachable!()
            };
            readers.push(Some(ReaderPass {
                seat,
                has_read: false,
            }));
        }
        Ok((ring, WriterPass { seat }, readers))
    }

    /// The shape that the ring was opened with.
    pub fn shape(&self) -> RingShape
        ensures shape { result ≡ ring_shape self.now }
        ensures ring { IsRing result }
    {
        self.words.shape()
    }

    /// Fills the next block, seals it, and returns its number. With the mark `More` the bytes fill a block, with `End`
    /// they are fewer, and with `Cut` there are none. An error seals nothing.
    pub fn write(&self, pass: &mut WriterPass, bytes: &[u8], mark: Mark) -> Result<u64, WriteStop>
        requires ring { WritesTo self.now pass.old }
        requires fits { FitsMark (ring_shape self.now).size mark bytes.now }
        ensures ring { WritesTo self.now pass.new }
        ensures cases { MatchResult result
            (λ n. IsWritten (writer_knows pass.old)
            (record { mark = mark; bytes = bytes.now }) n (writer_knows pass.new))
            (λ stop. IsWriteStop (writer_knows pass.old) stop (writer_knows pass.new)) }
    {
        match self.find_room(pass) {
            Ok(()) => {
                self.words.writer_take(&mut pass.seat);
                Ok(self.words.seal(&mut pass.seat, bytes, mark))
            }
            Err(stop) => Err(stop),
        }
    }

    /// Seals the first `used` bytes of `space` as the next block, with this mark, and returns its number. Marks and
    /// errors are those of `write`. No byte is copied: the block and the caller swap their spaces, which have one size.
    /// An error changes neither of them.
    pub fn write_space(
        &self,
        pass: &mut WriterPass,
        space: &mut Vec<u8>,
        used: usize,
        mark: Mark,
    ) -> Result<u64, WriteStop>
        requires ring { WritesTo self.now pass.old }
        requires room { length space.old.items ≡ (ring_shape self.now).size }
        requires within { used ≤ (ring_shape self.now).size }
        requires fits { FitsMark (ring_shape self.now).size mark (take used space.old.items) }
        ensures ring { WritesTo self.now pass.new }
        ensures cases { MatchResult result
            (λ n. IsWritten (writer_knows pass.old)
            (record { mark = mark; bytes = take used space.old.items }) n (writer_knows pass.new))
            (λ stop. IsWriteStop (writer_knows pass.old) stop (writer_knows pass.new)) }
        ensures space { length space.new.items ≡ length space.old.items }
        ensures kept { OnErr result (space.new ≡ space.old) }
    {
        match self.find_room(pass) {
            Ok(()) => {
                self.words.writer_take(&mut pass.seat);
                Ok(self.words.seal_space(&mut pass.seat, space, used, mark))
            }
            Err(stop) => Err(stop),
        }
    }

    /// Whether each reader has cleared the block in the buffer that the next block needs, at this moment. The pass
    /// doesn't change, and no look is counted. The answer is a hint: no clause speaks of it.
    pub fn has_room(&self, pass: &WriterPass) -> bool {
        let shape = self.words.shape();
        for number in 0..shape.readers {
            if is_late(self.words.peek_count(number), pass.sealed(), shape.buffers) {
                return false;
            }
        }
        true
    }

    /// Copies the reader's next block, the one after those that it cleared, to the front of `into`. Until the block is
    /// cleared, each read copies it again.
    pub fn read(&self, pass: &mut ReaderPass, into: &mut [u8]) -> Result<Taken, ReadStop>
        requires ring { ReadsFrom self.now pass.old }
        requires room { (ring_shape self.now).size ≤ length into.old }
        ensures ring { ReadsFrom self.now pass.new }
        ensures cases { MatchResult result
            (λ taken. IsRead (reader_knows pass.old) into.old
            taken (reader_knows pass.new) into.new)
            (λ stop. IsReadStop (reader_knows pass.old) stop (reader_knows pass.new)) }
        ensures settled { ReaderSettled (reader_knows pass.new) }
        ensures has_read { OnOk result (is_read pass.new ≡ true) }
        ensures kept { OnErr result
            ((is_read pass.new ≡ is_read pass.old) × (into.new ≡ into.old)) }
    {
        let block = pass.cleared();
        match self.words.reader_take(&mut pass.seat) {
            Ok(()) => {
                let (used, mark) = self.words.give(&mut pass.seat, into);
                pass.has_read = true;
                Ok(Taken { block, used, mark })
            }
            Err(word) => Err(stop_of(block, word)),
        }
    }

    /// Lends the reader's next block to `taker`, for its part `part`, which takes the bytes from the place where they
    /// lie. Meanwhile the reader holds the buffer, and other readers find the block busy. Until the block is cleared,
    /// each call lends it again.
    pub fn read_to<T: BlockTaker>(
        &self,
        pass: &mut ReaderPass,
        taker: &mut T,
        part: usize,
    ) -> Result<Taken, ReadStop>
        requires ring { ReadsFrom self.now pass.old }
        requires ready { CanTakeNext (T.can_take taker.old part) (ring_shape self.now)
            (reader_knows pass.old) }
        ensures ring { ReadsFrom self.now pass.new }
        ensures cases { MatchResult result
            (λ taken. IsLent T.took part (reader_knows pass.old) taker.old
            taken (reader_knows pass.new) taker.new)
            (λ stop. IsReadStop (reader_knows pass.old) stop (reader_knows pass.new)) }
        ensures settled { ReaderSettled (reader_knows pass.new) }
        ensures has_read { OnOk result (is_read pass.new ≡ true) }
        ensures kept { OnErr result
            ((is_read pass.new ≡ is_read pass.old) × (taker.new ≡ taker.old)) }
    {
        let block = pass.cleared();
        match self.words.reader_take(&mut pass.seat) {
            Ok(()) => {
                let (used, mark) = self.words.lend(&mut pass.seat, taker, part);
                pass.has_read = true;
                Ok(Taken { block, used, mark })
            }
            Err(found) => Err(stop_of(block, found)),
        }
    }

    /// Whether a read would find its block at this moment. The pass doesn't change, and no try is counted. The answer
    /// is a hint: no clause speaks of it.
    pub fn has_next(&self, pass: &ReaderPass) -> bool
        requires { ReadsFrom self.now pass.now }
    {
        self.words.has_next(&pass.seat)
    }

    /// Counts the block that was read as cleared, and returns the new count.
    pub fn clear(&self, pass: &mut ReaderPass) -> u64
        requires ring { ReadsFrom self.now pass.old }
        requires read { is_read pass.old ≡ true }
        ensures ring { ReadsFrom self.now pass.new }
        ensures cleared { reader_knows pass.new ≡ after_clear (reader_knows pass.old) }
        ensures count { result ≡ length (reader_knows pass.new).cleared }
        ensures settled { ReaderSettled (reader_knows pass.new) }
        ensures unread { is_read pass.new ≡ false }
    {
        pass.has_read = false;
        self.words.clear(&mut pass.seat)
    }

    /// Retires the reader: the writer no longer waits for it.
    pub fn retire(&self, pass: ReaderPass) -> RetiredPass
        requires { ReadsFrom self.now pass }
        ensures ring { RetiredFrom self.now result }
        ensures retired { retired_knows result ≡ after_retire (reader_knows pass) }
    {
        let ReaderPass {
            mut seat,
            has_read: _,
        } = pass;
        self.words.retire(&mut seat);
        RetiredPass { seat }
    }

    // Looks whether the next block can be sealed. The error says why not.
    fn find_room(&self, pass: &mut WriterPass) -> Result<(), WriteStop>
        requires { WritesTo self.now pass.old }
        ensures ring { WritesTo self.now pass.new }
        ensures cases { MatchResult result
            (λ _. (length (writer_knows pass.old).sealed < (ring_shape self.now).max_blocks)
            × SawAllPast (writer_knows pass.old) (writer_knows pass.new))
            (λ stop. IsWriteStop (writer_knows pass.old) stop (writer_knows pass.new)) }
    {
        let limit = self.words.shape().max_blocks;
        if pass.sealed() == limit {
            return Err(WriteStop::Spent { limit });
        }
        match self.first_late(pass) {
            Some((reader, cleared)) => Err(WriteStop::Full { reader, cleared }),
            None => Ok(()),
        }
    }

    // Looks at each reader in turn, up to the first that has not cleared the block in the buffer that the next block
    // needs. Returns that reader and the count that was seen.
    fn first_late(&self, pass: &mut WriterPass) -> Option<(u32, u64)>
        requires ring { WritesTo self.now pass.old }
        requires within { length (writer_knows pass.old).sealed < (ring_shape self.now).max_blocks }
        ensures ring { WritesTo self.now pass.new }
        ensures cases { MatchOption result
            (SawAllPast (writer_knows pass.old) (writer_knows pass.new))
            (λ late. IsFull (writer_knows pass.old) late.0 late.1 (writer_knows pass.new)) }
    {
        let shape = self.words.shape();
        let sealed = pass.sealed();
        for reader in 0..shape.readers {
            let cleared = self.words.look(&mut pass.seat, reader);
            if is_late(cleared, sealed, shape.buffers) {
                return Some((reader, cleared));
            }
        }
        None
    }
}

// Whether a reader that cleared `cleared` blocks may still need the one that the next block overwrites.
fn is_late(cleared: u64, sealed: u64, buffers: u32) -> bool
    ensures { IsTrue result ↔ (cleared + buffers ≤ sealed) }
{
    match sealed.checked_sub(buffers as u64) {
        Some(last) => cleared <= last,
        None => false,
    }
}

// Why a read of block `block` took nothing, from the word that was found in the buffer.
fn stop_of(block: u64, word: u64) -> ReadStop
    requires { block < word / 16 → 0 < word % 16 }
    ensures { result ≡ (if nat_le (word / 16) block then ReadStop.Empty block (word / 16)
        else ReadStop.Busy block (word % 16 - 1)) }
{
    let seen = word / 16;
    if seen <= block {
        ReadStop::Empty { block, seen }
    } else {
        ReadStop::Busy {
            block,
            reader: (word % 16) as u32 - 1,
        }
    }
}
