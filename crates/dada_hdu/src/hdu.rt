//! The two rings, which threads share by reference.
ghost use Rattle.std.specs.Prelude.{◌≡◌, ◌≤◌, All, EachIndex, IfOk, OnErr, IsSomeAnd, length, take, true, Some};
ghost use Rattle.ring_ends.specs.Passes.{ring_shape};
ghost use Rattle.dada_hdu.specs.Shapes.{header_shape};
ghost use Rattle.dada_hdu.specs.Pairs.{Pairs, PairsEach};

use crate::passes::{HduReader, HduRetired, HduWriter};
use crate::shapes::shape_of_headers;
use arrayvec::ArrayVec;
use dada_header::Header;
use dada_model::headers_are_text;
use psr_base::Memory;
use ring_ends::{BlockTaker, Mark, ReadStop, ReaderPass, Ring, RingShape, Taken, WriteStop};
use ring_words::MOST_READERS;
use std::alloc::Global;

/// A header ring of 2 buffers of 65537 bytes, and a data ring. Both have the same readers and the same largest number
/// of blocks.
#[derive(Drop)]
pub struct Hdu {
    pub(crate) header: Ring,
    pub(crate) blocks: Ring,
    ghost alike: { ring_shape header ≡ header_shape (ring_shape blocks) },
}

// The reader with these two passes.
fn reader_of(header: Option<ReaderPass>, blocks: Option<ReaderPass>) -> Option<HduReader>
    ensures { Pairs header blocks result }
{
    let Some(header) = header else { return None };
    let Some(blocks) = blocks else { return None };
    Some(HduReader { header, blocks })
}

// Joins reader i of the header ring and reader i of the data ring.
fn readers_of(
    mut headers: ArrayVec<Option<ReaderPass>, MOST_READERS>,
    mut blocks: ArrayVec<Option<ReaderPass>, MOST_READERS>,
) -> ArrayVec<Option<HduReader>, MOST_READERS>
    requires { length headers.items ≡ length blocks.items }
    ensures count { length result.items ≡ length headers.items }
    ensures each { PairsEach headers.items blocks.items result.items }
{
    let mut readers = ArrayVec::new();
    for _place in 0..headers.len() {
        readers.push(reader_of(headers.remove(0), blocks.remove(0)));
    }
    readers
}

impl Hdu {
    ghost use Rattle.ring_words.specs.Shape.{IsRing};
    ghost use Rattle.ring_words.specs.Views.{after_retire};
    ghost use Rattle.ring_ends.specs.Passes.{reader_knows, retired_knows, is_read};
    ghost use Rattle.ring_ends.specs.Answers.{FitsMark, CanTakeNext};
    ghost use Rattle.dada_hdu.specs.Passes.{data_shape, WritesBoth, ReadsBoth, RetiredFromBoth, IsFreshWriter, HasFreshReader};
    ghost use Rattle.dada_hdu.specs.Answers.{entry, header_entry, WriteAnswers, ReadAnswers, LendAnswers, ClearAnswers};

    /// Opens a data ring of this shape and a header ring beside it. The reader at place `i` has number `i` in both
    /// rings.
    pub fn open(
        alloc: Global,
        shape: RingShape,
    ) -> Result<(Hdu, HduWriter, ArrayVec<Option<HduReader>, MOST_READERS>), Memory>
        requires { IsRing shape }
        ensures shape { IfOk result (λ r. data_shape r.0 ≡ shape) }
        ensures writer { IfOk result (λ r. IsFreshWriter r.0 r.1) }
        ensures count { IfOk result (λ r. length r.2.items ≡ shape.readers) }
        ensures readers { IfOk result (λ r.
            EachIndex r.2.items (λ i. HasFreshReader r.0 r.2.items i)) }
        ensures passes { IfOk result (λ r. All (λ o. IsSomeAnd o (ReadsBoth r.0)) r.2.items) }
    {
        let Ok((header, header_writer, header_readers)) = Ring::open(alloc, shape_of_headers(shape))
        else {
            return Err(Memory);
        };
        let Ok((blocks, block_writer, block_readers)) = Ring::open(alloc, shape) else {
            return Err(Memory);
        };
        let writer = HduWriter {
            header: header_writer,
            blocks: block_writer,
        };
        let readers = readers_of(header_readers, block_readers);
        Ok((Hdu { header, blocks }, writer, readers))
    }

    /// The shape of the data ring.
    pub fn shape(&self) -> RingShape
        ensures shape { result ≡ data_shape self.now }
        ensures ring { IsRing result }
    {
        self.blocks.shape()
    }

    /// Seals the bytes of a header as the next block of the header ring, with the mark `End`, and returns its number.
    pub fn write_header(&self, pass: &mut HduWriter, header: &Header) -> Result<u64, WriteStop>
        requires ring { WritesBoth self.now pass.old }
        ensures ring { WritesBoth self.now pass.new }
        ensures header { WriteAnswers pass.old.header (header_entry header.now) result
            pass.new.header }
        ensures blocks { pass.new.blocks ≡ pass.old.blocks }
    {
        headers_are_text();
        self.header
            .write(&mut pass.header, header.bytes(), Mark::End)
    }

    /// Copies the reader's next header, the one after those that it cleared, to the front of `into`, which has at least
    /// `HEADER_SPACE` bytes. Until the header is cleared, each read copies it again. An error leaves `into` as it was.
    pub fn read_header(&self, pass: &mut HduReader, into: &mut [u8]) -> Result<Taken, ReadStop>
        requires ring { ReadsBoth self.now pass.old }
        requires room { 65537 ≤ length into.old }
        ensures ring { ReadsBoth self.now pass.new }
        ensures header { ReadAnswers pass.old.header into.old result pass.new.header into.new }
        ensures blocks { pass.new.blocks ≡ pass.old.blocks }
    {
        self.header.read(&mut pass.header, into)
    }

    /// Counts the header that was read as cleared, and returns the new count.
    pub fn clear_header(&self, pass: &mut HduReader) -> u64
        requires ring { ReadsBoth self.now pass.old }
        requires read { is_read pass.old.header ≡ true }
        ensures ring { ReadsBoth self.now pass.new }
        ensures header { ClearAnswers pass.old.header result pass.new.header }
        ensures blocks { pass.new.blocks ≡ pass.old.blocks }
    {
        self.header.clear(&mut pass.header)
    }

    /// Fills the next block of the data ring, seals it, and returns its number. With the mark `More` the bytes fill a
    /// block, with `End` they are fewer, and with `Cut` there are none. An error seals nothing.
    pub fn write(&self, pass: &mut HduWriter, bytes: &[u8], mark: Mark) -> Result<u64, WriteStop>
        requires ring { WritesBoth self.now pass.old }
        requires fits { FitsMark (data_shape self.now).size mark bytes.now }
        ensures ring { WritesBoth self.now pass.new }
        ensures blocks { WriteAnswers pass.old.blocks (entry mark bytes.now) result
            pass.new.blocks }
        ensures header { pass.new.header ≡ pass.old.header }
    {
        self.blocks.write(&mut pass.blocks, bytes, mark)
    }

    /// Seals the first `used` bytes of `space` as the next block of the data ring, with this mark, and returns its
    /// number. No byte is copied: the block and the caller swap their spaces, which have one size.
    pub fn write_space(
        &self,
        pass: &mut HduWriter,
        space: &mut Vec<u8>,
        used: usize,
        mark: Mark,
    ) -> Result<u64, WriteStop>
        requires ring { WritesBoth self.now pass.old }
        requires room { length space.old.items ≡ (data_shape self.now).size }
        requires within { used ≤ (data_shape self.now).size }
        requires fits { FitsMark (data_shape self.now).size mark (take used space.old.items) }
        ensures ring { WritesBoth self.now pass.new }
        ensures blocks { WriteAnswers pass.old.blocks (entry mark (take used space.old.items))
            result pass.new.blocks }
        ensures header { pass.new.header ≡ pass.old.header }
        ensures space { length space.new.items ≡ length space.old.items }
        ensures kept { OnErr result (space.new ≡ space.old) }
    {
        self.blocks.write_space(&mut pass.blocks, space, used, mark)
    }

    /// Whether the data ring has room for a block at this moment. The pass doesn't change, and no look is counted. The
    /// answer is a hint: no clause speaks of it.
    pub fn has_room(&self, pass: &HduWriter) -> bool {
        self.blocks.has_room(&pass.blocks)
    }

    /// Copies the reader's next data block, the one after those that it cleared, to the front of `into`. Until the
    /// block is cleared, each read copies it again.
    pub fn read(&self, pass: &mut HduReader, into: &mut [u8]) -> Result<Taken, ReadStop>
        requires ring { ReadsBoth self.now pass.old }
        requires room { (data_shape self.now).size ≤ length into.old }
        ensures ring { ReadsBoth self.now pass.new }
        ensures blocks { ReadAnswers pass.old.blocks into.old result pass.new.blocks into.new }
        ensures header { pass.new.header ≡ pass.old.header }
    {
        self.blocks.read(&mut pass.blocks, into)
    }

    /// Lends the reader's next data block to `taker`, for its part `part`, which takes the bytes from the place where
    /// they lie. Meanwhile the reader holds the buffer, and other readers find the block busy. Until the block is
    /// cleared, each call lends it again.
    pub fn read_to<T: BlockTaker>(
        &self,
        pass: &mut HduReader,
        taker: &mut T,
        part: usize,
    ) -> Result<Taken, ReadStop>
        requires ring { ReadsBoth self.now pass.old }
        requires ready { CanTakeNext (T.can_take taker.old part) (data_shape self.now)
            (reader_knows pass.old.blocks) }
        ensures ring { ReadsBoth self.now pass.new }
        ensures blocks { LendAnswers T.took part pass.old.blocks taker.old result pass.new.blocks
            taker.new }
        ensures header { pass.new.header ≡ pass.old.header }
    {
        self.blocks.read_to(&mut pass.blocks, taker, part)
    }

    /// Counts the data block that was read as cleared, and returns the new count.
    pub fn clear(&self, pass: &mut HduReader) -> u64
        requires ring { ReadsBoth self.now pass.old }
        requires read { is_read pass.old.blocks ≡ true }
        ensures ring { ReadsBoth self.now pass.new }
        ensures blocks { ClearAnswers pass.old.blocks result pass.new.blocks }
        ensures header { pass.new.header ≡ pass.old.header }
    {
        self.blocks.clear(&mut pass.blocks)
    }

    /// Whether a read of a header or of a data block would find one at this moment. The pass doesn't change, and no try
    /// is counted. The answer is a hint: no clause speaks of it.
    pub fn has_next(&self, pass: &HduReader) -> bool
        requires { ReadsBoth self.now pass.now }
    {
        self.blocks.has_next(&pass.blocks) || self.header.has_next(&pass.header)
    }

    /// Retires the reader in both rings: the writer no longer waits for it.
    pub fn retire(&self, pass: HduReader) -> HduRetired
        requires { ReadsBoth self.now pass }
        ensures ring { RetiredFromBoth self.now result }
        ensures header { retired_knows result.header ≡ after_retire (reader_knows pass.header) }
        ensures blocks { retired_knows result.blocks ≡ after_retire (reader_knows pass.blocks) }
    {
        let HduReader { header, blocks } = pass;
        HduRetired {
            header: self.header.retire(header),
            blocks: self.blocks.retire(blocks),
        }
    }
}
