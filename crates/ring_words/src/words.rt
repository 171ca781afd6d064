//! The words and slots of the ring, and the steps on them.
ghost use Rattle.std.specs.Prelude.{◌≡◌, ◌+◌, ◌-◌, ◌*◌, ◌%◌, ◌^◌, ◌<◌, IfOk, All, length, take};
ghost use Rattle.ring_blocks.specs.Contents.{room_of};
ghost use Rattle.ring_words.specs.Shape.{IsRing};

use crate::plays::{Clear, Deal, Give, Look, Park, Retire, Seal, Try, WriterTake};
use crate::seats::{ReaderSeat, WriterSeat};
use crate::shape::{MOST_READERS, RingShape};
use crate::views::{RingRule, View};
use arrayvec::ArrayVec;
use atomic_table::Table;
use ring_blocks::{Block, BlockTaker, Mark};
use ring_core::Memory;
use std::alloc::{AllocError, Global};

/// The holder of a buffer in its word, if the writer holds it.
const WRITER: u64 = 15;

/// The count of a reader in its word, once the reader is retired.
const RETIRED: u64 = u64::MAX;

/// The words and slots of a ring. Threads share them by reference.
#[derive(Drop)]
pub struct Words {
    table: Table<Block, View, RingShape, RingRule, Global>,
    shape: RingShape,
    ghost ring: { IsRing shape },
    ghost keyed: { table.shared.key ≡ shape },
    ghost wide: { table.shared.table_id.words ≡ shape.buffers + shape.readers },
    ghost deep: { table.shared.table_id.slots ≡ shape.buffers },
}

impl Words {
    ghost use Rattle.std.specs.Prelude.{◌≤◌, Some, true, false, EachIndex, OnOk, IfErr, IsSome};
    ghost use Rattle.std.specs.Option.{ForSome};
    ghost use Rattle.ring_words.specs.Views.{fresh_reader, fresh_writer, seated_writer, parked_at, after_split, after_join};
    ghost use Rattle.ring_words.specs.Steps.{SeesRoom, SawCount, TookBuffer, SealedEntry, TookBlock, MissedBlock, CopiedBlock, LentBlock, GaveBuffer, ClearedBlock, RetiredReader};
    ghost use Rattle.ring_words.specs.Seats.{shape_of, writer_view, reader_view, Writes, Reads, IsFreshReader, HasFreshReader};

    /// Opens a ring in which nobody holds a buffer. The seat at place `i` is that of reader `i`.
    pub fn open(
        alloc: Global,
        shape: RingShape,
    ) -> Result<
        (
            Words,
            WriterSeat,
            ArrayVec<Option<ReaderSeat>, MOST_READERS>,
        ),
        Memory,
    >
        requires { IsRing shape }
        ensures shape { IfOk result (λ r. shape_of r.0 ≡ shape) }
        ensures writer { IfOk result (λ r. Writes r.0 r.1
            × (writer_view r.1 ≡ seated_writer shape shape.readers)) }
        ensures count { IfOk result (λ r. length r.2.items ≡ shape.readers) }
        ensures readers { IfOk result (λ r.
            EachIndex r.2.items (λ i. HasFreshReader r.0 r.2.items i)) }
    {
        let (words, mut writer) = Words::lay(alloc, shape)?;
        let mut readers = ArrayVec::new();
        for number in 0..shape.readers {
            readers.push(Some(words.seat_reader(&mut writer, number)));
        }
        Ok((words, writer, readers))
    }

    // A ring in which no reader has a seat yet.
    fn lay(alloc: Global, shape: RingShape) -> Result<(Words, WriterSeat), Memory>
        requires { IsRing shape }
        ensures shape { IfOk result (λ r. shape_of r.0 ≡ shape) }
        ensures writer { IfOk result (λ r. Writes r.0 r.1
            × (writer_view r.1 ≡ fresh_writer shape)) }
    {
        let words = vec![in alloc; 0u64; (shape.buffers + shape.readers) as usize]?;
        let blocks = open_blocks(alloc, shape.buffers, shape.size)?;
        match Table::new(alloc, words.as_slice(), blocks, &shape) {
            Ok((table, seat)) => {
                let words = Words { table, shape };
                let writer = WriterSeat {
                    seat,
                    sealed: 0,
                    looks: 0,
                    last_look: None,
                };
                Ok((words, writer))
            }
            Err(_) => Err(Memory),
        }
    }

    // Gives reader `number`, the next one, its seat.
    fn seat_reader(&self, writer: &mut WriterSeat, number: u32) -> ReaderSeat
        requires seat { Writes self.now writer.old }
        requires near { number < (shape_of self.now).readers }
        requires next { (writer_view writer.old).split ≡ number }
        requires fresh { parked_at (writer_view writer.old) number
            ≡ Some (fresh_reader (shape_of self.now) number) }
        ensures seat { Writes self.now writer.new }
        ensures rest { writer_view writer.new ≡ after_split (writer_view writer.old) }
        ensures reader { IsFreshReader self.now number result }
    {
        ReaderSeat {
            seat: self.table.shared.split_seat::<Deal>(&mut writer.seat),
            number,
            cleared: 0,
            tries: 0,
            last_try: None,
        }
    }

    /// The shape that the ring was opened with.
    pub fn shape(&self) -> RingShape
        ensures shape { result ≡ shape_of self.now }
        ensures ring { IsRing result }
    {
        self.shape
    }

    /// Loads the count of a reader: `u64::MAX` if it is retired.
    pub fn look(&self, writer: &mut WriterSeat, reader: u32) -> u64
        requires seat { Writes self.now writer.old }
        requires reader { reader < (shape_of self.now).readers }
        ensures seat { Writes self.now writer.new }
        ensures saw { SawCount (writer_view writer.old) reader result (writer_view writer.new) }
    {
        let word = self.count_word_of(reader);
        let found = self.table.shared.load::<Look>(&mut writer.seat, word);
        writer.looks = writer.looks.saturating_add(1);
        writer.last_look = Some((reader, found));
        found
    }

    /// The count of a reader at this moment: `u64::MAX` if it is retired. No seat changes, and no look is counted. The
    /// answer is a hint: no clause speaks of it.
    pub fn peek_count(&self, reader: u32) -> u64
        requires { reader < (shape_of self.now).readers }
    {
        self.table.shared.peek(self.count_word_of(reader))
    }

    /// Takes the buffer for the next block. No reader needs it any more.
    pub fn writer_take(&self, writer: &mut WriterSeat)
        requires seat { Writes self.now writer.old }
        requires home { (writer_view writer.old).out ≡ false }
        requires blocks { length (writer_view writer.old).sealed < (shape_of self.now).max_blocks }
        requires room { SeesRoom (shape_of self.now) (writer_view writer.old) }
        ensures seat { Writes self.now writer.new }
        ensures took { TookBuffer (writer_view writer.old) (writer_view writer.new) }
    {
        let found = self.passed_word(writer.sealed);
        self.table.shared.compare_exchange::<WriterTake>(
            &mut writer.seat,
            self.slot_of(writer.sealed),
            found,
            found + WRITER,
        );
    }

    /// Fills the block that the writer holds, seals it, and returns its number.
    pub fn seal(&self, writer: &mut WriterSeat, bytes: &[u8], mark: Mark) -> u64
        requires seat { Writes self.now writer.old }
        requires out { (writer_view writer.old).out ≡ true }
        requires fits { length bytes.now ≤ (shape_of self.now).size }
        ensures seat { Writes self.now writer.new }
        ensures sealed { SealedEntry (writer_view writer.old)
            (record { mark = mark; bytes = bytes.now }) result (writer_view writer.new) }
    {
        let number = writer.sealed;
        let slot = self.slot_of(number);
        writer
            .seat
            .slot_mut(&self.table.shared, slot)
            .fill(bytes, mark);
        self.table
            .shared
            .store::<Seal>(&mut writer.seat, slot, home_word(number));
        writer.sealed = number + 1;
        number
    }

    /// Seals the block that the writer holds, with the first `used` bytes of `space`, and returns its number. No byte
    /// is copied: the block and the caller swap their spaces.
    pub fn seal_space(
        &self,
        writer: &mut WriterSeat,
        space: &mut Vec<u8>,
        used: usize,
        mark: Mark,
    ) -> u64
        requires seat { Writes self.now writer.old }
        requires out { (writer_view writer.old).out ≡ true }
        requires room { length space.old.items ≡ (shape_of self.now).size }
        requires within { used ≤ (shape_of self.now).size }
        ensures seat { Writes self.now writer.new }
        ensures sealed { SealedEntry (writer_view writer.old)
            (record { mark = mark; bytes = take used space.old.items }) result
            (writer_view writer.new) }
        ensures space { length space.new.items ≡ length space.old.items }
    {
        let number = writer.sealed;
        let slot = self.slot_of(number);
        writer
            .seat
            .slot_mut(&self.table.shared, slot)
            .exchange(space, used, mark);
        self.table
            .shared
            .store::<Seal>(&mut writer.seat, slot, home_word(number));
        writer.sealed = number + 1;
        number
    }

    /// Tries to take the buffer of the reader's next block. An error is the word of that buffer: 16 (n + 1) if block n
    /// was sealed in it last, or 0 if none was, plus the holder: 0 for nobody, 15 for the writer, i + 1 for reader i.
    pub fn reader_take(&self, reader: &mut ReaderSeat) -> Result<(), u64>
        requires seat { Reads self.now reader.old }
        requires home { (reader_view reader.old).out ≡ false }
        requires registered { (reader_view reader.old).retired ≡ false }
        ensures seat { Reads self.now reader.new }
        ensures taken { OnOk result (TookBlock (reader_view reader.old) (reader_view reader.new)) }
        ensures missed { IfErr result (λ n.
            MissedBlock (reader_view reader.old) n (reader_view reader.new)) }
    {
        let home = home_word(reader.cleared);
        let found = self.table.shared.compare_exchange::<Try>(
            &mut reader.seat,
            self.slot_of(reader.cleared),
            home,
            home + reader.number as u64 + 1,
        );
        reader.tries = reader.tries.saturating_add(1);
        reader.last_try = Some(found);
        if found == home { Ok(()) } else { Err(found) }
    }

    /// Whether the reader's next block is sealed and nobody holds it, at this moment. The seat doesn't change, and no
    /// try is counted. The answer is a hint: no clause speaks of it.
    pub fn has_next(&self, reader: &ReaderSeat) -> bool
        requires { Reads self.now reader.now }
    {
        self.table.shared.peek(self.slot_of(reader.cleared)) == home_word(reader.cleared)
    }

    /// Copies the block that the reader holds to the front of `into`, and gives its buffer back. Returns the number of
    /// bytes, and the mark.
    pub fn give(&self, reader: &mut ReaderSeat, into: &mut [u8]) -> (u32, Mark)
        requires seat { Reads self.now reader.old }
        requires out { (reader_view reader.old).out ≡ true }
        requires room { (shape_of self.now).size ≤ length into.old }
        ensures seat { Reads self.now reader.new }
        ensures gave { GaveBuffer (reader_view reader.old) (reader_view reader.new) }
        ensures copied { CopiedBlock (reader_view reader.old) into.old into.new result.0 result.1 }
    {
        let slot = self.slot_of(reader.cleared);
        let block = reader.seat.slot_mut(&self.table.shared, slot);
        let used = block.copy_to(into);
        let mark = block.mark();
        self.table
            .shared
            .store::<Give>(&mut reader.seat, slot, home_word(reader.cleared));
        (used, mark)
    }

    /// Lends the block that the reader holds to `taker` for its part `part`, and gives its buffer back. Returns the
    /// number of bytes, and the mark.
    pub fn lend<T: BlockTaker>(
        &self,
        reader: &mut ReaderSeat,
        taker: &mut T,
        part: usize,
    ) -> (u32, Mark)
        requires seat { Reads self.now reader.old }
        requires out { (reader_view reader.old).out ≡ true }
        requires ready { ForSome (reader_view reader.old).got (T.can_take taker.old part) }
        ensures seat { Reads self.now reader.new }
        ensures gave { GaveBuffer (reader_view reader.old) (reader_view reader.new) }
        ensures lent { LentBlock T.took part (reader_view reader.old) taker.old taker.new result.0
            result.1 }
    {
        let slot = self.slot_of(reader.cleared);
        let block = reader.seat.slot_mut(&self.table.shared, slot);
        let used = block.lend(taker, part);
        let mark = block.mark();
        self.table
            .shared
            .store::<Give>(&mut reader.seat, slot, home_word(reader.cleared));
        (used, mark)
    }

    /// Counts the block that the reader gave back as cleared, and returns the new count.
    pub fn clear(&self, reader: &mut ReaderSeat) -> u64
        requires seat { Reads self.now reader.old }
        requires home { (reader_view reader.old).out ≡ false }
        requires registered { (reader_view reader.old).retired ≡ false }
        requires got { IsSome (reader_view reader.old).got }
        ensures seat { Reads self.now reader.new }
        ensures cleared { ClearedBlock (reader_view reader.old) result (reader_view reader.new) }
    {
        let count = reader.cleared + 1;
        self.table
            .shared
            .store::<Clear>(&mut reader.seat, self.count_word_of(reader.number), count);
        reader.cleared = count;
        count
    }

    /// Retires the reader: the writer no longer waits for it.
    pub fn retire(&self, reader: &mut ReaderSeat)
        requires seat { Reads self.now reader.old }
        requires home { (reader_view reader.old).out ≡ false }
        requires registered { (reader_view reader.old).retired ≡ false }
        ensures seat { Reads self.now reader.new }
        ensures retired { RetiredReader (reader_view reader.old) (reader_view reader.new) }
    {
        self.table.shared.store::<Retire>(
            &mut reader.seat,
            self.count_word_of(reader.number),
            RETIRED,
        );
    }

    /// Takes back the seat of a reader: the writer then knows what the reader knows.
    pub fn join(&self, writer: &mut WriterSeat, reader: ReaderSeat)
        requires writer_seat { Writes self.now writer.old }
        requires reader_seat { Reads self.now reader }
        requires home { (reader_view reader).out ≡ false }
        ensures seat { Writes self.now writer.new }
        ensures view { writer_view writer.new
            ≡ after_join (writer_view writer.old) (reader_view reader) }
    {
        let ReaderSeat {
            seat,
            number: _,
            cleared: _,
            tries: _,
            last_try: _,
        } = reader;
        self.table.shared.join_seat::<Park>(&mut writer.seat, seat);
    }

    // The place of the buffer of a block, which is that of its slot and of its word.
    fn slot_of(&self, number: u64) -> usize
        ensures { result ≡ number % (shape_of self.now).buffers }
    {
        (number % self.shape.buffers as u64) as usize
    }

    fn count_word_of(&self, reader: u32) -> usize
        ensures { result ≡ (shape_of self.now).buffers + reader }
    {
        self.shape.buffers as usize + reader as usize
    }

    // The word of the buffer for the next block, once every reader has cleared the block in it or is retired.
    fn passed_word(&self, sealed: u64) -> u64
        requires { sealed < 2 ^ 59 }
        ensures { result ≡ 16 * ((sealed + 1) - (shape_of self.now).buffers) }
    {
        16 * (sealed + 1).saturating_sub(self.shape.buffers as u64)
    }
}

// The word of a buffer that has this block and that nobody holds.
fn home_word(number: u64) -> u64
    requires { number < 2 ^ 59 }
    ensures { result ≡ 16 * (number + 1) }
{
    16 * (number + 1)
}

// A list of `count` empty blocks of `size` bytes.
fn open_blocks(alloc: Global, count: u32, size: u32) -> Result<Vec<Block>, Memory>
    ensures count { IfOk result (λ v. length v.items ≡ count) }
    ensures room { IfOk result (λ v. All (λ b. room_of b ≡ size) v.items) }
{
    let mut blocks = Vec::with_capacity(alloc, count as usize)?;
    for _made in 0..count {
        let Ok(block) = Block::open(alloc, size) else {
            return Err(Memory);
        };
        blocks.push(block).map_err(AllocError::from)?;
    }
    Ok(blocks)
}
