//! The passes with which threads write and read. A pass is moved to another thread, or lent to it.
ghost use Rattle.std.specs.Prelude.{◌≡◌, true, false, IsSome, length, min, option_map, ◌/◌, ◌%◌};
ghost use Rattle.ring_core.specs.Machine.{greatest};
ghost use Rattle.ring_words.specs.Seats.{writer_view, reader_view};

use ring_words::{ReaderSeat, WriterSeat};

/// The right to write to a ring.
#[derive(Drop)]
pub struct WriterPass {
    pub(crate) seat: WriterSeat,
    ghost home: { (writer_view seat).out ≡ false },
}

/// The right to read from a ring, as one of its registered readers.
#[derive(Drop)]
pub struct ReaderPass {
    pub(crate) seat: ReaderSeat,
    pub(crate) has_read: bool,
    ghost home: { (reader_view seat).out ≡ false },
    ghost registered: { (reader_view seat).retired ≡ false },
    ghost got: { has_read ≡ true → IsSome (reader_view seat).got },
}

/// A registered reader that reads nothing for now. The writer still waits for it.
#[derive(Drop)]
pub struct DetachedReader {
    pub(crate) seat: ReaderSeat,
    ghost home: { (reader_view seat).out ≡ false },
    ghost registered: { (reader_view seat).retired ≡ false },
}

/// A reader that the writer no longer waits for.
#[derive(Drop)]
pub struct RetiredPass {
    pub(crate) seat: ReaderSeat,
    ghost home: { (reader_view seat).out ≡ false },
}

/// A reader when its ring ends.
#[derive(Drop)]
pub enum EndedReader {
    /// It was still reading.
    Here(ReaderPass),
    /// It was detached.
    Away(DetachedReader),
    /// It was retired.
    Retired(RetiredPass),
}

impl WriterPass {
    ghost use Rattle.ring_ends.specs.Passes.{writer_knows};

    /// The number of blocks that were sealed.
    pub fn sealed(&self) -> u64
        ensures { result ≡ length (writer_knows self.now).sealed }
    {
        self.seat.sealed()
    }

    /// How often the writer looked at a reader's count. It stops at `u64::MAX`.
    pub fn looks(&self) -> u64
        ensures { result ≡ min greatest (writer_knows self.now).looks }
    {
        self.seat.looks()
    }

    /// The reader that the writer looked at last, and the count that it saw: `u64::MAX` if the reader had retired.
    /// `None` before the first look.
    pub fn last_look(&self) -> Option<(u32, u64)>
        ensures { result ≡ (writer_knows self.now).last_look }
    {
        self.seat.last_look()
    }
}

impl ReaderPass {
    ghost use Rattle.ring_ends.specs.Passes.{reader_knows, is_read, detached_knows, ring_of_reader, ring_of_detached};

    /// The reader's number in its ring, from 0.
    pub fn number(&self) -> u32
        ensures { result ≡ (reader_knows self.now).number }
    {
        self.seat.number()
    }

    /// The number of blocks that the reader cleared.
    pub fn cleared(&self) -> u64
        ensures { result ≡ length (reader_knows self.now).cleared }
    {
        self.seat.cleared()
    }

    /// How often the reader tried to take a block. It stops at `u64::MAX`.
    pub fn tries(&self) -> u64
        ensures { result ≡ min greatest (reader_knows self.now).tries }
    {
        self.seat.tries()
    }

    /// What the last try found in the buffer: the number of its block plus 1, or 0 if there was none; and the holder: 0
    /// for nobody, 15 for the writer, a reader's number plus 1 for that reader. `None` before the first try.
    pub fn last_try(&self) -> Option<(u64, u32)>
        ensures { result
            ≡ option_map (λ word. (word / 16, word % 16)) (reader_knows self.now).last_try }
    {
        self.seat.last_try()
    }

    /// Whether the reader has read its next block: the one after those that it cleared.
    pub fn has_read(&self) -> bool
        ensures { result ≡ is_read self.now }
    {
        self.has_read
    }

    /// Stops reading for now. If a block was read but not cleared, it is read again later.
    pub fn detach(self) -> DetachedReader
        ensures same { detached_knows result ≡ reader_knows self }
        ensures ring { ring_of_detached result ≡ ring_of_reader self }
    {
        let ReaderPass { seat, has_read: _ } = self;
        DetachedReader { seat }
    }
}

impl DetachedReader {
    ghost use Rattle.ring_ends.specs.Passes.{reader_knows, is_read, detached_knows, ring_of_reader, ring_of_detached};

    /// The reader's number in its ring, from 0.
    pub fn number(&self) -> u32
        ensures { result ≡ (detached_knows self.now).number }
    {
        self.seat.number()
    }

    /// The number of blocks that the reader cleared.
    pub fn cleared(&self) -> u64
        ensures { result ≡ length (detached_knows self.now).cleared }
    {
        self.seat.cleared()
    }

    /// Reads again, from the first block that was not cleared.
    pub fn attach(self) -> ReaderPass
        ensures same { reader_knows result ≡ detached_knows self }
        ensures ring { ring_of_reader result ≡ ring_of_detached self }
        ensures unread { is_read result ≡ false }
    {
        let DetachedReader { seat } = self;
        ReaderPass {
            seat,
            has_read: false,
        }
    }
}

impl RetiredPass {
    ghost use Rattle.ring_ends.specs.Passes.{retired_knows};

    /// The reader's number in its ring, from 0.
    pub fn number(&self) -> u32
        ensures { result ≡ (retired_knows self.now).number }
    {
        self.seat.number()
    }

    /// The number of blocks that the reader cleared.
    pub fn cleared(&self) -> u64
        ensures { result ≡ length (retired_knows self.now).cleared }
    {
        self.seat.cleared()
    }
}

impl EndedReader {
    ghost use Rattle.ring_ends.specs.Passes.{ended_seat, ended_knows};

    /// The reader's number in its ring, from 0.
    pub fn number(&self) -> u32
        ensures { result ≡ (ended_knows self.now).number }
    {
        match self {
            EndedReader::Here(pass) => pass.number(),
            EndedReader::Away(reader) => reader.number(),
            EndedReader::Retired(pass) => pass.number(),
        }
    }

    /// The number of blocks that the reader cleared.
    pub fn cleared(&self) -> u64
        ensures { result ≡ length (ended_knows self.now).cleared }
    {
        match self {
            EndedReader::Here(pass) => pass.cleared(),
            EndedReader::Away(reader) => reader.cleared(),
            EndedReader::Retired(pass) => pass.cleared(),
        }
    }

    pub(crate) fn into_seat(self) -> ReaderSeat
        ensures seat { result ≡ ended_seat self }
        ensures home { (reader_view result).out ≡ false }
    {
        match self {
            EndedReader::Here(ReaderPass { seat, has_read: _ }) => seat,
            EndedReader::Away(DetachedReader { seat }) => seat,
            EndedReader::Retired(RetiredPass { seat }) => seat,
        }
    }
}
