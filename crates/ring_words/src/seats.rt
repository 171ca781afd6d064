//! The seats of the writer and of the readers.
ghost use Rattle.std.specs.Prelude.{◌≡◌, ◌≢◌, ◌<◌, ◌≤◌, true, None, length, map, min};
ghost use Rattle.ring_core.specs.Machine.{greatest};
ghost use Rattle.ring_words.specs.declared.views.View.TheVariants.{Writer, Reader};
ghost use Rattle.ring_words.specs.Views.{writer_of, reader_of};
ghost use Rattle.ring_words.specs.Hands.{room_at, rooms_out, entry_at, entries_out};
ghost use Rattle.ring_words.specs.Plays.{ReaderSettled};

use crate::views::View;
use atomic_table::Seat;
use ring_blocks::Block;

/// The writer's seat. In a clause it has what the writer knows.
#[derive(Drop)]
pub struct WriterSeat {
    pub(crate) seat: Seat<Block, View>,
    pub(crate) sealed: u64,
    pub(crate) looks: u64,
    pub(crate) last_look: Option<(u32, u64)>,
    ghost role: { seat.me.0 ≡ Writer (writer_of seat.me.0) },
    ghost hand: { map room_at seat.me.1 ≡ rooms_out (writer_of seat.me.0) },
    ghost count: { sealed ≡ length (writer_of seat.me.0).sealed },
    ghost limit: { sealed ≤ (writer_of seat.me.0).shape.max_blocks },
    ghost lows: { length (writer_of seat.me.0).low ≡ (writer_of seat.me.0).shape.readers },
    ghost parks: { length (writer_of seat.me.0).parked ≡ (writer_of seat.me.0).shape.readers },
    ghost looks_is: { looks ≡ min greatest (writer_of seat.me.0).looks },
    ghost last_look_is: { last_look ≡ (writer_of seat.me.0).last_look },
}

/// A reader's seat. In a clause it has what the reader knows.
#[derive(Drop)]
pub struct ReaderSeat {
    pub(crate) seat: Seat<Block, View>,
    pub(crate) number: u32,
    pub(crate) cleared: u64,
    pub(crate) tries: u64,
    pub(crate) last_try: Option<u64>,
    ghost role: { seat.me.0 ≡ Reader (reader_of seat.me.0) },
    ghost hand: { map entry_at seat.me.1 ≡ entries_out (reader_of seat.me.0) },
    ghost holds: { (reader_of seat.me.0).out ≡ true → (reader_of seat.me.0).got ≢ None },
    ghost number_is: { number ≡ (reader_of seat.me.0).number },
    ghost in_range: { number < (reader_of seat.me.0).shape.readers },
    ghost count: { cleared ≡ length (reader_of seat.me.0).cleared },
    ghost settled: { ReaderSettled (reader_of seat.me.0) },
    ghost tries_is: { tries ≡ min greatest (reader_of seat.me.0).tries },
    ghost last_try_is: { last_try ≡ (reader_of seat.me.0).last_try },
}

impl WriterSeat {
    ghost use Rattle.ring_words.specs.Seats.{writer_view};

    /// The number of blocks that were sealed.
    pub fn sealed(&self) -> u64
        ensures { result ≡ length (writer_view self.now).sealed }
    {
        self.sealed
    }

    /// How often the writer looked at a reader's count. It stops at `u64::MAX`.
    pub fn looks(&self) -> u64
        ensures { result ≡ min greatest (writer_view self.now).looks }
    {
        self.looks
    }

    /// The reader that the writer looked at last, and the count that it saw: `u64::MAX` if the reader had retired.
    /// `None` before the first look.
    pub fn last_look(&self) -> Option<(u32, u64)>
        ensures { result ≡ (writer_view self.now).last_look }
    {
        self.last_look
    }
}

impl ReaderSeat {
    ghost use Rattle.std.specs.Prelude.{◌/◌, ◌%◌, option_map};
    ghost use Rattle.ring_words.specs.Seats.{reader_view};

    /// The reader's number in its ring, from 0.
    pub fn number(&self) -> u32
        ensures { result ≡ (reader_view self.now).number }
    {
        self.number
    }

    /// The number of blocks that the reader cleared.
    pub fn cleared(&self) -> u64
        ensures { result ≡ length (reader_view self.now).cleared }
    {
        self.cleared
    }

    /// How often the reader tried to take a block. It stops at `u64::MAX`.
    pub fn tries(&self) -> u64
        ensures { result ≡ min greatest (reader_view self.now).tries }
    {
        self.tries
    }

    /// What the last try found in the buffer: the number of its block plus 1, or 0 if there was none; and the holder: 0
    /// for nobody, 15 for the writer, a reader's number plus 1 for that reader. `None` before the first try.
    pub fn last_try(&self) -> Option<(u64, u32)>
        ensures { result
            ≡ option_map (λ word. (word / 16, word % 16)) (reader_view self.now).last_try }
    {
        self.last_try.map(|word| (word / 16, (word % 16) as u32))
    }
}
