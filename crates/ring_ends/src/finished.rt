//! The end of a ring, once all passes are back.
ghost use Rattle.std.specs.Prelude.{◌≡◌, ℕ, ◌<◌, ◌≤◌, All, Some, length, slice_index, slice_get};
ghost use Rattle.ring_blocks.specs.declared.Entry.{Entry};
ghost use Rattle.ring_words.specs.declared.views.ReaderView.{ReaderView};
ghost use Rattle.ring_words.specs.Views.{parked_at};
ghost use Rattle.ring_words.specs.Plays.{WriterSettled};
ghost use Rattle.ring_words.specs.Seats.{writer_view};
ghost use Rattle.ring_ends.specs.Counted.{cleared_of};

use crate::passes::{EndedReader, WriterPass};
use crate::ring::Ring;
use arrayvec::ArrayVec;
use ring_words::{MOST_READERS, WriterSeat};

/// What went through a ring: in a clause it has the blocks that were sealed and those that each reader cleared.
#[derive(Drop)]
pub struct Finished {
    seat: WriterSeat,
    counts: [u64; MOST_READERS],
    ghost few: { (writer_view seat).shape.readers ≤ 8 },
    ghost settled: { WriterSettled (writer_view seat) },
    ghost counted: { (i : ℕ) → i < (writer_view seat).shape.readers
        → slice_index counts i ≡ length (cleared_of (parked_at (writer_view seat) i)) },
}

impl Ring {
    ghost use Rattle.ring_words.specs.Ring.{Begins};
    ghost use Rattle.ring_ends.specs.declared.passes.EndedReader.{EndedReader};
    ghost use Rattle.ring_ends.specs.Passes.{ring_shape, writer_knows, ended_knows, WritesTo};
    ghost use Rattle.ring_ends.specs.Ended.{AllReaders, Gives, finished_shape, sealed_at_end, reader_at_end, cleared_at_end};

    /// Ends the ring. `readers` are all readers that it had, in any order.
    pub fn finish(
        self,
        writer: WriterPass,
        mut readers: ArrayVec<Option<EndedReader>, MOST_READERS>,
    ) -> Finished
        requires writer { WritesTo self writer }
        requires readers { AllReaders self readers.items }
        ensures shape { finished_shape result ≡ ring_shape self }
        ensures sealed { sealed_at_end result ≡ (writer_knows writer).sealed }
        ensures limit { length (sealed_at_end result) ≤ (ring_shape self).max_blocks }
        ensures readers { (j : ℕ) (e : EndedReader) → Gives readers.items j e
            → reader_at_end result (ended_knows e).number ≡ Some (ended_knows e) }
        ensures sized { All (λ e. length e.bytes ≤ (ring_shape self).size) (sealed_at_end result) }
        ensures begins { (i : ℕ) → i < (ring_shape self).readers
            → Begins (cleared_at_end result i) (sealed_at_end result) }
        ensures next { (i : ℕ) (r : ReaderView) (e : Entry) → reader_at_end result i ≡ Some r
            → r.got ≡ Some e → slice_get (sealed_at_end result) (length r.cleared) ≡ Some e }
    {
        let Ring { words } = self;
        let WriterPass { mut seat } = writer;
        let mut counts = [0; MOST_READERS];
        for _number in 0..words.shape().readers {
            let Some(ended) = readers.remove(0) else {
                unreachable!()
            };
            let reader = ended.into_seat();
            counts[reader.number() as usize] = reader.cleared();
            words.join(&mut seat, reader);
        }
        // This look tells what the rule of the ring says of all readers that are back: `WriterSettled`.
        words.look(&mut seat, 0);
        Finished { seat, counts }
    }
}

impl Finished {
    ghost use Rattle.ring_ends.specs.Ended.{finished_shape, sealed_at_end, cleared_at_end};

    /// The number of blocks that were sealed.
    pub fn sealed(&self) -> u64
        ensures { result ≡ length (sealed_at_end self.now) }
    {
        self.seat.sealed()
    }

    /// The number of blocks that reader `reader` cleared.
    pub fn cleared(&self, reader: u32) -> u64
        requires { reader < (finished_shape self.now).readers }
        ensures { result ≡ length (cleared_at_end self.now reader) }
    {
        self.counts[reader as usize]
    }
}
