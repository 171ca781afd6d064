//! The ring between one writer and its readers, as a machine on one thread: it takes events and gives answers.
#![tactic(auto)]

ghost use Rattle.std.specs.Prelude.{◌≡◌, ℕ, ◌+◌, ◌^◌, ◌<◌, ◌≤◌, ◌↔◌, length, map, slice_get, option_map};
ghost use Rattle.std.specs.Prelude.{false, IsTrue, IfOk, IfSome, IfNone};
ghost use Rattle.ring_core.specs.Machine.{at_first, with_reader, remembers, Holds, IsIdle, HasRoom, LacksRoom, height};
ghost use Rattle.ring_core.specs.Machine as machine;
ghost use Rattle.ring_core.specs.State.{CoreState, IsSoundCore, IsOnly, reader_of, event_of, answer_of, Steps, RunsTo};
ghost use Rattle.ring_core.specs.Laws.{GetsNext, FullByReader, KeepsUncleared, HoldsAlone, ReachedIsSound};

use std::alloc::{AllocError, Global};
use std::marker::Model;
use thiserror::Error;

/// There was no memory.
#[derive(Debug, Clone, Copy, PartialEq, Eq, Error)]
#[error("no memory")]
pub struct Memory;

/// The shape of a ring. `Core::open` takes 2 to 64 buffers, 1 to 8 readers and 1 to 2^20 blocks.
#[derive(Debug, Clone, Copy, PartialEq, Eq)]
pub struct Shape {
    /// The number of buffers.
    pub buffers: u32,
    /// The number of readers.
    pub readers: u32,
    /// The largest number of blocks that are sealed over the life of the ring.
    pub max_blocks: u64,
}

/// What happens at a ring. A reader is given by its number, counted from 0.
#[derive(Debug, Clone, Copy, PartialEq, Eq)]
pub enum Event {
    /// The writer looks at how many blocks this reader has cleared.
    Look(u32),
    /// The writer takes the buffer for the next block.
    WriterTake,
    /// The writer seals the block that it holds, with this label.
    Seal(u64),
    /// A reader takes the buffer of its next block: the one after those that it cleared.
    ReaderTake(u32),
    /// A reader gives back the buffer that it holds: it has read the block.
    Give(u32),
    /// A reader clears the block that it has read.
    Clear(u32),
    /// A reader is retired: the writer no longer waits for it.
    Retire(u32),
    /// A reader is detached: it reads nothing for now, and the writer waits for it.
    Detach(u32),
    /// A detached reader is attached again. It goes on with the first block that it has not cleared.
    Attach(u32),
}

/// What the ring answers to an event. Blocks are numbered from 0 in the order in which they are sealed.
#[derive(Debug, Clone, Copy, PartialEq, Eq)]
pub enum Answer {
    /// The reader has cleared `cleared` blocks, but not the one in the buffer that is wanted next.
    Full { reader: u32, cleared: u64 },
    /// The reader has cleared `cleared` blocks, and needs none in the buffer that is wanted next.
    Room { reader: u32, cleared: u64 },
    /// The reader is retired, so it needs no buffer.
    RoomRetired { reader: u32 },
    /// The writer holds the buffer for block `number`.
    Taken { number: u64 },
    /// All `limit` blocks that the ring may carry are sealed.
    Spent { limit: u64 },
    /// Block `number` is sealed.
    Sealed { number: u64 },
    /// The reader holds block `number`, which has this label.
    Got { number: u64, label: u64 },
    /// The reader's next block, `number`, is not sealed yet.
    Empty { number: u64 },
    /// The reader's next block, `number`, is held by another reader, `reader`.
    Busy { number: u64, reader: u32 },
    /// The reader has given its buffer back.
    Given,
    /// The reader has cleared `count` blocks by now.
    Cleared { count: u64 },
    /// The reader is retired.
    Retired,
    /// The reader is detached.
    Detached,
    /// The reader is attached, and its next block is `number`.
    Attached { number: u64 },
    /// The event isn't allowed now, or there is no such reader. Nothing changed.
    Refused,
}

#[derive(Clone, Copy)]
enum Phase {
    Ready,
    Out,
    Read,
    Detached,
    Retired,
}

#[derive(Clone, Copy)]
struct Reader {
    cleared: u64,
    phase: Phase,
}

impl From<AllocError> for Memory {
    ghost from_gives = { λ _ _. Unit {0} };

    fn from(_error: AllocError) -> Memory {
        Memory
    }
}

impl Reader {
    fn is_out(self) -> bool
        ensures { IsTrue result ↔ ((reader_of self).phase ≡ machine.Phase.Out) }
    {
        matches!(self.phase, Phase::Out)
    }

    /// Whether the reader neither holds a block nor is detached or retired.
    fn is_idle(self) -> bool
        ensures { IsTrue result ↔ IsIdle (reader_of self) }
    {
        matches!(self.phase, Phase::Ready | Phase::Read)
    }
}

/// The state of a ring.
#[derive(Drop)]
pub struct Core {
    shape: Shape,
    sealed: Vec<u64>,
    writing: bool,
    low: Vec<u64>,
    readers: Vec<Reader>,
}

impl Model for Core {
    ghost use Rattle.ring_core.specs.State.{CoreState};

    ghost Value = { CoreState };

    ghost use Rattle.ring_core.specs.Kept.{ring_of, IsKept};

    ghost view = { ring_of };

    ghost invariant = { IsKept };
}

impl Core {
    /// Opens a ring with no block sealed and each reader ready. It takes all memory that the ring ever needs.
    pub fn open(alloc: Global, shape: Shape) -> Result<Core, Memory>
        requires buffers { (2 ≤ shape.buffers) × (shape.buffers ≤ 64) }
        requires readers { (1 ≤ shape.readers) × (shape.readers ≤ 8) }
        requires blocks { (1 ≤ shape.max_blocks) × (shape.max_blocks ≤ 2 ^ 20) }
        ensures shape { IfOk result (λ core. core.shape ≡ shape) }
        ensures first { IfOk result (λ core. core.machine ≡ at_first ℕ shape.readers) }
    {
        let ready = Reader {
            cleared: 0,
            phase: Phase::Ready,
        };
        Ok(Core {
            shape,
            sealed: Vec::with_capacity(alloc, shape.max_blocks as usize)?,
            writing: false,
            low: Vec::from_elem(alloc, 0, shape.readers as usize)?,
            readers: Vec::from_elem(alloc, ready, shape.readers as usize)?,
        })
    }

    /// Makes one event happen, and returns its answer at once.
    pub fn apply(&mut self, event: Event) -> Answer
        // The step is one of the table, and the table has no other.
        ensures steps { Steps self.old (event_of event) (answer_of result) self.new }
        ensures only { IsOnly self.old (event_of event) (answer_of result) self.new }
        ensures ring { IsSoundCore self.new }

        // What the table means for the ring.
        ensures next { GetsNext self.old.machine (event_of event) (answer_of result) }
        ensures full { FullByReader self.old.shape.buffers self.old.machine (answer_of result) }
        ensures refused { result ≡ Answer.Refused → self.new ≡ self.old }
        ensures uncleared { KeepsUncleared self.new.shape.buffers self.new.machine }
        ensures alone { HoldsAlone self.new.machine }
    {
        // The proof reads here what every core keeps.
        let _ = &self.shape;
        self.step(event)
    }

    fn step(&mut self, event: Event) -> Answer
        ensures { Steps self.old (event_of event) (answer_of result) self.new }
    {
        match event {
            Event::Look(i) => self.look(i),
            Event::WriterTake => self.writer_take(),
            Event::Seal(label) => self.seal(label),
            Event::ReaderTake(i) => self.reader_take(i),
            Event::Give(i) => self.give(i),
            Event::Clear(i) => self.clear(i),
            Event::Retire(i) => self.retire(i),
            Event::Detach(i) => self.detach(i),
            Event::Attach(i) => self.attach(i),
        }
    }

    /// Reader `i`, if there is one.
    fn reader(&self, i: u32) -> Option<Reader>
        ensures at { slice_get self.now.machine.readers i ≡ option_map reader_of result }
        ensures ring { IsSoundCore self.now }
    {
        let place = i as usize;
        if place < self.readers.len() {
            Some(self.readers[place])
        } else {
            None
        }
    }

    fn set_reader(&mut self, i: u32, reader: Reader)
        requires there { i < length self.old.machine.readers }
        requires ring { IsSoundCore
            (record self.old { machine = with_reader self.old.machine i (reader_of reader) }) }
        ensures { self.new
            ≡ record self.old { machine = with_reader self.old.machine i (reader_of reader) } }
    {
        self.readers[i as usize] = reader;
    }

    fn remember(&mut self, i: u32, count: u64)
        requires there { i < length self.old.machine.low }
        requires ring { IsSoundCore
            (record self.old { machine = remembers self.old.machine i count }) }
        ensures { self.new ≡ record self.old { machine = remembers self.old.machine i count } }
    {
        self.low[i as usize] = count;
    }

    /// Whether a reader that cleared `count` blocks has not cleared the one in the buffer that is wanted next.
    fn is_behind(&self, count: u64) -> bool
        ensures { IsTrue result ↔ (count + self.now.shape.buffers ≤ height self.now.machine) }
    {
        let sealed = self.sealed.len() as u64;
        sealed.saturating_sub(count) >= self.shape.buffers as u64
    }

    fn has_room(&self) -> bool
        ensures room { IsTrue result → HasRoom self.now.shape.buffers self.now.machine }
        ensures none { result ≡ false → LacksRoom self.now.shape.buffers self.now.machine }
    {
        for count in &self.low {
            if self.is_behind(*count) {
                return false;
            }
        }
        true
    }

    fn look(&mut self, i: u32) -> Answer
        ensures { Steps self.old (machine.Event.Look i) (answer_of result) self.new }
    {
        let Some(reader) = self.reader(i) else {
            return Answer::Refused;
        };
        let cleared = reader.cleared;
        match reader.phase {
            Phase::Retired => {
                self.remember(i, u64::MAX);
                Answer::RoomRetired { reader: i }
            }
            _ => {
                self.remember(i, cleared);
                if self.is_behind(cleared) {
                    Answer::Full { reader: i, cleared }
                } else {
                    Answer::Room { reader: i, cleared }
                }
            }
        }
    }

    fn writer_take(&mut self) -> Answer
        ensures { Steps self.old machine.Event.WriterTake (answer_of result) self.new }
    {
        if self.writing {
            return Answer::Refused;
        }
        let number = self.sealed.len() as u64;
        if number == self.shape.max_blocks {
            return Answer::Spent { limit: number };
        }
        if !self.has_room() {
            return Answer::Refused;
        }
        self.writing = true;
        Answer::Taken { number }
    }

    fn seal(&mut self, label: u64) -> Answer
        ensures { Steps self.old (machine.Event.Seal label) (answer_of result) self.new }
    {
        if !self.writing {
            return Answer::Refused;
        }
        let number = self.sealed.len() as u64;
        self.sealed.push(label).unwrap();
        self.writing = false;
        Answer::Sealed { number }
    }

    fn holds(&self, j: u32, number: u64) -> bool
        ensures { IsTrue result ↔ Holds self.now.machine j number }
    {
        match self.reader(j) {
            Some(reader) => reader.is_out() && reader.cleared == number,
            None => false,
        }
    }

    /// The reader that holds the buffer of block `number`, if one does.
    fn holder(&self, number: u64) -> Option<u32>
        ensures held { IfSome result (λ j. Holds self.now.machine j number) }
        ensures free { IfNone result ((j : ℕ) → ¬ Holds self.now.machine j number) }
    {
        for j in 0..self.shape.readers {
            if self.holds(j, number) {
                return Some(j);
            }
        }
        None
    }

    fn reader_take(&mut self, i: u32) -> Answer
        ensures { Steps self.old (machine.Event.ReaderTake i) (answer_of result) self.new }
    {
        let Some(reader) = self.reader(i) else {
            return Answer::Refused;
        };
        if !reader.is_idle() {
            return Answer::Refused;
        }
        let number = reader.cleared;
        let Some(label) = self.label(number) else {
            return Answer::Empty { number };
        };
        if let Some(reader) = self.holder(number) {
            return Answer::Busy { number, reader };
        }
        self.set_reader(
            i,
            Reader {
                cleared: number,
                phase: Phase::Out,
            },
        );
        Answer::Got { number, label }
    }

    fn label(&self, number: u64) -> Option<u64>
        ensures { slice_get self.now.machine.sealed number ≡ result }
    {
        self.sealed.get(number as usize).copied()
    }

    fn give(&mut self, i: u32) -> Answer
        ensures { Steps self.old (machine.Event.Give i) (answer_of result) self.new }
    {
        let Some(reader) = self.reader(i) else {
            return Answer::Refused;
        };
        if !reader.is_out() {
            return Answer::Refused;
        }
        self.set_reader(
            i,
            Reader {
                cleared: reader.cleared,
                phase: Phase::Read,
            },
        );
        Answer::Given
    }

    fn clear(&mut self, i: u32) -> Answer
        ensures { Steps self.old (machine.Event.Clear i) (answer_of result) self.new }
    {
        let Some(reader) = self.reader(i) else {
            return Answer::Refused;
        };
        match reader.phase {
            Phase::Read => {
                let count = reader.cleared + 1;
                self.set_reader(
                    i,
                    Reader {
                        cleared: count,
                        phase: Phase::Ready,
                    },
                );
                Answer::Cleared { count }
            }
            _ => Answer::Refused,
        }
    }

    fn retire(&mut self, i: u32) -> Answer
        ensures { Steps self.old (machine.Event.Retire i) (answer_of result) self.new }
    {
        let Some(reader) = self.reader(i) else {
            return Answer::Refused;
        };
        if !reader.is_idle() {
            return Answer::Refused;
        }
        self.set_reader(
            i,
            Reader {
                cleared: reader.cleared,
                phase: Phase::Retired,
            },
        );
        Answer::Retired
    }

    fn detach(&mut self, i: u32) -> Answer
        ensures { Steps self.old (machine.Event.Detach i) (answer_of result) self.new }
    {
        let Some(reader) = self.reader(i) else {
            return Answer::Refused;
        };
        if !reader.is_idle() {
            return Answer::Refused;
        }
        self.set_reader(
            i,
            Reader {
                cleared: reader.cleared,
                phase: Phase::Detached,
            },
        );
        Answer::Detached
    }

    fn attach(&mut self, i: u32) -> Answer
        ensures { Steps self.old (machine.Event.Attach i) (answer_of result) self.new }
    {
        let Some(reader) = self.reader(i) else {
            return Answer::Refused;
        };
        match reader.phase {
            Phase::Detached => {
                self.set_reader(
                    i,
                    Reader {
                        cleared: reader.cleared,
                        phase: Phase::Ready,
                    },
                );
                Answer::Attached {
                    number: reader.cleared,
                }
            }
            _ => Answer::Refused,
        }
    }
}

/// Makes events happen one after another, and drops their answers.
pub fn run(core: &mut Core, events: &[Event])
    ensures runs { RunsTo core.old (map event_of events.now) core.new }
    ensures ring { IsSoundCore core.new }
{
    // The proof reads here what every core keeps.
    let _ = &core.shape;
    for event in events {
        let _ = core.apply(*event);
    }
}

/// Law: what any events leave of a new ring is sound, for labels of any type. It does nothing when it runs.
pub fn reached_is_sound<L>()
    ensures { ReachedIsSound L }
{}
