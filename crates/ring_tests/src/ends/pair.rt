// One thread writes and reads by turns. The tests are tables of steps with what each returns.
ghost use Rattle.std.specs.Prelude.{◌≡◌};
ghost use Rattle.ring_words.specs.Shape.{IsRing};
ghost use Rattle.ring_ends.specs.Passes.{ring_shape, WritesTo, ReadsFrom};

use super::shape;
use ring_ends::{Mark, ReadStop, ReaderPass, Ring, RingShape, Taken, WriteStop, WriterPass};
use std::alloc::Global;
use std::test::Fail;

#[derive(Drop)]
pub(super) struct Pair {
    pub(super) ring: Ring,
    pub(super) writer: WriterPass,
    pub(super) reader: ReaderPass,
    pub(super) into: [u8; 8],
    ghost size: { (ring_shape ring).size ≡ 8 },
    ghost writes: { WritesTo ring writer },
    ghost reads: { ReadsFrom ring reader },
}

#[derive(Clone, Copy)]
enum Step {
    /// Writes a full block of this byte.
    Write(u8),
    /// Writes a last block of two bytes.
    End,
    Read,
    Clear,
    /// Detaches and attaches again.
    Again,
}

#[derive(Clone, Copy, PartialEq, Eq, Debug)]
enum Seen {
    Wrote(Result<u64, WriteStop>),
    /// What a read returned, and the first byte that it copied.
    Read(Result<Taken, ReadStop>, u8),
    Cleared(u64),
    Nothing,
}

pub(super) fn open(alloc: Global, shape: RingShape) -> Option<Pair>
    requires ring { IsRing shape }
    requires one { shape.readers ≡ 1 }
    requires size { shape.size ≡ 8 }
{
    let Ok((ring, writer, mut readers)) = Ring::open(alloc, shape) else {
        return None;
    };
    let reader = readers.remove(0)?;
    Some(Pair {
        ring,
        writer,
        reader,
        into: [0; 8],
    })
}

impl Pair {
    fn write(&mut self, byte: u8) -> Seen {
        Seen::Wrote(self.ring.write(&mut self.writer, &[byte; 8], Mark::More))
    }

    fn end(&mut self) -> Seen {
        Seen::Wrote(self.ring.write(&mut self.writer, &[1, 2], Mark::End))
    }

    fn read(&mut self) -> Seen {
        let taken = self.ring.read(&mut self.reader, &mut self.into);
        Seen::Read(taken, self.into[0])
    }

    fn clear(&mut self) -> Seen {
        if self.reader.has_read() {
            Seen::Cleared(self.ring.clear(&mut self.reader))
        } else {
            Seen::Nothing
        }
    }

    fn again(self) -> Pair {
        let Pair {
            ring,
            writer,
            reader,
            into: _,
        } = self;
        Pair {
            ring,
            writer,
            reader: reader.detach().attach(),
            into: [0; 8],
        }
    }
}

fn play(mut pair: Pair, step: Step) -> (Pair, Seen) {
    let seen = match step {
        Step::Write(byte) => pair.write(byte),
        Step::End => pair.end(),
        Step::Read => pair.read(),
        Step::Clear => pair.clear(),
        Step::Again => return (pair.again(), Seen::Nothing),
    };
    (pair, seen)
}

fn took(block: u64, used: u32, mark: Mark, first: u8) -> Seen {
    Seen::Read(Ok(Taken { block, used, mark }), first)
}

// Plays the steps. Returns the number of the first step that returned something else, or the number of steps.
fn play_all(mut pair: Pair, steps: &[(Step, Seen)]) -> (Pair, usize) {
    for (i, (step, wanted)) in steps.iter().enumerate() {
        let (next, seen) = play(pair, *step);
        pair = next;
        if seen != *wanted {
            return (pair, i);
        }
    }
    (pair, steps.len())
}

#[test]
fn a_full_ring_takes_a_block_after_a_clear(rt: HostRuntime) -> Result<(), Fail> {
    let pair = open(rt.alloc(), shape(2, 1, 100)).ok_or("memory")?;
    let steps = [
        (
            Step::Read,
            Seen::Read(Err(ReadStop::Empty { block: 0, seen: 0 }), 0),
        ),
        (Step::Write(7), Seen::Wrote(Ok(0))),
        (Step::Write(8), Seen::Wrote(Ok(1))),
        (
            Step::Write(9),
            Seen::Wrote(Err(WriteStop::Full {
                reader: 0,
                cleared: 0,
            })),
        ),
        (Step::Read, took(0, 8, Mark::More, 7)),
        (Step::Clear, Seen::Cleared(1)),
        (Step::End, Seen::Wrote(Ok(2))),
        (Step::Read, took(1, 8, Mark::More, 8)),
        (Step::Again, Seen::Nothing),
        (Step::Read, took(1, 8, Mark::More, 8)),
        (Step::Clear, Seen::Cleared(2)),
        (Step::Read, took(2, 2, Mark::End, 1)),
        (Step::Clear, Seen::Cleared(3)),
        (
            Step::Read,
            Seen::Read(Err(ReadStop::Empty { block: 3, seen: 2 }), 1),
        ),
    ];
    let (pair, played) = play_all(pair, &steps);
    assert_eq!(rt; played, 14);
    assert!(rt; pair.writer.looks() == 4 && pair.writer.last_look() == Some((0, 1)));
    assert!(rt; pair.reader.tries() == 6 && pair.reader.last_try() == Some((2, 0)));
    assert!(rt;
        pair.writer.sealed() == 3 && pair.reader.cleared() == 3 && pair.reader.number() == 0
    );
    Ok(())
}

#[test]
fn what_was_read_and_not_cleared_is_read_again(rt: HostRuntime) -> Result<(), Fail> {
    let pair = open(rt.alloc(), shape(2, 1, 100)).ok_or("memory")?;
    let steps = [
        (Step::Write(7), Seen::Wrote(Ok(0))),
        (Step::Write(8), Seen::Wrote(Ok(1))),
        (Step::Read, took(0, 8, Mark::More, 7)),
        (Step::Clear, Seen::Cleared(1)),
        (Step::Read, took(1, 8, Mark::More, 8)),
        (Step::Again, Seen::Nothing),
        (Step::Clear, Seen::Nothing),
        (Step::Read, took(1, 8, Mark::More, 8)),
        (Step::Clear, Seen::Cleared(2)),
        (
            Step::Read,
            Seen::Read(Err(ReadStop::Empty { block: 2, seen: 1 }), 8),
        ),
    ];
    let (_pair, played) = play_all(pair, &steps);
    assert_eq!(rt; played, 10);
    Ok(())
}

#[test]
fn a_ring_carries_so_many_blocks_and_no_more(rt: HostRuntime) -> Result<(), Fail> {
    let pair = open(rt.alloc(), shape(4, 1, 3)).ok_or("memory")?;
    let steps = [
        (Step::Write(7), Seen::Wrote(Ok(0))),
        (Step::Write(8), Seen::Wrote(Ok(1))),
        (Step::Write(9), Seen::Wrote(Ok(2))),
        (Step::End, Seen::Wrote(Err(WriteStop::Spent { limit: 3 }))),
    ];
    let (_pair, played) = play_all(pair, &steps);
    assert_eq!(rt; played, 4);
    Ok(())
}
