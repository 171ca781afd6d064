// One writer and its readers, each in a thread of its own. A thread gives up after `TRIES` tries, so every test ends.
ghost use Rattle.std.specs.Prelude.{◌≡◌};
ghost use Rattle.std.specs.Thread.{IsSync};
ghost use Rattle.ring_words.specs.Shape.{IsRing};
ghost use Rattle.ring_ends.specs.Ended.{finished_shape};
ghost use Rattle.ring_ends.specs.Passes.{ring_shape, reader_knows, retired_knows, ended_knows, WritesTo, ReadsFrom, RetiredFrom, EndedFrom};

use super::pair::Pair;
use super::{pair, shape};
use arrayvec::ArrayVec;
use ring_ends::{
    EndedReader, Finished, Mark, ReaderPass, RetiredPass, Ring, RingShape, WriterPass,
    order_is_enough,
};
use std::alloc::Global;
use std::test::Fail;
use std::thread;
use std::thread::{Threads, join};

const TRIES: u32 = 50_000_000;

const BLOCKS: u64 = 1000;

// Writes blocks, each with its number in it.
fn write_blocks(ring: &Ring, mut writer: WriterPass) -> WriterPass
    requires size { (ring_shape ring.now).size ≡ 8 }
    requires ring { WritesTo ring.now writer }
    ensures { WritesTo ring.now result }
{
    for _try in 0..TRIES {
        let number = writer.sealed();
        if number >= BLOCKS {
            break;
        }
        if ring
            .write(&mut writer, &number.to_le_bytes(), Mark::More)
            .is_err()
        {
            thread::yield_now();
        }
    }
    writer
}

// Whether the next block is the right one, or `None` if there is none yet.
fn read_one(ring: &Ring, reader: &mut ReaderPass) -> Option<bool>
    requires size { (ring_shape ring.now).size ≡ 8 }
    requires ring { ReadsFrom ring.now reader.old }
    ensures ring { ReadsFrom ring.now reader.new }
    ensures number { (reader_knows reader.new).number ≡ (reader_knows reader.old).number }
{
    let mut into = [0; 8];
    let wanted = reader.cleared();
    let taken = ring.read(reader, &mut into).ok()?;
    if reader.has_read() {
        ring.clear(reader);
    }
    Some(taken.block == wanted && taken.used == 8 && into == wanted.to_le_bytes())
}

// Reads `count` blocks, and tells whether each was the right one.
fn read_blocks(ring: &Ring, mut reader: ReaderPass, count: u64) -> (ReaderPass, bool)
    requires size { (ring_shape ring.now).size ≡ 8 }
    requires ring { ReadsFrom ring.now reader }
    ensures ring { ReadsFrom ring.now result.0 }
    ensures number { (reader_knows result.0).number ≡ (reader_knows reader).number }
{
    let mut right = true;
    for _try in 0..TRIES {
        if reader.cleared() >= count {
            break;
        }
        match read_one(ring, &mut reader) {
            Some(good) => right = right && good,
            None => thread::yield_now(),
        }
    }
    (reader, right)
}

// Reads all blocks, and detaches and attaches before each read. Tells whether each block was the right one.
fn read_again(ring: &Ring, mut reader: ReaderPass) -> (ReaderPass, bool)
    requires size { (ring_shape ring.now).size ≡ 8 }
    requires ring { ReadsFrom ring.now reader }
    ensures ring { ReadsFrom ring.now result.0 }
    ensures number { (reader_knows result.0).number ≡ (reader_knows reader).number }
{
    let mut right = true;
    for _try in 0..TRIES {
        if reader.cleared() >= BLOCKS {
            break;
        }
        reader = reader.detach().attach();
        match read_one(ring, &mut reader) {
            Some(good) => right = right && good,
            None => thread::yield_now(),
        }
    }
    (reader, right)
}

fn read_ten(ring: &Ring, reader: ReaderPass) -> (RetiredPass, bool)
    requires size { (ring_shape ring.now).size ≡ 8 }
    requires ring { ReadsFrom ring.now reader }
    ensures ring { RetiredFrom ring.now result.0 }
    ensures number { (retired_knows result.0).number ≡ (reader_knows reader).number }
{
    let (reader, right) = read_blocks(ring, reader, 10);
    (ring.retire(reader), right)
}

fn write_and_read<R: Threads + Sync>(
    rt: &R,
    ring: &Ring,
    writer: WriterPass,
    reader: ReaderPass,
) -> (WriterPass, (ReaderPass, bool))
    requires size { (ring_shape ring.now).size ≡ 8 }
    requires writer { WritesTo ring.now writer }
    requires reader { ReadsFrom ring.now reader }
    ensures writer { WritesTo ring.now result.0 }
    ensures reader { ReadsFrom ring.now result.1.0 }
    ensures number { (reader_knows result.1.0).number ≡ (reader_knows reader).number }
{
    join(
        rt,
        || -> WriterPass
            requires { ((ring_shape ring.now).size ≡ 8) × WritesTo ring.now writer }
            ensures { WritesTo ring.entry.now result }
        { write_blocks(ring, writer) },
        || -> (ReaderPass, bool)
            requires { ((ring_shape ring.now).size ≡ 8) × ReadsFrom ring.now reader }
            ensures { ReadsFrom ring.entry.now result.0
                × ((reader_knows result.0).number ≡ (reader_knows reader).number) }
        { read_blocks(ring, reader, BLOCKS) },
    )
}

fn read_both<R: Threads + Sync>(
    rt: &R,
    ring: &Ring,
    second: ReaderPass,
    third: ReaderPass,
) -> ((RetiredPass, bool), (ReaderPass, bool))
    requires size { (ring_shape ring.now).size ≡ 8 }
    requires second { ReadsFrom ring.now second }
    requires third { ReadsFrom ring.now third }
    ensures second { RetiredFrom ring.now result.0.0
        × ((retired_knows result.0.0).number ≡ (reader_knows second).number) }
    ensures third { ReadsFrom ring.now result.1.0
        × ((reader_knows result.1.0).number ≡ (reader_knows third).number) }
{
    join(
        rt,
        || -> (RetiredPass, bool)
            requires { ((ring_shape ring.now).size ≡ 8) × ReadsFrom ring.now second }
            ensures { RetiredFrom ring.entry.now result.0
                × ((retired_knows result.0).number ≡ (reader_knows second).number) }
        { read_ten(ring, second) },
        || -> (ReaderPass, bool)
            requires { ((ring_shape ring.now).size ≡ 8) × ReadsFrom ring.now third }
            ensures { ReadsFrom ring.entry.now result.0
                × ((reader_knows result.0).number ≡ (reader_knows third).number) }
        { read_again(ring, third) },
    )
}

// A ring with three readers.
#[derive(Drop)]
struct Crew {
    ring: Ring,
    writer: WriterPass,
    first: ReaderPass,
    second: ReaderPass,
    third: ReaderPass,
    ghost size: { (ring_shape ring).size ≡ 8 },
    ghost readers: { (ring_shape ring).readers ≡ 3 },
    ghost writes: { WritesTo ring writer },
    ghost first_reads: { ReadsFrom ring first × ((reader_knows first).number ≡ 0) },
    ghost second_reads: { ReadsFrom ring second × ((reader_knows second).number ≡ 1) },
    ghost third_reads: { ReadsFrom ring third × ((reader_knows third).number ≡ 2) },
}

fn open(alloc: Global, shape: RingShape) -> Option<Crew>
    requires ring { IsRing shape }
    requires three { shape.readers ≡ 3 }
    requires size { shape.size ≡ 8 }
{
    let Ok((ring, writer, mut readers)) = Ring::open(alloc, shape) else {
        return None;
    };
    let first = readers.remove(0)?;
    let second = readers.remove(0)?;
    let third = readers.remove(0)?;
    Some(Crew {
        ring,
        writer,
        first,
        second,
        third,
    })
}

fn finish(
    ring: Ring,
    writer: WriterPass,
    first: EndedReader,
    second: EndedReader,
    third: EndedReader,
) -> Finished
    requires three { (ring_shape ring).readers ≡ 3 }
    requires writer { WritesTo ring writer }
    requires first { EndedFrom ring first × ((ended_knows first).number ≡ 0) }
    requires second { EndedFrom ring second × ((ended_knows second).number ≡ 1) }
    requires third { EndedFrom ring third × ((ended_knows third).number ≡ 2) }
    ensures { (finished_shape result).readers ≡ 3 }
{
    order_is_enough();
    let mut readers = ArrayVec::new();
    readers.push(Some(first));
    readers.push(Some(second));
    readers.push(Some(third));
    ring.finish(writer, readers)
}

// Runs the crew until all its threads end. Tells whether each block that was read was the right one.
fn run<R: Threads + Sync>(rt: &R, crew: Crew) -> (Finished, bool)
    ensures { (finished_shape result.0).readers ≡ 3 }
{
    let Crew {
        ring,
        writer,
        first,
        second,
        third,
    } = crew;
    let ((writer, (first, one)), ((second, two), (third, three))) = join(
        rt,
        || -> (WriterPass, (ReaderPass, bool))
            requires { IsSync R.row × ((ring_shape ring).size ≡ 8)
                × WritesTo ring writer × ReadsFrom ring first }
            ensures { WritesTo ring result.0 × ReadsFrom ring result.1.0
                × ((reader_knows result.1.0).number ≡ (reader_knows first).number) }
        { write_and_read(rt, &ring, writer, first) },
        || -> ((RetiredPass, bool), (ReaderPass, bool))
            requires { IsSync R.row × ((ring_shape ring).size ≡ 8)
                × ReadsFrom ring second × ReadsFrom ring third }
            ensures { RetiredFrom ring result.0.0
                × ((retired_knows result.0.0).number ≡ (reader_knows second).number)
                × ReadsFrom ring result.1.0
                × ((reader_knows result.1.0).number ≡ (reader_knows third).number) }
        { read_both(rt, &ring, second, third) },
    );
    let first = EndedReader::Here(first);
    let second = EndedReader::Retired(second);
    let third = EndedReader::Away(third.detach());
    (
        finish(ring, writer, first, second, third),
        one && two && three,
    )
}

#[test]
fn each_reader_gets_its_blocks_in_order(rt: HostRuntime) -> Result<(), Fail> {
    let crew = open(rt.alloc(), shape(4, 3, 2000)).ok_or("memory")?;
    let (finished, right) = run(&rt, crew);
    assert!(rt; right);
    assert!(rt; finished.sealed() == BLOCKS);
    assert!(rt;
        finished.cleared(0) == BLOCKS && finished.cleared(1) == 10 && finished.cleared(2) == BLOCKS
    );
    Ok(())
}

#[test]
fn one_reader_gets_its_blocks_in_order(rt: HostRuntime) -> Result<(), Fail> {
    let Some(pair) = pair::open(rt.alloc(), shape(4, 1, 2000)) else {
        return Err("memory")?;
    };
    let Pair {
        ring,
        writer,
        reader,
        into: _,
    } = pair;
    let (writer, (reader, right)) = write_and_read(&rt, &ring, writer, reader);
    assert!(rt; right);
    assert!(rt; writer.sealed() == BLOCKS && reader.cleared() == BLOCKS);
    Ok(())
}
