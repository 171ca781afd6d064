//! Moving blocks through a ring, from its opening to its end.
ghost use Rattle.std.specs.Prelude.{◌≡◌, All, IsSomeAnd, IfOk};
ghost use Rattle.ring_ends.specs.Passes.{ring_shape, ended_knows, WritesTo, ReadsFrom, EndedFrom};
ghost use Rattle.ring_ends.specs.Ended.{AreInOrder, finished_shape};
ghost use Rattle.ring_bench.specs.Crew.{IsAt, IsBack};

use crate::crew::{Done, Job, Manner, open_space};
use crate::fault::BenchFault;
use crate::threads::run_threads;
use arrayvec::ArrayVec;
use ring_ends::{EndedReader, Finished, ReaderPass, Ring, RingShape, WriterPass, order_is_enough};
use ring_words::MOST_READERS;
use std::alloc::{AllocError, Global};
use std::thread::Threads;

// The job of a reader, with a space of its own. Reader `i` has the manner `i % 3`.
fn open_job(
    alloc: Global,
    ring: &Ring,
    pass: ReaderPass,
    manners: [Manner; 3],
    blocks: u64,
) -> Result<Job, AllocError>
    requires { ReadsFrom ring.now pass }
    ensures { IfOk result (λ job. IsAt ring.now job) }
{
    let manner = manners[(pass.number() % 3) as usize];
    let into = open_space(alloc, ring.shape().size)?;
    Ok(Job {
        pass,
        into,
        manner,
        blocks,
    })
}

// Gives each reader its job, the last reader first.
fn open_jobs(
    alloc: Global,
    ring: &Ring,
    mut readers: ArrayVec<Option<ReaderPass>, MOST_READERS>,
    manners: [Manner; 3],
    blocks: u64,
) -> Result<Vec<Job>, AllocError>
    requires { All (λ o. IsSomeAnd o (ReadsFrom ring.now)) readers.items }
    ensures { IfOk result (λ jobs. All (IsAt ring.now) jobs.items) }
{
    let mut jobs = Vec::new(alloc);
    while let Some(next) = readers.pop() {
        let Some(pass) = next else { unreachable!() };
        let job = open_job(alloc, ring, pass, manners, blocks)?;
        jobs.push(job)?;
    }
    Ok(jobs)
}

// Takes the last reader from the list. It must have this number, and must have read the right bytes.
fn take_reader(ring: &Ring, done: &mut Vec<Done>, number: u32) -> Result<EndedReader, BenchFault>
    requires { All (IsBack ring.now) done.old.items }
    ensures rest { All (IsBack ring.now) done.new.items }
    ensures reader { IfOk result (λ reader. EndedFrom ring.now reader
        × ((ended_knows reader).number ≡ number)) }
{
    let Some(Done { reader, right }) = done.pop() else {
        return Err(BenchFault::Missing);
    };
    if !right {
        return Err(BenchFault::WrongByte);
    }
    if reader.number() != number {
        return Err(BenchFault::Missing);
    }
    Ok(reader)
}

// All readers, each at the place of its number.
fn gather(
    ring: &Ring,
    mut done: Vec<Done>,
) -> Result<ArrayVec<Option<EndedReader>, MOST_READERS>, BenchFault>
    requires { All (IsBack ring.now) done.items }
    ensures { IfOk result (λ readers. AreInOrder ring.now readers.items) }
{
    let mut readers = ArrayVec::new();
    for number in 0..ring.shape().readers {
        let reader = take_reader(ring, &mut done, number)?;
        readers.push(Some(reader));
    }
    Ok(readers)
}

// Ends a ring whose readers are at the places of their numbers.
fn end(
    ring: Ring,
    writer: WriterPass,
    readers: ArrayVec<Option<EndedReader>, MOST_READERS>,
) -> Finished
    requires writer { WritesTo ring writer }
    requires readers { AreInOrder ring readers.items }
    ensures { finished_shape result ≡ ring_shape ring }
{
    order_is_enough();
    ring.finish(writer, readers)
}

// Moves `blocks` blocks, and ends the ring.
fn run<R: Threads + Sync + AllocGlobal>(
    rt: &R,
    shape: RingShape,
    manners: [Manner; 3],
    blocks: u64,
) -> Result<Finished, BenchFault>
    ensures { IfOk result (λ finished. finished_shape finished ≡ shape) }
{
    if let Err(fault) = shape.check() {
        return Err(BenchFault::Shape(fault));
    }
    let alloc = rt.alloc();
    let (ring, writer, readers) = Ring::open(alloc, shape)?;
    let jobs = open_jobs(alloc, &ring, readers, manners, blocks)?;
    let space = open_space(alloc, shape.size)?;
    let (writer, done) = run_threads(rt, &ring, (writer, space), jobs, blocks);
    let gathered = gather(&ring, done?)?;
    Ok(end(ring, writer, gathered))
}

/// Moves `blocks` blocks, and returns how many the slowest reader got.
pub fn move_blocks<R: Threads + Sync + AllocGlobal>(
    rt: &R,
    shape: RingShape,
    blocks: u64,
) -> Result<u64, BenchFault> {
    let finished = run(rt, shape, [Manner::Stays; 3], blocks)?;
    let mut least = blocks;
    for reader in 0..shape.readers {
        least = least.min(finished.cleared(reader));
    }
    Ok(least)
}

/// Moves `blocks` blocks to three readers: one that stays, one that detaches and attaches all the time, and one that
/// retires. Returns how many each of them got.
pub fn soak<R: Threads + Sync + AllocGlobal>(rt: &R, blocks: u64) -> Result<[u64; 3], BenchFault> {
    let shape = RingShape {
        buffers: 4,
        size: 1000,
        readers: 3,
        max_blocks: (1 << 59) - 1,
    };
    let manners = [Manner::Stays, Manner::Returns, Manner::Leaves];
    let finished = run(rt, shape, manners, blocks)?;
    Ok([
        finished.cleared(0),
        finished.cleared(1),
        finished.cleared(2),
    ])
}
