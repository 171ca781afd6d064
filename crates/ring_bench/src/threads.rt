//! The writer and the readers of a ring, each in a thread of its own. The counters of a thread are on its own stack, so
//! they are on cache lines of their own.
ghost use Rattle.std.specs.Prelude.{◌≡◌, ◌≤◌, ◌%◌, All, IfOk, length, vec_len};
ghost use Rattle.std.specs.Thread.{IsSync};
ghost use Rattle.ring_ends.specs.Passes.{ring_shape, reader_knows, WritesTo, ReadsFrom};
ghost use Rattle.ring_bench.specs.Crew.{IsAt, IsBack};

use crate::crew::{Done, Job, Manner};
use crate::full::is_full_of;
use ring_ends::{EndedReader, Mark, ReaderPass, Ring, WriterPass};
use std::alloc::AllocError;
use std::thread;
use std::thread::{Threads, join, map_vec};

/// The number of tries after which a thread gives up.
const TRIES: u64 = 1 << 32;

/// The number of blocks after which a reader with the manner `Leaves` retires.
const BEFORE_LEAVING: u64 = 10;

// The byte that block `number` is filled with. If a ring has fewer than 251 buffers, no two blocks in it have the same
// byte.
fn byte_of(number: u64) -> u8
    ensures { result ≡ number % 251 }
{
    (number % 251) as u8
}

/// Seals blocks until `blocks` are sealed. Each is filled with the byte of its number.
fn write_all(ring: &Ring, mut pass: WriterPass, mut space: Vec<u8>, blocks: u64) -> WriterPass
    requires ring { WritesTo ring.now pass }
    requires space { (ring_shape ring.now).size ≤ vec_len space }
    ensures { WritesTo ring.now result }
{
    let size = ring.shape().size as usize;
    let mut filled = None;
    for _try in 0..TRIES {
        let number = pass.sealed();
        if number >= blocks {
            break;
        }
        if filled != Some(number) {
            space.as_mut_slice().fill(byte_of(number));
            filled = Some(number);
        }
        let block = &space.as_slice()[..size];
        if ring.write(&mut pass, block, Mark::More).is_err() {
            thread::yield_now();
        }
    }
    pass
}

// Whether the next block is the right one, or `None` if there is none yet.
fn read_one(ring: &Ring, pass: &mut ReaderPass, into: &mut [u8]) -> Option<bool>
    requires ring { ReadsFrom ring.now pass.old }
    requires room { (ring_shape ring.now).size ≤ length into.old }
    ensures ring { ReadsFrom ring.now pass.new }
    ensures number { (reader_knows pass.new).number ≡ (reader_knows pass.old).number }
{
    let wanted = pass.cleared();
    let taken = ring.read(pass, into).ok()?;
    if pass.has_read() {
        ring.clear(pass);
    }
    let used = taken.used as usize;
    let right = taken.block == wanted && taken.used == ring.shape().size;
    Some(right && used <= into.len() && is_full_of(&into[..used], byte_of(wanted)))
}

// Reads until `blocks` blocks are cleared, and tells whether each was the right one. If `returns`, it detaches and
// attaches before each read.
fn read_blocks(
    ring: &Ring,
    mut pass: ReaderPass,
    mut into: Vec<u8>,
    blocks: u64,
    returns: bool,
) -> (ReaderPass, bool)
    requires ring { ReadsFrom ring.now pass }
    requires room { (ring_shape ring.now).size ≤ vec_len into }
    ensures ring { ReadsFrom ring.now result.0 }
    ensures number { (reader_knows result.0).number ≡ (reader_knows pass).number }
{
    let mut right = true;
    for _try in 0..TRIES {
        if pass.cleared() >= blocks {
            break;
        }
        if returns {
            pass = pass.detach().attach();
        }
        match read_one(ring, &mut pass, into.as_mut_slice()) {
            Some(good) => right = right && good,
            None => thread::yield_now(),
        }
    }
    (pass, right)
}

// Does the job of a reader, and ends the reader.
fn read_all(ring: &Ring, job: Job) -> Done
    requires { IsAt ring.now job }
    ensures { IsBack ring.now result }
{
    let Job {
        pass,
        into,
        manner,
        blocks,
    } = job;
    let blocks = match manner {
        Manner::Leaves => blocks.min(BEFORE_LEAVING),
        Manner::Stays | Manner::Returns => blocks,
    };
    let (pass, right) = read_blocks(ring, pass, into, blocks, manner == Manner::Returns);
    let reader = match manner {
        Manner::Stays => EndedReader::Here(pass),
        Manner::Returns => EndedReader::Away(pass.detach()),
        Manner::Leaves => EndedReader::Retired(ring.retire(pass)),
    };
    Done { reader, right }
}

// Runs each reader in a thread of its own. The result is in the order of the jobs.
fn read_in_threads<R: Threads + Sync>(
    rt: &R,
    ring: &Ring,
    jobs: Vec<Job>,
) -> Result<Vec<Done>, AllocError>
    requires { All (IsAt ring.now) jobs.items }
    ensures { IfOk result (λ done. All (IsBack ring.now) done.items) }
{
    map_vec(
        rt,
        jobs,
        &|job: Job| -> Done
            requires { IsAt ring.now job }
            ensures { IsBack ring.entry.now result }
        { read_all(ring, job) },
    )
}

/// Runs the writer and the readers, each in a thread of its own, until all of them end.
pub fn run_threads<R: Threads + Sync>(
    rt: &R,
    ring: &Ring,
    writer: (WriterPass, Vec<u8>),
    jobs: Vec<Job>,
    blocks: u64,
) -> (WriterPass, Result<Vec<Done>, AllocError>)
    requires writer { WritesTo ring.now writer.0 }
    requires space { (ring_shape ring.now).size ≤ vec_len writer.1 }
    requires jobs { All (IsAt ring.now) jobs.items }
    ensures writer { WritesTo ring.now result.0 }
    ensures done { IfOk result.1 (λ done. All (IsBack ring.now) done.items) }
{
    let (pass, space) = writer;
    join(
        rt,
        || -> WriterPass
            requires { WritesTo ring.now pass × ((ring_shape ring.now).size ≤ vec_len space) }
            ensures { WritesTo ring.entry.now result }
        { write_all(ring, pass, space, blocks) },
        || -> Result<Vec<Done>, AllocError>
            requires { IsSync R.row × All (IsAt ring.now) jobs.items }
            ensures { IfOk result (λ done. All (IsBack ring.entry.now) done.items) }
        { read_in_threads(rt, ring, jobs) },
    )
}
