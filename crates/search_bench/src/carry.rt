//! Measures the rows of all nodes and passes, over 1024 channels and delays from 0 to 1024 spectra, chunk by chunk. The
//! samples are bytes that look random, the same in each chunk.

ghost use Rattle.std.specs.Prelude.{◌≡◌, ◌+◌, ◌*◌, ◌^◌, ◌<◌, ◌≤◌, length, IfOk};
ghost use Rattle.dada_model.specs.Edges.{AreEdges};
ghost use Rattle.search_bench.specs.Ready.{IsReady};

use fdmt_carry::{Carry, Samples};
use psr_base::Memory;
use std::alloc::Global;
use std::io;
use std::rt::Clock;
use std::time::Instant;
use subband_plan::Plan;

// The number of channels. They share 400 MHz below 1582 MHz.
const CHANNELS: u32 = 1024;

// The longest delay, in spectra.
const LAST: u32 = 1024;

// No more spectra than this are taken.
const MOST: u64 = 1 << 40;

/// How spectra are taken: with the rows of all nodes, or by a pass.
#[derive(Clone, Copy, PartialEq, Eq, Debug)]
pub enum Way {
    Feed,
    Pass,
}

/// A chunk of `chunk` spectra, taken `times` times.
#[derive(Clone, Copy, Debug)]
pub struct Work {
    pub way: Way,
    pub chunk: u32,
    pub times: u32,
}

/// The work of the arguments WAY CHUNK TIMES, or `None` if they are not of this form.
pub fn work_of(words: &[String]) -> Option<Work> {
    let [way, chunk, times] = words else {
        return None;
    };
    Some(Work {
        way: match way.as_str() {
            "feed" => Way::Feed,
            "pass" => Way::Pass,
            _ => return None,
        },
        chunk: chunk.as_str().parse().ok()?,
        times: times.as_str().parse().ok()?,
    })
}

/// Does the work, and prints a sum that it made. If `timed`, also prints how many bytes the rows need, and how long the
/// work took once all memory was taken.
pub fn show<R: AllocGlobal + Print + Clock>(rt: &R, work: Work, timed: bool) -> io::Result<()> {
    match Bench::open(rt.alloc(), work) {
        Ok(mut bench) => bench.show(rt, timed),
        Err(_) => println!(rt; "no memory"),
    }
}

// A carry, with a chunk of samples.
#[derive(Drop)]
struct Bench {
    carry: Carry,
    samples: Vec<u8>,
    work: Work,
    ghost ready: { IsReady carry work.chunk (length samples.items) },
}

impl Bench {
    // Takes the memory.
    fn open(alloc: Global, work: Work) -> Result<Bench, Memory> {
        let work = Work {
            way: work.way,
            chunk: work.chunk.clamp(1, 65536),
            times: work.times,
        };
        let carry = open_carry(alloc, work.chunk)?;
        let samples = make_samples(alloc, CHANNELS as usize * work.chunk as usize)?;
        Ok(Bench {
            carry,
            samples,
            work,
        })
    }

    // Does the work, and prints a sum that it made; if `timed`, also the time and the memory.
    fn show<R: Print + Clock>(&mut self, rt: &R, timed: bool) -> io::Result<()> {
        let start = Instant::now(rt)?;
        let sum = self.run();
        let nanos = start.elapsed(rt)?.as_nanos();
        println!(rt; "a sum of {sum}")?;
        if timed {
            println!(rt; "rows and tails need {} bytes", self.need())?;
            println!(rt; "{nanos} ns in all")?;
        }
        Ok(())
    }

    // Takes the chunk as often as asked, and answers a sum of sums.
    fn run(&mut self) -> u32 {
        let mut sum = 0_u32;
        for _ in 0..self.work.times {
            sum = sum.wrapping_add(self.take());
        }
        sum
    }

    // Takes the chunk once.
    fn take(&mut self) -> u32 {
        if self.carry.fed() >= MOST {
            return 0;
        }
        let samples = self.samples.as_slice();
        match self.work.way {
            Way::Feed => feed(&mut self.carry, samples, self.work.chunk),
            Way::Pass => pass(&mut self.carry, samples, self.work.chunk),
        }
    }

    // How many bytes all rows need, with their tails, by the plan.
    fn need(&self) -> u64 {
        self.carry.plan().words(self.work.chunk).wrapping_mul(4)
    }
}

// Takes a chunk with the rows of all nodes, and answers the first sum of the longest delay.
fn feed(carry: &mut Carry, samples: &[u8], chunk: u32) -> u32
    requires ready { IsReady carry.old chunk (length samples.now) }
    requires few { carry.old.fed < 2 ^ 40 }
    ensures { IsReady carry.new chunk (length samples.now) }
{
    carry.take(Samples::Bytes(samples), chunk);
    carry.sum(LAST, 0)
}

// Takes a chunk by a pass, and answers the first sum of the longest delay.
fn pass(carry: &mut Carry, samples: &[u8], chunk: u32) -> u32
    requires ready { IsReady carry.old chunk (length samples.now) }
    requires few { carry.old.fed < 2 ^ 40 }
    ensures { IsReady carry.new chunk (length samples.now) }
{
    let samples = Samples::Bytes(samples);
    carry.begin(samples, chunk);
    for d in 0..LAST + 1 {
        carry.make_row(samples);
    }
    let sum = carry.made()[0];
    carry.finish();
    sum
}

// The edges of the channels in kHz.
fn make_edges(alloc: Global) -> Result<Vec<u32>, Memory>
    ensures { IfOk result (λ edges. AreEdges 1024 edges.items) }
{
    let mut edges = Vec::new(alloc);
    for c in 0..CHANNELS + 1 {
        edges.push(1_582_000 - c * 400_000 / CHANNELS)?;
    }
    Ok(edges)
}

// A carry that was fed nothing.
fn open_carry(alloc: Global, chunk: u32) -> Result<Carry, Memory>
    requires some { 1 ≤ chunk }
    requires most { chunk ≤ 65536 }
    ensures { IfOk result (λ carry. IsReady carry chunk (1024 * chunk)) }
{
    let edges = make_edges(alloc)?;
    let plan = Plan::open(alloc, edges.as_slice(), 0, LAST)?;
    Carry::open(alloc, plan, chunk, 255)
}

// `count` samples that look random.
fn make_samples(alloc: Global, count: usize) -> Result<Vec<u8>, Memory>
    ensures { IfOk result (λ samples. length samples.items ≡ count) }
{
    let mut samples = Vec::with_capacity(alloc, count)?;
    let mut state = 13_u32;
    for done in 0..count {
        state = state.wrapping_mul(1_103_515_245).wrapping_add(12_345);
        samples.push((state >> 27) as u8)?;
    }
    Ok(samples)
}
