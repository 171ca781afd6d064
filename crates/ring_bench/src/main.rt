//! Moves blocks through a ring, from one writer to several readers, each in a thread of its own. Each block is filled
//! with a byte that follows from its number, and every byte that is read is compared.
//!
//! Without arguments, it moves a few blocks with each of nine sizes and numbers of readers, and then some to readers
//! that detach, attach and retire. With the arguments SIZE READERS BLOCKS, it moves BLOCKS blocks of SIZE bytes to
//! READERS readers, and prints the time that this took, and the blocks and bytes per second of each reader. Other
//! arguments are refused with status 2.
#![tactic(auto)]

mod crew;
mod fault;
mod full;
mod moving;
mod threads;

use crate::moving::{move_blocks, soak};
use ring_ends::RingShape;
use std::process::ExitCode;
use std::rt::Clock;
use std::thread::Threads;
use std::time::Instant;
use std::{env, io};

const SIZES: [u32; 3] = [64, 4096, 524_288];

const READERS: [u32; 3] = [1, 4, 8];

/// The number of blocks that are moved without arguments.
const FEW: u64 = 40;

/// The number of blocks that the soak moves.
const SOAKED: u64 = 3000;

/// The exit status if the arguments are not three numbers.
const FAULTY_WORDS: u8 = 2;

/// The size of the blocks, the number of readers, and the number of blocks to move.
#[derive(Clone, Copy)]
struct Way {
    size: u32,
    readers: u32,
    blocks: u64,
}

impl Way {
    /// The shape of the ring: eight buffers, and the largest number of blocks that a ring may carry.
    fn shape(self) -> RingShape {
        RingShape {
            buffers: 8,
            size: self.size,
            readers: self.readers,
            max_blocks: (1 << 59) - 1,
        }
    }
}

// Moves blocks, and prints how many each reader got.
fn show<R: Threads + Sync + AllocGlobal + Print>(rt: &R, way: Way) -> io::Result<()> {
    let Way { size, readers, .. } = way;
    match move_blocks(rt, way.shape(), way.blocks) {
        Ok(moved) => { println!(rt; "size {size}, readers {readers}: {moved} blocks to each") }
        Err(fault) => println!(rt; "size {size}, readers {readers}: {fault}"),
    }
}

// Prints how fast blocks were moved.
fn show_rate<R: Print>(rt: &R, way: Way, moved: u64, micros: u128) -> io::Result<()> {
    let Way { size, readers, .. } = way;
    let rate = u128::from(moved) * 1_000_000 / micros.max(1);
    let bytes = rate * u128::from(size);
    let millis = micros / 1000;
    println!(rt; "size {size}, readers {readers}: {moved} blocks to each in {millis} ms")?;
    println!(rt; "{rate} blocks and {bytes} bytes in a second")
}

// Moves blocks, and prints how fast, or why it failed. Returns the exit status.
fn measure<R: Threads + Sync + AllocGlobal + Print + Clock>(rt: &R, way: Way) -> io::Result<u8> {
    let start = Instant::now(rt)?;
    match move_blocks(rt, way.shape(), way.blocks) {
        Ok(moved) => {
            show_rate(rt, way, moved, start.elapsed(rt)?.as_micros())?;
            Ok(0)
        }
        Err(fault) => {
            println!(rt; "{fault}")?;
            Ok(fault.status())
        }
    }
}

// Runs the soak, and prints how many blocks each reader got.
fn show_soak<R: Threads + Sync + AllocGlobal + Print>(rt: &R) -> io::Result<()> {
    match soak(rt, SOAKED) {
        Ok(got) => {
            let [stayed, returned, left] = got;
            println!(rt; "soak of {SOAKED}: {stayed} to the reader that stays")?;
            println!(rt; "{returned} to the one that detaches, {left} to the one that retires")
        }
        Err(fault) => println!(rt; "soak: {fault}"),
    }
}

// Moves a few blocks with each size and number of readers, and runs the soak.
fn show_all<R: Threads + Sync + AllocGlobal + Print>(rt: &R) -> io::Result<()> {
    for size in SIZES {
        for readers in READERS {
            show(
                rt,
                Way {
                    size,
                    readers,
                    blocks: FEW,
                },
            )?;
        }
    }
    show_soak(rt)
}

// The three numbers of the arguments, or `None` if the arguments are anything else.
fn way_of(words: &[String]) -> Option<Way> {
    let [size, readers, blocks] = words else {
        return None;
    };
    Some(Way {
        size: size.as_str().parse().ok()?,
        readers: readers.as_str().parse().ok()?,
        blocks: blocks.as_str().parse().ok()?,
    })
}

// Does what the arguments ask for, and returns the exit status.
fn answer<R: Threads + Sync + AllocGlobal + Print + Clock>(
    rt: &R,
    words: &[String],
) -> io::Result<u8> {
    if words.is_empty() {
        show_all(rt)?;
        return Ok(0);
    }
    match way_of(words) {
        Some(way) => measure(rt, way),
        None => {
            println!(rt; "words: SIZE READERS BLOCKS, three numbers")?;
            Ok(FAULTY_WORDS)
        }
    }
}

fn main(rt: HostRuntime) -> io::Result<ExitCode> {
    let words: Vec<String> = env::args(&rt)?.skip(1).collect(rt.alloc())?;
    let status = answer(&rt, words.as_slice())?;
    Ok(ExitCode::from(status))
}
