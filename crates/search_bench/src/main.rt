//! Measures the parts of a search, on one thread: rows of all nodes and passes, whole searches of a shard, rows and
//! folds, unpacking.
//!
//! It does what its arguments ask for, and prints the time:
//! - `carry feed CHUNK TIMES` and `carry pass CHUNK TIMES` take a chunk of CHUNK spectra TIMES times;
//! - `engine SPECTRA WIDEST PERIODS CHUNK` searches SPECTRA spectra, with boxes of up to WIDEST path sums and folds of
//!   the periods from 2 up to PERIODS, in chunks of up to CHUNK spectra (256 without CHUNK);
//! - `rows LENGTH REPEATS` adds rows of LENGTH values REPEATS times;
//! - `fold PERIOD HALVINGS REPEATS` folds 2^HALVINGS rows of PERIOD values REPEATS times;
//! - `unpack words REPEATS` and `unpack bytes REPEATS` make rows of 32 bits, or of bytes, REPEATS times.
//!
//! Without arguments it does a little of each. Other arguments are refused, with status 2.
#![tactic(auto)]

mod carry;
mod engine;
mod rows;
mod unpack;

use psr_base::Memory;
use std::process::ExitCode;
use std::rt::Clock;
use std::time::Instant;
use std::{env, io};

/// A part that is measured.
#[derive(Clone, Copy)]
enum Work {
    Carry(carry::Work),
    Engine(engine::Work),
    Rows(rows::Work),
    Unpack(unpack::Work),
}

/// What is done without arguments.
const FEW: [Work; 8] = [
    Work::Carry(carry::Work {
        way: carry::Way::Feed,
        chunk: 16,
        times: 3,
    }),
    Work::Carry(carry::Work {
        way: carry::Way::Pass,
        chunk: 16,
        times: 3,
    }),
    Work::Engine(engine::Work {
        spectra: 256,
        widest: 1,
        periods: 0,
        chunk: 256,
    }),
    Work::Rows(rows::Work::Sums {
        length: 100,
        repeats: 3,
    }),
    Work::Rows(rows::Work::Fold {
        period: 40,
        halvings: 5,
        repeats: 2,
    }),
    Work::Rows(rows::Work::Fold {
        period: 7,
        halvings: 6,
        repeats: 2,
    }),
    Work::Unpack(unpack::Work {
        into: unpack::Kind::Words,
        repeats: 2,
    }),
    Work::Unpack(unpack::Work {
        into: unpack::Kind::Bytes,
        repeats: 2,
    }),
];

/// The exit status if arguments are refused.
const FAULTY_WORDS: u8 = 2;

// The work of the arguments, or `None` if they are refused.
fn work_of(words: &[String]) -> Option<Work> {
    let (what, words) = words.split_first()?;
    match what.as_str() {
        "carry" => Some(Work::Carry(carry::work_of(words)?)),
        "engine" => Some(Work::Engine(engine::work_of(words)?)),
        "rows" => Some(Work::Rows(rows::sums_of(words)?)),
        "fold" => Some(Work::Rows(rows::fold_of(words)?)),
        "unpack" => Some(Work::Unpack(unpack::work_of(words)?)),
        _ => None,
    }
}

// Does the work, and prints what came of it; if `timed`, also how long it took.
fn show<R: AllocGlobal + Print + Clock>(rt: &R, work: Work, timed: bool) -> io::Result<()> {
    match work {
        Work::Carry(work) => carry::show(rt, work, timed),
        Work::Engine(work) => engine::show(rt, work, timed),
        Work::Rows(work) => {
            let start = Instant::now(rt)?;
            show_sum(rt, rows::do_work(rt.alloc(), work), start, timed)
        }
        Work::Unpack(work) => {
            let start = Instant::now(rt)?;
            show_sum(rt, unpack::do_work(rt.alloc(), work), start, timed)
        }
    }
}

// Prints a sum that was made; if `timed`, also the time since `start`.
fn show_sum<R: Print + Clock>(
    rt: &R,
    sum: Result<u32, Memory>,
    start: Instant,
    timed: bool,
) -> io::Result<()> {
    match sum {
        Ok(sum) => println!(rt; "a sum of {sum}")?,
        Err(_) => println!(rt; "no memory")?,
    }
    if timed {
        let nanos = start.elapsed(rt)?.as_nanos();
        println!(rt; "{nanos} ns in all")?;
    }
    Ok(())
}

// Does what the arguments ask for, and answers the exit status.
fn answer<R: AllocGlobal + Print + Clock>(rt: &R, words: &[String]) -> io::Result<u8> {
    if words.is_empty() {
        for work in FEW {
            show(rt, work, false)?;
        }
        return Ok(0);
    }
    match work_of(words) {
        Some(work) => {
            show(rt, work, true)?;
            Ok(0)
        }
        None => {
            println!(rt;
                "words: carry, engine, rows, fold or unpack, and what each says of its work"
            )?;
            Ok(FAULTY_WORDS)
        }
    }
}

fn main(rt: HostRuntime) -> io::Result<ExitCode> {
    let words: Vec<String> = env::args(&rt)?.skip(1).collect(rt.alloc())?;
    let status = answer(&rt, words.as_slice())?;
    Ok(ExitCode::from(status))
}
