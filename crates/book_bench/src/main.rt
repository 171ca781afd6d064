//! Writes the lines of the candidates of seven books.
//!
//! Without arguments, it writes them for a few candidates, then for the books of one and of two transfers, with other
//! labels, and to sinks that fail. With the argument COUNT, each of the seven books has COUNT candidates. The notes on
//! standard error tell how long it took to make the books, and how long it took to make and write them.
#![tactic(auto)]

mod checks;
mod labelled;
mod made;
mod texts;

use candidate_book::Book;
use made::{observation, seven_books};
use psr_base::{RealSink, Sink};
use std::rt::Clock;
use std::time::Instant;
use std::{env, io};
use texts::{show_texts, write_text};

/// The number of candidates of each book if there is no argument.
const FEW: u32 = 2;

// Writes the lines of books. Returns the number of pulses, or `None` if it failed.
fn write_pulses<R: AllocGlobal, K: Sink>(
    rt: &R,
    books: &[Option<Book>],
    out: &mut K,
) -> Option<u64> {
    let obs = observation(rt.alloc())?;
    Some(write_text(books, &obs, 1_000_000, out)?.pulses)
}

// Makes seven books and writes their lines to the standard output.
fn show<R: AllocGlobal + Print + Eprint + Clock>(rt: &R, count: u32) -> io::Result<()> {
    let start = Instant::now(rt)?;
    let Ok(books) = seven_books(rt.alloc(), count) else {
        return eprintln!(rt; "no memory");
    };
    let made = start.elapsed(rt)?.as_millis();
    let mut out = RealSink::out(rt);
    match write_pulses(rt, books.as_slice(), &mut out) {
        Some(pulses) => {
            let all = start.elapsed(rt)?.as_millis();
            eprintln!(rt; "{pulses} candidates: made in {made} ms, made and written in {all} ms")
        }
        None => eprintln!(rt; "not written"),
    }
}

fn main(rt: HostRuntime) -> io::Result<()> {
    let words: Vec<String> = env::args(&rt)?.skip(1).collect(rt.alloc())?;
    if let [count] = words.as_slice() {
        return show(&rt, count.as_str().parse().unwrap_or(FEW));
    }
    show(&rt, FEW)?;
    show_texts(&rt)
}
