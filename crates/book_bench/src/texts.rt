// What is written of books: their lines, the order of these, and what a sink has that fails.
use crate::checks::{can_be_merged, can_be_written};
use crate::labelled::write_marked;
use crate::made::{book_of, even, observation, seven_books, two_transfers};
use arrayvec::ArrayVec;
use candidate_book::{Book, SinkStop, Totals, write_merged};
use obs_plan::Observation;
use psr_base::{MemSink, RealSink, Sink};
use search_model::MOST_SHARDS;
use std::alloc::Global;
use std::io;
use transfer_text::write_texts;

/// Writes the lines of books, if they can be merged. Returns the number of pulses and of folds, or `None` if it failed.
pub fn write_text<K: Sink>(
    books: &[Option<Book>],
    obs: &Observation,
    spectra: u64,
    out: &mut K,
) -> Option<Totals> {
    if !can_be_merged(books) {
        return None;
    }
    write_merged(books, obs, spectra, out).ok()
}

// Writes the lists of all transfers, if they can be written. Returns whether that succeeded.
fn are_written<K: Sink>(
    observations: &[Option<Observation>],
    books: &[ArrayVec<Option<Book>, MOST_SHARDS>],
    spectra: &[u64],
    out: &mut K,
) -> bool {
    if books.len() > 8 || !can_be_written(observations, books, spectra) {
        return false;
    }
    write_texts(observations, books, spectra, out).is_ok()
}

// ---- sinks that fail

// Whether a sink that fails has a front of the output.
fn has_front(books: &[Option<Book>], obs: &Observation, whole: &[u8], sink: &mut MemSink) -> bool {
    write_text(books, obs, 60, sink).is_none()
        && sink.body().len() < whole.len()
        && whole.starts_with(sink.body())
}

// Whether sinks have a front of an output that is written in three calls, if one of the calls fails or there is too
// little room, and all of it if the room is just enough.
fn have_fronts(
    alloc: Global,
    books: &[Option<Book>],
    obs: &Observation,
    whole: &[u8],
) -> Option<bool> {
    let room = whole.len() as u64;
    for call in 0..3_u64 {
        let mut failing = MemSink::open(alloc, room, &[call]).ok()?;
        let mut narrow = MemSink::open(alloc, room.saturating_sub(call * 10 + 1), &[]).ok()?;
        if !has_front(books, obs, whole, &mut failing)
            || !has_front(books, obs, whole, &mut narrow)
        {
            return Some(false);
        }
    }
    let mut exact = MemSink::open(alloc, room, &[]).ok()?;
    Some(write_text(books, obs, 60, &mut exact).is_some() && exact.body() == whole)
}

// Whether the sinks have such fronts of the output for seven books.
fn are_fronts(alloc: Global) -> Option<bool> {
    let obs = observation(alloc)?;
    let books = seven_books(alloc, 60).ok()?;
    let mut whole = MemSink::open(alloc, 20000, &[]).ok()?;
    write_text(books.as_slice(), &obs, 60, &mut whole)?;
    have_fronts(alloc, books.as_slice(), &obs, whole.body())
}

// Whether a sink with little room has a front of the output for two transfers.
fn is_front(alloc: Global) -> Option<bool> {
    let observations = [observation(alloc), observation(alloc)];
    let books = two_transfers(alloc).ok()?;
    let mut whole = MemSink::open(alloc, 1000, &[]).ok()?;
    let mut narrow = MemSink::open(alloc, 200, &[]).ok()?;
    let is_whole = are_written(&observations, &books, &[10, 1], &mut whole);
    let is_narrow = !are_written(&observations, &books, &[10, 1], &mut narrow);
    Some(is_whole && is_narrow && whole.body().starts_with(narrow.body()))
}

// ---- what is printed

// How many of four candidates a book with this limit keeps, and how many it counts.
fn counts_of(alloc: Global, limit: u32) -> Option<(usize, u64)> {
    let book = book_of(alloc, limit, &even()).ok()?;
    let list = even();
    if book.kept() != &list[..book.kept().len().min(4)] {
        return None;
    }
    Some((book.kept().len(), book.count()))
}

// Writes the output for two transfers, for the first one alone, and for no books.
fn are_all_written<K: Sink>(alloc: Global, out: &mut K) -> Option<Totals> {
    let observations = [observation(alloc), observation(alloc)];
    let books = two_transfers(alloc).ok()?;
    let obs = observation(alloc)?;
    let are_two = are_written(&observations, &books, &[10, 1], out);
    let is_one = are_written(&observations[..1], &books[..1], &[10], out);
    let totals = write_text(books[0].as_slice(), &obs, 10, out)?;
    write_text(&[], &obs, 3, out)?;
    if are_two && is_one {
        Some(totals)
    } else {
        None
    }
}

/// Prints the output for a few books and for lines with other labels, and what sinks have that fail.
pub fn show_texts<R: AllocGlobal + Print + Eprint>(rt: &R) -> io::Result<()> {
    let alloc = rt.alloc();
    if let Some(totals) = are_all_written(alloc, &mut RealSink::out(rt)) {
        println!(rt; "{} pulses, {} folds", totals.pulses, totals.folds)?;
    }
    for limit in [0, 1, 4] {
        if let Some((kept, count)) = counts_of(alloc, limit) {
            println!(rt; "{kept} kept of {count}")?;
        }
    }
    if let Some(obs) = observation(alloc) {
        if let Some(totals) = write_marked(&even(), &obs, &mut RealSink::out(rt)) {
            println!(rt; "{} marked pulses, {} folds", totals.pulses, totals.folds)?;
        }
    }
    let are_fronts = are_fronts(alloc) == Some(true) && is_front(alloc) == Some(true);
    println!(rt; "{}, and has a front: {are_fronts}", SinkStop::Fault)
}
