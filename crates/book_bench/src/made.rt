// Books and observations for tests and measurements.
use arrayvec::ArrayVec;
use candidate_book::{Book, Candidate};
use dada_header::Header;
use obs_plan::Observation;
use psr_base::Memory;
use search_model::MOST_SHARDS;
use std::alloc::Global;

const HEADER: &str = "HDR_SIZE 4096
NCHAN 2
NBIT 8
NPOL 1
NDIM 1
TSAMP 64
FREQ 1400
BW -200
OBS_OFFSET 0
";

/// An observation of two channels, from 1500 down to 1300 MHz.
pub fn observation(alloc: Global) -> Option<Observation> {
    let mut bytes = Vec::from_slice(alloc, HEADER.as_bytes()).ok()?;
    bytes.resize(4096, 0).ok()?;
    let header = Header::read(alloc, bytes.as_slice()).ok()?;
    Observation::of(alloc, &header).ok()
}

/// A book with a limit, to which the candidates of a list were added.
pub fn book_of(alloc: Global, limit: u32, list: &[Candidate]) -> Result<Book, Memory> {
    let mut book = Book::open(alloc, limit)?;
    for candidate in list {
        book.add(*candidate);
    }
    Ok(book)
}

/// `count` pulses of one delay, which end at the first spectra, one at each.
pub fn pulses(alloc: Global, delay: u32, count: u32) -> Result<Vec<Candidate>, Memory> {
    let mut list = Vec::with_capacity(alloc, count as usize)?;
    for end in 0..count {
        list.push(Candidate::Pulse {
            end: u64::from(end),
            delay,
            width: 1,
            sum: 1000,
        })?;
    }
    Ok(list)
}

/// Seven books of `count` pulses each, with the delays 0 to 6.
pub fn seven_books(alloc: Global, count: u32) -> Result<Vec<Option<Book>>, Memory> {
    let mut books = Vec::new(alloc);
    for delay in 0..7 {
        let list = pulses(alloc, delay, count)?;
        books.push(Some(book_of(alloc, count, list.as_slice())?))?;
    }
    Ok(books)
}

fn pulse(end: u64, delay: u32, width: u32, sum: u32) -> Candidate {
    Candidate::Pulse {
        end,
        delay,
        width,
        sum,
    }
}

fn fold(delay: u32, period: u32, trial: u32, phase: u32, sum: u32) -> Candidate {
    Candidate::Fold {
        delay,
        period,
        halvings: 1,
        trial,
        phase,
        sum,
    }
}

/// Candidates of even delays.
pub fn even() -> [Candidate; 4] {
    [
        pulse(4, 2, 1, 50),
        pulse(9, 0, 2, 90),
        pulse(9, 2, 1, 41),
        fold(0, 7, 1, 6, 120),
    ]
}

// Candidates of odd delays.
fn odd() -> [Candidate; 4] {
    [
        pulse(4, 1, 1, 40),
        pulse(9, 1, 2, 81),
        pulse(9, 1, 4, 160),
        fold(1, 2, 0, 0, 99),
    ]
}

/// The books of two transfers: the first has one of even and one of odd delays, the second an empty one.
pub fn two_transfers(alloc: Global) -> Result<[ArrayVec<Option<Book>, MOST_SHARDS>; 2], Memory> {
    let mut first = ArrayVec::new();
    first.push(Some(book_of(alloc, 4, &even())?));
    first.push(Some(book_of(alloc, 4, &odd())?));
    let mut second = ArrayVec::new();
    second.push(Some(book_of(alloc, 4, &[])?));
    Ok([first, second])
}
