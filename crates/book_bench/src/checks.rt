// Checking whether books can be merged, candidate by candidate.
ghost use Rattle.std.specs.Prelude.{◌<◌, IsTrue, Contains, map};
ghost use Rattle.candidate_book.specs.Conditions.{IsSearched, CanBeMerged};
ghost use Rattle.search_model.specs.Order.{Precedes};
ghost use Rattle.std.specs.Option.{ForSome};
ghost use Rattle.search_model.specs.Search.{box_widths};
ghost use Rattle.transfer_text.specs.Books.{CanBeWritten};
ghost use Rattle.book_bench.specs.Parts.{IsPart, Continues};

use arrayvec::ArrayVec;
use candidate_book::{Book, Candidate};
use obs_plan::Observation;
// A law: it does nothing when it runs, and the proofs use what it ensures.
use search_model::{MOST_SHARDS, order_is_strict};

const WIDTHS: [u32; 6] = [1, 2, 4, 8, 16, 32];

// Whether a box can have this width.
fn is_width(width: u32) -> bool
    ensures { IsTrue result → Contains box_widths width }
{
    WIDTHS.contains(&width)
}

// Whether a search can find the candidate.
fn is_searched(candidate: &Candidate) -> bool
    ensures { IsTrue result → IsSearched candidate.now }
{
    match *candidate {
        Candidate::Pulse { delay, width, .. } => delay <= 8192 && is_width(width),
        Candidate::Fold {
            delay,
            halvings,
            ..
        } => { delay <= 8192 && 1 <= halvings && halvings <= 12 }
    }
}

// Whether a candidate comes after the last one, or there is no last one.
fn comes_after(last: &Option<Candidate>, candidate: &Candidate) -> bool
    ensures { IsTrue result → ForSome last.now (λ before. Precedes before candidate.now) }
{
    match last {
        Some(last) => last.precedes(candidate),
        None => true,
    }
}

// Whether a candidate can come after the last one of a book whose delays have the remainder `k` modulo `n`.
fn continues(n: u32, k: u32, last: &Option<Candidate>, candidate: &Candidate) -> bool
    requires { 0 < n }
    ensures { IsTrue result → Continues n k last.now candidate.now }
{
    comes_after(last, candidate) && is_searched(candidate) && candidate.delay() % n == k
}

/// Whether a list is in order and all its delays have the remainder `k` modulo `n`.
pub fn is_part(n: u32, k: u32, list: &[Candidate]) -> bool
    requires { 0 < n }
    ensures { IsTrue result → IsPart n k list.now }
{
    order_is_strict();
    let mut last = None;
    for candidate in list {
        if !continues(n, k, &last, candidate) {
            return false;
        }
        last = Some(*candidate);
    }
    true
}

/// Whether there are at most 7 books, each is in order, and they share the delays by their remainders.
pub fn can_be_merged(books: &[Option<Book>]) -> bool
    ensures { IsTrue result → CanBeMerged books.now }
{
    if books.len() > 7 {
        return false;
    }
    let n = books.len() as u32;
    for (k, book) in books.iter().enumerate() {
        let Some(book) = book else {
            return false;
        };
        if !is_part(n, k as u32, book.kept()) {
            return false;
        }
    }
    true
}

/// Whether each transfer has an observation, a number of spectra, and books that can be merged.
pub fn can_be_written(
    observations: &[Option<Observation>],
    books: &[ArrayVec<Option<Book>, MOST_SHARDS>],
    spectra: &[u64],
) -> bool
    ensures { IsTrue result → CanBeWritten observations.now
        (map (λ shards. shards.items) books.now) spectra.now }
{
    if observations.len() != books.len() || spectra.len() != books.len() {
        return false;
    }
    for k in 0..books.len() {
        if observations[k].is_none() {
            return false;
        }
        if !can_be_merged(books[k].as_slice()) {
            return false;
        }
    }
    true
}
