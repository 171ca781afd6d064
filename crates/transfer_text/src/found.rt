// Writing the output of a search of one or more transfers.
ghost use Rattle.std.specs.Prelude.{◌≡◌, ◌≤◌, ◌<◌, ◌^◌, List, map, length};
ghost use Rattle.std.specs.List.{sum_by};
ghost use Rattle.search_model.specs.Search.{SettingsInRange};
ghost use Rattle.transfer_text.specs.Searched.{ObservedTransfer, candidate_total};
ghost use Rattle.transfer_text.specs.Found.{count_in as count_of, book_total, HoldTransfers, EndsText};

use crate::texts::write_texts;
use arrayvec::ArrayVec;
use candidate_book::Book;
use obs_plan::Observation;
use psr_base::Sink;
use search_model::{MOST_SHARDS, Search};
// Laws: they do nothing when they run, and the proofs use what they ensure.
use search_model::{candidates_are_listed, candidates_rise, rising_lists_agree, shards_merge};
use thiserror::Error;

/// Why the output of a search wasn't written completely.
#[derive(Clone, Copy, Debug, PartialEq, Eq, Error)]
pub enum TextStop {
    /// There are more candidates than the limit. Nothing was written.
    #[error("{count} candidates, limit {limit}")]
    TooMany { count: u64, limit: u32 },
    /// The sink failed.
    #[error("the sink failed")]
    SinkFault,
}

// The number of candidates that were added to a book.
fn count_in(book: &Option<Book>) -> u64
    ensures { result ≡ count_of book.now }
{
    match book {
        Some(book) => book.count(),
        None => 0,
    }
}

// The number of candidates that were added to the books of all shards.
fn count_shards(books: &[Option<Book>]) -> u64
    requires { sum_by count_of books.now < 2 ^ 64 }
    ensures { result ≡ sum_by count_of books.now }
{
    let mut count = 0;
    for k in 0..books.len() {
        count += count_in(&books[k]);
    }
    count
}

// The number of candidates that were added to the books of all transfers.
fn count_all(books: &[ArrayVec<Option<Book>, MOST_SHARDS>]) -> u64
    requires { book_total (map (λ shards. shards.items) books.now) < 2 ^ 64 }
    ensures { result ≡ book_total (map (λ shards. shards.items) books.now) }
{
    let mut count = 0;
    for k in 0..books.len() {
        count += count_shards(books[k].as_slice());
    }
    count
}

/// Writes the output of a search of one or more transfers. If all transfers together have more than
/// `search.max_candidates` candidates, it writes nothing and returns `TooMany`.
///
/// `books` has the books of each transfer, by shard. After a fault of the sink the sink has taken the front of the
/// output.
pub fn write_found<K: Sink>(
    search: &Search,
    observations: &[Option<Observation>],
    books: &[ArrayVec<Option<Book>, MOST_SHARDS>],
    spectra: &[u64],
    out: &mut K,
) -> Result<(), TextStop>
    requires range { SettingsInRange search.now }
    requires few { length books.now ≤ 8 }
    requires found { (transfers : List ObservedTransfer)
        × HoldTransfers search.now transfers observations.now
        (map (λ shards. shards.items) books.now) spectra.now
        × (candidate_total search.now transfers < 2 ^ 64) }
    ensures { (transfers : List ObservedTransfer) → HoldTransfers search.now transfers
        observations.now (map (λ shards. shards.items) books.now) spectra.now
        → EndsText search.now transfers (K.seen out.old) (K.seen out.new) result }
{
    candidates_are_listed();
    candidates_rise();
    rising_lists_agree();
    shards_merge();
    let count = count_all(books);
    if count > u64::from(search.max_candidates) {
        return Err(TextStop::TooMany {
            count,
            limit: search.max_candidates,
        });
    }
    match write_texts(observations, books, spectra, out) {
        Ok(()) => Ok(()),
        Err(_failed) => Err(TextStop::SinkFault),
    }
}
