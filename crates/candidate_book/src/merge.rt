// Finding which of several books has the candidate that comes first.
ghost use Rattle.std.specs.Prelude.{◌≡◌, ◌+◌, ◌<◌, ◌≤◌, ◌^◌, ◌↔◌, length, slice_get, slice_index, slice_set, IsSome, IsTrue};
ghost use Rattle.std.specs.Option.{ForSome};
ghost use Rattle.search_model.specs.Order.{Precedes};
ghost use Rattle.candidate_book.specs.Conditions.{kept_in};
ghost use Rattle.candidate_book.specs.First.{next_at, FindsFirst};

use crate::book::Book;
use search_model::Candidate;
// A law: it does nothing when it runs, and the proofs use what it ensures.
use search_model::order_is_strict;

/// The largest number of books that are merged.
pub(crate) const MOST_BOOKS: usize = 7;

/// The next candidate of a book, and the place of the book.
#[derive(Clone, Copy)]
pub(crate) struct Next {
    pub(crate) book: usize,
    pub(crate) candidate: Candidate,
}

// The candidate of a book at a place.
fn candidate_at(book: &Option<Book>, place: usize) -> Option<Candidate>
    ensures value { result ≡ slice_get (kept_in book.now) place }
    ensures bound { IsSome result → place < 2 ^ 32 }
{
    match book {
        Some(book) => book.kept().get(place).copied(),
        None => None,
    }
}

// Whether a candidate comes before the one that was found, or none was found.
fn comes_before(candidate: &Candidate, found: &Option<Next>) -> bool
    ensures { IsTrue result ↔ ForSome found.now (λ next. Precedes candidate.now next.candidate) }
{
    match found {
        Some(next) => candidate.precedes(&next.candidate),
        None => true,
    }
}

/// The first candidate, in the order of candidates, among the next ones of all books. `places` has the place of the
/// next candidate in each book.
pub(crate) fn first(books: &[Option<Book>], places: &[usize; MOST_BOOKS]) -> Option<Next>
    requires { length books.now ≤ 7 }
    ensures first { FindsFirst (next_at books.now places.now) (length books.now) result }
    ensures bound { ForSome result (λ next. slice_index places.now next.book < 2 ^ 32) }
{
    order_is_strict();
    let mut found = None;
    for (i, book) in books.iter().enumerate() {
        if let Some(candidate) = candidate_at(book, places[i]) {
            if comes_before(&candidate, &found) {
                found = Some(Next { book: i, candidate });
            }
        }
    }
    found
}

/// Moves the place of a book behind its next candidate.
pub(crate) fn advance(places: &mut [usize; MOST_BOOKS], book: usize)
    requires within { book < 7 }
    requires fits { slice_index places.old book < 2 ^ 32 }
    ensures { places.new ≡ slice_set places.old book (slice_index places.old book + 1) }
{
    places[book] += 1;
}
