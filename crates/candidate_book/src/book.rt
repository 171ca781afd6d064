// A book of candidates.
ghost use Rattle.std.specs.Prelude.{◌≡◌, ◌+◌, ◌<◌, ◌≤◌, ◌^◌, ◌∷◌, [], ◌++◌, List, IfOk, length};
ghost use Rattle.search_model.specs.declared.candidate.Candidate.{Candidate};
ghost use Rattle.candidate_book.specs.Book.{book_of};

use psr_base::Memory;
use search_model::Candidate;
use std::alloc::Global;
use std::marker::Model;

/// Keeps the first candidates that are added, up to a limit, and counts all of them.
#[derive(Drop)]
pub struct Book {
    first: Vec<Candidate>,
    limit: u32,
    added: u64,
}

impl Model for Book {
    ghost use Rattle.std.specs.Prelude.{◌<◌, ◌≤◌, ◌^◌, vec_len, vec_capacity};
    ghost use Rattle.candidate_book.specs.Book.{BookContents};

    ghost Value = { BookContents };

    ghost view = { λ book.
        record { limit = book.limit; kept = book.first.items; count = book.added } };

    ghost invariant = { λ book. (vec_len book.first ≤ book.limit)
        × (book.limit ≤ vec_capacity book.first)
        × (book.limit < 2 ^ 32) };
}

impl Book {
    /// An empty book, with memory for `limit` candidates.
    pub fn open(alloc: Global, limit: u32) -> Result<Book, Memory>
        ensures { IfOk result (λ book. book ≡ book_of limit []) }
    {
        Ok(Book {
            first: Vec::with_capacity(alloc, limit as usize)?,
            limit,
            added: 0,
        })
    }

    /// Counts a candidate, and keeps it if there is room.
    pub fn add(&mut self, candidate: Candidate)
        requires { self.old.count < 2 ^ 63 }
        ensures list { let limit = self.old.limit in (list : List Candidate)
            → self.old ≡ book_of limit list
            → self.new ≡ book_of limit (list ++ candidate ∷ []) }
        ensures count { self.new.count ≡ self.old.count + 1 }
    {
        self.added += 1;
        if self.first.len() < self.limit as usize {
            // There is room for `limit` candidates.
            let _kept = self.first.push(candidate);
        }
    }

    /// Forgets all candidates, and sets the count to 0. The memory is kept.
    pub fn clear(&mut self)
        ensures { self.new ≡ book_of self.old.limit [] }
    {
        self.first.clear();
        self.added = 0;
    }

    /// The number of candidates that were added, those that were not kept among them.
    pub fn count(&self) -> u64
        ensures { result ≡ self.now.count }
    {
        self.added
    }

    /// The candidates that are kept, in the order in which they were added.
    pub fn kept(&self) -> &[Candidate]
        ensures value { result.now ≡ self.now.kept }
        ensures bound { length result.now < 2 ^ 32 }
    {
        self.first.as_slice()
    }
}
