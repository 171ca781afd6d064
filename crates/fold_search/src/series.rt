// The first values of a series.
ghost use Rattle.std.specs.Prelude.{◌≡◌, ℕ, ◌≤◌, ◌<◌, ◌++◌, List, [], All, IfOk, length};
ghost use Rattle.fold_search.specs.Series.{IsFrontOf};

use psr_base::Memory;
use std::alloc::Global;
use std::marker::Model;

/// The first values of a series, as many as are used. `open` takes all memory.
#[derive(Drop)]
pub(crate) struct Series {
    values: Vec<u32>,
    most: usize,
}

impl Model for Series {
    ghost use Rattle.std.specs.Prelude.{◌≤◌, length, vec_capacity};
    ghost use Rattle.fold_search.specs.Series.{Front};

    ghost Value = { Front };

    ghost view = { λ s. record { most = s.most; values = s.values.items } };

    ghost invariant = { λ s. (length s.values.items ≤ s.most)
        × (s.most ≤ vec_capacity s.values) };
}

impl Series {
    /// An empty series, with memory for `most` values.
    pub(crate) fn open(alloc: Global, most: usize) -> Result<Series, Memory>
        ensures { IfOk result (λ s. s ≡ record { most = most; values = [] }) }
    {
        Ok(Series {
            values: Vec::with_capacity(alloc, most)?,
            most,
        })
    }

    /// Appends the next values, up to the number that is used.
    pub(crate) fn take(&mut self, row: &[u32])
        ensures room { self.new.most ≡ self.old.most }
        ensures front { (xs : List ℕ) → IsFrontOf self.old xs
            → IsFrontOf self.new (xs ++ row.now) }
        ensures small { (bound : ℕ) → All (λ x. x ≤ bound) self.old.values
            → All (λ x. x ≤ bound) row.now → All (λ x. x ≤ bound) self.new.values }
    {
        let used = row.len().min(self.most - self.values.len());
        // There is memory for them.
        let _taken = self.values.extend_from_slice(&row[..used]);
    }

    /// The values so far.
    pub(crate) fn values(&self) -> &[u32]
        ensures value { result.now ≡ self.now.values }
        ensures few { length result.now ≤ self.now.most }
    {
        self.values.as_slice()
    }
}
