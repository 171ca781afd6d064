// What is sought in the rows of a shard.
ghost use Rattle.std.specs.Prelude.{◌≡◌, ℕ, ◌+◌, ◌^◌, ◌≤◌, ◌<◌, true, false, Option};
ghost use Rattle.shard_search.specs.Sought.{whole_of, counted_of, part_of, sought_from, cells_in, is_before, AreSoughtEnds};

use fold_search::Cells;
use std::marker::Model;

/// What is sought in the rows of a shard: which ends of pulses, and how many cells a path sum of each delay adds up.
/// Ends count from the first spectrum of the observation, even if the rows begin with a later one.
#[derive(Drop)]
pub struct Sought {
    cells: Cells,
    first: u64,
    place: u64,
    until: Option<u64>,
}

/// A range of spectra: those from `from` up to, but without, `to`.
#[derive(Clone, Copy)]
pub(crate) struct Ends {
    pub(crate) from: u32,
    pub(crate) to: u32,
}

impl Model for Sought {
    ghost use Rattle.shard_search.specs.Sought.{Sought as Described};

    ghost Value = { Described };

    ghost view = { λ s. record {
      counts = s.cells;
      first = s.first;
      place = s.place;
      until = s.until;
    } };
}

impl Sought {
    /// All ends, in all of `channels` channels.
    pub fn whole(channels: u32) -> Sought
        ensures { result ≡ whole_of channels }
    {
        Sought {
            cells: Cells::plain(channels),
            first: 0,
            place: 0,
            until: None,
        }
    }

    /// All ends. A path sum of delay `d` adds up `counts[d]` cells.
    pub fn counted(counts: Vec<u32>) -> Sought
        ensures { result ≡ counted_of counts.items }
    {
        Sought {
            cells: Cells::counted(counts),
            first: 0,
            place: 0,
            until: None,
        }
    }

    /// The ends from spectrum `place` up to, but without, spectrum `until`, in all of `channels` channels. The rows
    /// begin with spectrum `first`. All three count from the first spectrum of the observation.
    pub fn of_part(channels: u32, first: u64, place: u64, until: u64) -> Sought
        ensures { result ≡ part_of channels first place until }
    {
        Sought {
            cells: Cells::plain(channels),
            first,
            place,
            until: Some(until),
        }
    }

    /// From now on also leaves out the ends before spectrum `place` of the observation.
    pub(crate) fn leave_out(&mut self, place: u64)
        ensures { self.new ≡ sought_from place self.old }
    {
        self.place = self.place.max(place);
    }

    /// How many cells a path sum of a delay adds up.
    pub(crate) fn cells(&self, delay: u32) -> u32
        requires { cells_in self.now delay < 2 ^ 32 }
        ensures { result ≡ cells_in self.now delay }
    {
        self.cells.at(delay)
    }

    /// How many cells the path sums of all delays add up.
    pub(crate) fn counts(&self) -> &Cells
        ensures { result.now ≡ self.now.counts }
    {
        &self.cells
    }

    /// The spectrum of the observation with which the rows begin.
    pub(crate) fn first(&self) -> u64
        ensures { result ≡ self.now.first }
    {
        self.first
    }

    /// The ends that are sought among `spectra` spectra from spectrum `start` of the rows on, counted from `start`.
    pub(crate) fn ends(&self, start: u64, spectra: u32) -> Ends
        requires { self.now.first + start < 2 ^ 63 }
        ensures { AreSoughtEnds self.now start spectra result.from result.to }
    {
        let start = self.first + start;
        let to = spectra_before(self.until, start, spectra);
        let from = spectra_before(Some(self.place), start, spectra).min(to);
        Ends { from, to }
    }
}

// How many of the `spectra` spectra from spectrum `start` on come before the limit; all if there is none.
fn spectra_before(limit: Option<u64>, start: u64, spectra: u32) -> u32
    ensures most { result ≤ spectra }
    ensures before { (k : ℕ) → k < result → is_before limit (start + k) ≡ true }
    ensures past { (k : ℕ) → result ≤ k → k < spectra → is_before limit (start + k) ≡ false }
{
    match limit {
        Some(limit) => limit.saturating_sub(start).min(u64::from(spectra)) as u32,
        None => spectra,
    }
}
