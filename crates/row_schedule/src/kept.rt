// What is kept from one chunk to the next, in 16 or 32 bits, and laws of it.
ghost use Rattle.std.specs.Prelude.{◌≡◌, ℕ, ◌+◌, ◌%◌, ◌^◌, ◌<◌, ◌≤◌, true, false, length, slice_index};
ghost use Rattle.row_model.specs.Sums.{Sums, Fit};
ghost use Rattle.row_model.specs.Tails.{row_count};
ghost use Rattle.row_schedule.specs.Follows.{Follows};
ghost use Rattle.row_schedule.specs.Running.{KeepsRow, kept_of};
ghost use Rattle.row_schedule.specs.Making.{Puts};
ghost use Rattle.row_schedule.specs.Moving.{GoesOver, HaveKeptRoom, KeepFirst, PutsKept, kept_lists, lent};
ghost use Rattle.row_schedule.specs.Laws.{RunningBegins, RunningEnds, LastRowsAreLeftOut, NothingKept};

use crate::making::{copy_narrow_part, copy_part};
use crate::schedule::Schedule;
use fdmt_rows::{narrow_row, widen_row};
use row_model::Rows;

/// Law: with what is kept from earlier spectra, a schedule is at its beginning, with no order carried out. It does
/// nothing.
pub fn running_begins()
    ensures { RunningBegins }
{}

/// Law: once all orders were carried out, the rows are kept for the next spectra. It does nothing.
pub fn running_ends()
    ensures { RunningEnds }
{}

/// Law: an order can be left out if nothing is kept of its row and no row is made of it. It does nothing.
pub fn last_rows_are_left_out()
    ensures { LastRowsAreLeftOut }
{}

/// Law: before the first spectrum, what is kept is zeros. It does nothing.
pub fn nothing_kept()
    ensures { NothingKept }
{}

/// Where the kept values of a row stand.
#[derive(Clone, Copy)]
pub struct Hold {
    /// Whether they have 16 bits.
    pub narrow: bool,
    /// The place of the first one in the list of its width.
    pub at: usize,
    /// The number of values.
    pub size: usize,
}

/// The kept values of all rows of one width, lent.
#[derive(Clone, Copy)]
pub enum KeptValues<'a> {
    /// In 16 bits.
    Narrow(&'a [u16]),
    /// In 32 bits.
    Wide(&'a [u32]),
}

impl<'a> KeptValues<'a> {
    /// The kept values of 16 bits if `narrow`, otherwise those of 32 bits.
    pub fn of(narrow: bool, kept_narrow: &'a [u16], kept_wide: &'a [u32]) -> KeptValues<'a>
        ensures { lent result ≡ kept_of narrow (kept_lists kept_narrow.now kept_wide.now) }
    {
        if narrow {
            return KeptValues::Narrow(kept_narrow);
        }
        KeptValues::Wide(kept_wide)
    }

    // Writes `count` values from `place` on in 16 bits, to place `at` of `out`.
    fn narrow_to(self, out: &mut [u16], at: usize, place: usize, count: usize)
        requires own { at + count ≤ length out.old }
        requires from { place + count ≤ length (lent self) }
        ensures { PutsKept true (lent self.entry) place out.old out.new at count }
    {
        match self {
            KeptValues::Narrow(values) => copy_narrow_part(out, at, values, place, count),
            KeptValues::Wide(values) => narrow_part(out, at, values, place, count),
        }
    }

    // Writes `count` values from `place` on in 32 bits, to place `at` of `out`.
    fn widen_to(self, out: &mut [u32], at: usize, place: usize, count: usize)
        requires own { at + count ≤ length out.old }
        requires from { place + count ≤ length (lent self) }
        ensures { PutsKept false (lent self.entry) place out.old out.new at count }
    {
        match self {
            KeptValues::Narrow(values) => widen_part(out, at, values, place, count),
            KeptValues::Wide(values) => copy_part(out, at, values, place, count),
        }
    }
}

// Writes `count` values of 16 bits, from `place` on, in 32 bits to place `at` of `out`.
fn widen_part(out: &mut [u32], at: usize, from: &[u16], place: usize, count: usize)
    requires own { at + count ≤ length out.old }
    requires from { place + count ≤ length from.now }
    ensures { Puts out.old out.new at count (λ i. slice_index from.now (place + i)) }
{
    widen_row(&mut out[at..at + count], &from[place..place + count]);
}

/// Writes `count` values of 32 bits, from `place` on, in 16 bits (modulo 2^16) to place `at` of `out`.
pub fn narrow_part(out: &mut [u16], at: usize, from: &[u32], place: usize, count: usize)
    requires own { at + count ≤ length out.old }
    requires from { place + count ≤ length from.now }
    ensures { Puts out.old out.new at count (λ i. slice_index from.now (place + i) % 2 ^ 16) }
{
    narrow_row(&mut out[at..at + count], &from[place..place + count]);
}

// Moves what is kept of row `r` from the place of one schedule to that of the next.
fn take_row(
    rows: &Rows,
    before: &Schedule,
    next: &Schedule,
    r: usize,
    old_narrow: &[u16],
    old_wide: &[u32],
    kept_narrow: &mut [u16],
    kept_wide: &mut [u32],
)
    requires before { Follows rows.now before.now }
    requires next { Follows rows.now next.now }
    requires row { r < row_count rows.now }
    requires old_room { HaveKeptRoom rows.now before.now.narrow
        (kept_lists old_narrow.now old_wide.now) }
    requires room { HaveKeptRoom rows.now next.now.narrow
        (kept_lists kept_narrow.old kept_wide.old) }
    ensures { (y : Sums) (u : ℕ) → Fit next.now.narrow y u
        → KeepsRow rows.now before.now.narrow y u (kept_lists old_narrow.now old_wide.now) r
        → KeepFirst rows.now next.now.narrow y u (kept_lists kept_narrow.old kept_wide.old) r
        → KeepFirst rows.now next.now.narrow y u (kept_lists kept_narrow.new kept_wide.new)
        (r + 1) }
{
    let from = before.hold(rows, r);
    let to = next.hold(rows, r);
    let values = KeptValues::of(from.narrow, old_narrow, old_wide);
    if to.narrow {
        values.narrow_to(kept_narrow, to.at, from.at, to.size);
        return;
    }
    values.widen_to(kept_wide, to.at, from.at, to.size);
}

/// Moves what is kept of all rows from the places of one schedule to those of the next. The values stay the same if
/// they fit into the next schedule's rows of 16 bits.
pub fn take_rows(
    rows: &Rows,
    before: &Schedule,
    next: &Schedule,
    old_narrow: &[u16],
    old_wide: &[u32],
    kept_narrow: &mut [u16],
    kept_wide: &mut [u32],
)
    requires before { Follows rows.now before.now }
    requires next { Follows rows.now next.now }
    requires old_room { HaveKeptRoom rows.now before.now.narrow
        (kept_lists old_narrow.now old_wide.now) }
    requires room { HaveKeptRoom rows.now next.now.narrow
        (kept_lists kept_narrow.old kept_wide.old) }
    ensures { GoesOver rows.now before.now.narrow next.now.narrow
        (kept_lists old_narrow.now old_wide.now) (kept_lists kept_narrow.new kept_wide.new) }
{
    for r in 0..rows.sources.len() {
        take_row(
            rows,
            before,
            next,
            r,
            old_narrow,
            old_wide,
            kept_narrow,
            kept_wide,
        );
    }
}
