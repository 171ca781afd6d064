// Makes rows each at a place of its own, where they stand all at once.
ghost use Rattle.std.specs.Prelude.{◌≡◌, ◌≢◌, ℕ, ◌+◌, ◌*◌, ◌^◌, ◌<◌, ◌≤◌, true, false, length, slice_index};
ghost use Rattle.fdmt_rows.specs.Rows.{wrapping_sum};
ghost use Rattle.row_model.specs.Sums.{Sums, AddUp, Fit};
ghost use Rattle.row_model.specs.Tails.{IsWithin, row_count};
ghost use Rattle.row_schedule.specs.Samples.{values_of};
ghost use Rattle.row_schedule.specs.Steps.{AreApart};
ghost use Rattle.row_schedule.specs.Follows.{Follows};
ghost use Rattle.row_schedule.specs.Making.{Puts};
ghost use Rattle.row_schedule.specs.Moving.{HaveKeptRoom, kept_lists, lent};
ghost use Rattle.row_schedule.specs.Filling.{AddsLate, AddsSources, AreGiven, AreKeptOn, AreShort, GoesOnBy, HasSources, HaveSamples, IsOfOthers, KeepsOn, StandsAtPlace, own_place, table_size};

use crate::kept::{KeptValues, narrow_part};
use crate::lead::LEAD;
use crate::making::{add_mixed_parts, add_parts, beside, copy_part, copy_samples};
use crate::reading::source;
use crate::samples::Samples;
use crate::schedule::Schedule;
use fdmt_rows::add_rows;
use row_model::{Merge, Rows, Source};

/// The place of row `row`, if each row has a place of `room` values.
pub fn own_place(room: usize, row: usize) -> usize
    requires few { row ≤ 2 ^ 32 }
    requires short { room ≤ 65536 }
    ensures { result ≡ own_place room row }
{
    LEAD + row * room
}

// Adds `count` values of this list, from `lower` on, and of `other`, from `place` on. The sums go to place `at` of this
// list.
fn add_other_parts(
    list: &mut [u32],
    at: usize,
    lower: usize,
    other: &[u32],
    place: usize,
    count: usize,
)
    requires own { at + count ≤ length list.old }
    requires lower { lower + count ≤ length list.old }
    requires other { place + count ≤ length other.now }
    requires apart { AreApart lower count at count }
    ensures { Puts list.old list.new at count
        (λ i. wrapping_sum (slice_index list.old (lower + i)) (slice_index other.now (place + i))) }
{
    let (before, rest) = list.split_at_mut(at);
    let (own, after) = rest.split_at_mut(count);
    let below = beside(before, after, at + count, lower, count);
    add_rows(own, below, &other[place..place + count]);
}

// Adds `count` values of this list, from `lower` on, and of `kept`, from `place` on. The sums go to place `at` of this
// list.
fn add_kept_parts(
    list: &mut [u32],
    at: usize,
    lower: usize,
    kept: KeptValues<'_>,
    place: usize,
    count: usize,
)
    requires own { at + count ≤ length list.old }
    requires lower { lower + count ≤ length list.old }
    requires kept { place + count ≤ length (lent kept) }
    requires apart { AreApart lower count at count }
    ensures { Puts list.old list.new at count (λ i. wrapping_sum (slice_index list.old (lower + i))
        (slice_index (lent kept.entry) (place + i))) }
{
    match kept {
        KeptValues::Narrow(values) => add_mixed_parts(list, at, lower, values, place, count),
        KeptValues::Wide(values) => add_other_parts(list, at, lower, values, place, count),
    }
}

// Adds `count` values of two rows, the upper one taken `late` spectra earlier. The first `late` values of the upper row
// are those kept from place `held` on.
fn add_late(
    list: &mut [u32],
    at: usize,
    upper: usize,
    lower: usize,
    kept: KeptValues<'_>,
    held: usize,
    late: usize,
    count: usize,
)
    requires own { at + count ≤ length list.old }
    requires upper { upper + count ≤ length list.old }
    requires lower { lower + count ≤ length list.old }
    requires kept { held + late ≤ length (lent kept) }
    requires upper_apart { AreApart upper count at count }
    requires lower_apart { AreApart lower count at count }
    ensures { AddsLate late (λ i. slice_index (lent kept.entry) (held + i)) upper lower at count
        list.old list.new }
{
    let early = late.min(count);
    add_kept_parts(list, at, lower, kept, held, early);
    add_parts(list, at + early, upper, lower + early, count - early);
}

// Makes a row that is the sum of two others, at its place.
fn fill_sum(
    rows: &Rows,
    schedule: &Schedule,
    merge: Merge,
    row: usize,
    room: usize,
    spectra: usize,
    kept_narrow: &[u16],
    kept_wide: &[u32],
    wide: &mut [u32],
)
    requires follows { Follows rows.now schedule.now }
    requires row { row < row_count rows.now }
    requires merge { IsWithin rows.now merge }
    requires upper { merge.upper ≢ row }
    requires lower { merge.lower ≢ row }
    requires short { spectra ≤ room }
    requires few { room ≤ 65536 }
    requires wide { table_size rows.now room ≤ length wide.old }
    requires kept { HaveKeptRoom rows.now schedule.now.narrow
        (kept_lists kept_narrow.now kept_wide.now) }
    ensures { AddsSources rows.now schedule.now.narrow merge row room spectra
        (kept_lists kept_narrow.now kept_wide.now) wide.old wide.new }
{
    let upper = merge.upper as usize;
    let late = merge.late as usize;
    let hold = schedule.hold(rows, upper);
    let held = hold.at + (hold.size - late);
    add_late(
        wide,
        own_place(room, row),
        own_place(room, upper),
        own_place(room, merge.lower as usize),
        KeptValues::of(hold.narrow, kept_narrow, kept_wide),
        held,
        late,
        spectra,
    );
}

/// Makes row `row` of the next `spectra` spectra at its place. The samples of channel `c` begin at `c * chunk`. The
/// rows that it is made of stand at their places, and of all rows is kept what the schedule keeps.
pub fn fill_row(
    rows: &Rows,
    schedule: &Schedule,
    row: usize,
    room: usize,
    samples: Samples<'_>,
    chunk: usize,
    spectra: usize,
    kept_narrow: &[u16],
    kept_wide: &[u32],
    wide: &mut [u32],
)
    requires follows { Follows rows.now schedule.now }
    requires samples { HaveSamples rows.now chunk spectra (values_of samples) }
    requires row { row < row_count rows.now }
    requires others { IsOfOthers rows.now row }
    requires short { AreShort spectra room chunk }
    requires wide { table_size rows.now room ≤ length wide.old }
    requires kept { HaveKeptRoom rows.now schedule.now.narrow
        (kept_lists kept_narrow.now kept_wide.now) }
    ensures stands { (x : ℕ → ℕ → ℕ) (y : Sums) (u : ℕ)
        → AreGiven rows.now schedule.now.narrow x y u chunk spectra (values_of samples.entry)
        (kept_lists kept_narrow.now kept_wide.now)
        → HasSources rows.now room y u spectra wide.old row
        → StandsAtPlace room y u spectra wide.new row }
    ensures others { (y : Sums) (u q : ℕ) → q ≢ row → StandsAtPlace room y u spectra wide.old q
        → StandsAtPlace room y u spectra wide.new q }
{
    match source(rows, row) {
        Source::Channel(channel) => {
            let from = channel as usize * chunk;
            copy_samples(wide, own_place(room, row), samples, from, spectra);
        }
        Source::Sum(merge) => fill_sum(
            rows,
            schedule,
            merge,
            row,
            room,
            spectra,
            kept_narrow,
            kept_wide,
            wide,
        ),
    }
}

// Moves `count` values into a part of a list from its end: the first values of the part leave it. Of more than `size`
// values the last `size` are taken.
fn go_on(list: &mut [u32], at: usize, size: usize, others: &[u32], from: usize, count: usize)
    requires own { at + size ≤ length list.old }
    requires others { from + count ≤ length others.now }
    ensures { GoesOnBy false at size from count others.now list.old list.new }
{
    let new = size.min(count);
    let left = size - new;
    list.copy_within(at + new..at + size, at);
    copy_part(list, at + left, others, from + (count - new), new);
}

// Moves `count` values into a part of a list of 16 bits from its end: the first values of the part leave it. Of more
// than `size` values the last `size` are taken.
fn go_on_narrow(list: &mut [u16], at: usize, size: usize, others: &[u32], from: usize, count: usize)
    requires own { at + size ≤ length list.old }
    requires others { from + count ≤ length others.now }
    ensures { GoesOnBy true at size from count others.now list.old list.new }
{
    let new = size.min(count);
    let left = size - new;
    list.copy_within(at + new..at + size, at);
    narrow_part(list, at + left, others, from + (count - new), new);
}

// Keeps the last values of row `row`, which stands at its place, for later spectra.
fn keep_row(
    rows: &Rows,
    schedule: &Schedule,
    row: usize,
    room: usize,
    spectra: usize,
    wide: &[u32],
    kept_narrow: &mut [u16],
    kept_wide: &mut [u32],
)
    requires follows { Follows rows.now schedule.now }
    requires row { row < row_count rows.now }
    requires short { spectra ≤ room }
    requires few { room ≤ 65536 }
    requires wide { table_size rows.now room ≤ length wide.now }
    requires kept { HaveKeptRoom rows.now schedule.now.narrow
        (kept_lists kept_narrow.old kept_wide.old) }
    ensures { (x : ℕ → ℕ → ℕ) (y : Sums) (u : ℕ) → AddUp rows.now.sources.items x y
        → Fit schedule.now.narrow y (u + spectra)
        → StandsAtPlace room y u spectra wide.now row
        → AreKeptOn rows.now schedule.now.narrow y u spectra row
        (kept_lists kept_narrow.old kept_wide.old)
        → AreKeptOn rows.now schedule.now.narrow y u spectra (row + 1)
        (kept_lists kept_narrow.new kept_wide.new) }
{
    let hold = schedule.hold(rows, row);
    let from = own_place(room, row);
    if hold.narrow {
        go_on_narrow(kept_narrow, hold.at, hold.size, wide, from, spectra);
        return;
    }
    go_on(kept_wide, hold.at, hold.size, wide, from, spectra);
}

/// Keeps the last values of all rows, which stand at their places, for later spectra, as the schedule keeps them.
pub fn keep_rows(
    rows: &Rows,
    schedule: &Schedule,
    room: usize,
    spectra: usize,
    wide: &[u32],
    kept_narrow: &mut [u16],
    kept_wide: &mut [u32],
)
    requires follows { Follows rows.now schedule.now }
    requires short { spectra ≤ room }
    requires few { room ≤ 65536 }
    requires wide { table_size rows.now room ≤ length wide.now }
    requires kept { HaveKeptRoom rows.now schedule.now.narrow
        (kept_lists kept_narrow.old kept_wide.old) }
    ensures { KeepsOn rows.now schedule.now.narrow room spectra wide.now
        (kept_lists kept_narrow.old kept_wide.old) (kept_lists kept_narrow.new kept_wide.new) }
{
    for row in 0..rows.sources.len() {
        keep_row(
            rows,
            schedule,
            row,
            room,
            spectra,
            wide,
            kept_narrow,
            kept_wide,
        );
    }
}
