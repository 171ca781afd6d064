// Makes the row of a step: first what is kept of it, then its values of the next spectra. The last values are kept.
ghost use Rattle.std.specs.Prelude.{◌≡◌, ◌+◌, ◌-◌, ◌%◌, ◌^◌, ◌<◌, ◌≤◌, true, false, length, slice_index, take, drop};
ghost use Rattle.fdmt_rows.specs.Rows.{narrow_sum, wrapping_sum};
ghost use Rattle.row_schedule.specs.Samples.{values_of};
ghost use Rattle.row_schedule.specs.Steps.{AreApart};
ghost use Rattle.row_schedule.specs.Making.{Puts, Makes, OwnFits, IsBeside, in_bits};

use crate::samples::Samples;
use crate::step::Step;
use fdmt_rows::{
    add_mixed_rows, add_narrow_rows, add_rows, add_widened_rows, copy_narrow_row, copy_row,
};

// The `count` values from `place` on of a list, of which `before` and `after` are known: what lies before a part, and
// what begins at `past`, where that part ends. The values lie outside that part.
#[inline(always)]
pub(crate) fn beside<'a, T>(
    before: &'a [T],
    after: &'a [T],
    past: usize,
    place: usize,
    count: usize,
) -> &'a [T]
    requires past { length before.now ≤ past }
    requires whole { past + length after.now < 2 ^ 64 }
    requires within { place + count ≤ past + length after.now }
    requires apart { AreApart place count (length before.now) (past - length before.now) }
    ensures before { place + count ≤ length before.now
        → result.now ≡ take count (drop place before.now) }
    ensures after { length before.now < place + count
        → result.now ≡ take count (drop (place - past) after.now) }
{
    if place + count <= before.len() {
        return &before[place..place + count];
    }
    let at = place - past;
    &after[at..at + count]
}

// Copies `count` values, from `place` of `from` to `at` of `out`.
#[inline(always)]
pub(crate) fn copy_part(out: &mut [u32], at: usize, from: &[u32], place: usize, count: usize)
    requires own { at + count ≤ length out.old }
    requires from { place + count ≤ length from.now }
    ensures { Puts out.old out.new at count (λ i. slice_index from.now (place + i)) }
{
    copy_row(&mut out[at..at + count], &from[place..place + count]);
}

// Copies `count` values of 16 bits, from `place` of `from` to `at` of `out`.
#[inline(always)]
pub(crate) fn copy_narrow_part(out: &mut [u16], at: usize, from: &[u16], place: usize, count: usize)
    requires own { at + count ≤ length out.old }
    requires from { place + count ≤ length from.now }
    ensures { Puts out.old out.new at count (λ i. slice_index from.now (place + i)) }
{
    copy_narrow_row(&mut out[at..at + count], &from[place..place + count]);
}

// Copies `count` samples, from `place` on, to `at` of `out`, modulo 2^16.
#[inline(always)]
fn copy_narrow_samples(out: &mut [u16], at: usize, samples: Samples<'_>, place: usize, count: usize)
    requires own { at + count ≤ length out.old }
    requires from { place + count ≤ length (values_of samples) }
    ensures { Puts out.old out.new at count
        (λ i. slice_index (values_of samples.entry) (place + i) % 2 ^ 16) }
{
    samples
        .part(place, count)
        .narrow_to(&mut out[at..at + count]);
}

// Copies `count` samples, from `place` on, to `at` of `out`.
#[inline(always)]
pub(crate) fn copy_samples(
    out: &mut [u32],
    at: usize,
    samples: Samples<'_>,
    place: usize,
    count: usize,
)
    requires own { at + count ≤ length out.old }
    requires from { place + count ≤ length (values_of samples) }
    ensures { Puts out.old out.new at count
        (λ i. slice_index (values_of samples.entry) (place + i) % 2 ^ 32) }
{
    samples.part(place, count).copy_to(&mut out[at..at + count]);
}

// Adds the `count` values from `upper` on and those from `lower` on. The sums go to place `at` of the same list.
#[inline(always)]
pub(crate) fn add_parts(list: &mut [u32], at: usize, upper: usize, lower: usize, count: usize)
    requires own { at + count ≤ length list.old }
    requires upper { upper + count ≤ length list.old }
    requires lower { lower + count ≤ length list.old }
    requires upper_apart { AreApart upper count at count }
    requires lower_apart { AreApart lower count at count }
    ensures { Puts list.old list.new at count
        (λ i. wrapping_sum (slice_index list.old (upper + i)) (slice_index list.old (lower + i))) }
{
    let (before, rest) = list.split_at_mut(at);
    let (own, after) = rest.split_at_mut(count);
    let past = at + count;
    let above = beside(before, after, past, upper, count);
    let below = beside(before, after, past, lower, count);
    add_rows(own, above, below);
}

// Adds values of 16 bits as `add_parts` does, modulo 2^16.
#[inline(always)]
fn add_narrow_parts(list: &mut [u16], at: usize, upper: usize, lower: usize, count: usize)
    requires own { at + count ≤ length list.old }
    requires upper { upper + count ≤ length list.old }
    requires lower { lower + count ≤ length list.old }
    requires upper_apart { AreApart upper count at count }
    requires lower_apart { AreApart lower count at count }
    ensures { Puts list.old list.new at count
        (λ i. narrow_sum (slice_index list.old (upper + i)) (slice_index list.old (lower + i))) }
{
    let (before, rest) = list.split_at_mut(at);
    let (own, after) = rest.split_at_mut(count);
    let past = at + count;
    let above = beside(before, after, past, upper, count);
    let below = beside(before, after, past, lower, count);
    add_narrow_rows(own, above, below);
}

// Adds the `count` values from `wide` on and the 16-bit values from `place` on. The sums go to place `at`.
#[inline(always)]
pub(crate) fn add_mixed_parts(
    list: &mut [u32],
    at: usize,
    wide: usize,
    narrow: &[u16],
    place: usize,
    count: usize,
)
    requires own { at + count ≤ length list.old }
    requires wide { wide + count ≤ length list.old }
    requires narrow { place + count ≤ length narrow.now }
    requires apart { AreApart wide count at count }
    ensures { Puts list.old list.new at count
        (λ i. wrapping_sum (slice_index list.old (wide + i)) (slice_index narrow.now (place + i))) }
{
    let (before, rest) = list.split_at_mut(at);
    let (own, after) = rest.split_at_mut(count);
    let above = beside(before, after, at + count, wide, count);
    add_mixed_rows(own, above, &narrow[place..place + count]);
}

// Adds the `count` 16-bit values from `upper` on and those from `lower` on. The sums go to place `at`, in 32 bits.
#[inline(always)]
fn add_widened_parts(
    list: &mut [u32],
    at: usize,
    narrow: &[u16],
    upper: usize,
    lower: usize,
    count: usize,
)
    requires own { at + count ≤ length list.old }
    requires upper { upper + count ≤ length narrow.now }
    requires lower { lower + count ≤ length narrow.now }
    ensures { Puts list.old list.new at count
        (λ i. wrapping_sum (slice_index narrow.now (upper + i))
        (slice_index narrow.now (lower + i))) }
{
    add_widened_rows(
        &mut list[at..at + count],
        &narrow[upper..upper + count],
        &narrow[lower..lower + count],
    );
}

// Writes what is kept of the row to the front of its slot.
#[inline(always)]
fn begin(step: Step, list: &mut [u32], kept: &[u32])
    requires own { step.out + step.tail ≤ length list.old }
    requires kept { step.hold + step.tail ≤ length kept.now }
    ensures { Puts list.old list.new step.out step.tail
        (λ i. slice_index kept.now (step.hold + i)) }
{
    copy_part(list, step.out, kept, step.hold, step.tail as usize);
}

// Writes what is kept of a row of 16 bits to the front of its slot.
#[inline(always)]
fn begin_narrow(step: Step, list: &mut [u16], kept: &[u16])
    requires own { step.out + step.tail ≤ length list.old }
    requires kept { step.hold + step.tail ≤ length kept.now }
    ensures { Puts list.old list.new step.out step.tail
        (λ i. slice_index kept.now (step.hold + i)) }
{
    copy_narrow_part(list, step.out, kept, step.hold, step.tail as usize);
}

// Keeps the last values of the row.
#[inline(always)]
fn end(step: Step, list: &[u32], kept: &mut [u32], spectra: usize)
    requires own { step.out + (step.tail + spectra) ≤ length list.now }
    requires kept { step.hold + step.tail ≤ length kept.old }
    ensures { Puts kept.old kept.new step.hold step.tail
        (λ i. slice_index list.now (step.out + spectra + i)) }
{
    let from = step.out + spectra;
    copy_part(kept, step.hold, list, from, step.tail as usize);
}

// Keeps the last values of a row of 16 bits.
#[inline(always)]
fn end_narrow(step: Step, list: &[u16], kept: &mut [u16], spectra: usize)
    requires own { step.out + (step.tail + spectra) ≤ length list.now }
    requires kept { step.hold + step.tail ≤ length kept.old }
    ensures { Puts kept.old kept.new step.hold step.tail
        (λ i. slice_index list.now (step.out + spectra + i)) }
{
    let from = step.out + spectra;
    copy_narrow_part(kept, step.hold, list, from, step.tail as usize);
}

/// Makes a row of samples, in 16 bits.
#[inline(always)]
pub fn copy_narrow(
    step: Step,
    list: &mut [u16],
    kept: &mut [u16],
    samples: Samples<'_>,
    spectra: usize,
)
    requires own { OwnFits step spectra (length list.old) (length kept.old) }
    requires samples { step.upper + spectra ≤ length (values_of samples) }
    ensures { Makes step spectra list.old list.new kept.old kept.new
        (λ i. in_bits true (slice_index (values_of samples.entry) (step.upper + i))) }
{
    begin_narrow(step, list, kept);
    let at = step.out + step.tail as usize;
    copy_narrow_samples(list, at, samples, step.upper, spectra);
    end_narrow(step, list, kept, spectra);
}

/// Makes a row of samples, in 32 bits.
#[inline(always)]
pub fn copy_wide(
    step: Step,
    list: &mut [u32],
    kept: &mut [u32],
    samples: Samples<'_>,
    spectra: usize,
)
    requires own { OwnFits step spectra (length list.old) (length kept.old) }
    requires samples { step.upper + spectra ≤ length (values_of samples) }
    ensures { Makes step spectra list.old list.new kept.old kept.new
        (λ i. in_bits false (slice_index (values_of samples.entry) (step.upper + i))) }
{
    begin(step, list, kept);
    let at = step.out + step.tail as usize;
    copy_samples(list, at, samples, step.upper, spectra);
    end(step, list, kept, spectra);
}

/// Makes the sum of two rows of 16 bits, in 16 bits.
#[inline(always)]
pub fn add_narrow(step: Step, list: &mut [u16], kept: &mut [u16], spectra: usize)
    requires own { OwnFits step spectra (length list.old) (length kept.old) }
    requires upper { IsBeside step spectra step.upper (length list.old) }
    requires lower { IsBeside step spectra step.lower (length list.old) }
    ensures { Makes step spectra list.old list.new kept.old kept.new
        (λ i. in_bits true (slice_index list.old (step.upper + i)
        + slice_index list.old (step.lower + i))) }
{
    begin_narrow(step, list, kept);
    let at = step.out + step.tail as usize;
    add_narrow_parts(list, at, step.upper, step.lower, spectra);
    end_narrow(step, list, kept, spectra);
}

/// Makes the sum of two rows of 16 bits, in 32 bits.
#[inline(always)]
pub fn add_widened(step: Step, list: &mut [u32], kept: &mut [u32], narrow: &[u16], spectra: usize)
    requires own { OwnFits step spectra (length list.old) (length kept.old) }
    requires upper { step.upper + spectra ≤ length narrow.now }
    requires lower { step.lower + spectra ≤ length narrow.now }
    ensures { Makes step spectra list.old list.new kept.old kept.new
        (λ i. in_bits false (slice_index narrow.now (step.upper + i)
        + slice_index narrow.now (step.lower + i))) }
{
    begin(step, list, kept);
    let at = step.out + step.tail as usize;
    add_widened_parts(list, at, narrow, step.upper, step.lower, spectra);
    end(step, list, kept, spectra);
}

/// Makes the sum of an upper row of 32 bits and a lower row of 16 bits.
#[inline(always)]
pub fn add_wide_narrow(
    step: Step,
    list: &mut [u32],
    kept: &mut [u32],
    narrow: &[u16],
    spectra: usize,
)
    requires own { OwnFits step spectra (length list.old) (length kept.old) }
    requires upper { IsBeside step spectra step.upper (length list.old) }
    requires lower { step.lower + spectra ≤ length narrow.now }
    ensures { Makes step spectra list.old list.new kept.old kept.new
        (λ i. in_bits false (slice_index list.old (step.upper + i)
        + slice_index narrow.now (step.lower + i))) }
{
    begin(step, list, kept);
    let at = step.out + step.tail as usize;
    add_mixed_parts(list, at, step.upper, narrow, step.lower, spectra);
    end(step, list, kept, spectra);
}

/// Makes the sum of an upper row of 16 bits and a lower row of 32 bits.
#[inline(always)]
pub fn add_narrow_wide(
    step: Step,
    list: &mut [u32],
    kept: &mut [u32],
    narrow: &[u16],
    spectra: usize,
)
    requires own { OwnFits step spectra (length list.old) (length kept.old) }
    requires upper { step.upper + spectra ≤ length narrow.now }
    requires lower { IsBeside step spectra step.lower (length list.old) }
    ensures { Makes step spectra list.old list.new kept.old kept.new
        (λ i. in_bits false (slice_index narrow.now (step.upper + i)
        + slice_index list.old (step.lower + i))) }
{
    begin(step, list, kept);
    let at = step.out + step.tail as usize;
    add_mixed_parts(list, at, step.lower, narrow, step.upper, spectra);
    end(step, list, kept, spectra);
}

/// Makes the sum of two rows of 32 bits.
#[inline(always)]
pub fn add_wide(step: Step, list: &mut [u32], kept: &mut [u32], spectra: usize)
    requires own { OwnFits step spectra (length list.old) (length kept.old) }
    requires upper { IsBeside step spectra step.upper (length list.old) }
    requires lower { IsBeside step spectra step.lower (length list.old) }
    ensures { Makes step spectra list.old list.new kept.old kept.new
        (λ i. in_bits false (slice_index list.old (step.upper + i)
        + slice_index list.old (step.lower + i))) }
{
    begin(step, list, kept);
    let at = step.out + step.tail as usize;
    add_parts(list, at, step.upper, step.lower, spectra);
    end(step, list, kept, spectra);
}
