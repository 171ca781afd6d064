// Sums of rows of 16 bits that stop at 65535, sixteen values a step. 65535 means 65535 or more.
ghost use Rattle.std.specs.Prelude.{◌≡◌, ℕ, ◌+◌, ◌*◌, ◌<◌, ◌≤◌, length, slice_index};
ghost use Rattle.fdmt_rows.specs.Capped.{capped_sum, AreRaised, LanesUpTo, SumsUpTo, FirstSumsUpTo};
ghost use Rattle.fdmt_rows.specs.Writes.{Writes};

use crate::lanes::LANES;
use std::simd::prelude::*;

/// Adds lane by lane. 65535 means 65535 or more.
#[inline(always)]
pub fn add_capped(a: u16x16, b: u16x16) -> u16x16
    requires first { length a ≡ 16 }
    requires second { length b ≡ 16 }
    ensures long { length result ≡ 16 }
    ensures sums { (k : ℕ) → k < 16
        → slice_index result k ≡ capped_sum (slice_index a k) (slice_index b k) }
{
    a.saturating_add(b)
}

/// Adds sixteen values of each row, from place `at` on.
#[inline(always)]
pub fn sums_at(first: &[u16], second: &[u16], at: usize) -> u16x16
    requires first { at + LANES ≤ length first.now }
    requires second { at + LANES ≤ length second.now }
    ensures long { length result ≡ 16 }
    ensures sums { (k : ℕ) → k < 16 → slice_index result k
        ≡ capped_sum (slice_index first.now (at + k)) (slice_index second.now (at + k)) }
{
    add_capped(
        u16x16::from_slice(&first[at..]),
        u16x16::from_slice(&second[at..]),
    )
}

// Writes sixteen sums from place `at` on.
#[inline(always)]
fn add_capped_lanes(out: &mut [u16], first: &[u16], second: &[u16], at: usize)
    requires room { at + LANES ≤ length out.old }
    requires first { at + LANES ≤ length first.now }
    requires second { at + LANES ≤ length second.now }
    ensures { Writes out.old out.new at (at + LANES)
        (λ k. capped_sum (slice_index first.now k) (slice_index second.now k)) }
{
    sums_at(first, second, at).copy_to_slice(&mut out[at..]);
}

/// Adds the first `16 * steps` values of two rows in 16 bits. A sum of 65535 means 65535 or more.
pub fn add_capped_rows(out: &mut [u16], first: &[u16], second: &[u16], steps: usize)
    requires room { steps * LANES ≤ length out.old }
    requires first { steps * LANES ≤ length first.now }
    requires second { steps * LANES ≤ length second.now }
    ensures { Writes out.old out.new 0 (steps * LANES)
        (λ k. capped_sum (slice_index first.now k) (slice_index second.now k)) }
{
    for step in 0..steps {
        add_capped_lanes(out, first, second, step * LANES);
    }
}

/// The greater value of each lane.
#[inline(always)]
pub fn greater(a: u16x16, b: u16x16) -> u16x16
    requires first { length a ≡ 16 }
    requires second { length b ≡ 16 }
    ensures { AreRaised a result (LanesUpTo b) }
{
    a.simd_max(b)
}

/// Raises each lane of `most` to the greatest of its sums. The sums are those of the first `16 * steps` values of
/// `first` and the values of `second` from place `turn` on. A sum of 65535 means 65535 or more.
#[inline(always)]
pub fn raise_to_sums(
    most: u16x16,
    first: &[u16],
    second: &[u16],
    turn: usize,
    steps: usize,
) -> u16x16
    requires long { length most ≡ 16 }
    requires first { steps * LANES ≤ length first.now }
    requires second { turn + steps * LANES ≤ length second.now }
    ensures { AreRaised most result (SumsUpTo first.now second.now turn (steps * LANES)) }
{
    let turned = &second[turn..];
    let mut raised = most;
    for step in 0..steps {
        raised = greater(raised, sums_at(first, turned, step * LANES));
    }
    raised
}

/// The greatest of the lanes.
pub fn greatest_lane(lanes: u16x16) -> u16
    requires { length lanes ≡ 16 }
    ensures enough { LanesUpTo lanes result }
    ensures least { (bound : ℕ) → LanesUpTo lanes bound → result ≤ bound }
{
    let mut most = 0;
    for lane in lanes.to_array() {
        most = most.max(lane);
    }
    most
}

// The greatest sum of as many values as fill whole lanes, and how many these are.
#[inline(always)]
fn greatest_whole_sum(a: &[u16], b: &[u16]) -> (u16, usize)
    requires { length b.now ≡ length a.now }
    ensures within { result.1 ≤ length a.now }
    ensures enough { FirstSumsUpTo a.now b.now result.1 result.0 }
    ensures least { (bound : ℕ) → FirstSumsUpTo a.now b.now result.1 bound → result.0 ≤ bound }
{
    let steps = a.len() / LANES;
    let lanes = raise_to_sums(u16x16::splat(0), a, b, 0, steps);
    (greatest_lane(lanes), steps * LANES)
}

/// The greatest sum of two values at the same place, or 0 if the rows are empty. 65535 means 65535 or more.
pub fn greatest_narrow_sum(a: &[u16], b: &[u16]) -> u16
    requires { length b.now ≡ length a.now }
    ensures enough { FirstSumsUpTo a.now b.now (length a.now) result }
    ensures least { (bound : ℕ) → FirstSumsUpTo a.now b.now (length a.now) bound
        → result ≤ bound }
{
    let (mut most, done) = greatest_whole_sum(a, b);
    for k in done..a.len() {
        most = most.max(a[k].saturating_add(b[k]));
    }
    most
}
