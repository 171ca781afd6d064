// Writes how far values lie above a base, in 16 bits, sixteen values a step. A function that also finds the maximum
// ends with the last sixteen values, some of which it may take twice, so that no loop over single values is needed.
ghost use Rattle.std.specs.Prelude.{◌≡◌, ℕ, ◌+◌, ◌-◌, ◌<◌, ◌≤◌, length, slice_index};
ghost use Rattle.fdmt_rows.specs.Capped.{capped_sum, AreRaised, LanesUpTo};
ghost use Rattle.fdmt_rows.specs.Excess.{excess, excess_of_two, AreValues};
ghost use Rattle.fdmt_rows.specs.Rows.{IsGreatest};
ghost use Rattle.fdmt_rows.specs.Writes.{Writes};

use crate::capped::{add_capped, greater, greatest_lane, sums_at};
use crate::lanes::LANES;
use crate::narrow::NARROW_VALUES;
use std::simd::prelude::*;

// The greatest value of 16 bits. It means 65535 or more.
const MOST: u32 = 65535;

// Stores lanes from place `at` on, and answers the greater of each and of the value of its lane in `most`.
#[inline(always)]
fn store_and_raise(most: u16x16, out: &mut [u16], lanes: u16x16, at: usize) -> u16x16
    requires most { length most ≡ 16 }
    requires lanes { length lanes ≡ 16 }
    requires room { at + LANES ≤ length out.old }
    ensures stored { Writes out.old out.new at (at + LANES) (λ k. slice_index lanes (k - at)) }
    ensures raised { AreRaised most result (LanesUpTo lanes) }
{
    lanes.copy_to_slice(&mut out[at..]);
    greater(most, lanes)
}

// How far each lane lies above `base`; 0 if it is below.
#[inline(always)]
fn lanes_above(lanes: u16x16, base: u16) -> u16x16
    requires { length lanes ≡ 16 }
    ensures long { length result ≡ 16 }
    ensures above { (k : ℕ) → k < 16 → slice_index result k ≡ slice_index lanes k - base }
{
    lanes.saturating_sub(u16x16::splat(base))
}

// Adds how far sixteen values of each row lie above the base of their row.
#[inline(always)]
fn excess_of_two_at(
    upper: &[u16],
    lower: &[u16],
    upper_base: u16,
    lower_base: u16,
    at: usize,
) -> u16x16
    requires upper { at + LANES ≤ length upper.now }
    requires lower { at + LANES ≤ length lower.now }
    ensures long { length result ≡ 16 }
    ensures excess { (k : ℕ) → k < 16 → slice_index result k
        ≡ excess_of_two upper_base lower_base (slice_index upper.now (at + k))
        (slice_index lower.now (at + k)) }
{
    let upper_above = lanes_above(u16x16::from_slice(&upper[at..]), upper_base);
    let lower_above = lanes_above(u16x16::from_slice(&lower[at..]), lower_base);
    add_capped(upper_above, lower_above)
}

// How far sixteen values lie above `base`, in 32 bits.
#[inline(always)]
fn wide_excess_at(values: &[u32], base: u32, at: usize) -> u32x16
    requires { at + LANES ≤ length values.now }
    ensures long { length result ≡ 16 }
    ensures excess { (k : ℕ) → k < 16 → slice_index result k
        ≡ excess base (slice_index values.now (at + k)) }
{
    let above = u32x16::from_slice(&values[at..]).saturating_sub(u32x16::splat(base));
    above.simd_min(u32x16::splat(MOST))
}

// How far sixteen values lie above `base`, in 16 bits.
#[inline(always)]
fn excess_at(values: &[u32], base: u32, at: usize) -> u16x16
    requires { at + LANES ≤ length values.now }
    ensures long { length result ≡ 16 }
    ensures excess { (k : ℕ) → k < 16 → slice_index result k
        ≡ excess base (slice_index values.now (at + k)) }
{
    let lanes = wide_excess_at(values, base, at) % u32x16::splat(NARROW_VALUES);
    lanes.cast::<u16>()
}

#[inline(always)]
fn write_excess_lanes(out: &mut [u16], values: &[u32], base: u32, at: usize)
    requires room { at + LANES ≤ length out.old }
    requires same { length values.now ≡ length out.old }
    ensures { Writes out.old out.new at (at + LANES) (λ k. excess base (slice_index values.now k)) }
{
    excess_at(values, base, at).copy_to_slice(&mut out[at..]);
}

#[inline(always)]
fn write_excess_whole_lanes(out: &mut [u16], values: &[u32], base: u32) -> usize
    requires { length values.now ≡ length out.old }
    ensures within { result ≤ length out.new }
    ensures whole { length out.new < result + LANES }
    ensures written { Writes out.old out.new 0 result
        (λ k. excess base (slice_index values.now k)) }
{
    let steps = out.len() / LANES;
    for step in 0..steps {
        write_excess_lanes(out, values, base, step * LANES);
    }
    steps * LANES
}

/// Writes how far values of 32 bits lie above `base`, in 16 bits. A value below the base counts as 0. 65535 means 65535
/// or more.
pub fn write_excess(out: &mut [u16], values: &[u32], base: u32)
    requires { length values.now ≡ length out.old }
    ensures { AreValues out.new (λ k. excess base (slice_index values.now k)) }
{
    for k in write_excess_whole_lanes(out, values, base)..out.len() {
        out[k] = values[k].saturating_sub(base).min(MOST) as u16;
    }
}

/// Adds how far the values of two rows lie above the base of their row, in 16 bits, and answers the greatest sum. A
/// value below its base counts as 0. A sum of 65535 means 65535 or more.
pub fn add_excess_greatest(
    out: &mut [u16],
    upper: &[u16],
    lower: &[u16],
    upper_base: u16,
    lower_base: u16,
) -> u16
    requires some { LANES ≤ length out.old }
    requires upper { length upper.now ≡ length out.old }
    requires lower { length lower.now ≡ length out.old }
    ensures excess { AreValues out.new
        (λ k. excess_of_two upper_base lower_base (slice_index upper.now k)
        (slice_index lower.now k)) }
    ensures greatest { IsGreatest out.new result }
{
    let mut most = u16x16::splat(0);
    for step in 0..(out.len() - 1) / LANES {
        let at = step * LANES;
        let lanes = excess_of_two_at(upper, lower, upper_base, lower_base, at);
        most = store_and_raise(most, out, lanes, at);
    }
    let last = out.len() - LANES;
    let lanes = excess_of_two_at(upper, lower, upper_base, lower_base, last);
    greatest_lane(store_and_raise(most, out, lanes, last))
}

/// Adds two rows in 16 bits, and answers the greatest sum. A sum of 65535 means 65535 or more.
pub fn add_capped_greatest(out: &mut [u16], first: &[u16], second: &[u16]) -> u16
    requires some { LANES ≤ length out.old }
    requires first { length first.now ≡ length out.old }
    requires second { length second.now ≡ length out.old }
    ensures sums { AreValues out.new
        (λ k. capped_sum (slice_index first.now k) (slice_index second.now k)) }
    ensures greatest { IsGreatest out.new result }
{
    let mut most = u16x16::splat(0);
    for step in 0..(out.len() - 1) / LANES {
        let at = step * LANES;
        most = store_and_raise(most, out, sums_at(first, second, at), at);
    }
    let last = out.len() - LANES;
    greatest_lane(store_and_raise(most, out, sums_at(first, second, last), last))
}

/// Does what `write_excess` does, and answers the greatest value written.
pub fn write_excess_greatest(out: &mut [u16], values: &[u32], base: u32) -> u16
    requires some { LANES ≤ length out.old }
    requires same { length values.now ≡ length out.old }
    ensures excess { AreValues out.new (λ k. excess base (slice_index values.now k)) }
    ensures greatest { IsGreatest out.new result }
{
    let mut most = u16x16::splat(0);
    for step in 0..(out.len() - 1) / LANES {
        let at = step * LANES;
        most = store_and_raise(most, out, excess_at(values, base, at), at);
    }
    let last = out.len() - LANES;
    greatest_lane(store_and_raise(most, out, excess_at(values, base, last), last))
}
