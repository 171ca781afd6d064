// Adds two rows and finds the greatest sum, in one pass.
ghost use Rattle.std.specs.Prelude.{◌≡◌, ℕ, ◌+◌, ◌<◌, ◌≤◌, length, max, slice_index};
ghost use Rattle.fdmt_rows.specs.Lanes.{AreLaneGreatest};
ghost use Rattle.fdmt_rows.specs.Rows.{AddsWrapping, AddsPlainly, IsGreatest, sums_of, wrapping_sum};
ghost use Rattle.fdmt_rows.specs.Writes.{Writes};

use crate::lanes::LANES;
use crate::maxima::{greater_lanes, greatest_of_lanes};
use std::simd::prelude::*;

// Stores sixteen sums, and answers the greater of each sum and the value of its lane.
#[inline(always)]
fn add_and_compare(lanes: u32x16, out: &mut [u32], a: &[u32], b: &[u32], at: usize) -> u32x16
    requires room { at + LANES ≤ length out.old }
    requires first { length a.now ≡ length out.old }
    requires second { length b.now ≡ length out.old }
    ensures added { Writes out.old out.new at (at + LANES)
        (λ k. wrapping_sum (slice_index a.now k) (slice_index b.now k)) }
    ensures long { length result ≡ 16 }
    ensures greater { (j : ℕ) → j < 16 → slice_index result j ≡ max (slice_index lanes j)
        (wrapping_sum (slice_index a.now (at + j)) (slice_index b.now (at + j))) }
{
    let sums = u32x16::from_slice(&a[at..]) + u32x16::from_slice(&b[at..]);
    sums.copy_to_slice(&mut out[at..]);
    greater_lanes(lanes, sums)
}

// Adds as many values as fill whole lanes. Answers the greatest sum of each lane, and how many values were added.
#[inline(always)]
fn add_lanes_greatest(out: &mut [u32], a: &[u32], b: &[u32]) -> (u32x16, usize)
    requires first { length a.now ≡ length out.old }
    requires second { length b.now ≡ length out.old }
    ensures within { result.1 ≤ length out.new }
    ensures added { Writes out.old out.new 0 result.1
        (λ k. wrapping_sum (slice_index a.now k) (slice_index b.now k)) }
    ensures lanes { AreLaneGreatest (sums_of a.now b.now) result.0 result.1 }
{
    let mut lanes = u32x16::splat(0);
    let steps = out.len() / LANES;
    for step in 0..steps {
        lanes = add_and_compare(lanes, out, a, b, step * LANES);
    }
    (lanes, steps * LANES)
}

/// Adds two rows value by value into `out`, modulo 2^32. Answers the greatest value of `out`, or 0 if it is empty.
pub fn add_rows_greatest(out: &mut [u32], a: &[u32], b: &[u32]) -> u32
    requires first { length a.now ≡ length out.old }
    requires second { length b.now ≡ length out.old }
    ensures wrapping { AddsWrapping out.new a.now b.now }
    ensures plain { AddsPlainly out.new a.now b.now }
    ensures greatest { IsGreatest out.new result }
{
    let (lanes, done) = add_lanes_greatest(out, a, b);
    let mut most = greatest_of_lanes(lanes);
    for k in done..out.len() {
        let sum = a[k].wrapping_add(b[k]);
        out[k] = sum;
        most = most.max(sum);
    }
    most
}
