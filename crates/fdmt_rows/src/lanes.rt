// Loops over as many values as fill whole lanes, sixteen a step. Each answers how many values these are.
ghost use Rattle.std.specs.Prelude.{◌≡◌, ◌+◌, ◌<◌, ◌≤◌, length, slice_index};
ghost use Rattle.fdmt_rows.specs.Rows.{wrapping_sum};
ghost use Rattle.fdmt_rows.specs.Writes.{Writes};

use std::simd::prelude::*;

/// How many values a step takes.
pub const LANES: usize = 16;

#[inline(always)]
fn add_lanes(out: &mut [u32], a: &[u32], b: &[u32], at: usize)
    requires room { at + LANES ≤ length out.old }
    requires first { length a.now ≡ length out.old }
    requires second { length b.now ≡ length out.old }
    ensures { Writes out.old out.new at (at + LANES)
        (λ k. wrapping_sum (slice_index a.now k) (slice_index b.now k)) }
{
    let sums = u32x16::from_slice(&a[at..]) + u32x16::from_slice(&b[at..]);
    sums.copy_to_slice(&mut out[at..]);
}

#[inline(always)]
pub fn add_whole_lanes(out: &mut [u32], a: &[u32], b: &[u32]) -> usize
    requires first { length a.now ≡ length out.old }
    requires second { length b.now ≡ length out.old }
    ensures within { result ≤ length out.new }
    ensures whole { length out.new < result + LANES }
    ensures added { Writes out.old out.new 0 result
        (λ k. wrapping_sum (slice_index a.now k) (slice_index b.now k)) }
{
    let steps = out.len() / LANES;
    for step in 0..steps {
        add_lanes(out, a, b, step * LANES);
    }
    steps * LANES
}

#[inline(always)]
fn add_to_lanes(row: &mut [u32], a: &[u32], at: usize)
    requires room { at + LANES ≤ length row.old }
    requires same { length a.now ≡ length row.old }
    ensures { Writes row.old row.new at (at + LANES)
        (λ k. wrapping_sum (slice_index row.old k) (slice_index a.now k)) }
{
    let sums = u32x16::from_slice(&row[at..]) + u32x16::from_slice(&a[at..]);
    sums.copy_to_slice(&mut row[at..]);
}

#[inline(always)]
pub fn add_to_whole_lanes(row: &mut [u32], a: &[u32]) -> usize
    requires { length a.now ≡ length row.old }
    ensures within { result ≤ length row.new }
    ensures whole { length row.new < result + LANES }
    ensures added { Writes row.old row.new 0 result
        (λ k. wrapping_sum (slice_index row.old k) (slice_index a.now k)) }
{
    let steps = row.len() / LANES;
    for step in 0..steps {
        add_to_lanes(row, a, step * LANES);
    }
    steps * LANES
}

#[inline(always)]
fn widen_lanes(out: &mut [u32], bytes: &[u8], at: usize)
    requires room { at + LANES ≤ length out.old }
    requires same { length bytes.now ≡ length out.old }
    ensures { Writes out.old out.new at (at + LANES) (λ k. slice_index bytes.now k) }
{
    u8x16::from_slice(&bytes[at..])
        .cast::<u32>()
        .copy_to_slice(&mut out[at..]);
}

#[inline(always)]
pub fn widen_whole_lanes(out: &mut [u32], bytes: &[u8]) -> usize
    requires { length bytes.now ≡ length out.old }
    ensures within { result ≤ length out.new }
    ensures whole { length out.new < result + LANES }
    ensures widened { Writes out.old out.new 0 result (λ k. slice_index bytes.now k) }
{
    let steps = out.len() / LANES;
    for step in 0..steps {
        widen_lanes(out, bytes, step * LANES);
    }
    steps * LANES
}
