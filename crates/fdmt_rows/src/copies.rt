// Copies of rows, sixteen values a step. For short rows this is faster than the copy of the library.
ghost use Rattle.std.specs.Prelude.{◌≡◌, ◌+◌, ◌<◌, ◌≤◌, length, slice_index};
ghost use Rattle.fdmt_rows.specs.Writes.{Writes};

use crate::lanes::LANES;
use std::simd::prelude::*;

#[inline(always)]
fn copy_lanes(out: &mut [u32], values: &[u32], at: usize)
    requires room { at + LANES ≤ length out.old }
    requires same { length values.now ≡ length out.old }
    ensures { Writes out.old out.new at (at + LANES) (λ k. slice_index values.now k) }
{
    u32x16::from_slice(&values[at..]).copy_to_slice(&mut out[at..]);
}

#[inline(always)]
fn copy_whole_lanes(out: &mut [u32], values: &[u32]) -> usize
    requires { length values.now ≡ length out.old }
    ensures within { result ≤ length out.new }
    ensures whole { length out.new < result + LANES }
    ensures copied { Writes out.old out.new 0 result (λ k. slice_index values.now k) }
{
    let steps = out.len() / LANES;
    for step in 0..steps {
        copy_lanes(out, values, step * LANES);
    }
    steps * LANES
}

#[inline(always)]
fn copy_narrow_lanes(out: &mut [u16], values: &[u16], at: usize)
    requires room { at + LANES ≤ length out.old }
    requires same { length values.now ≡ length out.old }
    ensures { Writes out.old out.new at (at + LANES) (λ k. slice_index values.now k) }
{
    u16x16::from_slice(&values[at..]).copy_to_slice(&mut out[at..]);
}

#[inline(always)]
fn copy_whole_narrow_lanes(out: &mut [u16], values: &[u16]) -> usize
    requires { length values.now ≡ length out.old }
    ensures within { result ≤ length out.new }
    ensures whole { length out.new < result + LANES }
    ensures copied { Writes out.old out.new 0 result (λ k. slice_index values.now k) }
{
    let steps = out.len() / LANES;
    for step in 0..steps {
        copy_narrow_lanes(out, values, step * LANES);
    }
    steps * LANES
}

/// Copies a row of values of 32 bits.
pub fn copy_row(out: &mut [u32], values: &[u32])
    requires { length values.now ≡ length out.old }
    ensures { out.new ≡ values.now }
{
    for k in copy_whole_lanes(out, values)..out.len() {
        out[k] = values[k];
    }
}

/// Copies a row of values of 16 bits.
pub fn copy_narrow_row(out: &mut [u16], values: &[u16])
    requires { length values.now ≡ length out.old }
    ensures { out.new ≡ values.now }
{
    for k in copy_whole_narrow_lanes(out, values)..out.len() {
        out[k] = values[k];
    }
}
