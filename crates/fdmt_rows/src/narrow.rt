// Rows of values of 16 bits: sums, and conversions to 32 bits, from 32 bits and from bytes. The loops over whole lanes
// take sixteen values a step, and answer how many values they took.
ghost use Rattle.std.specs.Prelude.{◌≡◌, ◌+◌, ◌%◌, ◌^◌, ◌<◌, ◌≤◌, length, slice_index};
ghost use Rattle.fdmt_rows.specs.Rows.{wrapping_sum, narrow_sum, AddsWrapping, AddsNarrowly, Narrows};
ghost use Rattle.fdmt_rows.specs.Writes.{Writes};

use crate::lanes::LANES;
use std::simd::prelude::*;

// The number of values that 16 bits can have.
pub(crate) const NARROW_VALUES: u32 = 65536;

#[inline(always)]
fn add_lanes(out: &mut [u16], a: &[u16], b: &[u16], at: usize)
    requires room { at + LANES ≤ length out.old }
    requires first { length a.now ≡ length out.old }
    requires second { length b.now ≡ length out.old }
    ensures { Writes out.old out.new at (at + LANES)
        (λ k. narrow_sum (slice_index a.now k) (slice_index b.now k)) }
{
    let sums = u16x16::from_slice(&a[at..]) + u16x16::from_slice(&b[at..]);
    sums.copy_to_slice(&mut out[at..]);
}

#[inline(always)]
fn add_whole_lanes(out: &mut [u16], a: &[u16], b: &[u16]) -> usize
    requires first { length a.now ≡ length out.old }
    requires second { length b.now ≡ length out.old }
    ensures within { result ≤ length out.new }
    ensures whole { length out.new < result + LANES }
    ensures added { Writes out.old out.new 0 result
        (λ k. narrow_sum (slice_index a.now k) (slice_index b.now k)) }
{
    let steps = out.len() / LANES;
    for step in 0..steps {
        add_lanes(out, a, b, step * LANES);
    }
    steps * LANES
}

#[inline(always)]
fn add_widened_lanes(out: &mut [u32], a: &[u16], b: &[u16], at: usize)
    requires room { at + LANES ≤ length out.old }
    requires first { length a.now ≡ length out.old }
    requires second { length b.now ≡ length out.old }
    ensures { Writes out.old out.new at (at + LANES)
        (λ k. wrapping_sum (slice_index a.now k) (slice_index b.now k)) }
{
    let wide_a = u16x16::from_slice(&a[at..]).cast::<u32>();
    let wide_b = u16x16::from_slice(&b[at..]).cast::<u32>();
    (wide_a + wide_b).copy_to_slice(&mut out[at..]);
}

#[inline(always)]
fn add_widened_whole_lanes(out: &mut [u32], a: &[u16], b: &[u16]) -> usize
    requires first { length a.now ≡ length out.old }
    requires second { length b.now ≡ length out.old }
    ensures within { result ≤ length out.new }
    ensures whole { length out.new < result + LANES }
    ensures added { Writes out.old out.new 0 result
        (λ k. wrapping_sum (slice_index a.now k) (slice_index b.now k)) }
{
    let steps = out.len() / LANES;
    for step in 0..steps {
        add_widened_lanes(out, a, b, step * LANES);
    }
    steps * LANES
}

#[inline(always)]
fn add_mixed_lanes(out: &mut [u32], wide: &[u32], narrow: &[u16], at: usize)
    requires room { at + LANES ≤ length out.old }
    requires first { length wide.now ≡ length out.old }
    requires second { length narrow.now ≡ length out.old }
    ensures { Writes out.old out.new at (at + LANES)
        (λ k. wrapping_sum (slice_index wide.now k) (slice_index narrow.now k)) }
{
    let widened = u16x16::from_slice(&narrow[at..]).cast::<u32>();
    (u32x16::from_slice(&wide[at..]) + widened).copy_to_slice(&mut out[at..]);
}

#[inline(always)]
fn add_mixed_whole_lanes(out: &mut [u32], wide: &[u32], narrow: &[u16]) -> usize
    requires first { length wide.now ≡ length out.old }
    requires second { length narrow.now ≡ length out.old }
    ensures within { result ≤ length out.new }
    ensures whole { length out.new < result + LANES }
    ensures added { Writes out.old out.new 0 result
        (λ k. wrapping_sum (slice_index wide.now k) (slice_index narrow.now k)) }
{
    let steps = out.len() / LANES;
    for step in 0..steps {
        add_mixed_lanes(out, wide, narrow, step * LANES);
    }
    steps * LANES
}

#[inline(always)]
fn narrow_lanes(out: &mut [u16], values: &[u32], at: usize)
    requires room { at + LANES ≤ length out.old }
    requires same { length values.now ≡ length out.old }
    ensures { Writes out.old out.new at (at + LANES) (λ k. slice_index values.now k % 2 ^ 16) }
{
    let lanes = u32x16::from_slice(&values[at..]) % u32x16::splat(NARROW_VALUES);
    lanes.cast::<u16>().copy_to_slice(&mut out[at..]);
}

#[inline(always)]
fn narrow_whole_lanes(out: &mut [u16], values: &[u32]) -> usize
    requires { length values.now ≡ length out.old }
    ensures within { result ≤ length out.new }
    ensures whole { length out.new < result + LANES }
    ensures narrowed { Writes out.old out.new 0 result (λ k. slice_index values.now k % 2 ^ 16) }
{
    let steps = out.len() / LANES;
    for step in 0..steps {
        narrow_lanes(out, values, step * LANES);
    }
    steps * LANES
}

#[inline(always)]
fn widen_lanes(out: &mut [u32], values: &[u16], at: usize)
    requires room { at + LANES ≤ length out.old }
    requires same { length values.now ≡ length out.old }
    ensures { Writes out.old out.new at (at + LANES) (λ k. slice_index values.now k) }
{
    u16x16::from_slice(&values[at..])
        .cast::<u32>()
        .copy_to_slice(&mut out[at..]);
}

#[inline(always)]
fn widen_whole_lanes(out: &mut [u32], values: &[u16]) -> usize
    requires { length values.now ≡ length out.old }
    ensures within { result ≤ length out.new }
    ensures whole { length out.new < result + LANES }
    ensures widened { Writes out.old out.new 0 result (λ k. slice_index values.now k) }
{
    let steps = out.len() / LANES;
    for step in 0..steps {
        widen_lanes(out, values, step * LANES);
    }
    steps * LANES
}

#[inline(always)]
fn widen_byte_lanes(out: &mut [u16], bytes: &[u8], at: usize)
    requires room { at + LANES ≤ length out.old }
    requires same { length bytes.now ≡ length out.old }
    ensures { Writes out.old out.new at (at + LANES) (λ k. slice_index bytes.now k) }
{
    u8x16::from_slice(&bytes[at..])
        .cast::<u16>()
        .copy_to_slice(&mut out[at..]);
}

#[inline(always)]
fn widen_whole_byte_lanes(out: &mut [u16], bytes: &[u8]) -> usize
    requires { length bytes.now ≡ length out.old }
    ensures within { result ≤ length out.new }
    ensures whole { length out.new < result + LANES }
    ensures widened { Writes out.old out.new 0 result (λ k. slice_index bytes.now k) }
{
    let steps = out.len() / LANES;
    for step in 0..steps {
        widen_byte_lanes(out, bytes, step * LANES);
    }
    steps * LANES
}

/// Adds two rows of 16-bit values value by value, modulo 2^16.
pub fn add_narrow_rows(out: &mut [u16], a: &[u16], b: &[u16])
    requires first { length a.now ≡ length out.old }
    requires second { length b.now ≡ length out.old }
    ensures { AddsNarrowly out.new a.now b.now }
{
    for k in add_whole_lanes(out, a, b)..out.len() {
        out[k] = a[k].wrapping_add(b[k]);
    }
}

/// Adds two rows of 16-bit values value by value, in 32 bits.
pub fn add_widened_rows(out: &mut [u32], a: &[u16], b: &[u16])
    requires first { length a.now ≡ length out.old }
    requires second { length b.now ≡ length out.old }
    ensures { AddsWrapping out.new a.now b.now }
{
    for k in add_widened_whole_lanes(out, a, b)..out.len() {
        out[k] = (a[k] as u32).wrapping_add(b[k] as u32);
    }
}

/// Adds a row of 32-bit values and a row of 16-bit values, value by value, modulo 2^32.
pub fn add_mixed_rows(out: &mut [u32], wide: &[u32], narrow: &[u16])
    requires first { length wide.now ≡ length out.old }
    requires second { length narrow.now ≡ length out.old }
    ensures { AddsWrapping out.new wide.now narrow.now }
{
    for k in add_mixed_whole_lanes(out, wide, narrow)..out.len() {
        out[k] = wide[k].wrapping_add(narrow[k] as u32);
    }
}

/// Writes values of 32 bits in 16 bits, modulo 2^16.
pub fn narrow_row(out: &mut [u16], values: &[u32])
    requires { length values.now ≡ length out.old }
    ensures { Narrows out.new values.now }
{
    for k in narrow_whole_lanes(out, values)..out.len() {
        out[k] = (values[k] % NARROW_VALUES) as u16;
    }
}

/// Writes values of 16 bits as values of 32 bits.
pub fn widen_row(out: &mut [u32], values: &[u16])
    requires { length values.now ≡ length out.old }
    ensures { out.new ≡ values.now }
{
    for k in widen_whole_lanes(out, values)..out.len() {
        out[k] = values[k] as u32;
    }
}

/// Writes bytes as values of 16 bits.
pub fn widen_to_narrow(out: &mut [u16], bytes: &[u8])
    requires { length bytes.now ≡ length out.old }
    ensures { out.new ≡ bytes.now }
{
    for k in widen_whole_byte_lanes(out, bytes)..out.len() {
        out[k] = bytes[k] as u16;
    }
}
