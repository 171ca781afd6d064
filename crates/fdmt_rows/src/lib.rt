//! Sums, maxima and copies of whole rows of values, sixteen values at a time and the rest one by one.
#![tactic(auto)]

ghost use Rattle.std.specs.Prelude.{◌≡◌, ℕ, ◌+◌, ◌-◌, ◌<◌, ◌≤◌, ◌^◌, length, slice_index};
ghost use Rattle.fdmt_rows.specs.Rows.{AddsWrapping, AddsPlainly, IsGreatest, sum_from};

mod adding_maxima;
mod capped;
mod copies;
mod excess;
mod lanes;
mod maxima;
mod narrow;

pub use adding_maxima::add_rows_greatest;
pub use capped::{add_capped_rows, greatest_lane, greatest_narrow_sum, raise_to_sums};
pub use copies::{copy_narrow_row, copy_row};
pub use excess::{add_capped_greatest, add_excess_greatest, write_excess, write_excess_greatest};
pub use lanes::LANES;
use lanes::{add_to_whole_lanes, add_whole_lanes, widen_whole_lanes};
use maxima::{greatest_lanes, greatest_of_lanes};
pub use narrow::{
    add_mixed_rows, add_narrow_rows, add_widened_rows, narrow_row, widen_row, widen_to_narrow,
};

/// Adds two rows value by value into `out`, modulo 2^32.
pub fn add_rows(out: &mut [u32], a: &[u32], b: &[u32])
    requires first { length a.now ≡ length out.old }
    requires second { length b.now ≡ length out.old }
    ensures wrapping { AddsWrapping out.new a.now b.now }
    ensures plain { AddsPlainly out.new a.now b.now }
{
    for k in add_whole_lanes(out, a, b)..out.len() {
        out[k] = a[k].wrapping_add(b[k]);
    }
}

/// Adds `a` to `row` value by value, modulo 2^32.
pub fn add_to_row(row: &mut [u32], a: &[u32])
    requires { length a.now ≡ length row.old }
    ensures wrapping { AddsWrapping row.new row.old a.now }
    ensures plain { AddsPlainly row.new row.old a.now }
{
    for k in add_to_whole_lanes(row, a)..row.len() {
        row[k] = row[k].wrapping_add(a[k]);
    }
}

/// Running sums: if `x` has n values and `out` has m, `out[k]` is the sum of the n - m + 1 values of `x` from `x[k]`
/// on. Each sum must fit into 32 bits.
pub fn running(out: &mut [u32], x: &[u32])
    requires longer { length out.old ≤ length x.now }
    requires fits { (k : ℕ) → k < length out.old
        → sum_from x.now k (length x.now - length out.old + 1) < 2 ^ 32 }
    ensures { (k : ℕ) → k < length out.new
        → slice_index out.new k ≡ sum_from x.now k (length x.now - length out.new + 1) }
{
    let count = out.len();
    out.copy_from_slice(&x[..count]);
    for later in 1..x.len() - count + 1 {
        add_to_row(out, &x[later..later + count]);
    }
}

/// The greatest value of a row, or 0 if it is empty.
pub fn greatest(row: &[u32]) -> u32
    ensures { IsGreatest row.now result }
{
    let (lanes, done) = greatest_lanes(row);
    let mut most = greatest_of_lanes(lanes);
    for k in done..row.len() {
        most = most.max(row[k]);
    }
    most
}

/// Writes bytes as values of 32 bits.
pub fn widen(out: &mut [u32], bytes: &[u8])
    requires { length bytes.now ≡ length out.old }
    ensures { out.new ≡ bytes.now }
{
    for k in widen_whole_lanes(out, bytes)..out.len() {
        out[k] = bytes[k] as u32;
    }
}
