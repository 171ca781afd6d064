// The greatest value of each lane, and the greatest of the lanes.
ghost use Rattle.std.specs.Prelude.{◌≡◌, ℕ, ◌+◌, ◌<◌, ◌≤◌, length, max, slice_index};
ghost use Rattle.fdmt_rows.specs.Lanes.{AreLaneGreatest, IsZeroOrIn};

use crate::lanes::LANES;
use std::simd::prelude::*;

/// The greater value of each lane.
#[inline(always)]
pub fn greater_lanes(a: u32x16, b: u32x16) -> u32x16
    ensures long { length result ≡ 16 }
    ensures greater { (j : ℕ) → j < 16
        → slice_index result j ≡ max (slice_index a j) (slice_index b j) }
{
    a.simd_max(b)
}

#[inline(always)]
fn max_lanes(lanes: u32x16, row: &[u32], at: usize) -> u32x16
    requires room { at + 16 ≤ length row.now }
    ensures long { length result ≡ 16 }
    ensures greater { (j : ℕ) → j < 16
        → slice_index result j ≡ max (slice_index lanes j) (slice_index row.now (at + j)) }
{
    greater_lanes(lanes, u32x16::from_slice(&row[at..]))
}

#[inline(always)]
pub fn greatest_lanes(row: &[u32]) -> (u32x16, usize)
    ensures within { result.1 ≤ length row.now }
    ensures whole { length row.now < result.1 + 16 }
    ensures lanes { AreLaneGreatest row.now result.0 result.1 }
{
    let mut lanes = u32x16::splat(0);
    let steps = row.len() / LANES;
    for step in 0..steps {
        lanes = max_lanes(lanes, row, step * LANES);
    }
    (lanes, steps * LANES)
}

#[inline(always)]
pub fn greatest_of_lanes(lanes: u32x16) -> u32
    requires { length lanes ≡ 16 }
    ensures bound { (j : ℕ) → slice_index lanes j ≤ result }
    ensures found { IsZeroOrIn lanes result }
{
    let mut most = 0;
    for lane in lanes.to_array() {
        most = most.max(lane);
    }
    most
}
