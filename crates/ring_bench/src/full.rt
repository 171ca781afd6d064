//! Whether a block consists of one byte. 32 bytes are compared at a time.
ghost use Rattle.std.specs.Prelude.{◌≡◌, ℕ, ◌+◌, ◌*◌, ◌<◌, ◌≤◌, true, length, slice_index};
ghost use Rattle.ring_bench.specs.Full.{AreZero, IsFullTo};

use std::simd::prelude::*;

/// The number of bytes that are compared at a time.
const LANES: usize = 32;

// Lanes of which one is 0 only if its byte is `byte`.
#[inline(always)]
fn others_at(block: &[u8], byte: u8, at: usize) -> u8x32
    requires { at + LANES ≤ length block.now }
    ensures long { length result ≡ 32 }
    ensures same { (k : ℕ) → k < 32 → slice_index result k ≡ 0
        → slice_index block.now (at + k) ≡ byte }
{
    u8x32::from_slice(&block[at..])
        .simd_eq(u8x32::splat(byte))
        .select(u8x32::splat(0), u8x32::splat(255))
}

// The greater one of each two lanes.
#[inline(always)]
fn greater(a: u8x32, b: u8x32) -> u8x32
    requires first { length a ≡ 32 }
    requires second { length b ≡ 32 }
    ensures long { length result ≡ 32 }
    ensures first { AreZero result → AreZero a }
    ensures second { AreZero result → AreZero b }
{
    a.simd_max(b)
}

// Whether all lanes are 0.
fn are_zero(lanes: u8x32) -> bool
    requires { length lanes ≡ 32 }
    ensures { result ≡ true → AreZero lanes }
{
    let mut most = 0;
    for lane in lanes.to_array() {
        most = most.max(lane);
    }
    most == 0
}

// Whether each byte of the first `steps` steps is `byte`. All of them are compared, so that no step waits for the one
// before it.
fn is_full_in_steps(block: &[u8], byte: u8, steps: usize) -> bool
    requires { steps * LANES ≤ length block.now }
    ensures { result ≡ true → IsFullTo block.now byte (steps * LANES) }
{
    let mut others = u8x32::splat(0);
    for step in 0..steps {
        others = greater(others, others_at(block, byte, step * LANES));
    }
    are_zero(others)
}

/// Whether each byte of the block is `byte`.
pub fn is_full_of(block: &[u8], byte: u8) -> bool
    ensures { result ≡ true → IsFullTo block.now byte (length block.now) }
{
    let steps = block.len() / LANES;
    let mut right = is_full_in_steps(block, byte, steps);
    for k in steps * LANES..block.len() {
        right = right && block[k] == byte;
    }
    right
}
