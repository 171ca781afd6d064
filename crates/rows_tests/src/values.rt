// Values that look random.
ghost use Rattle.std.specs.Prelude.{◌≡◌, ◌^◌, ◌<◌, ◌≤◌, IfOk, vec_len};
ghost use Rattle.std.specs.List.{All};

use psr_base::Memory;
use std::alloc::Global;

/// `count` values up to `most`, another list for each seed.
pub fn values(alloc: Global, count: usize, most: u32, seed: u32) -> Result<Vec<u32>, Memory>
    requires { most < 2 ^ 31 }
    ensures long { IfOk result (λ v. vec_len v ≡ count) }
    ensures small { IfOk result (λ v. All (λ x. x ≤ most) v.items) }
{
    let mut state = seed;
    let mut values = Vec::new(alloc);
    for done in 0..count {
        state = state.wrapping_mul(1664525).wrapping_add(1013904223);
        let value = (state >> 1) % (most + 1);
        values.push(value)?;
    }
    Ok(values)
}

/// `count` bytes.
pub fn bytes(alloc: Global, count: usize) -> Result<Vec<u8>, Memory>
    ensures { IfOk result (λ v. vec_len v ≡ count) }
{
    let mut bytes = Vec::new(alloc);
    for done in 0..count {
        bytes.push(255 - (done % 256) as u8)?;
    }
    Ok(bytes)
}
