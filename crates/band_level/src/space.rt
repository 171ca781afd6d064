// Room that is taken at the opening, filled with zeroes.
ghost use Rattle.std.specs.Prelude.{◌≡◌, replicate, IfOk};

use psr_base::Memory;
use std::alloc::Global;

/// `count` bytes.
pub fn bytes(alloc: Global, count: usize) -> Result<Vec<u8>, Memory>
    ensures { IfOk result (λ v. v.items ≡ replicate count 0) }
{
    Ok(vec![in alloc; 0; count]?)
}

/// `count` values of 16 bits.
pub fn pairs(alloc: Global, count: usize) -> Result<Vec<u16>, Memory>
    ensures { IfOk result (λ v. v.items ≡ replicate count 0) }
{
    Ok(vec![in alloc; 0; count]?)
}

/// `count` values of 32 bits.
pub fn words(alloc: Global, count: usize) -> Result<Vec<u32>, Memory>
    ensures { IfOk result (λ v. v.items ≡ replicate count 0) }
{
    Ok(vec![in alloc; 0; count]?)
}

/// `count` values of 64 bits.
pub fn longs(alloc: Global, count: usize) -> Result<Vec<u64>, Memory>
    ensures { IfOk result (λ v. v.items ≡ replicate count 0) }
{
    Ok(vec![in alloc; 0; count]?)
}
