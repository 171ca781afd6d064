//! A block that goes through a ring.
ghost use Rattle.std.specs.Prelude.{◌≡◌, ◌^◌, ◌≤◌, ◌++◌, IfSome, drop, length};

use arrayvec::ArrayVec;
use ring_ends::{EndedReader, Mark, Ring, RingShape, order_is_enough};
use std::alloc::Global;

/// Hands bytes through a ring with one reader, which copies them to the front of `into`. Answers how many bytes were
/// copied. No clause says when the answer is `None`.
pub fn hand_on(alloc: Global, bytes: &[u8], into: &mut [u8]) -> Option<u32>
    requires some { 1 ≤ length bytes.now }
    requires most { length bytes.now ≤ 2 ^ 24 }
    requires room { length bytes.now ≤ length into.old }
    ensures { IfSome result (λ used. (used ≡ length bytes.now)
        × (into.new ≡ bytes.now ++ drop (length bytes.now) into.old)) }
{
    order_is_enough();
    let shape = RingShape {
        buffers: 2,
        size: bytes.len() as u32,
        readers: 1,
        max_blocks: 1,
    };
    let Ok((ring, mut writer, mut readers)) = Ring::open(alloc, shape) else {
        return None;
    };
    let mut reader = readers.remove(0)?;
    let Ok(_block) = ring.write(&mut writer, bytes, Mark::More) else {
        return None;
    };
    let Ok(taken) = ring.read(&mut reader, into) else {
        return None;
    };
    ring.clear(&mut reader);
    let mut ended = ArrayVec::new();
    ended.push(Some(EndedReader::Here(reader)));
    ring.finish(writer, ended);
    Some(taken.used)
}
