//! The measures of a ring.
ghost use Rattle.std.specs.Prelude.{MatchResult};

use thiserror::Error;

/// The largest number of readers of a ring.
pub const MOST_READERS: usize = 8;

/// The shape of a ring, which never changes. `check` tests that it is in its ranges: 2 to 64 buffers of 1 to 2^24
/// bytes, 1 to 8 readers, 1 to 2^59 - 1 blocks.
#[derive(Clone, Copy, PartialEq, Eq, Debug)]
pub struct RingShape {
    /// The number of buffers: the ring holds this many blocks at a time.
    pub buffers: u32,
    /// The size of each buffer, in bytes.
    pub size: u32,
    /// The number of readers.
    pub readers: u32,
    /// The largest number of blocks that are sealed over the life of the ring.
    pub max_blocks: u64,
}

/// The first measure of a shape that is out of its range.
#[derive(Clone, Copy, PartialEq, Eq, Debug, Error)]
pub enum ShapeFault {
    #[error("a ring has 2 to 64 buffers")]
    Buffers,
    #[error("a block has 1 to 2^24 bytes")]
    Size,
    #[error("a ring has 1 to 8 readers")]
    Readers,
    #[error("a ring carries 1 to 2^59 - 1 blocks")]
    Blocks,
}

impl RingShape {
    ghost use Rattle.ring_words.specs.Shape.{IsRing, IsFirstFault};

    /// Checks that each measure is in its range. The error is the first one that isn't.
    pub fn check(&self) -> Result<(), ShapeFault>
        ensures { MatchResult result (λ _. IsRing self.now) (IsFirstFault self.now) }
    {
        if self.buffers < 2 || self.buffers > 64 {
            return Err(ShapeFault::Buffers);
        }
        if self.size < 1 || self.size > 1 << 24 {
            return Err(ShapeFault::Size);
        }
        if self.readers < 1 || self.readers > 8 {
            return Err(ShapeFault::Readers);
        }
        if self.max_blocks < 1 || self.max_blocks >= 1 << 59 {
            return Err(ShapeFault::Blocks);
        }
        Ok(())
    }
}
