//! What a write and a read return.
use ring_blocks::Mark;
use thiserror::Error;

/// Why a write sealed nothing.
#[derive(Clone, Copy, PartialEq, Eq, Debug, Error)]
pub enum WriteStop {
    /// Reader `reader` has cleared `cleared` blocks, but not yet the one in the buffer that the next block needs. A
    /// later write may succeed.
    #[error("reader {reader} has cleared {cleared} blocks, and the next buffer is not free")]
    Full { reader: u32, cleared: u64 },
    /// All `limit` blocks that the ring may carry were sealed.
    #[error("all {limit} blocks of the ring were sealed")]
    Spent { limit: u64 },
}

/// Why a read took nothing. A later read may succeed.
#[derive(Clone, Copy, PartialEq, Eq, Debug, Error)]
pub enum ReadStop {
    /// Block `block` was not in its buffer. `seen` is the number of the older block that was there plus 1, or 0 if
    /// there was none.
    #[error("block {block} is not there yet")]
    Empty { block: u64, seen: u64 },
    /// Another reader, `reader`, held block `block`.
    #[error("reader {reader} holds block {block}")]
    Busy { block: u64, reader: u32 },
}

/// A block that was read.
#[derive(Clone, Copy, PartialEq, Eq, Debug)]
pub struct Taken {
    /// The number of the block, from 0.
    pub block: u64,
    /// The number of bytes of the block.
    pub used: u32,
    /// The mark of the block.
    pub mark: Mark,
}
