//! The two ends of a ring: one writer gives blocks of bytes to up to eight readers, and each of them gets all blocks,
//! in order.
//!
//! A buffer is written again only after each registered reader has cleared the block in it (PSRDADA manual). No call
//! after `Ring::open` takes memory or waits.
#![tactic(auto)]

mod answers;
mod finished;
mod laws;
mod passes;
mod ring;

pub use answers::{ReadStop, Taken, WriteStop};
pub use finished::Finished;
pub use laws::order_is_enough;
pub use passes::{DetachedReader, EndedReader, ReaderPass, RetiredPass, WriterPass};
pub use ring::Ring;
pub use ring_blocks::{BlockTaker, Mark};
pub use ring_core::Memory;
pub use ring_words::{RingShape, ShapeFault};
