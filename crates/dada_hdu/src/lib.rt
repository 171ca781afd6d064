//! A header and data unit (PSRDADA manual): a header ring and a data ring with the same readers, used as one.
//!
//! Each transfer has a block in the header ring and its data in the data ring. No call after `Hdu::open` takes memory
//! or waits.
#![tactic(auto)]

mod ended;
mod finished;
mod hdu;
mod laws;
mod passes;
mod shapes;

pub use ended::HduEnded;
pub use finished::HduFinished;
pub use hdu::Hdu;
pub use laws::order_is_enough;
pub use passes::{HduDetached, HduReader, HduRetired, HduWriter};
pub use psr_base::Memory;
pub use ring_ends::{BlockTaker, Mark, ReadStop, RingShape, ShapeFault, Taken, WriteStop};
pub use shapes::HEADER_SPACE;
