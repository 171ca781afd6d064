//! The atomic words, slots and seats of a ring that one writer and up to eight readers share. Each call is one atomic
//! step.
#![tactic(auto)]

mod plays;
mod seats;
mod shape;
mod views;
mod words;

pub use seats::{ReaderSeat, WriterSeat};
pub use shape::{MOST_READERS, RingShape, ShapeFault};
pub use words::Words;
