//! Why no blocks were moved.
use ring_ends::{Memory, ShapeFault};
use std::alloc::AllocError;
use thiserror::Error;

/// Why no blocks were moved.
#[derive(Clone, Copy, PartialEq, Eq, Debug, Error)]
pub enum BenchFault {
    #[error("no ring: {0}")]
    Shape(ShapeFault),
    #[error("no ring: no memory")]
    Memory,
    #[error("a reader got a byte that was not written")]
    WrongByte,
    #[error("a reader did not come back")]
    Missing,
}

impl BenchFault {
    /// The exit status.
    pub fn status(self) -> u8 {
        match self {
            BenchFault::Shape(_) => 2,
            BenchFault::Memory => 5,
            BenchFault::WrongByte | BenchFault::Missing => 1,
        }
    }
}

impl From<AllocError> for BenchFault {
    fn from(_error: AllocError) -> BenchFault {
        BenchFault::Memory
    }
}

impl From<Memory> for BenchFault {
    fn from(_error: Memory) -> BenchFault {
        BenchFault::Memory
    }
}
