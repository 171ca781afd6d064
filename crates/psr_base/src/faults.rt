// Errors that carry nothing.
use std::alloc::{AllocError, AllocFailed};
use thiserror::Error;

/// A call of an outside object failed. The object has counted it among its faults.
#[derive(Clone, Copy, Debug, PartialEq, Eq, Error)]
#[error("an outside object failed")]
pub struct Failed;

/// There was no memory.
#[derive(Clone, Copy, Debug, PartialEq, Eq, Error)]
#[error("no memory")]
pub struct Memory;

impl From<AllocError> for Memory {
    fn from(_e: AllocError) -> Memory {
        Memory
    }
}

impl<T: Drop> From<AllocFailed<T>> for Memory {
    fn from(_e: AllocFailed<T>) -> Memory {
        Memory
    }
}
