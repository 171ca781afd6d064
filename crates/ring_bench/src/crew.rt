//! The readers of a ring, before and after their threads.
ghost use Rattle.std.specs.Prelude.{◌≤◌, IfOk, vec_len};

use ring_ends::{EndedReader, ReaderPass};
use std::alloc::{AllocError, Global};

/// The buffers of two threads are at least this many bytes apart, so that they are on different cache lines.
const APART: usize = 256;

/// What a reader does apart from reading.
#[derive(Clone, Copy, PartialEq, Eq)]
pub enum Manner {
    /// It only reads.
    Stays,
    /// It detaches and attaches before each read.
    Returns,
    /// It retires after `BEFORE_LEAVING` blocks.
    Leaves,
}

/// A reader, the space that it reads into, what else it does, and how many blocks it reads.
#[derive(Drop)]
pub struct Job {
    pub pass: ReaderPass,
    pub into: Vec<u8>,
    pub manner: Manner,
    pub blocks: u64,
}

/// A reader whose thread has ended, and whether each byte that it read was the right one.
#[derive(Drop)]
pub struct Done {
    pub reader: EndedReader,
    pub right: bool,
}

/// Space for a block, far enough from the buffers of other threads.
pub fn open_space(alloc: Global, size: u32) -> Result<Vec<u8>, AllocError>
    ensures { IfOk result (λ space. size ≤ vec_len space) }
{
    vec![in alloc; 0; (size as usize).max(APART)]
}
