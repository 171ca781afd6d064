//! The blocks that a ring hands on: bytes in a space of fixed size, with a mark that says how the stream goes on.
#![tactic(auto)]

ghost use Rattle.std.specs.Prelude.{◌≡◌, ℕ, ◌<◌, ◌≤◌, ◌^◌, [], IfOk, length, take, drop, ◌++◌};

use std::alloc::{AllocError, Global};
use std::collections::LinkedList;
use std::mem;
use thiserror::Error;

/// There was no memory.
#[derive(Clone, Copy, PartialEq, Eq, Debug, Error)]
#[error("no memory")]
pub struct Memory;

impl From<AllocError> for Memory {
    fn from(_error: AllocError) -> Self {
        Memory
    }
}

/// How the stream goes on after a block.
#[derive(Clone, Copy, PartialEq, Eq, Debug)]
pub enum Mark {
    /// More blocks follow.
    More,
    /// The data end here.
    End,
    /// The stream was given up before its end.
    Cut,
}

/// A block as contracts see it. No value of this type is made.
pub struct Entry {
    pub mark: Mark,
    pub bytes: LinkedList<u8>,
}

/// Takes the bytes of a block from the place where they lie, so that the ring copies none. It may have several parts,
/// and one part takes a block.
pub trait BlockTaker {
    ghost use Rattle.ring_blocks.specs.declared.Entry.{Entry};

    // whether a part can take a block
    ghost can_take: { Self → ℕ → Entry → Type 0 };

    // what it is once a part took a block
    ghost took: { Self → ℕ → Entry → Self → Type 0 };

    /// Takes the bytes of a block, and its mark, for part `part`.
    fn take(&mut self, part: usize, bytes: &[u8], mark: Mark)
        requires { can_take self.old part (record { mark = mark; bytes = bytes.now }) }
        ensures { took self.old part (record { mark = mark; bytes = bytes.now }) self.new };
}

/// A space for the bytes of a block. It is allocated once, and filled again and again.
#[derive(Drop)]
pub struct Block {
    buffer: Vec<u8>,
    used: u32,
    mark: Mark,
    ghost fits: { used ≤ length buffer.items },
    ghost small: { length buffer.items < 2 ^ 32 },
}

impl Block {
    ghost use Rattle.ring_blocks.specs.Contents.{room_of, entry_of};

    /// An empty block with space for `size` bytes.
    pub fn open(alloc: Global, size: u32) -> Result<Block, Memory>
        ensures room { IfOk result (λ b. room_of b ≡ size) }
        ensures empty { IfOk result (λ b. entry_of b ≡ record { mark = Mark.More; bytes = [] }) }
    {
        Ok(Block {
            buffer: vec![in alloc; 0; size as usize]?,
            used: 0,
            mark: Mark::More,
        })
    }

    /// Replaces what the block holds by a copy of `bytes`, with this mark.
    pub fn fill(&mut self, bytes: &[u8], mark: Mark)
        requires { length bytes.now ≤ room_of self.old }
        ensures filled { entry_of self.new ≡ record { mark = mark; bytes = bytes.now } }
        ensures room { room_of self.new ≡ room_of self.old }
    {
        put_front(self.buffer.as_mut_slice(), bytes);
        self.used = bytes.len() as u32;
        self.mark = mark;
    }

    /// Replaces what the block holds by the first `used` bytes of `space`, with this mark. No byte is copied: the block
    /// and the caller swap their spaces.
    pub fn exchange(&mut self, space: &mut Vec<u8>, used: usize, mark: Mark)
        requires room { length space.old.items ≡ room_of self.old }
        requires within { used ≤ room_of self.old }
        ensures filled { entry_of self.new
            ≡ record { mark = mark; bytes = take used space.old.items } }
        ensures room { room_of self.new ≡ room_of self.old }
        ensures space { length space.new.items ≡ length space.old.items }
    {
        mem::swap(&mut self.buffer, space);
        self.used = used as u32;
        self.mark = mark;
    }

    /// Copies the bytes of the block to the front of `into`, and returns their number.
    pub fn copy_to(&self, into: &mut [u8]) -> u32
        requires { length (entry_of self.now).bytes ≤ length into.old }
        ensures count { result ≡ length (entry_of self.now).bytes }
        ensures copied { into.new ≡ (entry_of self.now).bytes ++ drop result into.old }
    {
        put_front(into, &self.buffer.as_slice()[..self.used as usize]);
        self.used
    }

    /// Lends the bytes of the block, and its mark, to `taker` for its part `part`, and returns the number of bytes.
    pub fn lend<T: BlockTaker>(&self, taker: &mut T, part: usize) -> u32
        requires { T.can_take taker.old part (entry_of self.now) }
        ensures count { result ≡ length (entry_of self.now).bytes }
        ensures took { T.took taker.old part (entry_of self.now) taker.new }
    {
        let bytes = &self.buffer.as_slice()[..self.used as usize];
        taker.take(part, bytes, self.mark);
        self.used
    }

    /// The number of bytes that the block holds.
    pub fn used(&self) -> u32
        ensures { result ≡ length (entry_of self.now).bytes }
    {
        self.used
    }

    /// The mark that the block was filled with.
    pub fn mark(&self) -> Mark
        ensures { result ≡ (entry_of self.now).mark }
    {
        self.mark
    }
}

// Copies `bytes` to the front of `into`.
fn put_front(into: &mut [u8], bytes: &[u8])
    requires { length bytes.now ≤ length into.old }
    ensures { into.new ≡ bytes.now ++ drop (length bytes.now) into.old }
{
    into[..bytes.len()].copy_from_slice(bytes);
}
