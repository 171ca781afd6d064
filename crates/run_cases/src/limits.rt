// Calls that fail, and room.
use psr_base::MemSink;
use std::alloc::Global;
use std::test::Fail;

/// The numbers of the calls that fail, and how much room there is.
#[derive(Clone, Copy)]
pub struct Limits {
    /// Which beam has the inputs that fail, if there are several.
    pub beam: u64,
    pub input: u64,
    pub file: u64,
    pub out: u64,
    pub note: u64,
    pub files: u32,
    pub file_room: u64,
    pub out_room: u64,
    pub note_room: u64,
}

/// A number that no call of a small run has.
pub const NEVER: u64 = 10_000;

/// What is enough for small runs.
pub const ENOUGH: Limits = Limits {
    beam: 0,
    input: NEVER,
    file: NEVER,
    out: NEVER,
    note: NEVER,
    files: 8,
    file_room: 100_000,
    out_room: 5_000_000,
    note_room: 1000,
};

impl Limits {
    /// An output, and the notes beside it.
    pub fn sinks(&self, alloc: Global) -> Result<(MemSink, MemSink), Fail> {
        let out = MemSink::open(alloc, self.out_room, &[self.out])?;
        let notes = MemSink::open(alloc, self.note_room, &[self.note])?;
        Ok((out, notes))
    }
}
