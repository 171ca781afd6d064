//! The space of a recorder: where it is in the transfers, and what each block is read into.
ghost use Rattle.std.specs.Prelude.{◌≡◌, ◌^◌, ◌≤◌, true, false, length, IfOk};
ghost use Rattle.dada_hdu.specs.Passes.{data_shape};
ghost use Rattle.dada_recorder.specs.Blocks.{PlanInRange, record_plan};
ghost use Rattle.dada_recorder.specs.Turns.{RecordAnswers, turn_of};

use crate::answers::{RecordEnd, RecordTurn};
use crate::transfers::Transfers;
use dada_hdu::{HEADER_SPACE, Hdu, HduReader};
use psr_base::{Files, Memory};
use std::alloc::Global;

/// All space that a recorder needs. It is taken before the recorder borrows files.
#[derive(Drop)]
pub struct RecorderSpace<'a> {
    pub(crate) transfers: Transfers<'a>,
    /// What each block is read into.
    bytes: Vec<u8>,
    /// The size of a data block, in bytes.
    pub(crate) block: u32,
    pub(crate) end: Option<RecordEnd>,
    ghost room: { block ≤ length bytes.items },
    ghost header_room: { 65537 ≤ length bytes.items },
}

// `size` zeros.
fn zeros(alloc: Global, size: usize) -> Result<Vec<u8>, Memory>
    ensures { IfOk result (λ space. length space.items ≡ size) }
{
    Ok(vec![in alloc; 0u8; size]?)
}

impl<'a> RecorderSpace<'a> {
    ghost use Rattle.dada_recorder.specs.Recorder.{IsSpaceFor};
    ghost use Rattle.dada_recorder.specs.Spaces.{GoesOnIn, HasTurned};

    /// Takes all space. `first_offsets` has the OBS_OFFSET of the first data byte of each transfer, and `block` is the
    /// size of a data block. A file has at most `file_size` data bytes, and all transfers together at most `max_bytes`.
    /// All sizes are in bytes.
    pub fn reserve(
        alloc: Global,
        first_offsets: &'a [u64],
        block: u32,
        file_size: u64,
        max_bytes: u64,
    ) -> Result<RecorderSpace<'a>, Memory>
        requires plan { PlanInRange (record_plan first_offsets.now file_size max_bytes) }
        requires block { (1 ≤ block) × (block ≤ 2 ^ 24) }
        ensures { IfOk result (λ space.
            IsSpaceFor space (record_plan first_offsets.now file_size max_bytes) block) }
    {
        let transfers = Transfers::open(alloc, first_offsets, file_size, max_bytes)?;
        let bytes = zeros(alloc, block.max(HEADER_SPACE) as usize)?;
        Ok(RecorderSpace {
            transfers,
            bytes,
            block,
            end: None,
        })
    }

    // The answer of a turn that cleared a block: more are to come, or this is the end.
    fn settle(&mut self, end: Option<RecordEnd>) -> RecordTurn
        ensures transfers { self.new.transfers ≡ self.old.transfers }
        ensures block { self.new.block ≡ self.old.block }
        ensures end { self.new.end ≡ end }
        ensures answer { result ≡ turn_of end }
    {
        self.end = end;
        match end {
            None => RecordTurn::Moved,
            Some(end) => RecordTurn::Ended(end),
        }
    }

    /// Reads a header block and records it.
    pub(crate) fn header_turn<F: Files>(
        &mut self,
        files: &mut F,
        hdu: &Hdu,
        pass: &mut HduReader,
    ) -> RecordTurn
        requires goes_on { GoesOnIn F.is_open hdu.now self.old files.old pass.old }
        requires header { self.old.transfers.has_header ≡ false }
        ensures turned { HasTurned F.is_open F.seen hdu.now self.old files.old pass.old
            self.new files.new pass.new }
        ensures answer { RecordAnswers false pass.old pass.new self.new.end result }
    {
        match hdu.read_header(pass, self.bytes.as_mut_slice()) {
            Err(stop) => RecordTurn::Waiting(stop),
            Ok(taken) => {
                let bytes = &self.bytes[..taken.used as usize];
                let end = self.transfers.header_block(files, bytes);
                hdu.clear_header(pass);
                self.settle(end)
            }
        }
    }

    /// Reads a data block and records it.
    pub(crate) fn data_turn<F: Files>(
        &mut self,
        files: &mut F,
        hdu: &Hdu,
        pass: &mut HduReader,
    ) -> RecordTurn
        requires goes_on { GoesOnIn F.is_open hdu.now self.old files.old pass.old }
        requires size { (data_shape hdu.now).size ≡ self.old.block }
        requires header { self.old.transfers.has_header ≡ true }
        ensures turned { HasTurned F.is_open F.seen hdu.now self.old files.old pass.old
            self.new files.new pass.new }
        ensures answer { RecordAnswers true pass.old pass.new self.new.end result }
    {
        match hdu.read(pass, self.bytes.as_mut_slice()) {
            Err(stop) => RecordTurn::Waiting(stop),
            Ok(taken) => {
                let bytes = &self.bytes[..taken.used as usize];
                let end = self.transfers.data_block(files, bytes, taken.mark);
                hdu.clear(pass);
                self.settle(end)
            }
        }
    }
}
