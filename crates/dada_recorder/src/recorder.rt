//! The recorder.
ghost use Rattle.std.specs.Prelude.{◌≡◌, ℕ, ◌^◌, ◌≤◌, None, IfOk};
ghost use Rattle.dada_hdu.specs.Passes.{ReadsBoth, data_shape};
ghost use Rattle.dada_recorder.specs.Blocks.{RecordPlan, PlanInRange, record_plan};
ghost use Rattle.dada_recorder.specs.Making.{IsOpenAs};
ghost use Rattle.dada_recorder.specs.Turns.{RecordAnswers, cleared_headers, cleared_blocks};

use crate::answers::RecordTurn;
use crate::space::RecorderSpace;
use dada_hdu::{Hdu, HduReader};
use psr_base::{Files, Memory};
use std::alloc::Global;

/// Records the blocks of two rings into borrowed files.
///
/// It is opened, and then takes turns until the recording has ended. No call after `open` takes memory.
#[derive(Drop)]
pub struct Recorder<'a, F> {
    files: &'a mut F,
    space: RecorderSpace<'a>,
}

impl<'a, F: Files> Recorder<'a, F> {
    ghost use Rattle.dada_recorder.specs.Recorder.{block_size, has_end, has_header, has_open_file, RecorderStands, IsSpaceFor, IsFreshFor, IsSameRecorder, TurnMakes};

    /// Takes all space, as `RecorderSpace::reserve` does, and borrows the files.
    pub fn open(
        alloc: Global,
        files: &'a mut F,
        first_offsets: &'a [u64],
        block: u32,
        file_size: u64,
        max_bytes: u64,
    ) -> Result<Recorder<'a, F>, Memory>
        requires plan { PlanInRange (record_plan first_offsets.now file_size max_bytes) }
        requires block { (1 ≤ block) × (block ≤ 2 ^ 24) }
        requires closed { ¬ F.is_open files.old }
        ensures files { IfOk result (λ r. r.files.now ≡ files.old) }
        ensures same_reference { IfOk result (λ r. r.files.ghost_name ≡ files.entry.ghost_name) }
        ensures fresh { IfOk result (λ r.
            IsFreshFor r (record_plan first_offsets.now file_size max_bytes) block) }
    {
        let space = RecorderSpace::reserve(alloc, first_offsets, block, file_size, max_bytes)?;
        Ok(Recorder::over(files, space))
    }

    /// Borrows the files for a recorder whose space was taken before.
    pub fn over(files: &'a mut F, space: RecorderSpace<'a>) -> Recorder<'a, F>
        requires closed { ¬ F.is_open files.old }
        ensures files { result.files.now ≡ files.old }
        ensures same_reference { result.files.ghost_name ≡ files.entry.ghost_name }
        ensures fresh { (plan : RecordPlan) (block : ℕ) → IsSpaceFor space.entry plan block
            → IsFreshFor result plan block }
    {
        Recorder { files, space }
    }

    /// Reads one block: a header block if a transfer is next, otherwise a data block. It is written to files, unless it
    /// is refused or exceeds the limit, and is cleared. If there is no block, the next turn tries the same read.
    pub fn turn(&mut self, hdu: &Hdu, pass: &mut HduReader) -> RecordTurn
        requires ring { ReadsBoth hdu.now pass.old }
        requires size { (data_shape hdu.now).size ≡ block_size self.old }
        requires running { has_end self.old ≡ None }
        requires is_open { IsOpenAs (has_open_file self.old) (F.is_open self.old.files.now) }
        requires stands { RecorderStands self.old (cleared_headers pass.old)
            (cleared_blocks pass.old) }
        ensures ring { ReadsBoth hdu.now pass.new }
        ensures kept { IsSameRecorder self.old self.new }
        ensures stands { RecorderStands self.new (cleared_headers pass.new)
            (cleared_blocks pass.new) }
        ensures answer { RecordAnswers (has_header self.old) pass.old pass.new
            (has_end self.new) result }
        ensures files { TurnMakes F.is_open F.seen self.old pass.old self.new pass.new }
    {
        if self.space.transfers.has_header {
            self.space.data_turn(self.files, hdu, pass)
        } else {
            self.space.header_turn(self.files, hdu, pass)
        }
    }

    /// Returns the files.
    pub fn close(self) -> &'a mut F
        ensures files { result.now ≡ self.entry.files.now }
        ensures same_reference { result.ghost_name ≡ self.entry.files.ghost_name }
    {
        let Recorder { files, space: _ } = self;
        files
    }
}
