//! The transfers of a stream, block by block.
ghost use Rattle.std.specs.Prelude.{◌≡◌, ◌≢◌, ℕ, ◌+◌, ◌-◌, ◌*◌, ◌^◌, ◌≤◌, ◌<◌, ◌++◌, ◌∷◌, [], true, false, List, length, None, Some, Option, IfOk, OnOk, OnErr};
ghost use Rattle.psr_base.specs.Made.{NamedBytes};
ghost use Rattle.ring_blocks.specs.declared.Entry.{Entry};
ghost use Rattle.dada_hdu.specs.Answers.{entry};
ghost use Rattle.dada_recorder.specs.Blocks.{PlanInRange, record_plan, files_of_blocks};
ghost use Rattle.dada_recorder.specs.Making.{Outset, HasMade, Makes, CountsFault, IsOpenAs};
ghost use Rattle.dada_recorder.specs.Recording.{IsBrokenOff, FilesAre};

use crate::answers::RecordEnd;
use crate::transfer_files::TransferFiles;
use dada_hdu::Mark;
use psr_base::{Failed, Files, Memory};
use std::alloc::Global;
// Laws: they do nothing when they run, and the proofs use what they ensure.
use stream_model::{bytes_are_joined, ends_are_counted, entries_are_of_transfers};

/// The transfers of a stream: the one that is recorded now, and how many ended before it.
#[derive(Drop)]
pub(crate) struct Transfers<'a> {
    /// The OBS_OFFSET of each transfer's first data byte.
    pub(crate) offsets: &'a [u64],
    /// The largest number of data bytes of all transfers together.
    pub(crate) max_bytes: u64,
    /// The number of transfers that ended.
    pub(crate) ended: u32,
    /// The number of files of these transfers.
    pub(crate) finished: u32,
    /// Whether the header of the next transfer was read, so that its data are next.
    pub(crate) has_header: bool,
    /// The files of that transfer.
    pub(crate) files: TransferFiles,
    /// The number of data bytes of all blocks so far.
    pub(crate) total: u64,
}

impl<'a> Transfers<'a> {
    ghost use Rattle.dada_recorder.specs.Transfers.{plan_in, IsRunning, HasAppended, RunsOn, StandsAt, EndsClosed, CountsEnd, IsInSameTransfer};

    /// Takes the space for the headers. No block has come yet.
    pub(crate) fn open(
        alloc: Global,
        offsets: &'a [u64],
        file_size: u64,
        max_bytes: u64,
    ) -> Result<Transfers<'a>, Memory>
        requires plan { PlanInRange (record_plan offsets.now file_size max_bytes) }
        ensures plan { IfOk result (λ t.
            plan_in t ≡ record_plan offsets.now file_size max_bytes) }
        ensures closed { IfOk result (λ t. t.files.place.is_open ≡ false) }
        ensures running { IfOk result (λ t. IsRunning t [] []) }
    {
        let files = TransferFiles::open(alloc, file_size)?;
        Ok(Transfers {
            offsets,
            max_bytes,
            ended: 0,
            finished: 0,
            has_header: false,
            files,
            total: 0,
        })
    }

    /// Records a header block.
    pub(crate) fn header_block<F: Files>(
        &mut self,
        files: &mut F,
        bytes: &[u8],
    ) -> Option<RecordEnd>
        requires header { self.old.has_header ≡ false }
        requires is_open { IsOpenAs self.old.files.place.is_open (F.is_open files.old) }
        requires running { RunsOn self.old }
        ensures plan { plan_in self.new ≡ plan_in self.old }
        ensures is_open { result ≡ None
            → IsOpenAs self.new.files.place.is_open (F.is_open files.new) }
        ensures closed { EndsClosed result (F.is_open files.new) }
        ensures faults { CountsEnd result (F.seen files.old) (F.seen files.new) }
        ensures stands { (headers blocks : List Entry) (block : Entry) → block.bytes ≡ bytes.now
            → IsRunning self.old headers blocks
            → StandsAt self.new (headers ++ block ∷ []) blocks result }
        ensures made { (headers blocks : List Entry) (block : Entry) → block.bytes ≡ bytes.now
            → IsRunning self.old headers blocks → (outset : Outset)
            → HasMade outset self.old.files.place.is_open
            (files_of_blocks (plan_in self.old) headers blocks) (F.seen files.old)
            → FilesAre (plan_in self.new) outset self.new.files.place.is_open
            (headers ++ block ∷ []) blocks result (F.seen files.new) }
    {
        entries_are_of_transfers();
        let offset = self.offsets[self.ended as usize];
        match self.files.begin(offset, self.max_bytes, bytes) {
            Ok(()) => {}
            Err(fault) => return Some(RecordEnd::BadHeader(fault)),
        }
        match self.files.start(files, self.max_bytes) {
            Ok(()) => {
                self.has_header = true;
                None
            }
            Err(Failed) => Some(RecordEnd::FileFault),
        }
    }

    // Ends the transfer: finishes its last file, and counts its files.
    fn end_transfer<F: Files>(&mut self, files: &mut F) -> Result<(), Failed>
        requires is_open { IsOpenAs self.old.files.place.is_open (F.is_open files.old) }
        requires number { self.old.files.place.number < 10 ^ 6 }
        requires few { self.old.finished ≤ 8 * 10 ^ 6 }
        ensures kept { IsInSameTransfer self.old self.new }
        ensures total { self.new.total ≡ self.old.total }
        ensures finished { OnOk result
            (self.new.finished ≡ self.old.finished + (self.old.files.place.number + 1)) }
        ensures closed { OnOk result ((self.new.files.place.is_open ≡ false)
            × (F.is_open files.new → ⊥)) }
        ensures faults { CountsFault (F.seen files.old) (F.seen files.new) result }
        ensures made { (before : List NamedBytes) (file : NamedBytes)
            → Makes self.old.files.place.is_open (before ++ file ∷ []) false (before ++ file ∷ [])
            (F.seen files.old) (F.seen files.new) result }
    {
        match self.files.close(files) {
            Ok(()) => {
                self.finished += self.files.place.number as u32 + 1;
                Ok(())
            }
            Err(failed) => Err(failed),
        }
    }

    // After a block that ends a transfer: ends the transfer, and the recording if it was the last one.
    fn last_block<F: Files>(&mut self, files: &mut F) -> Option<RecordEnd>
        requires is_open { IsOpenAs self.old.files.place.is_open (F.is_open files.old) }
        requires number { self.old.files.place.number < 10 ^ 6 }
        requires few { self.old.finished ≤ 8 * 10 ^ 6 }
        requires ended { self.old.ended ≤ 8 }
        ensures plan { plan_in self.new ≡ plan_in self.old }
        ensures is_open { result ≡ None
            → IsOpenAs self.new.files.place.is_open (F.is_open files.new) }
        ensures closed { EndsClosed result (F.is_open files.new) }
        ensures faults { CountsEnd result (F.seen files.old) (F.seen files.new) }
        ensures stands { (headers blocks : List Entry) (bytes : List ℕ)
            → HasAppended self.old headers blocks (entry Mark.End bytes)
            → StandsAt self.new headers (blocks ++ entry Mark.End bytes ∷ []) result }
        ensures made { (headers blocks : List Entry) (bytes : List ℕ)
            → HasAppended self.old headers blocks (entry Mark.End bytes) → (outset : Outset)
            → HasMade outset self.old.files.place.is_open
            (files_of_blocks (plan_in self.old) headers (blocks ++ entry Mark.End bytes ∷ []))
            (F.seen files.old)
            → FilesAre (plan_in self.new) outset self.new.files.place.is_open headers
            (blocks ++ entry Mark.End bytes ∷ []) result (F.seen files.new) }
    {
        entries_are_of_transfers();
        ends_are_counted();
        match self.end_transfer(files) {
            Ok(()) => {}
            Err(Failed) => return Some(RecordEnd::FileFault),
        }
        self.has_header = false;
        self.ended += 1;
        if self.ended as usize == self.offsets.len() {
            Some(RecordEnd::Whole {
                files: self.finished,
            })
        } else {
            None
        }
    }

    // After a block that gives the stream up: finishes the last file, and ends the recording.
    fn cut_block<F: Files>(&mut self, files: &mut F) -> Option<RecordEnd>
        requires is_open { IsOpenAs self.old.files.place.is_open (F.is_open files.old) }
        requires number { self.old.files.place.number < 10 ^ 6 }
        requires few { self.old.finished ≤ 8 * 10 ^ 6 }
        ensures plan { plan_in self.new ≡ plan_in self.old }
        ensures ended { result ≢ None }
        ensures closed { EndsClosed result (F.is_open files.new) }
        ensures faults { CountsEnd result (F.seen files.old) (F.seen files.new) }
        ensures stands { (headers blocks : List Entry) (bytes : List ℕ)
            → HasAppended self.old headers blocks (entry Mark.Cut bytes)
            → StandsAt self.new headers (blocks ++ entry Mark.Cut bytes ∷ []) result }
        ensures made { (headers blocks : List Entry) (bytes : List ℕ)
            → HasAppended self.old headers blocks (entry Mark.Cut bytes) → (outset : Outset)
            → HasMade outset self.old.files.place.is_open
            (files_of_blocks (plan_in self.old) headers (blocks ++ entry Mark.Cut bytes ∷ []))
            (F.seen files.old)
            → FilesAre (plan_in self.new) outset self.new.files.place.is_open headers
            (blocks ++ entry Mark.Cut bytes ∷ []) result (F.seen files.new) }
    {
        entries_are_of_transfers();
        ends_are_counted();
        match self.end_transfer(files) {
            Ok(()) => Some(RecordEnd::Cut {
                files: self.finished,
            }),
            Err(Failed) => Some(RecordEnd::FileFault),
        }
    }

    // At a block with which there are too many bytes: finishes the last file, and ends the recording.
    fn long_block<F: Files>(&mut self, files: &mut F) -> Option<RecordEnd>
        requires header { self.old.has_header ≡ true }
        requires is_open { IsOpenAs self.old.files.place.is_open (F.is_open files.old) }
        ensures plan { plan_in self.new ≡ plan_in self.old }
        ensures ended { result ≢ None }
        ensures closed { EndsClosed result (F.is_open files.new) }
        ensures faults { CountsEnd result (F.seen files.old) (F.seen files.new) }
        ensures stands { (headers blocks : List Entry) (block : Entry)
            → self.old.max_bytes - self.old.total < length block.bytes
            → IsRunning self.old headers blocks
            → StandsAt self.new headers (blocks ++ block ∷ []) result }
        ensures made { (headers blocks : List Entry) (block : Entry)
            → IsRunning self.old headers blocks → (outset : Outset)
            → HasMade outset self.old.files.place.is_open
            (files_of_blocks (plan_in self.old) headers blocks) (F.seen files.old)
            → FilesAre (plan_in self.new) outset self.new.files.place.is_open headers
            (blocks ++ block ∷ []) result (F.seen files.new) }
    {
        entries_are_of_transfers();
        ends_are_counted();
        bytes_are_joined();
        if let Err(Failed) = self.files.close(files) {
            return Some(RecordEnd::FileFault);
        }
        Some(RecordEnd::TooLong {
            limit: self.max_bytes,
        })
    }

    // After the bytes of a data block were appended: what its mark asks for.
    fn after_data<F: Files>(&mut self, files: &mut F, mark: Mark) -> Option<RecordEnd>
        requires is_open { IsOpenAs self.old.files.place.is_open (F.is_open files.old) }
        requires number { self.old.files.place.number < 10 ^ 6 }
        requires few { self.old.finished ≤ 8 * 10 ^ 6 }
        requires ended { self.old.ended ≤ 8 }
        ensures plan { plan_in self.new ≡ plan_in self.old }
        ensures is_open { result ≡ None
            → IsOpenAs self.new.files.place.is_open (F.is_open files.new) }
        ensures closed { EndsClosed result (F.is_open files.new) }
        ensures faults { CountsEnd result (F.seen files.old) (F.seen files.new) }
        ensures stands { (headers blocks : List Entry) (bytes : List ℕ)
            → HasAppended self.old headers blocks (entry mark bytes)
            → StandsAt self.new headers (blocks ++ entry mark bytes ∷ []) result }
        ensures made { (headers blocks : List Entry) (bytes : List ℕ)
            → HasAppended self.old headers blocks (entry mark bytes) → (outset : Outset)
            → HasMade outset self.old.files.place.is_open
            (files_of_blocks (plan_in self.old) headers (blocks ++ entry mark bytes ∷ []))
            (F.seen files.old)
            → FilesAre (plan_in self.new) outset self.new.files.place.is_open headers
            (blocks ++ entry mark bytes ∷ []) result (F.seen files.new) }
    {
        entries_are_of_transfers();
        ends_are_counted();
        match mark {
            Mark::More => None,
            Mark::End => self.last_block(files),
            Mark::Cut => self.cut_block(files),
        }
    }

    // Appends the bytes of a data block.
    fn append<F: Files>(&mut self, files: &mut F, bytes: &[u8]) -> Result<(), Failed>
        requires header { self.old.has_header ≡ true }
        requires is_open { IsOpenAs self.old.files.place.is_open (F.is_open files.old) }
        requires running { RunsOn self.old }
        requires limit { self.old.total + length bytes.now ≤ self.old.max_bytes }
        ensures kept { IsInSameTransfer self.old self.new }
        ensures is_open { OnOk result
            (IsOpenAs self.new.files.place.is_open (F.is_open files.new)) }
        ensures faults { CountsFault (F.seen files.old) (F.seen files.new) result }
        ensures appended { (headers blocks : List Entry) (block : Entry) → block.bytes ≡ bytes.now
            → IsRunning self.old headers blocks
            → OnOk result (HasAppended self.new headers blocks block) }
        ensures stands { (headers blocks : List Entry) (block : Entry) → block.bytes ≡ bytes.now
            → IsRunning self.old headers blocks
            → OnErr result (IsBrokenOff (plan_in self.new) headers (blocks ++ block ∷ [])) }
        ensures made { (headers blocks : List Entry) (block : Entry) → block.bytes ≡ bytes.now
            → IsRunning self.old headers blocks
            → Makes self.old.files.place.is_open (files_of_blocks (plan_in self.old) headers blocks)
            self.new.files.place.is_open
            (files_of_blocks (plan_in self.new) headers (blocks ++ block ∷ []))
            (F.seen files.old) (F.seen files.new) result }
    {
        entries_are_of_transfers();
        ends_are_counted();
        bytes_are_joined();
        match self.files.append(files, bytes) {
            Ok(()) => {
                self.total += bytes.len() as u64;
                Ok(())
            }
            Err(failed) => Err(failed),
        }
    }

    /// Records a data block.
    pub(crate) fn data_block<F: Files>(
        &mut self,
        files: &mut F,
        bytes: &[u8],
        mark: Mark,
    ) -> Option<RecordEnd>
        requires header { self.old.has_header ≡ true }
        requires is_open { IsOpenAs self.old.files.place.is_open (F.is_open files.old) }
        requires running { RunsOn self.old }
        ensures plan { plan_in self.new ≡ plan_in self.old }
        ensures is_open { result ≡ None
            → IsOpenAs self.new.files.place.is_open (F.is_open files.new) }
        ensures closed { EndsClosed result (F.is_open files.new) }
        ensures faults { CountsEnd result (F.seen files.old) (F.seen files.new) }
        ensures stands { (headers blocks : List Entry) → IsRunning self.old headers blocks
            → StandsAt self.new headers (blocks ++ entry mark bytes.now ∷ []) result }
        ensures made { (headers blocks : List Entry) → IsRunning self.old headers blocks
            → (outset : Outset) → HasMade outset self.old.files.place.is_open
            (files_of_blocks (plan_in self.old) headers blocks) (F.seen files.old)
            → FilesAre (plan_in self.new) outset self.new.files.place.is_open headers
            (blocks ++ entry mark bytes.now ∷ []) result (F.seen files.new) }
    {
        bytes_are_joined();
        if bytes.len() as u64 > self.max_bytes - self.total {
            return self.long_block(files);
        }
        match self.append(files, bytes) {
            Ok(()) => self.after_data(files, mark),
            Err(Failed) => Some(RecordEnd::FileFault),
        }
    }
}
