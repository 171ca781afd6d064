//! The files of one transfer: each has a header of its own, and a piece of the data.
ghost use Rattle.std.specs.Prelude.{◌≡◌, ℕ, Ok, IfErr, ◌+◌, ◌^◌, ◌<◌, ◌≤◌, true, false, List, [], ◌∷◌, ◌++◌, length, None, IfOk, OnOk};
ghost use Rattle.psr_base.specs.Made.{NamedBytes};
ghost use Rattle.dada_model.specs.Fields.{header_of};
ghost use Rattle.stream_model.specs.Recorded.{recorded_files, file_header, start_time, time_refusal};
ghost use Rattle.stream_model.specs.RecordedLaws.{HasNumbers, HeaderHasRoom};
ghost use Rattle.dada_recorder.specs.Making.{Makes, CountsFault, IsOpenAs};
ghost use Rattle.dada_recorder.specs.Blocks.{RefusesBytes};

use crate::answers::RecordFault;
use crate::changes::{change, fits};
use crate::naming::file_name;
use dada_header::Header;
use psr_base::{Failed, Files, Memory, append_all};
use std::alloc::Global;
// A law: it does nothing when it runs, and the proofs use what it ensures.
use stream_model::each_header_has_room;

/// How far the data of a transfer were written.
#[derive(Clone, Copy)]
pub(crate) struct FilePlace {
    /// The number of the file that was begun last.
    pub(crate) number: u64,
    /// The number of data bytes in that file.
    pub(crate) used: u64,
    /// Whether that file is open.
    pub(crate) is_open: bool,
}

/// The files of a transfer.
#[derive(Drop)]
pub(crate) struct TransferFiles {
    /// The header of the transfer.
    pub(crate) header: Header,
    /// The header of the file that was begun last.
    pub(crate) changed: Header,
    /// The OBS_OFFSET of the transfer's first data byte.
    pub(crate) offset: u64,
    /// The largest number of data bytes of a file.
    pub(crate) file_size: u64,
    pub(crate) place: FilePlace,
}

impl TransferFiles {
    ghost use Rattle.dada_recorder.specs.TransferFiles.{recording_in, CanRecord, header_file, first_files, longer_file, after_put, data_bytes, IsPlaced, IsWithinLimit, next_place, CameOf, TakesFront};

    /// Takes the space for the headers. No transfer has begun yet.
    pub(crate) fn open(alloc: Global, file_size: u64) -> Result<TransferFiles, Memory>
        ensures file_size { IfOk result (λ t. t.file_size ≡ file_size) }
        ensures closed { IfOk result (λ t. t.place.is_open ≡ false) }
    {
        Ok(TransferFiles {
            header: Header::blank(alloc)?,
            changed: Header::blank(alloc)?,
            offset: 0,
            file_size,
            place: FilePlace {
                number: 0,
                used: 0,
                is_open: false,
            },
        })
    }

    /// Begins a transfer with the header in `bytes`, unless it is refused. `offset` is the OBS_OFFSET of its first data
    /// byte.
    pub(crate) fn begin(
        &mut self,
        offset: u64,
        max_bytes: u64,
        bytes: &[u8],
    ) -> Result<(), RecordFault>
        requires offset { offset ≤ 10 ^ 15 }
        requires file_size { (1 ≤ self.old.file_size) × (self.old.file_size ≤ 2 ^ 40) }
        requires limit { max_bytes ≤ 2 ^ 48 }
        ensures file_size { self.new.file_size ≡ self.old.file_size }
        ensures place { self.new.place ≡ self.old.place }
        ensures offset { OnOk result (self.new.offset ≡ offset) }
        ensures read { OnOk result (header_of bytes.now ≡ Ok self.new.header) }
        ensures accepted { OnOk result (CanRecord (recording_in self.new) max_bytes) }
        ensures refused { IfErr result
            (RefusesBytes offset self.old.file_size max_bytes bytes.now) }
    {
        if let Err(fault) = self.header.read_again(bytes) {
            return Err(RecordFault::NotHeader(fault));
        }
        self.offset = offset;
        self.changed.copy_from(&self.header);
        fits(&mut self.changed, offset, self.file_size, max_bytes)
    }

    // Makes the header of file `number`.
    fn change_header(&mut self, number: u64)
        requires numbers { HasNumbers (recording_in self.old) number }
        requires room { HeaderHasRoom (recording_in self.old) number }
        ensures kept { recording_in self.new ≡ recording_in self.old }
        ensures place { self.new.place ≡ self.old.place }
        ensures changed { self.new.changed ≡ file_header (recording_in self.old) number }
    {
        self.changed.copy_from(&self.header);
        match change(&mut self.changed, self.offset, self.file_size, number) {
            Ok(()) => {}
            Err(_) => unreachable!(),
        }
    }

    // Creates file `number` and appends its header.
    fn start_file<F: Files>(&mut self, files: &mut F, number: u64) -> Result<(), Failed>
        requires closed { ¬ F.is_open files.old }
        requires numbers { HasNumbers (recording_in self.old) number }
        requires room { HeaderHasRoom (recording_in self.old) number }
        requires time { time_refusal (start_time self.old.header) ≡ None }
        ensures kept { recording_in self.new ≡ recording_in self.old }
        ensures place { OnOk result
            (self.new.place ≡ record { number = number; used = 0; is_open = true }) }
        ensures is_open { OnOk result (F.is_open files.new) }
        ensures faults { CountsFault (F.seen files.old) (F.seen files.new) result }
        ensures made { (before : List NamedBytes) → Makes false before
            true (before ++ header_file (recording_in self.old) number ∷ [])
            (F.seen files.old) (F.seen files.new) result }
    {
        self.change_header(number);
        let name = file_name(&self.header, self.offset, self.file_size, number);
        match files.create(name.as_str()) {
            Ok(()) => {}
            Err(failed) => return Err(failed),
        }
        self.place = FilePlace {
            number,
            used: 0,
            is_open: true,
        };
        append_all(files, self.changed.bytes())
    }

    /// Creates the first file of the transfer and appends its header.
    pub(crate) fn start<F: Files>(&mut self, files: &mut F, max_bytes: u64) -> Result<(), Failed>
        requires closed { ¬ F.is_open files.old }
        requires accepted { CanRecord (recording_in self.old) max_bytes }
        ensures kept { recording_in self.new ≡ recording_in self.old }
        ensures placed { OnOk result (IsPlaced self.new.place self.new.file_size) }
        ensures count { OnOk result (data_bytes self.new.place self.new.file_size ≡ 0) }
        ensures is_open { OnOk result (F.is_open files.new × (self.new.place.is_open ≡ true)) }
        ensures faults { CountsFault (F.seen files.old) (F.seen files.new) result }
        ensures made { (before : List NamedBytes) → Makes false before
            true (before ++ recorded_files (recording_in self.old) [])
            (F.seen files.old) (F.seen files.new) result }
    {
        each_header_has_room();
        self.start_file(files, 0)
    }

    // Finishes the file that is open.
    fn finish_file<F: Files>(&mut self, files: &mut F) -> Result<(), Failed>
        requires is_open { F.is_open files.old }
        ensures kept { recording_in self.new ≡ recording_in self.old }
        ensures place { OnOk result (self.new.place ≡ record self.old.place { is_open = false }) }
        ensures number { self.new.place.number ≡ self.old.place.number }
        ensures closed { OnOk result (¬ F.is_open files.new) }
        ensures faults { CountsFault (F.seen files.old) (F.seen files.new) result }
        ensures made { (before : List NamedBytes) (file : NamedBytes)
            → Makes true (before ++ file ∷ []) false (before ++ file ∷ [])
            (F.seen files.old) (F.seen files.new) result }
    {
        match files.finish() {
            Ok(()) => {
                self.place.is_open = false;
                Ok(())
            }
            Err(failed) => Err(failed),
        }
    }

    // Appends bytes that the file has room for, and finishes the file if it is full.
    fn put<F: Files>(&mut self, files: &mut F, bytes: &[u8]) -> Result<(), Failed>
        requires is_open { F.is_open files.old }
        requires open { self.old.place.is_open ≡ true }
        requires room { self.old.place.used + length bytes.now ≤ self.old.file_size }
        requires small { self.old.file_size ≤ 2 ^ 40 }
        ensures kept { recording_in self.new ≡ recording_in self.old }
        ensures place { OnOk result (self.new.place
            ≡ after_put self.old.file_size (length bytes.now) self.old.place) }
        ensures is_open { OnOk result (IsOpenAs self.new.place.is_open (F.is_open files.new)) }
        ensures faults { CountsFault (F.seen files.old) (F.seen files.new) result }
        ensures made { (before : List NamedBytes) (file : NamedBytes)
            → Makes true (before ++ file ∷ []) self.new.place.is_open
            (before ++ longer_file bytes.now file ∷ [])
            (F.seen files.old) (F.seen files.new) result }
    {
        match append_all(files, bytes) {
            Ok(()) => {}
            Err(failed) => return Err(failed),
        }
        self.place.used += bytes.len() as u64;
        if self.place.used == self.file_size {
            self.finish_file(files)
        } else {
            Ok(())
        }
    }

    // Begins the next file, if the last one is full.
    fn make_room<F: Files>(&mut self, files: &mut F) -> Result<(), Failed>
        requires is_open { IsOpenAs self.old.place.is_open (F.is_open files.old) }
        requires placed { IsPlaced self.old.place self.old.file_size }
        requires limit { IsWithinLimit (recording_in self.old)
            (data_bytes self.old.place self.old.file_size + 1) }
        ensures kept { recording_in self.new ≡ recording_in self.old }
        ensures place { OnOk result (self.new.place ≡ next_place self.old.place) }
        ensures is_open { OnOk result (F.is_open files.new) }
        ensures faults { CountsFault (F.seen files.old) (F.seen files.new) result }
        ensures made { (before : List NamedBytes) (xs : List ℕ)
            → length xs ≡ data_bytes self.old.place self.old.file_size
            → Makes self.old.place.is_open
            (before ++ first_files (recording_in self.old) xs (self.old.place.number + 1))
            true
            (before ++ first_files (recording_in self.old) xs
            ((next_place self.old.place).number + 1))
            (F.seen files.old) (F.seen files.new) result }
    {
        each_header_has_room();
        if self.place.is_open {
            Ok(())
        } else {
            self.start_file(files, self.place.number + 1)
        }
    }

    // Appends the front of `bytes` to the open file, or to the next one: as many bytes as it has room for. Returns
    // their number.
    fn step<F: Files>(&mut self, files: &mut F, bytes: &[u8]) -> Result<usize, Failed>
        requires is_open { IsOpenAs self.old.place.is_open (F.is_open files.old) }
        requires placed { IsPlaced self.old.place self.old.file_size }
        requires some { 0 < length bytes.now }
        requires limit { IsWithinLimit (recording_in self.old)
            (data_bytes self.old.place self.old.file_size + length bytes.now) }
        ensures kept { recording_in self.new ≡ recording_in self.old }
        ensures placed { OnOk result (IsPlaced self.new.place self.new.file_size) }
        ensures taken { IfOk result (CameOf self.old self.new bytes.now) }
        ensures is_open { OnOk result (IsOpenAs self.new.place.is_open (F.is_open files.new)) }
        ensures faults { CountsFault (F.seen files.old) (F.seen files.new) result }
        ensures made { (before : List NamedBytes) (xs : List ℕ)
            → length xs ≡ data_bytes self.old.place self.old.file_size
            → TakesFront (recording_in self.old) before xs bytes.now
            self.old.place.is_open self.new.place.is_open
            (F.seen files.old) (F.seen files.new) result }
    {
        match self.make_room(files) {
            Ok(()) => {}
            Err(failed) => return Err(failed),
        }
        let room = self.file_size - self.place.used;
        let taken = room.min(bytes.len() as u64) as usize;
        match self.put(files, &bytes[..taken]) {
            Ok(()) => Ok(taken),
            Err(failed) => Err(failed),
        }
    }

    /// Appends data bytes, to as many files as they need.
    pub(crate) fn append<F: Files>(&mut self, files: &mut F, bytes: &[u8]) -> Result<(), Failed>
        requires is_open { IsOpenAs self.old.place.is_open (F.is_open files.old) }
        requires placed { IsPlaced self.old.place self.old.file_size }
        requires limit { IsWithinLimit (recording_in self.old)
            (data_bytes self.old.place self.old.file_size + length bytes.now) }
        ensures kept { recording_in self.new ≡ recording_in self.old }
        ensures placed { OnOk result (IsPlaced self.new.place self.new.file_size) }
        ensures count { OnOk result (data_bytes self.new.place self.new.file_size
            ≡ data_bytes self.old.place self.old.file_size + length bytes.now) }
        ensures is_open { OnOk result (IsOpenAs self.new.place.is_open (F.is_open files.new)) }
        ensures faults { CountsFault (F.seen files.old) (F.seen files.new) result }
        ensures made { (before : List NamedBytes) (xs : List ℕ)
            → length xs ≡ data_bytes self.old.place self.old.file_size
            → Makes self.old.place.is_open (before ++ recorded_files (recording_in self.old) xs)
            self.new.place.is_open
            (before ++ recorded_files (recording_in self.old) (xs ++ bytes.now))
            (F.seen files.old) (F.seen files.new) result }
    {
        let mut taken = 0;
        while taken < bytes.len() {
            match self.step(files, &bytes[taken..]) {
                Ok(n) => taken += n,
                Err(failed) => return Err(failed),
            }
        }
        Ok(())
    }

    /// Finishes the last file, if it is open.
    pub(crate) fn close<F: Files>(&mut self, files: &mut F) -> Result<(), Failed>
        requires is_open { IsOpenAs self.old.place.is_open (F.is_open files.old) }
        ensures kept { recording_in self.new ≡ recording_in self.old }
        ensures number { self.new.place.number ≡ self.old.place.number }
        ensures closed { OnOk result
            ((self.new.place.is_open ≡ false) × (F.is_open files.new → ⊥)) }
        ensures faults { CountsFault (F.seen files.old) (F.seen files.new) result }
        ensures made { (before : List NamedBytes) (file : NamedBytes)
            → Makes self.old.place.is_open (before ++ file ∷ []) false (before ++ file ∷ [])
            (F.seen files.old) (F.seen files.new) result }
    {
        if self.place.is_open {
            self.finish_file(files)
        } else {
            Ok(())
        }
    }
}
