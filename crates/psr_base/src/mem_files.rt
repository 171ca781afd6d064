// Files that are made in memory.
ghost use Rattle.std.specs.Prelude.{◌≡◌, ◌+◌, ◌≤◌, All, length, vec_len, vec_capacity};
ghost use Rattle.std.specs.Option.{ForSome};
ghost use Rattle.psr_base.specs.Stored.{LiesWithin, all_stored};

use crate::calls::Calls;
use crate::faults::{Failed, Memory};
use crate::files::Files;
use crate::stored::{StoredFile, is_there};
use arrayvec::ArrayString;
use std::alloc::Global;

/// Files in memory, with room for a fixed number of files and of bytes in all. A name has up to 64 bytes. Chosen calls
/// fail.
#[derive(Drop)]
pub struct MemFiles {
    finished: Vec<StoredFile>,
    unfinished: Option<StoredFile>,
    /// The bytes of all files, one after another.
    bytes: Vec<u8>,
    files: u32,
    room: usize,
    calls: Calls,
    ghost space: { files ≤ vec_capacity finished },
    ghost reserved: { room ≤ vec_capacity bytes },
    ghost fits: { length (all_stored finished.items unfinished) ≤ files },
    ghost within: { vec_len bytes ≤ room },
    ghost finished_within: { All (LiesWithin (vec_len bytes)) finished.items },
    ghost unfinished_ends: { ForSome unfinished (λ file. file.start + file.len ≡ vec_len bytes) },
}

impl MemFiles {
    ghost use Rattle.std.specs.Prelude.{◌≡◌, ◌<◌, ◌↔◌, [], None, Some, IsSome, IfOk, IfSome, length, slice_get, vec_len};
    ghost use Rattle.psr_base.specs.Made.{files_in, names_in, bodies_in};
    ghost use Rattle.psr_base.specs.InMemory.{made_of, stored_in, files_left, files_calls, CanMake, IsMaking};
    ghost use Rattle.psr_base.specs.Stored.{name_of};

    /// No files yet, and memory for `files` files and `room` bytes in all. The calls of `create`, `append` and `finish`
    /// are numbered together from 0; those whose number is in `fail` fail.
    pub fn open(alloc: Global, files: u32, room: u64, fail: &[u64]) -> Result<MemFiles, Memory>
        ensures made { IfOk result (λ made.
            made_of made ≡ record { finished = []; unfinished = None }) }
        ensures left { IfOk result (λ made.
            files_left made ≡ record { files = files; bytes = room }) }
        ensures calls { IfOk result (λ made.
            files_calls made ≡ record { fail = fail.now; number = 0; faults = 0 }) }
    {
        let room = room as usize;
        Ok(MemFiles {
            finished: Vec::with_capacity(alloc, files as usize)?,
            unfinished: None,
            bytes: Vec::with_capacity(alloc, room)?,
            files,
            room,
            calls: Calls::none(alloc, fail)?,
        })
    }

    /// The number of files.
    pub fn count(&self) -> u32
        ensures { result ≡ length (files_in (made_of self.now)) }
    {
        let finished = self.finished.len() as u32;
        match &self.unfinished {
            Some(_) => finished + 1,
            None => finished,
        }
    }

    // File `i` in the order of creation.
    fn file(&self, i: u32) -> &StoredFile
        requires { i < length (files_in (made_of self.now)) }
        ensures { slice_get (stored_in self.now) i ≡ Some result.now }
    {
        match &self.unfinished {
            Some(file) if i as usize == self.finished.len() => file,
            _ => &self.finished[i as usize],
        }
    }

    /// The name of file `i` in the order of creation.
    pub fn name(&self, i: u32) -> &str
        requires { i < length (files_in (made_of self.now)) }
        ensures { slice_get (names_in (made_of self.now)) i ≡ Some result.now }
    {
        self.file(i).name.as_str()
    }

    /// The bytes of file `i` in the order of creation.
    pub fn body(&self, i: u32) -> &[u8]
        requires { i < length (files_in (made_of self.now)) }
        ensures { slice_get (bodies_in (made_of self.now)) i ≡ Some result.now }
    {
        let file = self.file(i);
        &self.bytes[file.start..file.start + file.len]
    }

    // A new file of that name, if there is space for one and no file has the name.
    fn new_file(&self, name: &str) -> Option<StoredFile>
        requires { ¬ IsMaking self.now }
        ensures answer { IsSome result ↔ CanMake name.now self.now }
        ensures name { IfSome result (λ file. name_of file ≡ name.now) }
        ensures start { IfSome result (λ file. file.start ≡ vec_len self.now.bytes) }
        ensures empty { IfSome result (λ file. file.len ≡ 0) }
    {
        if self.finished.len() >= self.files as usize {
            return None;
        }
        if is_there(&self.finished, name) {
            return None;
        }
        let name = ArrayString::from(name).ok()?;
        Some(StoredFile {
            name,
            start: self.bytes.len(),
            len: 0,
        })
    }
}

impl Files for MemFiles {
    ghost use Rattle.std.specs.Prelude.{◌≡◌, ◌≤◌, ◌↔◌, length, IsOk, IfOk, OnOk, OnErr};
    ghost use Rattle.psr_base.specs.Count.{FailsNext, after_call};
    ghost use Rattle.psr_base.specs.Made.{with_new_file, longer_by, with_all_finished, less_a_file, less_bytes};
    ghost use Rattle.psr_base.specs.InMemory.{made_of, files_left, files_calls, files_seen, CanMake, IsMaking, HasNotMade};

    ghost seen = { files_seen };

    ghost is_open = { IsMaking };

    fn create(&mut self, name: &str) -> Result<(), Failed>
        requires closed { ¬ IsMaking self.old }
        ensures answer { IsOk result
            ↔ (CanMake name.now self.old × ¬ FailsNext (files_calls self.old)) }
        ensures created { OnOk result
            (made_of self.new ≡ with_new_file name.now (made_of self.old)) }
        ensures left { OnOk result (files_left self.new ≡ less_a_file (files_left self.old)) }
        ensures called { OnOk result (files_calls self.new ≡ after_call (files_calls self.old)) }
        ensures is_open { OnOk result (IsMaking self.new) }
        ensures failed { OnErr result (HasNotMade self.old self.new) }
        ensures still_closed { OnErr result (¬ IsMaking self.new) }
        ensures count { (files_calls self.old).faults ≤ (files_calls self.new).faults }
    {
        self.calls.begin()?;
        match self.new_file(name) {
            Some(file) => {
                self.unfinished = Some(file);
                Ok(())
            }
            None => Err(self.calls.fault()),
        }
    }

    fn append(&mut self, bytes: &[u8]) -> Result<usize, Failed>
        requires is_open { IsMaking self.old }
        ensures answer { IsOk result
            ↔ ((length bytes.now ≤ (files_left self.old).bytes)
            × ¬ FailsNext (files_calls self.old)) }
        ensures whole { IfOk result (λ n. n ≡ length bytes.now) }
        ensures appended { OnOk result (made_of self.new ≡ longer_by bytes.now (made_of self.old)) }
        ensures left { OnOk result
            (files_left self.new ≡ less_bytes (length bytes.now) (files_left self.old)) }
        ensures called { OnOk result (files_calls self.new ≡ after_call (files_calls self.old)) }
        ensures failed { OnErr result (HasNotMade self.old self.new) }
        ensures still_open { IsMaking self.new }
        ensures count { (files_calls self.old).faults ≤ (files_calls self.new).faults }
    {
        self.calls.begin()?;
        if bytes.len() > self.room - self.bytes.len() {
            return Err(self.calls.fault());
        }
        let mut file = self.unfinished.take().unwrap();
        match self.bytes.extend_from_slice(bytes) {
            Ok(()) => {
                file.len += bytes.len();
                self.unfinished = Some(file);
                Ok(bytes.len())
            }
            Err(_) => {
                self.unfinished = Some(file);
                Err(self.calls.fault())
            }
        }
    }

    fn finish(&mut self) -> Result<(), Failed>
        requires is_open { IsMaking self.old }
        ensures answer { IsOk result ↔ ¬ FailsNext (files_calls self.old) }
        ensures finished { OnOk result (made_of self.new ≡ with_all_finished (made_of self.old)) }
        ensures left { files_left self.new ≡ files_left self.old }
        ensures called { OnOk result (files_calls self.new ≡ after_call (files_calls self.old)) }
        ensures closed { OnOk result (¬ IsMaking self.new) }
        ensures failed { OnErr result (HasNotMade self.old self.new) }
        ensures still_open { OnErr result (IsMaking self.new) }
        ensures count { (files_calls self.old).faults ≤ (files_calls self.new).faults }
    {
        self.calls.begin()?;
        let file = self.unfinished.take().unwrap();
        match self.finished.push(file) {
            Ok(()) => Ok(()),
            Err(back) => {
                self.unfinished = Some(back.value);
                Err(self.calls.fault())
            }
        }
    }
}
