// Files that are held in memory and read by name.
ghost use Rattle.std.specs.Prelude.{◌≡◌, ◌<◌, ◌↔◌, ◌==◌, ◌||◌, IsTrue, true, false, Some};
ghost use Rattle.std.specs.Option.{ForSome};
ghost use Rattle.psr_base.specs.NamedFiles.{place_in, name_at};

use crate::earlier::Earlier;
use crate::faults::Memory;
use crate::lookup::{copy_from, place_of};
use std::alloc::Global;

#[derive(Drop)]
pub(crate) struct MemFile {
    pub(crate) name: String,
    pub(crate) bytes: Vec<u8>,
}

// The file that is open, the place that it was read to, and whether its end was seen.
#[derive(Clone, Copy)]
struct OpenFile {
    index: usize,
    place: usize,
    ended: bool,
}

// Whether the end of a file is seen after a read that gave `n` bytes; `ended` says whether it was seen before.
fn sees_end(ended: bool, n: usize) -> bool
    ensures { result ≡ (ended || (n == 0)) }
{
    ended || n == 0
}

/// Files by their names, of which one may be open.
#[derive(Drop)]
pub(crate) struct HeldFiles {
    alloc: Global,
    files: Vec<MemFile>,
    reading: Option<OpenFile>,
    earlier: Earlier,
    ghost open_is_first: { ForSome reading (λ file.
        place_in files.items (name_at files.items file.index) ≡ Some file.index) },
}

impl HeldFiles {
    ghost use Rattle.std.specs.Prelude.{◌≡◌, ◌≢◌, ◌<◌, ◌↔◌, ℕ, List, [], None, Some, IsTrue, IsSome, OnOk, OnErr, true, false, min, length, unwrap_or};
    ghost use Rattle.psr_base.specs.Told.{left_to_read, opened, read_by, closed, GivesNext};
    ghost use Rattle.psr_base.specs.Held.{told_by, IsReading};

    pub(crate) fn none(alloc: Global) -> HeldFiles
        ensures empty { (name : List ℕ) → (told_by result).bytes_under name ≡ None }
        ensures closed { (told_by result).reading ≡ None }
        ensures unread { (told_by result).earlier ≡ [] }
    {
        HeldFiles {
            alloc,
            files: Vec::new(alloc),
            reading: None,
            earlier: Earlier::none(),
        }
    }

    /// Puts `bytes` under `name`, in place of those that stood there. If a file is open, it stays open, and its place
    /// stays the same.
    pub(crate) fn put(&mut self, name: &str, bytes: &[u8]) -> Result<(), Memory>
        ensures put { OnOk result ((told_by self.new).bytes_under name.now ≡ Some bytes.now) }
        ensures others { OnOk result ((other : List ℕ) → other ≢ name.now
            → (told_by self.new).bytes_under other ≡ (told_by self.old).bytes_under other) }
        ensures reading { (told_by self.new).reading ≡ (told_by self.old).reading }
        ensures earlier { (told_by self.new).earlier ≡ (told_by self.old).earlier }
        ensures refused { OnErr result (told_by self.new ≡ told_by self.old) }
    {
        let bytes = Vec::from_slice(self.alloc, bytes)?;
        match place_of(&self.files, name) {
            Some(index) => self.files[index].bytes = bytes,
            None => {
                let name = String::from_str(self.alloc, name)?;
                self.files.push(MemFile { name, bytes })?;
            }
        }
        Ok(())
    }

    /// Opens the file of that name. Returns whether there is one.
    pub(crate) fn open(&mut self, name: &str) -> bool
        ensures found { IsTrue result ↔ IsSome ((told_by self.old).bytes_under name.now) }
        ensures opened { result ≡ true → told_by self.new ≡ opened name.now (told_by self.old) }
        ensures missing { result ≡ false → told_by self.new ≡ told_by self.old }
    {
        match place_of(&self.files, name) {
            Some(index) => {
                self.close();
                self.reading = Some(OpenFile {
                    index,
                    place: 0,
                    ended: false,
                });
                true
            }
            None => false,
        }
    }

    /// Closes the open file, if there is one.
    pub(crate) fn close(&mut self)
        ensures told { told_by self.new ≡ closed (told_by self.old) }
        ensures files { self.new.files ≡ self.old.files }
    {
        if let Some(file) = self.reading {
            let name = self.files[file.index].name.as_str();
            self.earlier.add(name, file.place, file.ended);
            self.reading = None;
        }
    }

    /// Whether a file is open.
    pub(crate) fn is_reading(&self) -> bool
        ensures { IsTrue result ↔ IsReading self.now }
    {
        self.reading.is_some()
    }

    /// Copies the next bytes of the open file to the front of `into`, as many as there are and as fit. Returns their
    /// number.
    pub(crate) fn read(&mut self, into: &mut [u8]) -> usize
        requires room { 0 < length into.old }
        requires reading { IsReading self.old }
        ensures whole { result
            ≡ min (length (unwrap_or (left_to_read (told_by self.old)) [])) (length into.new) }
        ensures next { GivesNext (unwrap_or (left_to_read (told_by self.old)) []) result into.new }
        ensures moved { told_by self.new ≡ read_by result (told_by self.old) }
        ensures reading { IsReading self.new }
    {
        let file = self.reading.unwrap();
        let n = copy_from(self.files[file.index].bytes.as_slice(), file.place, into);
        self.reading = Some(OpenFile {
            index: file.index,
            place: file.place + n,
            ended: sees_end(file.ended, n),
        });
        n
    }
}
