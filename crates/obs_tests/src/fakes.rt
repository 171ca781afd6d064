// Streams and files that stand in for those of the system, and record what they take.

use std::alloc::{Allocator, Global};
use std::cell::RefCell;
use std::fmt::Display;
use std::fs::{File, Metadata, OpenOptions};
use std::rt::Files;
use std::{fs, io};

/// The largest number of bytes that a stream takes at once, or `None` if it is closed.
pub type Takes = Option<usize>;

/// Streams that record what they take.
#[derive(Drop)]
pub struct Streams {
    alloc: Global,
    takes: Takes,
    output: RefCell<Vec<u8>>,
    notes: RefCell<Vec<u8>>,
}

fn closed() -> io::Error {
    io::Error::from(io::ErrorKind::BrokenPipe)
}

fn record(cell: &RefCell<Vec<u8>>, bytes: &[u8]) -> io::Result<()> {
    match cell.try_borrow_mut() {
        Ok(mut taken) => match taken.extend_from_slice(bytes) {
            Ok(()) => Ok(()),
            Err(_) => Err(closed()),
        },
        Err(_) => Err(closed()),
    }
}

fn recorded(alloc: Global, cell: &RefCell<Vec<u8>>) -> io::Result<Vec<u8>> {
    match cell.try_borrow() {
        Ok(taken) => match Vec::from_slice(alloc, taken.as_slice()) {
            Ok(copy) => Ok(copy),
            Err(_) => Err(closed()),
        },
        Err(_) => Err(closed()),
    }
}

impl Streams {
    pub fn new(alloc: Global, takes: Takes) -> Streams {
        Streams {
            alloc,
            takes,
            output: RefCell::new(Vec::new(alloc)),
            notes: RefCell::new(Vec::new(alloc)),
        }
    }

    pub fn output(&self) -> io::Result<Vec<u8>> {
        recorded(self.alloc, &self.output)
    }

    pub fn notes(&self) -> io::Result<Vec<u8>> {
        recorded(self.alloc, &self.notes)
    }

    fn note<D: Display + Drop>(&self, value: D) -> io::Result<()> {
        if self.takes.is_none() {
            return Err(closed());
        }
        match format!(in self.alloc; "{value}") {
            Ok(text) => record(&self.notes, text.as_str().as_bytes()),
            Err(_) => Err(closed()),
        }
    }
}

impl Print for Streams {
    fn print<D: Display + Drop>(&self, _value: D) -> io::Result<()> {
        Err(closed())
    }

    fn println<D: Display + Drop>(&self, _value: D) -> io::Result<()> {
        Err(closed())
    }

    fn write_all(&self, _bytes: &[u8]) -> io::Result<()> {
        Err(closed())
    }

    fn write_some(&self, bytes: &[u8]) -> io::Result<usize> {
        let Some(most) = self.takes else {
            return Err(closed());
        };
        let n = bytes.len().min(most);
        match record(&self.output, &bytes[..n]) {
            Ok(()) => Ok(n),
            Err(error) => Err(error),
        }
    }
}

impl Eprint for Streams {
    fn eprint<D: Display + Drop>(&self, value: D) -> io::Result<()> {
        self.note(value)
    }

    fn eprintln<D: Display + Drop>(&self, _value: D) -> io::Result<()> {
        Err(closed())
    }
}

/// A disk on which each file that is created is `file`, and each folder is `folder`.
#[derive(Drop)]
pub struct Disk<'a> {
    pub rt: &'a HostRuntime,
    pub file: &'static str,
    pub folder: &'static str,
}

impl Files for Disk<'_> {
    type File = File;

    type Dir = <HostRuntime as Files>::Dir;

    fn open_file(&self, how: &OpenOptions, _path: &str) -> io::Result<File> {
        if how.asks_create_new() {
            OpenOptions::new().write(true).open(self.rt, self.file)
        } else {
            File::open(self.rt, self.folder)
        }
    }

    fn open_dir(&self, path: &str) -> io::Result<Self::Dir> {
        self.rt.open_dir(path)
    }

    fn metadata(&self, path: &str) -> io::Result<Metadata> {
        fs::metadata(self.rt, path)
    }

    fn symlink_metadata(&self, path: &str) -> io::Result<Metadata> {
        fs::symlink_metadata(self.rt, path)
    }

    fn copy(&self, _from: &str, _to: &str) -> io::Result<u64> {
        Err(closed())
    }

    fn rename(&self, _from: &str, _to: &str) -> io::Result<()> {
        Err(closed())
    }

    fn remove_file(&self, _path: &str) -> io::Result<()> {
        Err(closed())
    }

    fn create_dir(&self, _path: &str) -> io::Result<()> {
        Err(closed())
    }

    fn remove_dir(&self, _path: &str) -> io::Result<()> {
        Err(closed())
    }

    fn remove_dir_all<B: Allocator>(&self, _alloc: B, _path: &str) -> io::Result<()> {
        Err(closed())
    }
}
