// The files of the system. Nothing is told of what they hold.
ghost use Rattle.std.specs.Prelude.{◌≡◌};

use crate::calls::Faults;
use crate::faults::Failed;
use crate::files::Files;
use crate::inputs::Inputs;
use std::fs::{File, OpenFile};
use std::io::{Read, Write};
use std::{fs, io, rt};

/// The files of the system, for reading. Each error of the system is a fault.
#[derive(Drop)]
pub struct RealInputs<'a, R: rt::Files> {
    rt: &'a R,
    file: Option<R::File>,
    faults: Faults,
}

impl<'a, R: rt::Files> RealInputs<'a, R> {
    /// Inputs with no file open, of which no call has failed.
    pub fn new(rt: &'a R) -> RealInputs<'a, R>
        ensures { ⟦<RealInputs<'a, R> as Inputs>⟧.faults result ≡ 0 }
    {
        RealInputs {
            rt,
            file: None,
            faults: Faults::none(),
        }
    }
}

impl<R: rt::Files> Inputs for RealInputs<'_, R> {
    ghost use Rattle.std.specs.Prelude.{IsSome};
    ghost use Rattle.psr_base.specs.Told.{nothing_told};

    ghost told = { λ _. nothing_told };

    ghost is_open = { λ inputs. IsSome inputs.file };

    ghost is_calm = { λ _. ⊥ };

    ghost faults = { λ inputs. inputs.faults.count };

    fn open(&mut self, name: &str) -> Result<(), Failed> {
        match fs::open(self.rt, name) {
            Ok(file) => {
                self.file = Some(file);
                Ok(())
            }
            Err(_) => Err(self.faults.fault()),
        }
    }

    fn read(&mut self, into: &mut [u8]) -> Result<usize, Failed> {
        let file = self.file.as_mut().unwrap();
        match file.read(into) {
            Ok(n) => Ok(n),
            Err(_) => Err(self.faults.fault()),
        }
    }
}

/// New files of the system. A name that exists is refused, whatever it names, so nothing that exists is ever written
/// to. A finished file is on the disk (it is synced), and so is its name.
///
/// Each error of the system is a fault. If an append or `finish` fails, the file is let go, and each later call on it
/// fails.
#[derive(Drop)]
pub struct RealFiles<'a, R: rt::Files> {
    rt: &'a R,
    is_open: bool,
    file: Option<NewFile<R::File>>,
    faults: Faults,
}

// A file that was created, and the folder in which its name stands.
#[derive(Drop)]
struct NewFile<F> {
    file: F,
    folder: F,
}

impl<F: OpenFile + Drop> NewFile<F> {
    // Waits until the disk has the bytes of the file and its name, and closes both. Returns whether the disk has them.
    fn is_kept(self) -> bool {
        let NewFile { file, folder } = self;
        file.sync_all().is_ok() && folder.sync_all().is_ok()
    }
}

// The folder that a name stands in.
fn folder_of(name: &str) -> &str {
    match name.rsplit_once('/') {
        Some(("", _)) => "/",
        Some((folder, _)) => folder,
        None => ".",
    }
}

impl<'a, R: rt::Files> RealFiles<'a, R> {
    /// Files of which none is open, and no call has failed.
    pub fn new(rt: &'a R) -> RealFiles<'a, R>
        ensures closed { ¬ ⟦<RealFiles<'a, R> as Files>⟧.is_open result }
        ensures faults { (⟦<RealFiles<'a, R> as Files>⟧.seen result).faults ≡ 0 }
    {
        RealFiles {
            rt,
            is_open: false,
            file: None,
            faults: Faults::none(),
        }
    }

    // A new file of that name.
    fn new_file(&self, name: &str) -> io::Result<NewFile<R::File>> {
        let folder = fs::open(self.rt, folder_of(name))?;
        let file = File::create_new(self.rt, name)?;
        Ok(NewFile { file, folder })
    }
}

impl<R: rt::Files> Files for RealFiles<'_, R> {
    ghost use Rattle.std.specs.Prelude.{None, IsTrue};

    ghost seen = { λ files. record { made = None; left = None; faults = files.faults.count } };

    ghost is_open = { λ files. IsTrue files.is_open };

    fn create(&mut self, name: &str) -> Result<(), Failed> {
        match self.new_file(name) {
            Ok(file) => {
                self.file = Some(file);
                self.is_open = true;
                Ok(())
            }
            Err(_) => Err(self.faults.fault()),
        }
    }

    fn append(&mut self, bytes: &[u8]) -> Result<usize, Failed> {
        let taken = match &mut self.file {
            Some(_) if bytes.is_empty() => return Ok(0),
            Some(new) => new.file.write(bytes).unwrap_or(0),
            None => 0,
        };
        match taken {
            0 => {
                self.file = None;
                Err(self.faults.fault())
            }
            n => Ok(n),
        }
    }

    fn finish(&mut self) -> Result<(), Failed> {
        if !self.file.take().is_some_and(|new| new.is_kept()) {
            return Err(self.faults.fault());
        }
        self.is_open = false;
        Ok(())
    }
}
