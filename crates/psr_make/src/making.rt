// Making observations, as bytes and as files.
ghost use Rattle.std.specs.Prelude.{◌≡◌, ◌≢◌, ◌+◌, ◌*◌, length, IfOk, OnOk, Err};
ghost use Rattle.psr_make.specs.Made.{SpecInRange, spectrum_bytes, made_file};
ghost use Rattle.psr_make.specs.Filed.{FileMade, MakingStopped};

use crate::blocks::{BLOCK, make_file};
use crate::header::{HEADER, write_header};
use crate::maker::Maker;
use crate::spec::MakeSpec;
use psr_base::{Failed, Files, Memory};
use std::alloc::Global;
use thiserror::Error;

/// Why no file was made.
#[derive(Clone, Copy, Debug, PartialEq, Eq, Error)]
pub enum MakeStop {
    /// The files failed.
    #[error("the files failed")]
    FileFault,
    /// There was no memory.
    #[error("no memory")]
    Memory,
}

// Overwrites `bytes` with the header and the data.
fn write_all_bytes(spec: &MakeSpec, maker: &mut Maker, bytes: &mut [u8])
    requires spec { SpecInRange spec.now }
    requires whole { length bytes.old ≡ HEADER + spec.now.spectra * spectrum_bytes spec.now }
    requires maker { maker.old ≡ record { spec = spec.now; made = 0 } }
    ensures { bytes.new ≡ made_file spec.now }
{
    let (header, data) = bytes.split_at_mut(HEADER);
    write_header(spec, header);
    maker.write(spec.spectra as usize, data);
}

/// The bytes of an observation: its header and its data.
pub fn make_bytes(alloc: Global, spec: &MakeSpec) -> Result<Vec<u8>, Memory>
    requires { SpecInRange spec.now }
    ensures { IfOk result (λ bytes. bytes.items ≡ made_file spec.now) }
{
    let mut maker = Maker::open(alloc, spec)?;
    let mut bytes = vec![in alloc; 0_u8; HEADER + spec.data_bytes()]?;
    write_all_bytes(spec, &mut maker, bytes.as_mut_slice());
    Ok(bytes)
}

/// Makes the file of an observation: creates it, appends the header and the data, and finishes it. The bytes are made
/// and appended one block at a time. After a fault the file was not created, or it is unfinished and holds a front of
/// the bytes.
pub fn make<F: Files>(
    alloc: Global,
    spec: &MakeSpec,
    name: &str,
    files: &mut F,
) -> Result<(), MakeStop>
    requires spec { SpecInRange spec.now }
    requires closed { ¬ F.is_open files.old }
    ensures made { OnOk result
        (FileMade name.now (made_file spec.now) (F.seen files.old) (F.seen files.new)) }
    ensures closed { result ≢ Err MakeStop.FileFault → ¬ F.is_open files.new }
    ensures fault { result ≡ Err MakeStop.FileFault
        → MakingStopped name.now (made_file spec.now) (F.seen files.old) (F.seen files.new) }
    ensures memory { result ≡ Err MakeStop.Memory → F.seen files.new ≡ F.seen files.old }
{
    let mut maker = match Maker::open(alloc, spec) {
        Ok(maker) => maker,
        Err(Memory) => return Err(MakeStop::Memory),
    };
    let mut block = match Vec::from_elem(alloc, 0_u8, BLOCK) {
        Ok(block) => block,
        Err(_) => return Err(MakeStop::Memory),
    };
    match make_file(&mut maker, block.as_mut_slice(), name, files) {
        Ok(()) => Ok(()),
        Err(Failed) => Err(MakeStop::FileFault),
    }
}
