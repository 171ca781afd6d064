// Writing the file of an observation, one block of bytes at a time.
ghost use Rattle.std.specs.Prelude.{◌≡◌, ◌-◌, ◌*◌, ◌<◌, ◌≤◌, length, OnOk, OnErr};
ghost use Rattle.psr_base.specs.Made.{Appended};
ghost use Rattle.psr_make.specs.Made.{spectrum_bytes, data_part, made_header, made_file};
ghost use Rattle.psr_make.specs.Filed.{FileMade, MakingStopped};

use crate::header::{HEADER, write_header};
use crate::maker::Maker;
use psr_base::{Failed, Files, append_all};
// A law: it does nothing when it runs, and the proofs use what it ensures.
use psr_base::appends_join;

/// The number of bytes that are made before they are appended. At least one spectrum of any observation fits.
pub(crate) const BLOCK: usize = 262_144;

// Appends the header.
fn append_header<F: Files>(maker: &Maker, block: &mut [u8], files: &mut F) -> Result<(), Failed>
    requires block { length block.old ≡ BLOCK }
    requires is_open { F.is_open files.old }
    ensures appended { Appended (made_header maker.now.spec) (F.seen files.old) (F.seen files.new)
        result }
    ensures still_open { F.is_open files.new }
{
    let header = &mut block[..HEADER];
    write_header(maker.spec(), header);
    append_all(files, header)
}

// Makes and appends the next spectra, as many as fit the block.
fn append_spectra<F: Files>(
    maker: &mut Maker,
    block: &mut [u8],
    files: &mut F,
) -> Result<(), Failed>
    requires block { length block.old ≡ BLOCK }
    requires is_open { F.is_open files.old }
    requires left { maker.old.made < maker.old.spec.spectra }
    ensures spec { maker.new.spec ≡ maker.old.spec }
    ensures goes_on { maker.old.made < maker.new.made }
    ensures within { maker.new.made ≤ maker.old.spec.spectra }
    ensures appended { let spectrum = spectrum_bytes maker.old.spec in
        Appended (data_part maker.old.spec (maker.old.made * spectrum)
        ((maker.new.made - maker.old.made) * spectrum))
        (F.seen files.old) (F.seen files.new) result }
    ensures still_open { F.is_open files.new }
{
    let spectrum = maker.spec().spectrum_bytes();
    let count = maker.left().min(block.len() / spectrum);
    let bytes = &mut block[..count * spectrum];
    maker.write(count, bytes);
    append_all(files, bytes)
}

// Appends the header and all data.
fn append_file<F: Files>(maker: &mut Maker, block: &mut [u8], files: &mut F) -> Result<(), Failed>
    requires block { length block.old ≡ BLOCK }
    requires nothing { maker.old.made ≡ 0 }
    requires is_open { F.is_open files.old }
    ensures appended { Appended (made_file maker.old.spec) (F.seen files.old) (F.seen files.new)
        result }
    ensures still_open { F.is_open files.new }
{
    appends_join();
    if let Err(failed) = append_header(maker, block, files) {
        return Err(failed);
    }
    while maker.left() > 0 {
        if let Err(failed) = append_spectra(maker, block, files) {
            return Err(failed);
        }
    }
    Ok(())
}

/// Creates the file, appends the header and the data, and finishes it.
pub(crate) fn make_file<F: Files>(
    maker: &mut Maker,
    block: &mut [u8],
    name: &str,
    files: &mut F,
) -> Result<(), Failed>
    requires block { length block.old ≡ BLOCK }
    requires nothing { maker.old.made ≡ 0 }
    requires closed { ¬ F.is_open files.old }
    ensures made { OnOk result
        (FileMade name.now (made_file maker.old.spec) (F.seen files.old) (F.seen files.new)) }
    ensures closed { OnOk result (¬ F.is_open files.new) }
    ensures fault { OnErr result
        (MakingStopped name.now (made_file maker.old.spec) (F.seen files.old) (F.seen files.new)) }
{
    if let Err(failed) = files.create(name) {
        return Err(failed);
    }
    if let Err(failed) = append_file(maker, block, files) {
        return Err(failed);
    }
    match files.finish() {
        Ok(()) => Ok(()),
        Err(failed) => Err(failed),
    }
}
