// The spectra of a stretch, as they are held.
ghost use Rattle.std.specs.Prelude.{◌≡◌, ℕ, ◌+◌, ◌*◌, ◌/◌, ◌<◌, ◌≤◌, ◌++◌, true, false, length, take, slice_index, IfOk};
ghost use Rattle.band_level.specs.Values.{cells, spectrum_bytes, most_value};
ghost use Rattle.band_level.specs.Ranges.{FormatInRange};
ghost use Rattle.band_level.specs.Holding.{Holding, AddsUp, HasSpectra, HeldFits, IsRoomFor, Puts, cleared, held_bytes, held_value, sums_of};

use crate::format::Format;
use crate::row::read_row;
use crate::space::{bytes, words};
use crate::sums::Sums;
use psr_base::Memory;
use std::alloc::Global;
use std::marker::Model;

/// The bytes of spectra, as they came; or the sums of neighbouring spectra, with the bytes of the next one. These are
/// added up once more bytes come.
#[derive(Drop)]
pub struct Held {
    format: Format,
    // how many spectra there is room for, how many bytes one has, and all
    spectra: usize,
    spectrum: usize,
    room: usize,
    // how many spectra were added up, and their sums
    count: usize,
    sums: Sums,
    // the bytes behind them, and how many of these are filled
    bytes: Vec<u8>,
    filled: usize,
    // working space: the sums of a spectrum
    row: Vec<u32>,
}

impl Model for Held {
    ghost Value = { Holding };

    ghost view = { λ h. record {
      format = h.format;
      room = h.room;
      limit = length h.bytes.items;
      count = h.count;
      sums = sums_of h.sums;
      bytes = take h.filled h.bytes.items;
    } };

    ghost invariant = { λ h. HeldFits h.format h.spectra h.spectrum h.room h.count h.sums
        h.bytes.items h.filled h.row.items };
}

impl Held {
    /// Takes the memory for `spectra` averaged spectra.
    pub fn open(alloc: Global, format: Format, spectra: u32) -> Result<Held, Memory>
        requires format { FormatInRange format }
        requires few { spectra ≤ 1048576 }
        ensures format { IfOk result (λ h. h.format ≡ format) }
        ensures room { IfOk result (λ h. h.room ≡ spectra * spectrum_bytes format) }
        ensures nothing { IfOk result (λ h. h ≡ cleared h) }
    {
        let spectra = spectra as usize;
        let cells = (format.channels * format.polarisations) as usize;
        let spectrum = format.average as usize * (cells * (format.bits as usize / 8));
        if format.average == 1 {
            Held::with_room(alloc, format, spectra, spectra * spectrum, 0)
        } else {
            Held::with_room(alloc, format, spectra, spectrum, spectra * cells)
        }
    }

    // Takes the memory for `limit` bytes and `sums` sums.
    fn with_room(
        alloc: Global,
        format: Format,
        spectra: usize,
        limit: usize,
        sums: usize,
    ) -> Result<Held, Memory>
        requires format { FormatInRange format }
        requires few { spectra ≤ 1048576 }
        requires kind { IsRoomFor format spectra 0 limit sums }
        ensures format { IfOk result (λ h. h.format ≡ format) }
        ensures room { IfOk result (λ h. h.room ≡ spectra * spectrum_bytes format) }
        ensures nothing { IfOk result (λ h. h ≡ cleared h) }
    {
        let cells = (format.channels * format.polarisations) as usize;
        let spectrum = format.average as usize * (cells * (format.bits as usize / 8));
        Ok(Held {
            format,
            spectra,
            spectrum,
            room: spectra * spectrum,
            count: 0,
            sums: Sums::open(alloc, format.bits == 16, sums)?,
            bytes: bytes(alloc, limit)?,
            filled: 0,
            row: words(alloc, cells)?,
        })
    }

    // What always holds, for callers.
    fn bounds(&self)
        ensures format { FormatInRange self.now.format }
        ensures inside { held_bytes self.now.format self.now ≤ self.now.room }
        ensures limit { length self.now.bytes ≤ self.now.limit }
    {
        let _ = &self.format;
    }

    /// Takes the front of `bytes`, up to the last spectrum that there is room for. Returns how many bytes it took.
    pub fn put(&mut self, bytes: &[u8]) -> usize
        ensures within { result ≤ length bytes.now }
        ensures puts { Puts self.old.format self.old self.new (take result bytes.now) }
        ensures rest { result < length bytes.now
            → held_bytes self.old.format self.new ≡ self.old.room }
    {
        let mut taken = 0;
        while taken < bytes.len() {
            if self.is_full() {
                return taken;
            }
            taken += self.put_some(&bytes[taken..]);
        }
        taken
    }

    // Takes at least one byte, and returns how many it took.
    fn put_some(&mut self, bytes: &[u8]) -> usize
        requires some { 0 < length bytes.now }
        requires room { held_bytes self.old.format self.old < self.old.room }
        ensures some { 0 < result }
        ensures within { result ≤ length bytes.now }
        ensures puts { Puts self.old.format self.old self.new (take result bytes.now) }
    {
        self.bounds();
        if self.filled < self.bytes.len() {
            return self.fill(bytes);
        }
        self.add_up();
        self.fill(bytes)
    }

    // Adds up the spectrum whose bytes are there.
    fn add_up(&mut self)
        requires room { held_bytes self.old.format self.old < self.old.room }
        requires full { length self.old.bytes ≡ self.old.limit }
        ensures adds { AddsUp self.old self.new }
        ensures limit { 0 < self.new.limit }
    {
        let _room = self.room;
        read_row(
            self.row.as_mut_slice(),
            self.bytes.as_slice(),
            self.format,
            0,
        );
        self.sums
            .write(self.count * self.row.len(), self.row.as_slice());
        self.count += 1;
        self.filled = 0;
    }

    // Takes bytes as they are, and returns how many.
    fn fill(&mut self, bytes: &[u8]) -> usize
        requires some { 0 < length bytes.now }
        requires room { held_bytes self.old.format self.old < self.old.room }
        requires limit { length self.old.bytes < self.old.limit }
        ensures some { 0 < result }
        ensures within { result ≤ length bytes.now }
        ensures filled { self.new
            ≡ record self.old { bytes = self.old.bytes ++ take result bytes.now } }
    {
        let count = bytes.len().min(self.bytes.len() - self.filled);
        append(self.bytes.as_mut_slice(), self.filled, &bytes[..count]);
        self.filled += count;
        count
    }

    // How many bytes came.
    fn len(&self) -> usize
        ensures len { result ≡ held_bytes self.now.format self.now }
        ensures inside { result ≤ self.now.room }
    {
        let _room = self.room;
        self.count * self.spectrum + self.filled
    }

    /// Whether all spectra that there is room for came.
    pub fn is_full(&self) -> bool
        ensures full { result ≡ true
            → held_bytes self.now.format self.now ≡ self.now.room }
        ensures short { result ≡ false
            → held_bytes self.now.format self.now < self.now.room }
    {
        self.len() == self.room
    }

    /// How many whole spectra came.
    pub fn whole_spectra(&self) -> usize
        ensures count { result
            ≡ held_bytes self.now.format self.now / spectrum_bytes self.now.format }
        ensures inside { held_bytes self.now.format self.now ≤ self.now.room }
    {
        self.len() / self.spectrum
    }

    /// Forgets all spectra.
    pub fn clear(&mut self)
        ensures { self.new ≡ cleared self.old }
    {
        self.count = 0;
        self.filled = 0;
    }

    /// Reads averaged spectrum `t` into `row`, a value of each cell.
    pub fn read(&self, row: &mut [u32], format: Format, t: usize)
        requires cells { length row.old ≡ cells format }
        requires held { HasSpectra format self.now (t + 1) }
        ensures values { (i : ℕ) → i < cells format
            → slice_index row.new i ≡ held_value format self.now t i }
        ensures small { (i : ℕ) → slice_index row.new i ≤ most_value format }
    {
        let _room = self.room;
        if t < self.count {
            self.sums.read(t * row.len(), row);
        } else {
            let bytes = &self.bytes.as_slice()[..self.filled];
            read_row(row, bytes, format, t - self.count);
        }
    }
}

// Puts further bytes behind those that are there.
fn append(held: &mut [u8], filled: usize, bytes: &[u8])
    requires { filled + length bytes.now ≤ length held.old }
    ensures { take (filled + length bytes.now) held.new ≡ take filled held.old ++ bytes.now }
{
    held[filled..filled + bytes.len()].copy_from_slice(bytes);
}
