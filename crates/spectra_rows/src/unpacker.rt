// Unpacks the bytes that are pushed into rows.
ghost use Rattle.std.specs.Prelude.{◌≡◌, ℕ, ◌+◌, ◌-◌, ◌*◌, ◌<◌, ◌≤◌, ◌⊎◌, ◌++◌, Bool, true, false, List, [], length, take, min, slice_index, IfOk};
ghost use Rattle.spectra_rows.specs.Unpacking.{AreValues, HoldsBytes, IsWithout, Keeps, LeavesOut, OpenedAlike, StandsForBytes, StandsForKept, Takes, Unpacking, byte_unpacking_of, held_bytes, spectrum_bytes, unpacked, unpacking_of};
ghost use Rattle.spectra_rows.specs.Cells.{RowsAreSound};
ghost use Rattle.spectra_rows.specs.Kept.{are_bytes, samples_kept};

use crate::held::hold;
use crate::kept::Rows;
use crate::layout::Layout;
use crate::tile::SPECTRA;
use psr_base::Memory;
use std::alloc::Global;
use std::marker::Model;

// About how many bytes are unpacked at a time. A channel is read spectrum by spectrum, so with more bytes the reads
// would lie too far apart for the cache.
const GROUP: usize = 131072;

/// Unpacks data bytes, pushed in pieces of any length, into rows of samples of at most `chunk` spectra. A complete
/// spectrum is unpacked from the bytes pushed; only the bytes of an incomplete spectrum are copied and kept.
#[derive(Drop)]
pub struct Unpacker {
    layout: Layout,
    spectrum: usize,
    // room for a spectrum, whose first `filled` bytes are those of an incomplete spectrum
    held: Vec<u8>,
    filled: usize,
    // how many spectra the rows contain
    ready: usize,
    rows: Rows,
}

impl Model for Unpacker {
    ghost Value = { Unpacking };

    ghost view = { λ u. record {
      channels = u.layout.channels;
      is_falling = u.layout.is_falling;
      nbit = u.layout.nbit;
      npol = u.layout.npol;
      chunk = u.layout.chunk;
      in_bytes = are_bytes u.rows;
      whole = u.ready;
      part = take u.filled u.held.items;
      rows = samples_kept u.rows;
    } };

    ghost invariant = { λ u. RowsAreSound u.layout.channels u.layout.nbit u.layout.npol
        u.layout.chunk (are_bytes u.rows) u.spectrum u.filled u.ready u.held.items
        (samples_kept u.rows) };
}

// How many spectra of `spectrum` bytes each are unpacked at a time: a multiple of those of a tile.
fn group_of(spectrum: usize) -> usize
    requires { 0 < spectrum }
    ensures { 0 < result }
{
    (GROUP / spectrum / SPECTRA).max(1) * SPECTRA
}

// An unpacker without data, over rows with room for a chunk of spectra.
fn over_rows(alloc: Global, layout: Layout, rows: Rows) -> Result<Unpacker, Memory>
    requires some_channels { 2 ≤ layout.channels }
    requires most_channels { layout.channels ≤ 4096 }
    requires some_spectra { 1 ≤ layout.chunk }
    requires most_spectra { layout.chunk ≤ 65536 }
    requires values { AreValues layout.nbit layout.npol }
    requires kept { Keeps (are_bytes rows) layout.nbit layout.npol }
    requires room { length (samples_kept rows) ≡ layout.channels * layout.chunk }
    ensures opened { IfOk result (λ u. u ≡ record (unpacking_of layout.channels layout.is_falling
        layout.nbit layout.npol layout.chunk) {
          in_bytes = are_bytes rows;
          rows = samples_kept rows;
        }) }
    ensures nothing { IfOk result (λ u. StandsForBytes u [] 0) }
{
    let spectrum = layout.channels * (layout.npol as usize * (layout.nbit as usize / 8));
    Ok(Unpacker {
        layout,
        spectrum,
        held: vec![in alloc; 0; spectrum]?,
        filled: 0,
        ready: 0,
        rows,
    })
}

impl Unpacker {
    /// Takes the memory for at most `chunk` spectra of `channels` channels. `falling`: whether the first value of a
    /// spectrum is the one of the highest frequency. A value has `nbit` bits, a sample has `npol` values, and the rows
    /// have 32 bits a sample.
    pub fn open(
        alloc: Global,
        channels: u32,
        falling: bool,
        nbit: u32,
        npol: u32,
        chunk: u32,
    ) -> Result<Unpacker, Memory>
        requires some_channels { 2 ≤ channels }
        requires most_channels { channels ≤ 4096 }
        requires bits { (nbit ≡ 8) ⊎ (nbit ≡ 16) }
        requires polarisations { (npol ≡ 1) ⊎ (npol ≡ 2) }
        requires some_spectra { 1 ≤ chunk }
        requires most_spectra { chunk ≤ 65536 }
        ensures opened { IfOk result (λ u. u ≡ unpacking_of channels falling nbit npol chunk) }
        ensures nothing { IfOk result (λ u. StandsForBytes u [] 0) }
    {
        let layout = Layout {
            channels: channels as usize,
            is_falling: falling,
            nbit,
            npol,
            chunk: chunk as usize,
        };
        let rows = vec![in alloc; 0; layout.channels * layout.chunk]?;
        over_rows(alloc, layout, Rows::Words(rows))
    }

    /// Takes the memory for at most `chunk` spectra whose samples are single bytes: 8 bits and one polarisation. The
    /// rows have a byte a sample. `falling`: whether the first value of a spectrum is the one of the highest frequency.
    pub fn open_bytes(
        alloc: Global,
        channels: u32,
        falling: bool,
        chunk: u32,
    ) -> Result<Unpacker, Memory>
        requires some_channels { 2 ≤ channels }
        requires most_channels { channels ≤ 4096 }
        requires some_spectra { 1 ≤ chunk }
        requires most_spectra { chunk ≤ 65536 }
        ensures opened { IfOk result (λ u. u ≡ byte_unpacking_of channels falling chunk) }
        ensures nothing { IfOk result (λ u. StandsForBytes u [] 0) }
    {
        let layout = Layout {
            channels: channels as usize,
            is_falling: falling,
            nbit: 8,
            npol: 1,
            chunk: chunk as usize,
        };
        let rows = vec![in alloc; 0; layout.channels * layout.chunk]?;
        over_rows(alloc, layout, Rows::Bytes(rows))
    }

    /// Takes bytes until `chunk` spectra are complete or all bytes are taken, and answers how many it took. The bytes
    /// of an incomplete spectrum are kept for the next call.
    pub fn push(&mut self, bytes: &[u8]) -> usize
        ensures count { result ≡ min (self.old.chunk * spectrum_bytes self.old
            - held_bytes self.old) (length bytes.now) }
        ensures alike { OpenedAlike self.new self.old }
        ensures held { held_bytes self.new ≡ held_bytes self.old + result }
        ensures pieces { (before : List ℕ) (gone : ℕ) → StandsForBytes self.old before gone
            → StandsForBytes self.new (before ++ take result bytes.now) gone }
    {
        let room = self.layout.chunk * self.spectrum - (self.ready * self.spectrum + self.filled);
        let count = room.min(bytes.len());
        self.take(&bytes[..count]);
        count
    }

    // Takes all bytes. There is room for them.
    fn take(&mut self, bytes: &[u8])
        requires { held_bytes self.old + length bytes.now
            ≤ self.old.chunk * spectrum_bytes self.old }
        ensures { Takes self.old self.new bytes.now }
    {
        let first = self.take_into_part(bytes);
        let rest = &bytes[first..];
        let count = self.take_spectra(rest);
        self.keep_part(&rest[count..]);
    }

    // Takes the bytes that belong to the incomplete spectrum, if there is one, and answers how many they are.
    fn take_into_part(&mut self, bytes: &[u8]) -> usize
        requires { held_bytes self.old + length bytes.now
            ≤ self.old.chunk * spectrum_bytes self.old }
        ensures within { result ≤ length bytes.now }
        ensures takes { Takes self.old self.new (take result bytes.now) }
        ensures end { result < length bytes.now → self.new.part ≡ [] }
    {
        if self.filled == 0 {
            return 0;
        }
        let missing = self.spectrum - self.filled;
        if bytes.len() < missing {
            self.keep_part(bytes);
            bytes.len()
        } else {
            self.complete_part(&bytes[..missing]);
            missing
        }
    }

    // Completes the incomplete spectrum with `bytes`, and unpacks it.
    fn complete_part(&mut self, bytes: &[u8])
        requires room { self.old.whole < self.old.chunk }
        requires missing { length self.old.part + length bytes.now ≡ spectrum_bytes self.old }
        ensures takes { Takes self.old self.new bytes.now }
        ensures part { self.new.part ≡ [] }
    {
        hold(self.held.as_mut_slice(), self.filled, bytes);
        self.rows
            .unpack(self.held.as_slice(), self.layout, self.ready, 1);
        self.ready += 1;
        self.filled = 0;
    }

    // Unpacks all complete spectra of `bytes`, and answers how many bytes they have. Bytes are given only if no
    // incomplete spectrum is kept.
    fn take_spectra(&mut self, bytes: &[u8]) -> usize
        requires room { held_bytes self.old + length bytes.now
            ≤ self.old.chunk * spectrum_bytes self.old }
        requires part { 0 < length bytes.now → self.old.part ≡ [] }
        ensures within { result ≤ length bytes.now }
        ensures takes { Takes self.old self.new (take result bytes.now) }
        ensures rest { length bytes.now < result + spectrum_bytes self.old }
        ensures part { 0 < length bytes.now → self.new.part ≡ [] }
    {
        let spectrum = self.spectrum_bytes();
        let mut done = 0;
        while bytes.len() - done >= spectrum {
            done += self.take_group(&bytes[done..]);
        }
        done
    }

    // The bytes of a spectrum.
    fn spectrum_bytes(&self) -> usize
        ensures size { result ≡ spectrum_bytes self.now }
        ensures some { 0 < result }
    {
        self.spectrum
    }

    // Unpacks complete spectra, as many as are unpacked at a time, and answers how many bytes they have.
    fn take_group(&mut self, bytes: &[u8]) -> usize
        requires room { held_bytes self.old + length bytes.now
            ≤ self.old.chunk * spectrum_bytes self.old }
        requires whole { spectrum_bytes self.old ≤ length bytes.now }
        requires part { self.old.part ≡ [] }
        ensures some { 0 < result }
        ensures within { result ≤ length bytes.now }
        ensures takes { Takes self.old self.new (take result bytes.now) }
        ensures part { self.new.part ≡ [] }
    {
        let most = group_of(self.spectrum);
        let count = most.min(bytes.len() / self.spectrum);
        self.rows.unpack(bytes, self.layout, self.ready, count);
        self.ready += count;
        count * self.spectrum
    }

    // Keeps bytes that don't complete a spectrum.
    fn keep_part(&mut self, bytes: &[u8])
        requires room { held_bytes self.old + length bytes.now
            ≤ self.old.chunk * spectrum_bytes self.old }
        requires short { 0 < length bytes.now
            → length self.old.part + length bytes.now < spectrum_bytes self.old }
        ensures { Takes self.old self.new bytes.now }
    {
        hold(self.held.as_mut_slice(), self.filled, bytes);
        self.filled += bytes.len();
    }

    /// The number of complete spectra: those that were pushed and not given up.
    pub fn spectra(&self) -> u32
        ensures whole { result ≡ self.now.whole }
        ensures room { result ≤ self.now.chunk }
        ensures counts { (bytes : List ℕ) (gone : ℕ) → StandsForBytes self.now bytes gone
            → (unpacked self.now bytes).spectra ≡ gone + result }
        ensures holds { (bytes : List ℕ) (gone : ℕ) → HoldsBytes self.now bytes gone
            → (unpacked self.now bytes).spectra ≡ gone + result }
    {
        self.ready as u32
    }

    /// Whether the rows have a byte a sample.
    pub fn in_bytes(&self) -> bool
        ensures { result ≡ self.now.in_bytes }
    {
        self.rows.are_bytes()
    }

    /// The samples of the complete spectra, of 32 bits: a row of `chunk` places for each channel, the highest frequency
    /// first. Past the complete spectra a row has no meaning.
    pub fn rows(&self) -> &[u32]
        requires { self.now.in_bytes ≡ false }
        ensures rows { result.now ≡ self.now.rows }
        ensures long { length result.now ≡ self.now.channels * self.now.chunk }
        ensures samples { (bytes : List ℕ) (gone c t : ℕ) → StandsForBytes self.now bytes gone
            → c < self.now.channels → t < self.now.whole
            → slice_index result.now (c * self.now.chunk + t)
            ≡ (unpacked self.now bytes).value c (gone + t) }
    {
        self.rows.words()
    }

    /// The samples of the complete spectra, a byte each: a row of `chunk` places for each channel, the highest
    /// frequency first. Past the complete spectra a row has no meaning.
    pub fn byte_rows(&self) -> &[u8]
        requires { self.now.in_bytes ≡ true }
        ensures rows { result.now ≡ self.now.rows }
        ensures long { length result.now ≡ self.now.channels * self.now.chunk }
        ensures samples { (bytes : List ℕ) (gone c t : ℕ) → StandsForBytes self.now bytes gone
            → c < self.now.channels → t < self.now.whole
            → slice_index result.now (c * self.now.chunk + t)
            ≡ (unpacked self.now bytes).value c (gone + t) }
    {
        self.rows.bytes()
    }

    /// Sets the row of `channel`, counted from the highest frequency, to 0 in the complete spectra. Spectra that are
    /// completed later are not changed.
    pub fn silence(&mut self, channel: u32)
        requires { channel < self.old.channels }
        ensures without { IsWithout channel self.old self.new }
        ensures holds { (bytes : List ℕ) (gone : ℕ) → HoldsBytes self.old bytes gone
            → HoldsBytes self.new bytes gone }
        ensures kept { (kept less : ℕ → Bool) (bytes : List ℕ) (gone : ℕ)
            → LeavesOut self.old.channels channel kept less
            → StandsForKept kept self.old bytes gone → StandsForKept less self.new bytes gone }
    {
        self.rows
            .silence(channel as usize * self.layout.chunk, self.ready);
    }

    /// Gives up the complete spectra. The bytes of an incomplete spectrum are kept.
    pub fn taken(&mut self)
        ensures part { self.new ≡ record self.old { whole = 0 } }
        ensures given_up { (bytes : List ℕ) (gone : ℕ) → StandsForBytes self.old bytes gone
            → StandsForBytes self.new bytes (gone + self.old.whole) }
        ensures holds { (bytes : List ℕ) (gone : ℕ) → HoldsBytes self.old bytes gone
            → StandsForBytes self.new bytes (gone + self.old.whole) }
    {
        self.ready = 0;
    }
}
