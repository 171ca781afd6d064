// Rows of samples as they are stored: 32 bits a sample, or a byte.
ghost use Rattle.std.specs.Prelude.{◌≡◌, ◌+◌, ◌*◌, ◌<◌, ◌≤◌, length};
ghost use Rattle.search_model.specs.Samples.{sample_bytes};
ghost use Rattle.spectra_rows.specs.Unpacking.{Keeps};
ghost use Rattle.spectra_rows.specs.Cells.{Silences, Unpacks};

use crate::layout::Layout;
use crate::rows::unpack;

/// Rows of samples, one behind the other.
#[derive(Drop)]
pub enum Rows {
    /// A sample has 32 bits.
    Words(Vec<u32>),
    /// A sample is a byte.
    Bytes(Vec<u8>),
}

impl Rows {
    ghost use Rattle.std.specs.Prelude.{true, false};
    ghost use Rattle.spectra_rows.specs.Kept.{are_bytes, samples_kept};

    /// Whether a sample is a byte.
    pub fn are_bytes(&self) -> bool
        ensures { result ≡ are_bytes self.now }
    {
        match self {
            Rows::Words(_) => false,
            Rows::Bytes(_) => true,
        }
    }

    /// All rows of 32-bit samples.
    pub fn words(&self) -> &[u32]
        requires { are_bytes self.now ≡ false }
        ensures { result.now ≡ samples_kept self.now }
    {
        match self {
            Rows::Words(words) => words.as_slice(),
            Rows::Bytes(_) => &[],
        }
    }

    /// All rows of bytes.
    pub fn bytes(&self) -> &[u8]
        requires { are_bytes self.now ≡ true }
        ensures { result.now ≡ samples_kept self.now }
    {
        match self {
            Rows::Words(_) => &[],
            Rows::Bytes(bytes) => bytes.as_slice(),
        }
    }

    /// Unpacks the first `count` spectra of `bytes`. In each row their samples begin at place `ready`.
    pub fn unpack(&mut self, bytes: &[u8], layout: Layout, ready: usize, count: usize)
        requires chunk { ready + count ≤ layout.chunk }
        requires some { 0 < layout.channels }
        requires kept { Keeps (are_bytes self.old) layout.nbit layout.npol }
        requires bytes { count * (layout.channels * sample_bytes layout.nbit layout.npol)
            ≤ length bytes.now }
        requires room { layout.channels * layout.chunk ≤ length (samples_kept self.old) }
        ensures kind { are_bytes self.new ≡ are_bytes self.old }
        ensures long { length (samples_kept self.new) ≡ length (samples_kept self.old) }
        ensures unpacked { Unpacks layout.channels layout.is_falling layout.nbit layout.npol
            layout.chunk bytes.now (samples_kept self.old) (samples_kept self.new) ready count }
    {
        match self {
            Rows::Words(words) => unpack(&mut words.as_mut_slice()[ready..], bytes, layout, count),
            Rows::Bytes(samples) => {
                unpack(&mut samples.as_mut_slice()[ready..], bytes, layout, count)
            }
        }
    }

    /// Sets `count` samples from place `at` on to 0.
    pub fn silence(&mut self, at: usize, count: usize)
        requires { at + count ≤ length (samples_kept self.old) }
        ensures kind { are_bytes self.new ≡ are_bytes self.old }
        ensures silences { Silences (samples_kept self.old) (samples_kept self.new) at count }
    {
        match self {
            Rows::Words(words) => words.as_mut_slice()[at..at + count].fill(0),
            Rows::Bytes(bytes) => bytes.as_mut_slice()[at..at + count].fill(0),
        }
    }
}
