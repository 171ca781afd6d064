// What an observation is made from.
ghost use Rattle.std.specs.Prelude.{◌≡◌, ◌↔◌, ◌≤◌, ◌*◌, IsTrue};
ghost use Rattle.psr_make.specs.Made.{SpecInRange, value_bytes, cell_bytes, spectrum_bytes};

/// What an observation is made from: the seed of its noise, its shape, and its pulses.
#[derive(Clone, Copy, PartialEq, Eq, Debug)]
pub struct MakeSpec {
    /// The seed of the noise: at most 2^63 - 1.
    pub number: u64,
    /// The number of channels: 2 to 4096.
    pub channels: u32,
    /// The number of spectra: at most 1048576.
    pub spectra: u32,
    /// The delay of a pulse from the top of the band to its foot, in spectra: at most 8192.
    pub delay: u32,
    /// The number of spectra from one pulse to the next: 1 to 1048576.
    pub period: u32,
    /// What is added to each value that a pulse passes: at most 200. If several pulses pass it, it is added once.
    pub height: u32,
    /// The number of bits of a value: 8 or 16.
    pub nbit: u32,
    /// The number of polarisations, each of which has a value: 1 or 2.
    pub npol: u32,
}

impl MakeSpec {
    /// Whether each field is in its range.
    pub fn in_range(&self) -> bool
        ensures { IsTrue result ↔ SpecInRange self.now }
    {
        self.number <= 9223372036854775807
            && (2..=4096).contains(&self.channels)
            && self.spectra <= 1048576
            && self.delay <= 8192
            && (1..=1048576).contains(&self.period)
            && self.height <= 200
            && matches!(self.nbit, 8 | 16)
            && matches!(self.npol, 1 | 2)
    }

    // The size of a value, in bytes.
    pub(crate) fn value_bytes(&self) -> usize
        requires { SpecInRange self.now }
        ensures { result ≡ value_bytes self.now }
    {
        self.nbit as usize / 8
    }

    // The size of a cell, in bytes: the values of all polarisations of one channel in one spectrum.
    pub(crate) fn cell_bytes(&self) -> usize
        requires { SpecInRange self.now }
        ensures bytes { result ≡ cell_bytes self.now }
        ensures most { result ≤ 4 }
    {
        self.npol as usize * self.nbit as usize / 8
    }

    // The size of a spectrum, in bytes.
    pub(crate) fn spectrum_bytes(&self) -> usize
        requires { SpecInRange self.now }
        ensures bytes { result ≡ spectrum_bytes self.now }
        ensures some { 2 ≤ result }
        ensures most { result ≤ 16384 }
    {
        self.channels as usize * self.cell_bytes()
    }

    // The size of all spectra, in bytes.
    pub(crate) fn data_bytes(&self) -> usize
        requires { SpecInRange self.now }
        ensures { result ≡ self.now.spectra * spectrum_bytes self.now }
    {
        self.spectra as usize * self.spectrum_bytes()
    }
}
