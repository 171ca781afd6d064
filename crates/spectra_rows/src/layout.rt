// How spectra lie in the bytes and in the rows.

/// The layout of spectra: value by value in the bytes, channel by channel in the rows.
#[derive(Clone, Copy, Drop)]
pub struct Layout {
    /// The number of channels.
    pub channels: usize,
    /// Whether the first channel of a spectrum is the one of the highest frequency.
    pub is_falling: bool,
    /// Bits of a value: 8 or 16.
    pub nbit: u32,
    /// Polarisations of a sample: 1 or 2. A sample is the sum of their values.
    pub npol: u32,
    /// The number of places of a row.
    pub chunk: usize,
}
