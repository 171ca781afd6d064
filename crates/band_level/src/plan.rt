// What a band is levelled to.

/// What the values of a levelled band are like.
#[derive(Clone, Copy, Drop)]
pub struct Plan {
    /// How many spectra a stretch has.
    pub spectra: u32,
    /// The mean of each channel, in thousandths.
    pub mean: u32,
    /// The standard deviation of each channel, in thousandths.
    pub deviation: u32,
    /// The greatest value that is written.
    pub most: u32,
    /// How many bits are written of a value: 8, or 16 with the low byte first.
    pub bits: u32,
    /// A spectrum whose sum lies farther from its mean than this many deviations, in thousandths, is written as the
    /// mean. `None`: no spectrum is.
    pub clip: Option<u32>,
    /// Whether the mean of each spectrum is taken out.
    pub zero_dm: bool,
}
