// How the values of an observation lie in its bytes.

/// How data bytes are read. A spectrum has the polarisations of its first channel, then those of the next.
#[derive(Clone, Copy, Drop)]
pub struct Format {
    /// How many channels a spectrum has.
    pub channels: u32,
    /// How many polarisations a channel has.
    pub polarisations: u32,
    /// How many bits a value has: 8 or 16.
    pub bits: u32,
    /// Whether values have a sign.
    pub signed: bool,
    /// Whether the high byte of 16 bits comes first.
    pub high_byte_first: bool,
    /// How many neighbouring spectra are added up to one.
    pub average: u32,
}
