// The settings that arguments give.
ghost use Rattle.std.specs.Prelude.{map, string_bytes, IfOk, IfErr};

use crate::fault::LevelFault;
use crate::reading::read;
use search_words::RunSettings;
use std::alloc::Global;

/// How a band is levelled. What is `None` follows from the bits of the data.
#[derive(Clone, Copy, Debug, Drop)]
pub struct LevelOptions {
    /// The number of spectra of a stretch.
    pub spectra: u32,
    /// The number of neighbouring spectra that are added up to one.
    pub average: u32,
    /// How far the mean of a spectrum may lie from that of the band, in thousandths of a standard deviation. A spectrum
    /// farther off is replaced. If `None`, each is kept.
    pub clip: Option<u32>,
    /// Whether the mean of each spectrum is subtracted from it.
    pub zero_dm: bool,
    /// The mean of a levelled channel, in thousandths.
    pub mean: Option<u32>,
    /// The standard deviation of a levelled channel, in thousandths.
    pub deviation: Option<u32>,
    /// The largest value that is written.
    pub most: Option<u32>,
    /// Whether values of 8 bits are written that are searched fast.
    pub is_fast: bool,
    /// Whether the values of the data are signed.
    pub signed: bool,
    /// Whether the high byte of a value comes first.
    pub high_byte_first: bool,
}

/// The settings of a levelling, and those of the run that reads the files.
#[derive(Debug, Drop)]
pub struct LevelSettings {
    /// How the band is levelled.
    pub options: LevelOptions,
    /// The text that names the masked channels, in the order of the file.
    pub mask: String,
    /// How the files are read.
    pub run: RunSettings,
}

impl LevelSettings {
    ghost use Rattle.level_words.specs.Settings.{LevelInRange, level_seen, ExplainsLevel, SayLevel};

    /// The settings that the arguments of `psr_level` give, or why they are refused. The first of `words` is the
    /// program's name.
    pub fn of(alloc: Global, words: &[String]) -> Result<LevelSettings, LevelFault>
        ensures says { IfOk result (λ s. SayLevel (map string_bytes words.now) (level_seen s)) }
        ensures in_range { IfOk result (λ s. LevelInRange (level_seen s)) }
        ensures fault { IfErr result (ExplainsLevel (map string_bytes words.now)) }
    {
        read(alloc, words)
    }
}
