// The options of psr_level.
ghost use Rattle.std.specs.Prelude.{◌≡◌};
ghost use Rattle.level_words.specs.Table.{option_name, option_row, flag_name};

use option_rows::{Reader, Row};

/// An option that takes a value; `File` stands for the names of files.
#[derive(Clone, Copy, PartialEq, Eq, Debug)]
pub enum Opt {
    Spectra,
    Average,
    Mask,
    Clip,
    Mean,
    Deviation,
    Most,
    MaxBytes,
    File,
}

/// The options in the order in which their values are judged.
pub(crate) const OPTIONS: [Opt; 9] = [
    Opt::Spectra,
    Opt::Average,
    Opt::Mask,
    Opt::Clip,
    Opt::Mean,
    Opt::Deviation,
    Opt::Most,
    Opt::MaxBytes,
    Opt::File,
];

/// An option that takes no value.
#[derive(Clone, Copy, PartialEq, Eq, Debug)]
pub enum Flag {
    Fast,
    ZeroDm,
    Signed,
    HighByteFirst,
}

impl Opt {
    /// The name of the option without its dashes, as in the table of options: `mean`. It is `FILE` for the names of
    /// files.
    pub fn name(self) -> &'static str
        ensures { result.now ≡ option_name self }
    {
        match self {
            Opt::Spectra => "spectra",
            Opt::Average => "average",
            Opt::Mask => "mask",
            Opt::Clip => "clip",
            Opt::Mean => "mean",
            Opt::Deviation => "deviation",
            Opt::Most => "most",
            Opt::MaxBytes => "max-bytes",
            Opt::File => "FILE",
        }
    }

    /// The row of the option in the table.
    pub(crate) fn row(self) -> Row
        ensures { result ≡ option_row self }
    {
        match self {
            Opt::Spectra => Row::between(Reader::Whole, 2, 1048576, 16384),
            Opt::Average => Row::between(Reader::Whole, 1, 64, 1),
            Opt::Mask => Row::between(Reader::Whole, 0, 0, 0),
            Opt::Clip => Row::between(Reader::Decimals(3), 0, 1000000000, 0),
            Opt::Mean => Row::between(Reader::Decimals(3), 0, 65535000, 0),
            Opt::Deviation => Row::between(Reader::Decimals(3), 0, 1000000, 0),
            Opt::Most => Row::between(Reader::Whole, 1, 65535, 65535),
            Opt::MaxBytes => Row::between(Reader::Whole, 0, 281474976710656, 1099511627776),
            Opt::File => Row::between(Reader::Whole, 1, 65535, 1),
        }
    }
}

impl Flag {
    /// The name of the flag without its dashes.
    pub fn name(self) -> &'static str
        ensures { result.now ≡ flag_name self }
    {
        match self {
            Flag::Fast => "fast",
            Flag::ZeroDm => "zero-dm",
            Flag::Signed => "signed",
            Flag::HighByteFirst => "high-byte-first",
        }
    }
}
