// The options of psr_make.
ghost use Rattle.std.specs.Prelude.{◌≡◌};
ghost use Rattle.psr_make.specs.Table.{option_name, option_row};

use option_rows::{Limits, Reader, Row};

/// An option, which takes a value.
#[derive(Clone, Copy, PartialEq, Eq, Debug)]
pub enum Opt {
    Number,
    Nchan,
    Spectra,
    Delay,
    Period,
    Height,
    Nbit,
    Npol,
}

/// The options in the order in which their values are judged.
pub(crate) const OPTIONS: [Opt; 8] = [
    Opt::Number,
    Opt::Nchan,
    Opt::Spectra,
    Opt::Delay,
    Opt::Period,
    Opt::Height,
    Opt::Nbit,
    Opt::Npol,
];

impl Opt {
    /// The name of the option without its dashes, as in the table of options.
    pub fn name(self) -> &'static str
        ensures { result.now ≡ option_name self }
    {
        match self {
            Opt::Number => "number",
            Opt::Nchan => "nchan",
            Opt::Spectra => "spectra",
            Opt::Delay => "delay",
            Opt::Period => "period",
            Opt::Height => "height",
            Opt::Nbit => "nbit",
            Opt::Npol => "npol",
        }
    }

    /// The row of the option in the table.
    pub(crate) fn row(self) -> Row
        ensures { result ≡ option_row self }
    {
        match self {
            Opt::Number => Row::between(Reader::Whole, 0, 9223372036854775807, 0),
            Opt::Nchan => Row::between(Reader::Whole, 2, 4096, 64),
            Opt::Spectra => Row::between(Reader::Whole, 0, 1048576, 4096),
            Opt::Delay => Row::between(Reader::Whole, 0, 8192, 64),
            Opt::Period => Row::between(Reader::Whole, 1, 1048576, 256),
            Opt::Height => Row::between(Reader::Whole, 0, 200, 2),
            Opt::Nbit => Row {
                reader: Reader::Whole,
                limits: Limits::Either(8, 16),
                default: 8,
            },
            Opt::Npol => Row::between(Reader::Whole, 1, 2, 1),
        }
    }
}
