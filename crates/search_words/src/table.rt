// The table of options.
ghost use Rattle.std.specs.Prelude.{◌≡◌};
ghost use Rattle.search_words.specs.Table.{option_row, offers as offers_of, demands as demands_of};

use crate::opt::Opt;
use option_rows::{Limits, Reader, Row};

/// The options in the order in which their values are judged.
pub(crate) const OPTIONS: [Opt; 20] = [
    Opt::MaxDelay,
    Opt::MinDelay,
    Opt::Snr,
    Opt::Mean,
    Opt::Sd,
    Opt::Widths,
    Opt::FoldMin,
    Opt::FoldMax,
    Opt::FoldRows,
    Opt::FoldStep,
    Opt::Buffers,
    Opt::Size,
    Opt::Chunk,
    Opt::Shards,
    Opt::Hands,
    Opt::Turns,
    Opt::FileSize,
    Opt::MaxBytes,
    Opt::MaxCandidates,
    Opt::File,
];

impl Opt {
    /// The row of the option in the table.
    pub(crate) fn row(self) -> Row
        ensures { result ≡ option_row self }
    {
        match self {
            Opt::MaxDelay => Row::between(Reader::Whole, 0, 8192, 256),
            Opt::MinDelay => Row::between(Reader::Whole, 0, 8192, 0),
            Opt::Snr => Row::between(Reader::Decimals(2), 1, 100000, 700),
            Opt::Mean => Row::between(Reader::Decimals(3), 0, 200000000, 0),
            Opt::Sd => Row::between(Reader::Decimals(3), 1, 200000000, 1000),
            Opt::Widths => Row {
                reader: Reader::Whole,
                limits: Limits::BoxWidth,
                default: 8,
            },
            Opt::FoldMin => Row::between(Reader::Whole, 2, 1048576, 2),
            Opt::FoldMax => Row::between(Reader::Whole, 0, 1048576, 0),
            Opt::FoldRows => Row::between(Reader::Whole, 1, 12, 6),
            Opt::FoldStep => Row::between(Reader::Whole, 1, 8192, 64),
            Opt::Buffers => Row::between(Reader::Whole, 2, 64, 4),
            Opt::Size => Row::between(Reader::Whole, 1, 16777216, 524288),
            Opt::Chunk => Row::between(Reader::Whole, 1, 65536, 1024),
            Opt::Shards => Row::between(Reader::Whole, 1, 7, 1),
            Opt::Hands => Row::between(Reader::Whole, 1, 9, 1),
            Opt::Turns => Row::between(Reader::Whole, 1, 1048576, 64),
            Opt::FileSize => Row::between(Reader::Whole, 1, 1099511627776, 1073741824),
            Opt::MaxBytes => Row::between(Reader::Whole, 0, 281474976710656, 1099511627776),
            Opt::MaxCandidates => Row::between(Reader::Whole, 0, 1048576, 65536),
            Opt::File => Row::between(Reader::Whole, 1, 65535, 1),
        }
    }
}

/// A program that reads its arguments by this table.
#[derive(Clone, Copy)]
pub(crate) enum Program {
    PsrSearch,
    PsrRecord,
}

impl Program {
    ghost use Rattle.search_words.specs.Command.{program_name};

    /// The name of the program.
    pub(crate) fn name(self) -> &'static str
        ensures { result.now ≡ program_name self }
    {
        match self {
            Program::PsrSearch => "psr_search",
            Program::PsrRecord => "psr_record",
        }
    }

    /// Whether the program has the option, and the option takes a value.
    pub(crate) fn offers(self, opt: Opt) -> bool
        ensures { result ≡ offers_of self opt }
    {
        match opt {
            Opt::File => false,
            Opt::Buffers | Opt::Size | Opt::Hands | Opt::Turns | Opt::FileSize | Opt::MaxBytes =>
                true,
            _ => matches!(self, Program::PsrSearch),
        }
    }

    /// Whether the option is required.
    pub(crate) fn demands(self, opt: Opt) -> bool
        ensures { result ≡ demands_of self opt }
    {
        matches!(self, Program::PsrSearch) && matches!(opt, Opt::Mean | Opt::Sd)
    }
}
