// The options that take a value.
ghost use Rattle.std.specs.Prelude.{◌≡◌};
ghost use Rattle.search_words.specs.Table.{option_name};

/// An option that takes a value; `File` stands for the names of files.
#[derive(Clone, Copy, PartialEq, Eq, Debug)]
pub enum Opt {
    MaxDelay,
    MinDelay,
    Snr,
    Mean,
    Sd,
    Widths,
    FoldMin,
    FoldMax,
    FoldRows,
    FoldStep,
    Buffers,
    Size,
    Chunk,
    Shards,
    Hands,
    Turns,
    FileSize,
    MaxBytes,
    MaxCandidates,
    File,
}

impl Opt {
    /// The name of the option without its dashes, as in the table of options: `mean`. It is `FILE` for the names of
    /// files.
    pub fn name(self) -> &'static str
        ensures { result.now ≡ option_name self }
    {
        match self {
            Opt::MaxDelay => "max-delay",
            Opt::MinDelay => "min-delay",
            Opt::Snr => "snr",
            Opt::Mean => "mean",
            Opt::Sd => "sd",
            Opt::Widths => "widths",
            Opt::FoldMin => "fold-min",
            Opt::FoldMax => "fold-max",
            Opt::FoldRows => "fold-rows",
            Opt::FoldStep => "fold-step",
            Opt::Buffers => "buffers",
            Opt::Size => "size",
            Opt::Chunk => "chunk",
            Opt::Shards => "shards",
            Opt::Hands => "hands",
            Opt::Turns => "turns",
            Opt::FileSize => "file-size",
            Opt::MaxBytes => "max-bytes",
            Opt::MaxCandidates => "max-candidates",
            Opt::File => "FILE",
        }
    }
}
