// The settings of a search.
ghost use Rattle.std.specs.Prelude.{◌≡◌, ◌↔◌, IsTrue};

/// The longest delay of a search, in spectra.
pub const MOST_DELAY: u32 = 8192;

/// The largest number of shards of a search.
pub const MOST_SHARDS: usize = 7;

/// The largest number of transfers that one run reads.
pub const MOST_TRANSFERS: usize = 8;

// The longest period of a fold, in spectra.
const LONGEST_PERIOD: u32 = 1_048_576;

// The largest `fold_rows`: how often the rows of a fold are halved.
const GREATEST_HALVINGS: u32 = 12;

// The largest `chunk`, in spectra.
const LONGEST_CHUNK: u32 = 65_536;

// The largest number of shards, as `MOST_SHARDS`.
const SHARD_LIMIT: u32 = 7;

// The largest `max_candidates`.
const CANDIDATE_LIMIT: u32 = 1_048_576;

// The largest mean and standard deviation of a sample, in thousandths.
const GREATEST_NOISE: u32 = 200_000_000;

// The largest threshold, in hundredths.
const GREATEST_SNR: u32 = 100_000;

/// The settings of a search: which delays, boxes and folds it looks for, how the work is shared, and the noise that a
/// candidate stands out of. Delays, widths, periods and `chunk` are in spectra.
#[derive(Clone, Copy, PartialEq, Eq, Debug)]
pub struct Search {
    /// The shortest delay that is searched.
    pub min_delay: u32,
    /// The longest delay that is searched.
    pub max_delay: u32,
    /// The widest box: 1, 2, 4, 8, 16 or 32. Boxes of all smaller powers of two are searched too.
    pub widest: u32,
    /// The shortest period that is folded. Nothing is folded if it is greater than `fold_max`.
    pub fold_min: u32,
    /// The longest period that is folded.
    pub fold_max: u32,
    /// A fold adds up to `2^fold_rows` rows.
    pub fold_rows: u32,
    /// Each `fold_step`-th delay from `min_delay` on is folded.
    pub fold_step: u32,
    /// The largest number of spectra that are unpacked at a time.
    pub chunk: u32,
    /// The number of shards: the parts that the delays are divided into.
    pub shards: u32,
    /// The largest number of candidates that are kept for each shard.
    pub max_candidates: u32,
    /// The mean of a sample, in thousandths.
    pub mean: u32,
    /// The standard deviation of a sample, in thousandths.
    pub sd: u32,
    /// The smallest signal-to-noise ratio of a candidate, in hundredths.
    pub snr: u32,
}

impl Search {
    ghost use Rattle.search_model.specs.Search.{SettingsInRange, DelaysInRange, FoldsInRange, PartsInRange, NoiseInRange, in_one_shard as in_one_shard_of};

    /// Whether each setting is in its range.
    pub fn in_range(&self) -> bool
        ensures { IsTrue result ↔ SettingsInRange self.now }
    {
        self.delays_in_range()
            && self.folds_in_range()
            && self.parts_in_range()
            && self.noise_in_range()
    }

    /// The same search with a single shard, which has all delays.
    pub fn in_one_shard(&self) -> Search
        ensures { result ≡ in_one_shard_of self.now }
    {
        Search { shards: 1, ..*self }
    }

    // Whether the delays and the widest box are in their ranges.
    fn delays_in_range(&self) -> bool
        ensures { IsTrue result ↔ DelaysInRange self.now }
    {
        self.min_delay <= self.max_delay
            && self.max_delay <= MOST_DELAY
            && matches!(self.widest, 1 | 2 | 4 | 8 | 16 | 32)
    }

    // Whether the settings of the folds are in their ranges.
    fn folds_in_range(&self) -> bool
        ensures { IsTrue result ↔ FoldsInRange self.now }
    {
        (2..=LONGEST_PERIOD).contains(&self.fold_min)
            && self.fold_max <= LONGEST_PERIOD
            && (1..=GREATEST_HALVINGS).contains(&self.fold_rows)
            && (1..=MOST_DELAY).contains(&self.fold_step)
    }

    // Whether `chunk`, `shards` and `max_candidates` are in their ranges.
    fn parts_in_range(&self) -> bool
        ensures { IsTrue result ↔ PartsInRange self.now }
    {
        (1..=LONGEST_CHUNK).contains(&self.chunk)
            && (1..=SHARD_LIMIT).contains(&self.shards)
            && self.max_candidates <= CANDIDATE_LIMIT
    }

    // Whether the mean, the standard deviation and the threshold are in their ranges.
    fn noise_in_range(&self) -> bool
        ensures { IsTrue result ↔ NoiseInRange self.now }
    {
        self.mean <= GREATEST_NOISE
            && (1..=GREATEST_NOISE).contains(&self.sd)
            && (1..=GREATEST_SNR).contains(&self.snr)
    }
}
