// Why a search of an observation is refused.
ghost use Rattle.std.specs.Prelude.{◌≡◌};

use psr_base::Memory;
use thiserror::Error;

/// Why a search of an observation is refused.
#[derive(Clone, Copy, Debug, PartialEq, Eq, Drop, Error)]
pub enum PlanFault {
    /// A sum may pass 32 bits: the greatest sample, the maximum number of cells of a path sum, and how many path sums
    /// are added.
    #[error("{factor} sums of {cells} samples of up to {max_sample} pass 32 bits")]
    SumBound {
        max_sample: u32,
        cells: u32,
        factor: u32,
    },
    /// A fold has more than 2^22 values: the longest period, and the maximum number of halvings of its rows.
    #[error("2^{mmax} rows of {pmax} values are too many to fold")]
    FoldTooLarge {
        pmax: u32,
        mmax: u32,
    },
    /// More than 64 delays are folded.
    #[error("{count} delays are too many to fold")]
    TooManyFolds {
        count: u32,
    },
    /// There are more shards than delays.
    #[error("{count} shards share {delays} delays")]
    TooManyShards {
        count: u32,
        delays: u32,
    },
    /// There was no memory.
    #[error("out of memory")]
    Memory,
}

impl From<Memory> for PlanFault {
    ghost use Rattle.search_engine.specs.declared.fault.PlanFault.TheVariants.{Memory};

    ghost from_gives = { λ _ fault. fault ≡ Memory };

    fn from(_memory: Memory) -> Self {
        PlanFault::Memory
    }
}
