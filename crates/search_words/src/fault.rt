// Why arguments give no settings.
use crate::opt::Opt;
use std::alloc::AllocError;
use thiserror::Error;

/// Why arguments give no settings.
#[derive(Clone, Copy, Debug, PartialEq, Eq, Drop, Error)]
pub enum WordFault {
    /// An argument is unknown, one is missing, or there is one too many.
    #[error("the words are refused")]
    Refused,
    /// The first option, in the order of the table, whose value is no number or out of its range. `MinDelay` also if it
    /// is above `MaxDelay`; `File` if there are too many names or transfers, or a transfer has no name.
    #[error("{} is out of range", .0.name())]
    OutOfRange(Opt),
    /// There was no memory.
    #[error("out of memory")]
    Memory,
}

impl From<AllocError> for WordFault {
    ghost use Rattle.std.specs.Prelude.{◌≡◌};
    ghost use Rattle.search_words.specs.declared.fault.WordFault.TheVariants.{Memory};

    ghost from_gives = { λ _ fault. fault ≡ Memory };

    fn from(_error: AllocError) -> Self {
        WordFault::Memory
    }
}
