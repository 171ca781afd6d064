// Why a header gives no observation.
ghost use Rattle.std.specs.Prelude.{◌≡◌};

use dada_model::Key;
use std::alloc::AllocError;
use thiserror::Error;

/// Why a header gives no observation, or why a later file doesn't continue the observation of the first one.
#[derive(Clone, Copy, Debug, PartialEq, Eq, Drop, Error)]
pub enum ObsFault {
    /// A required keyword is missing.
    #[error("{} is missing", .0.name())]
    Missing(Key),
    /// The value of the keyword is no number.
    #[error("{} is no number", .0.name())]
    BadNumber(Key),
    /// The value is a number, but not one that can be searched.
    #[error("{} is not in the profile", .0.name())]
    OutOfProfile(Key),
    /// The value is a number outside its range.
    #[error("{} is out of range", .0.name())]
    OutOfRange(Key),
    /// A channel is narrower than 1 kHz. `bw` is the absolute value of BW in Hz, `nchan` the number of channels.
    #[error("{nchan} channels in {bw} Hz are too narrow")]
    TooNarrow { bw: u64, nchan: u32 },
    /// In a later header the value differs from that of the first one, is no number, or is missing and has no default.
    #[error("{} differs", .0.name())]
    Differs(Key),
    /// There was no memory.
    #[error("out of memory")]
    Memory,
}

impl From<AllocError> for ObsFault {
    ghost use Rattle.obs_plan.specs.declared.fault.ObsFault.TheVariants.{Memory};

    ghost from_gives = { λ _ fault. fault ≡ Memory };

    fn from(_error: AllocError) -> Self {
        ObsFault::Memory
    }
}
