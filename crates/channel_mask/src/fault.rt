// Why a text is no mask of an observation.
ghost use Rattle.std.specs.Prelude.{◌≡◌};

use std::alloc::AllocError;
use thiserror::Error;

/// Why a text is no mask of an observation.
#[derive(Clone, Copy, Debug, PartialEq, Eq, Drop, Error)]
pub enum MaskFault {
    /// It is no mask text. `place` is the place, from 0, of the first byte that no mask text has there after the bytes
    /// before it; or the text's length, if a longer text could be one.
    #[error("no mask from byte {place} on")]
    BadMask { place: usize },
    /// A number is no channel: the first such number, and the number of channels.
    #[error("{channel} is none of {channels} channels")]
    OutOfRange { channel: u32, channels: u32 },
    /// All channels are masked.
    #[error("all channels are masked")]
    AllMasked,
    #[error("out of memory")]
    Memory,
}

impl From<AllocError> for MaskFault {
    ghost use Rattle.channel_mask.specs.declared.fault.MaskFault.TheVariants.{Memory};

    ghost from_gives = { λ _ fault. fault ≡ Memory };

    fn from(_error: AllocError) -> Self {
        MaskFault::Memory
    }
}
