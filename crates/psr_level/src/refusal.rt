//! Why an observation isn't levelled.
use channel_mask::MaskFault;

/// Why an observation isn't levelled, whose header is accepted.
#[derive(Clone, Copy, Debug, PartialEq, Eq)]
pub(crate) enum LevelRefusal {
    /// Its averaged spectra are longer than a search takes.
    LongTime,
    /// The mask is none of the observation.
    BadMask(MaskFault),
    /// The header has no room for what levelling changes: the length of its text, and its size.
    NoRoom { need: usize, size: usize },
}
