// Why bytes are no header, and why a header can't be changed.
ghost use Rattle.std.specs.Prelude.{◌≡◌};

use psr_base::Memory;
use thiserror::Error;

/// Why bytes are no header. They are judged in this order: fewer than 4096 bytes, HDR_SIZE, fewer bytes than HDR_SIZE
/// says, the text. `Memory` may come instead.
#[derive(Clone, Copy, PartialEq, Eq, Debug, Drop, Error)]
pub enum HeaderFault {
    /// There are fewer than 4096 bytes, or fewer than HDR_SIZE says. `had` is their number.
    #[error("a header with {had} bytes is too short")]
    Short { had: usize },
    /// A byte of the text is above 127. `place` is that of the first one.
    #[error("the header's byte {place} is no text")]
    NotText { place: usize },
    /// The value of HDR_SIZE is no number, or not from 4096 to 65536.
    #[error("HDR_SIZE is no number from 4096 to 65536")]
    BadSize,
    /// There was no memory.
    #[error("no memory for a header")]
    Memory,
}

impl From<Memory> for HeaderFault {
    ghost use Rattle.dada_header.specs.declared.faults.HeaderFault.TheVariants.{Memory};

    ghost from_gives = { λ _ fault. fault ≡ Memory };

    fn from(_error: Memory) -> Self {
        HeaderFault::Memory
    }
}

/// Why a header can't be changed.
#[derive(Clone, Copy, PartialEq, Eq, Debug, Drop, Error)]
pub enum SetFault {
    /// The changed text would have `need` bytes, which is not less than `size`, the size of the header.
    #[error("{need} bytes of text do not fit a header of {size} bytes")]
    Overfull { need: usize, size: usize },
}
