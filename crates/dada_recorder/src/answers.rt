//! What a recorder returns.
use dada_hdu::ReadStop;
use dada_header::HeaderFault;
use thiserror::Error;

/// Why a transfer isn't recorded, in the order in which the causes are checked.
#[derive(Clone, Copy, Debug, PartialEq, Eq, Error)]
pub enum RecordFault {
    /// The bytes of the header block are no header.
    #[error("no header: {0}")]
    NotHeader(HeaderFault),
    /// The header has no UTC_START.
    #[error("no UTC_START")]
    NoUtc,
    /// UTC_START doesn't have the form yyyy-mm-dd-hh:mm:ss.
    #[error("UTC_START is not of the form yyyy-mm-dd-hh:mm:ss")]
    BadUtc,
    /// One of the three changes of the header doesn't fit. The first such change would make the text `need` bytes long,
    /// in a header of `size` bytes.
    #[error("{need} bytes of text do not fit a header of {size} bytes")]
    Overfull { need: usize, size: usize },
    /// The transfer may need more files than can be numbered with six digits.
    #[error("more than 1000000 files")]
    TooManyFiles,
}

/// How a recording ended. `files` is the number of files over all transfers.
#[derive(Clone, Copy, Debug, PartialEq, Eq)]
pub enum RecordEnd {
    /// The last transfer ended, and all its data are in files.
    Whole { files: u32 },
    /// The stream was given up. The data before that are in files.
    Cut { files: u32 },
    /// The files failed.
    FileFault,
    /// The header of a transfer is refused.
    BadHeader(RecordFault),
    /// The data blocks hold more than `limit` bytes.
    TooLong { limit: u64 },
}

/// What a turn of a recorder did.
#[derive(Clone, Copy, Debug, PartialEq, Eq)]
pub enum RecordTurn {
    /// It cleared one header or data block, and more are to come.
    Moved,
    /// There was no block to read. The next turn tries the same read.
    Waiting(ReadStop),
    /// It cleared one block, and the recording ended with it.
    Ended(RecordEnd),
}
