//! What a feeder answers.
use dada_hdu::Mark;
use dada_header::HeaderFault;
use obs_plan::ObsFault;
use thiserror::Error;

/// Why a later file's header is refused.
#[derive(Clone, Copy, Debug, PartialEq, Eq, Error)]
pub enum HeaderCause {
    /// Its bytes are no header.
    #[error("{0}")]
    Text(HeaderFault),
    /// It has other values than the transfer's first header, or no OBS_OFFSET from 0 to 10^15 bytes.
    #[error("{0}")]
    Fields(ObsFault),
}

/// Why a first header was not read.
#[derive(Clone, Copy, Debug, PartialEq, Eq, Error)]
pub enum FeedFault {
    /// The inputs failed.
    #[error("the inputs failed")]
    ReadFault,
    /// The bytes of this file, counted from 0 over all transfers, begin with no header.
    #[error("header of file {file}: {cause}")]
    BadHeader { file: u32, cause: HeaderFault },
}

/// How a stream of files ended. Files count from 0 over all transfers.
#[derive(Clone, Copy, Debug, PartialEq, Eq)]
pub enum FeedEnd {
    /// All data, `bytes` of them, were sealed.
    Whole {
        bytes: u64,
    },
    /// The inputs failed.
    ReadFault,
    /// The header of this file is refused.
    BadHeader {
        file: u32,
        cause: HeaderCause,
    },
    /// The OBS_OFFSET of this file is `found`, but the one that continues its transfer is `expected`. Both are in
    /// bytes.
    Gap {
        file: u32,
        expected: u64,
        found: u64,
    },
    /// There are more than `limit` data bytes.
    TooLong {
        limit: u64,
    },
}

/// What a turn of a feeder did.
#[derive(Clone, Copy, Debug, PartialEq, Eq)]
pub enum FeedTurn {
    /// It sealed one block, of a header or of data, and more are to come.
    Moved,
    /// The ring was full: this reader had cleared `cleared` of its blocks. The block is tried again in the next turn.
    Waiting { reader: u32, cleared: u64 },
    /// It sealed the last block.
    Ended(FeedEnd),
}

/// A block of data that a feeder hands out.
#[derive(Clone, Copy, Debug, PartialEq, Eq)]
pub struct Handed {
    /// How the stream goes on after the block.
    pub mark: Mark,
    /// How many bytes it has: the first of `Feeder::block`.
    pub used: usize,
    /// How the feeder ended, if this block is the last.
    pub end: Option<FeedEnd>,
}
