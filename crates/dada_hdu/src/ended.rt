//! The readers of both rings when these end.
ghost use Rattle.std.specs.Prelude.{◌≡◌, length};

use crate::passes::{HduDetached, HduReader, HduRetired};
use ring_ends::EndedReader;

/// A reader of both rings when these end.
#[derive(Drop)]
pub enum HduEnded {
    /// It was still reading.
    Here(HduReader),
    /// It was detached.
    Away(HduDetached),
    /// It was retired.
    Retired(HduRetired),
}

impl HduEnded {
    ghost use Rattle.ring_ends.specs.Passes.{ended_knows};
    ghost use Rattle.dada_hdu.specs.Passes.{header_end, data_end};

    /// The reader's number in both rings, from 0.
    pub fn number(&self) -> u32
        ensures { result ≡ (ended_knows (data_end self.now)).number }
    {
        match self {
            HduEnded::Here(reader) => reader.number(),
            HduEnded::Away(reader) => reader.number(),
            HduEnded::Retired(reader) => reader.number(),
        }
    }

    /// The number of headers that the reader cleared.
    pub fn cleared_headers(&self) -> u64
        ensures { result ≡ length (ended_knows (header_end self.now)).cleared }
    {
        match self {
            HduEnded::Here(reader) => reader.header.cleared(),
            HduEnded::Away(reader) => reader.header.cleared(),
            HduEnded::Retired(reader) => reader.header.cleared(),
        }
    }

    // The reader of the header ring, and the reader of the data ring.
    pub(crate) fn into_both(self) -> (EndedReader, EndedReader)
        ensures header { result.0 ≡ header_end self }
        ensures blocks { result.1 ≡ data_end self }
    {
        match self {
            HduEnded::Here(HduReader { header, blocks }) => {
                (EndedReader::Here(header), EndedReader::Here(blocks))
            }
            HduEnded::Away(HduDetached { header, blocks }) => {
                (EndedReader::Away(header), EndedReader::Away(blocks))
            }
            HduEnded::Retired(HduRetired { header, blocks }) => {
                (EndedReader::Retired(header), EndedReader::Retired(blocks))
            }
        }
    }
}
