//! The passes of both rings in pairs.
ghost use Rattle.std.specs.Prelude.{◌≡◌};

use ring_ends::{DetachedReader, ReaderPass, RetiredPass, WriterPass};

/// The right to write to both rings.
#[derive(Drop)]
pub struct HduWriter {
    /// The pass of the header ring.
    pub header: WriterPass,
    /// The pass of the data ring.
    pub blocks: WriterPass,
}

/// The right to read from both rings, as one of their registered readers.
#[derive(Drop)]
pub struct HduReader {
    /// The pass of the header ring.
    pub header: ReaderPass,
    /// The pass of the data ring.
    pub blocks: ReaderPass,
}

/// A registered reader that reads nothing for now. The writer still waits for it.
#[derive(Drop)]
pub struct HduDetached {
    /// The pass of the header ring.
    pub header: DetachedReader,
    /// The pass of the data ring.
    pub blocks: DetachedReader,
}

/// A reader that the writer no longer waits for.
#[derive(Drop)]
pub struct HduRetired {
    /// The pass of the header ring.
    pub header: RetiredPass,
    /// The pass of the data ring.
    pub blocks: RetiredPass,
}

impl HduReader {
    ghost use Rattle.ring_ends.specs.Passes.{reader_knows};
    ghost use Rattle.dada_hdu.specs.Answers.{IsDetached};

    /// The reader's number in both rings, from 0.
    pub fn number(&self) -> u32
        ensures { result ≡ (reader_knows self.now.blocks).number }
    {
        self.blocks.number()
    }

    /// Stops reading for now. If a header or a data block was read but not cleared, it is read again later.
    pub fn detach(self) -> HduDetached
        ensures header { IsDetached self.header result.header }
        ensures blocks { IsDetached self.blocks result.blocks }
    {
        let HduReader { header, blocks } = self;
        HduDetached {
            header: header.detach(),
            blocks: blocks.detach(),
        }
    }
}

impl HduDetached {
    ghost use Rattle.ring_ends.specs.Passes.{detached_knows};
    ghost use Rattle.dada_hdu.specs.Answers.{IsAttached};

    /// The reader's number in both rings, from 0.
    pub fn number(&self) -> u32
        ensures { result ≡ (detached_knows self.now.blocks).number }
    {
        self.blocks.number()
    }

    /// Reads again, from the first block of each ring that was not cleared.
    pub fn attach(self) -> HduReader
        ensures header { IsAttached self.header result.header }
        ensures blocks { IsAttached self.blocks result.blocks }
    {
        let HduDetached { header, blocks } = self;
        HduReader {
            header: header.attach(),
            blocks: blocks.attach(),
        }
    }
}

impl HduRetired {
    ghost use Rattle.ring_ends.specs.Passes.{retired_knows};

    /// The reader's number in both rings, from 0.
    pub fn number(&self) -> u32
        ensures { result ≡ (retired_knows self.now.blocks).number }
    {
        self.blocks.number()
    }
}
