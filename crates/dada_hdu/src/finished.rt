//! The end of both rings, once all passes are back.
ghost use Rattle.std.specs.Prelude.{◌≡◌, option_map};
ghost use Rattle.dada_hdu.specs.Passes.{header_ring, data_ring, header_end, data_end, header_ends, data_ends, WritesBoth};

use crate::ended::HduEnded;
use crate::hdu::Hdu;
use crate::passes::HduWriter;
use arrayvec::ArrayVec;
use ring_ends::{EndedReader, Finished};
use ring_words::MOST_READERS;

/// What went through both rings.
#[derive(Drop)]
pub struct HduFinished {
    /// What went through the header ring.
    pub header: Finished,
    /// What went through the data ring.
    pub blocks: Finished,
}

// The two passes of a reader.
fn both_of(ended: Option<HduEnded>) -> (Option<EndedReader>, Option<EndedReader>)
    ensures header { result.0 ≡ option_map header_end ended }
    ensures blocks { result.1 ≡ option_map data_end ended }
{
    match ended {
        Some(ended) => {
            let (header, blocks) = ended.into_both();
            (Some(header), Some(blocks))
        }
        None => (None, None),
    }
}

// The passes of the header ring and those of the data ring, in the order of the readers.
fn part(
    mut readers: ArrayVec<Option<HduEnded>, MOST_READERS>,
) -> (
    ArrayVec<Option<EndedReader>, MOST_READERS>,
    ArrayVec<Option<EndedReader>, MOST_READERS>,
)
    ensures header { result.0.items ≡ header_ends readers.items }
    ensures blocks { result.1.items ≡ data_ends readers.items }
{
    let mut headers = ArrayVec::new();
    let mut blocks = ArrayVec::new();
    for _place in 0..readers.len() {
        let (header, data) = both_of(readers.remove(0));
        headers.push(header);
        blocks.push(data);
    }
    (headers, blocks)
}

impl Hdu {
    ghost use Rattle.dada_hdu.specs.Ended.{AllReadersOfBoth, RingFinished};

    /// Ends both rings. `readers` are all readers that they had, in any order.
    pub fn finish(
        self,
        writer: HduWriter,
        readers: ArrayVec<Option<HduEnded>, MOST_READERS>,
    ) -> HduFinished
        requires writer { WritesBoth self writer }
        requires readers { AllReadersOfBoth self readers.items }
        ensures header { RingFinished (header_ring self) writer.header header_end readers.items
            result.header }
        ensures blocks { RingFinished (data_ring self) writer.blocks data_end readers.items
            result.blocks }
    {
        let Hdu { header, blocks } = self;
        let (header_readers, block_readers) = part(readers);
        HduFinished {
            header: header.finish(writer.header, header_readers),
            blocks: blocks.finish(writer.blocks, block_readers),
        }
    }
}
