// Both rings with the passes of one reader, and what is done with them in turns.
ghost use Rattle.std.specs.Prelude.{◌≡◌, length};
ghost use Rattle.ring_words.specs.Shape.{IsRing};
ghost use Rattle.ring_ends.specs.Passes.{reader_knows};
ghost use Rattle.dada_hdu.specs.Passes.{data_shape, WritesBoth, ReadsBoth};

use arrayvec::ArrayVec;
use dada_hdu::{
    Hdu, HduEnded, HduFinished, HduReader, HduWriter, Mark, ReadStop, RingShape, Taken, WriteStop,
    order_is_enough,
};
use dada_header::Header;
use std::alloc::Global;

#[derive(Drop)]
pub(crate) struct Both {
    pub(crate) hdu: Hdu,
    pub(crate) writer: HduWriter,
    pub(crate) reader: HduReader,
    pub(crate) into: Vec<u8>,
    ghost size: { (data_shape hdu).size ≡ 8 },
    ghost readers: { (data_shape hdu).readers ≡ 1 },
    ghost room: { length into.items ≡ 65537 },
    ghost writes: { WritesBoth hdu writer },
    ghost reads: { ReadsBoth hdu reader },
    ghost number: { (reader_knows reader.blocks).number ≡ 0 },
}

#[derive(Clone, Copy, PartialEq, Eq, Debug)]
pub(crate) enum Seen {
    Wrote(Result<u64, WriteStop>),
    /// What a read answered, and the first byte that was copied.
    Read(Result<Taken, ReadStop>, u8),
    Cleared(u64),
    /// Whether there is room for a block, and whether there is one to read.
    Looked(bool, bool),
    Nothing,
}

/// The measures of a data ring with blocks of 8 bytes for one reader.
pub(crate) fn shape(buffers: u32, max_blocks: u64) -> RingShape
    ensures { result
        ≡ record { buffers = buffers; size = 8; readers = 1; max_blocks = max_blocks } }
{
    RingShape {
        buffers,
        size: 8,
        readers: 1,
        max_blocks,
    }
}

pub(crate) fn open(alloc: Global, shape: RingShape) -> Option<Both>
    requires ring { IsRing shape }
    requires one { shape.readers ≡ 1 }
    requires size { shape.size ≡ 8 }
{
    let into = Vec::from_elem(alloc, 0, 65537).ok()?;
    let Ok((hdu, writer, mut readers)) = Hdu::open(alloc, shape) else {
        return None;
    };
    let reader = readers.remove(0)?;
    Some(Both {
        hdu,
        writer,
        reader,
        into,
    })
}

impl Both {
    pub(crate) fn write_header(&mut self, header: &Header) -> Seen {
        Seen::Wrote(self.hdu.write_header(&mut self.writer, header))
    }

    pub(crate) fn read_header(&mut self) -> Seen {
        let taken = self
            .hdu
            .read_header(&mut self.reader, self.into.as_mut_slice());
        Seen::Read(taken, self.into[0])
    }

    pub(crate) fn clear_header(&mut self) -> Seen {
        if self.reader.header.has_read() {
            Seen::Cleared(self.hdu.clear_header(&mut self.reader))
        } else {
            Seen::Nothing
        }
    }

    pub(crate) fn write(&mut self, byte: u8) -> Seen {
        Seen::Wrote(self.hdu.write(&mut self.writer, &[byte; 8], Mark::More))
    }

    pub(crate) fn end(&mut self) -> Seen {
        Seen::Wrote(self.hdu.write(&mut self.writer, &[1, 2], Mark::End))
    }

    pub(crate) fn read(&mut self) -> Seen {
        let taken = self.hdu.read(&mut self.reader, self.into.as_mut_slice());
        Seen::Read(taken, self.into[0])
    }

    pub(crate) fn clear(&mut self) -> Seen {
        if self.reader.blocks.has_read() {
            Seen::Cleared(self.hdu.clear(&mut self.reader))
        } else {
            Seen::Nothing
        }
    }

    pub(crate) fn look(&self) -> Seen {
        let has_room = self.hdu.has_room(&self.writer);
        Seen::Looked(has_room, self.hdu.has_next(&self.reader))
    }

    /// Detaches the reader, and attaches it again.
    pub(crate) fn again(self) -> Both {
        let Both {
            hdu,
            writer,
            reader,
            into,
        } = self;
        Both {
            hdu,
            writer,
            reader: reader.detach().attach(),
            into,
        }
    }

    /// Ends both rings while the reader is still there.
    pub(crate) fn finish(self) -> HduFinished {
        let Both {
            hdu,
            writer,
            reader,
            into: _,
        } = self;
        let mut readers = ArrayVec::new();
        readers.push(Some(HduEnded::Here(reader)));
        order_is_enough();
        hdu.finish(writer, readers)
    }

    /// Retires the reader, and writes `count` headers and blocks. Answers how many were sealed of each.
    pub(crate) fn write_alone(self, header: &Header, count: u32) -> (u64, u64) {
        let Both {
            hdu,
            mut writer,
            reader,
            into: _,
        } = self;
        let _retired = hdu.retire(reader);
        for _turn in 0..count {
            let _header = hdu.write_header(&mut writer, header);
            let _block = hdu.write(&mut writer, &[7; 8], Mark::More);
        }
        (writer.header.sealed(), writer.blocks.sealed())
    }
}
