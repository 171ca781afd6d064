// The shape of the header ring.
ghost use Rattle.std.specs.Prelude.{◌≡◌};
ghost use Rattle.dada_hdu.specs.Shapes.{header_shape};

use ring_ends::RingShape;

/// The size of a block of the header ring, in bytes: one more than the longest header, so that any header fits a block
/// with the mark `End`.
pub const HEADER_SPACE: u32 = 65537;

// The shape of the header ring beside a data ring of this shape.
pub(crate) fn shape_of_headers(blocks: RingShape) -> RingShape
    ensures { result ≡ header_shape blocks }
{
    RingShape {
        buffers: 2,
        size: HEADER_SPACE,
        readers: blocks.readers,
        max_blocks: blocks.max_blocks,
    }
}
