// Tests of the two ends of a ring: its shape, turns on one thread, and threads.
ghost use Rattle.std.specs.Prelude.{◌≡◌};

use ring_ends::{RingShape, ShapeFault};
use std::test::Fail;

mod duo;
mod pair;
mod threads;

// The shape of a ring with blocks of 8 bytes.
fn shape(buffers: u32, readers: u32, max_blocks: u64) -> RingShape
    ensures { result
        ≡ record { buffers = buffers; size = 8; readers = readers; max_blocks = max_blocks } }
{
    RingShape {
        buffers,
        size: 8,
        readers,
        max_blocks,
    }
}

#[test]
fn measures_are_checked_in_order(rt: HostRuntime) -> Result<(), Fail> {
    let most = RingShape {
        buffers: 64,
        size: 1 << 24,
        readers: 8,
        max_blocks: (1 << 59) - 1,
    };
    let cases = [
        (shape(2, 1, 1), Ok(())),
        (most, Ok(())),
        (shape(1, 0, 0), Err(ShapeFault::Buffers)),
        (
            RingShape {
                buffers: 65,
                ..most
            },
            Err(ShapeFault::Buffers),
        ),
        (
            RingShape {
                size: 0,
                ..shape(2, 9, 0)
            },
            Err(ShapeFault::Size),
        ),
        (
            RingShape {
                size: (1 << 24) + 1,
                ..most
            },
            Err(ShapeFault::Size),
        ),
        (shape(2, 0, 0), Err(ShapeFault::Readers)),
        (RingShape { readers: 9, ..most }, Err(ShapeFault::Readers)),
        (shape(2, 1, 0), Err(ShapeFault::Blocks)),
        (
            RingShape {
                max_blocks: 1 << 59,
                ..most
            },
            Err(ShapeFault::Blocks),
        ),
    ];
    for (shape, answer) in cases {
        assert_eq!(rt; shape.check(), answer);
    }
    Ok(())
}
