// Two readers, of which one retires.
ghost use Rattle.std.specs.Prelude.{◌≡◌};
ghost use Rattle.ring_words.specs.Shape.{IsRing};
ghost use Rattle.ring_ends.specs.Passes.{ring_shape, WritesTo, ReadsFrom};

use super::shape;
use ring_ends::{Mark, ReaderPass, Ring, RingShape, WriteStop, WriterPass};
use std::alloc::Global;
use std::test::Fail;

#[derive(Drop)]
struct Duo {
    ring: Ring,
    writer: WriterPass,
    first: ReaderPass,
    second: ReaderPass,
    ghost size: { (ring_shape ring).size ≡ 8 },
    ghost writes: { WritesTo ring writer },
    ghost first_reads: { ReadsFrom ring first },
    ghost second_reads: { ReadsFrom ring second },
}

fn open(alloc: Global, shape: RingShape) -> Option<Duo>
    requires ring { IsRing shape }
    requires two { shape.readers ≡ 2 }
    requires size { shape.size ≡ 8 }
{
    let Ok((ring, writer, mut readers)) = Ring::open(alloc, shape) else {
        return None;
    };
    let first = readers.remove(0)?;
    let second = readers.remove(0)?;
    Some(Duo {
        ring,
        writer,
        first,
        second,
    })
}

fn write(ring: &Ring, writer: &mut WriterPass) -> Result<u64, WriteStop>
    requires size { (ring_shape ring.now).size ≡ 8 }
    requires ring { WritesTo ring.now writer.old }
    ensures { WritesTo ring.now writer.new }
{
    ring.write(writer, &[3; 8], Mark::More)
}

fn read_and_clear(ring: &Ring, reader: &mut ReaderPass) -> u64
    requires size { (ring_shape ring.now).size ≡ 8 }
    requires ring { ReadsFrom ring.now reader.old }
    ensures { ReadsFrom ring.now reader.new }
{
    let mut into = [0; 8];
    let _taken = ring.read(reader, &mut into);
    if reader.has_read() {
        return ring.clear(reader);
    }
    0
}

// What five writes return: two of them, one after the first reader cleared a block, and two after the second reader
// retired.
fn answers(duo: Duo) -> [Result<u64, WriteStop>; 5] {
    let Duo {
        ring,
        mut writer,
        mut first,
        second,
    } = duo;
    let one = write(&ring, &mut writer);
    let two = write(&ring, &mut writer);
    read_and_clear(&ring, &mut first);
    let three = write(&ring, &mut writer);
    let _retired = ring.retire(second);
    let four = write(&ring, &mut writer);
    let five = write(&ring, &mut writer);
    [one, two, three, four, five]
}

#[test]
fn the_writer_does_not_wait_for_a_retired_reader(rt: HostRuntime) -> Result<(), Fail> {
    let duo = open(rt.alloc(), shape(2, 2, 100)).ok_or("memory")?;
    let wanted = [
        Ok(0),
        Ok(1),
        Err(WriteStop::Full {
            reader: 1,
            cleared: 0,
        }),
        Ok(2),
        Err(WriteStop::Full {
            reader: 0,
            cleared: 1,
        }),
    ];
    assert!(rt; answers(duo) == wanted);
    Ok(())
}
