// One writer and one reader in threads of their own. Each gives up after a number of tries, so that the test ends.
ghost use Rattle.std.specs.Prelude.{◌≡◌, ◌≤◌, length};
ghost use Rattle.dada_hdu.specs.Passes.{data_shape, WritesBoth, ReadsBoth};

use crate::both::{Both, open, shape};
use dada_hdu::{Hdu, HduReader, HduWriter, Mark};
use dada_header::Header;
use std::test::Fail;
use std::thread;
use std::thread::{Threads, join};

const TRIES: u32 = 50_000_000;

const BLOCKS: u64 = 1000;

// Writes a header, and then blocks, each of which has its number in it.
fn write_all(hdu: &Hdu, mut writer: HduWriter, header: &Header) -> HduWriter
    requires size { (data_shape hdu.now).size ≡ 8 }
    requires ring { WritesBoth hdu.now writer }
{
    let _number = hdu.write_header(&mut writer, header);
    for _try in 0..TRIES {
        let number = writer.blocks.sealed();
        if number >= BLOCKS {
            break;
        }
        if hdu
            .write(&mut writer, &number.to_le_bytes(), Mark::More)
            .is_err()
        {
            thread::yield_now();
        }
    }
    writer
}

// Reads the header, if it is there, and clears it.
fn read_header(hdu: &Hdu, reader: &mut HduReader, into: &mut [u8])
    requires room { 65537 ≤ length into.old }
    requires ring { ReadsBoth hdu.now reader.old }
    ensures ring { ReadsBoth hdu.now reader.new }
    ensures room { length into.new ≡ length into.old }
{
    let _taken = hdu.read_header(reader, into);
    if reader.header.has_read() {
        hdu.clear_header(reader);
    }
}

// Whether the next block has its number in it, if there is one. It is cleared.
fn read_block(hdu: &Hdu, reader: &mut HduReader) -> Option<bool>
    requires size { (data_shape hdu.now).size ≡ 8 }
    requires ring { ReadsBoth hdu.now reader.old }
    ensures { ReadsBoth hdu.now reader.new }
{
    let mut into = [0; 8];
    let number = reader.blocks.cleared();
    let taken = hdu.read(reader, &mut into).ok()?;
    if reader.blocks.has_read() {
        hdu.clear(reader);
    }
    Some(taken.used == 8 && into == number.to_le_bytes())
}

// Reads the header and the blocks, and answers whether each block was the right one.
fn read_all(hdu: &Hdu, mut reader: HduReader, into: &mut [u8]) -> (HduReader, bool)
    requires size { (data_shape hdu.now).size ≡ 8 }
    requires room { 65537 ≤ length into.old }
    requires ring { ReadsBoth hdu.now reader }
{
    let mut right = true;
    for _try in 0..TRIES {
        if reader.header.cleared() == 0 {
            read_header(hdu, &mut reader, into);
        } else if reader.blocks.cleared() >= BLOCKS {
            break;
        } else {
            match read_block(hdu, &mut reader) {
                Some(good) => right = right && good,
                None => thread::yield_now(),
            }
        }
    }
    (reader, right)
}

fn write_and_read<R: Threads + Sync>(
    rt: &R,
    both: Both,
    header: &Header,
) -> (HduWriter, (HduReader, bool)) {
    let Both {
        hdu,
        writer,
        reader,
        mut into,
    } = both;
    let into = into.as_mut_slice();
    join(
        rt,
        || -> HduWriter
            requires { ((data_shape hdu).size ≡ 8) × WritesBoth hdu writer }
        { write_all(&hdu, writer, header) },
        || -> (HduReader, bool)
            requires { ((data_shape hdu).size ≡ 8) × ReadsBoth hdu reader
                × (65537 ≤ length into.now) }
        { read_all(&hdu, reader, into) },
    )
}

#[test]
fn a_reader_gets_a_header_and_its_data_in_order(rt: HostRuntime) -> Result<(), Fail> {
    let header = Header::blank(rt.alloc())?;
    let both = open(rt.alloc(), shape(4, 2000)).ok_or("memory")?;
    let (writer, (reader, right)) = write_and_read(&rt, both, &header);
    assert!(rt; right && writer.header.sealed() == 1 && writer.blocks.sealed() == BLOCKS);
    assert!(rt; reader.header.cleared() == 1 && reader.blocks.cleared() == BLOCKS);
    Ok(())
}
