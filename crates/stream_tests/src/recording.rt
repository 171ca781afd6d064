// A loop over one recorder: what is written into its rings, and how it ended.
ghost use Rattle.std.specs.Prelude.{◌≡◌, ◌^◌, ◌≤◌, ◌<◌, length, None, [], true, All, IsTrue};
ghost use Rattle.dada_hdu.specs.Passes.{WritesBoth, ReadsBoth, data_shape};
ghost use Rattle.dada_recorder.specs.Making.{IsOpenAs};
ghost use Rattle.dada_recorder.specs.Recorder.{block_size, has_end, has_open_file, RecorderStands, IsSameRecorder};
ghost use Rattle.dada_recorder.specs.Turns.{cleared_headers, cleared_blocks};

use crate::rings::{Rings, open_rings};
use dada_hdu::{Hdu, HduReader, HduWriter, Mark, RingShape};
use dada_header::Header;
use dada_recorder::{RecordEnd, RecordTurn, Recorder};
use psr_base::Files;
use std::alloc::Global;
use std::test::Fail;

/// What is written: the data of a transfer, and the header's lines and the data of a second one, if there is one;
/// whether the last transfer ends or is given up; and what the recorder is opened for.
#[derive(Clone, Copy)]
pub(crate) struct Case {
    pub(crate) first: &'static str,
    pub(crate) second: Option<(&'static str, &'static str)>,
    pub(crate) last: Mark,
    pub(crate) offset: u64,
    pub(crate) size: u32,
    pub(crate) file_size: u64,
    pub(crate) max_bytes: u64,
}

// How many transfers are written.
fn count_of(case: Case) -> usize
    ensures { result ≤ 2 }
{
    match case.second {
        Some(_) => 2,
        None => 1,
    }
}

/// The lines of the first header.
pub(crate) const LINES: &str = "UTC_START 2024-01-02-03:04:05\nNBIT 8\n";

// The offset of a second transfer.
const SECOND_OFFSET: u64 = 7;

/// A header of 4096 bytes with these lines.
pub(crate) fn header_of(alloc: Global, lines: &str) -> Result<Header, Fail> {
    let mut bytes = Vec::from_slice(alloc, lines.as_bytes())?;
    bytes.resize(4096, 0)?;
    match Header::read(alloc, bytes.as_slice()) {
        Ok(header) => Ok(header),
        Err(_) => Err("a header".into()),
    }
}

// Writes the full blocks of a transfer's bytes, and answers where the rest begins.
fn write_full(hdu: &Hdu, pass: &mut HduWriter, bytes: &[u8], size: usize) -> usize
    requires writes { WritesBoth hdu.now pass.old }
    requires size { (data_shape hdu.now).size ≡ size }
    requires some { 1 ≤ size }
    ensures writes { WritesBoth hdu.now pass.new }
    ensures within { result ≤ length bytes.now }
{
    let mut at = 0;
    for _block in 0..bytes.len() {
        if bytes.len() - at < size {
            return at;
        }
        let _written = hdu.write(pass, &bytes[at..at + size], Mark::More);
        at += size;
    }
    at
}

// Writes the last block of a transfer, if it fits, or gives the stream up.
fn write_last(hdu: &Hdu, pass: &mut HduWriter, rest: &[u8], size: usize, last: Mark)
    requires writes { WritesBoth hdu.now pass.old }
    requires size { (data_shape hdu.now).size ≡ size }
    ensures writes { WritesBoth hdu.now pass.new }
{
    match last {
        Mark::Cut => {
            let _written = hdu.write(pass, &[], Mark::Cut);
        }
        Mark::More | Mark::End => {
            if rest.len() < size {
                let _written = hdu.write(pass, rest, Mark::End);
            }
        }
    }
}

// Writes a transfer.
fn write_transfer(
    hdu: &Hdu,
    pass: &mut HduWriter,
    header: &Header,
    bytes: &[u8],
    size: usize,
    last: Mark,
)
    requires writes { WritesBoth hdu.now pass.old }
    requires size { (data_shape hdu.now).size ≡ size }
    requires some { 1 ≤ size }
    ensures writes { WritesBoth hdu.now pass.new }
{
    let _written = hdu.write_header(pass, header);
    let at = write_full(hdu, pass, bytes, size);
    write_last(hdu, pass, &bytes[at..], size, last);
}

// Writes all transfers.
fn write_all(alloc: Global, hdu: &Hdu, pass: &mut HduWriter, case: Case) -> Result<(), Fail>
    requires writes { WritesBoth hdu.now pass.old }
    requires size { (data_shape hdu.now).size ≡ case.size }
    requires some { 1 ≤ case.size }
{
    let header = header_of(alloc, LINES)?;
    let size = case.size as usize;
    let Some((lines, data)) = case.second else {
        write_transfer(hdu, pass, &header, case.first.as_bytes(), size, case.last);
        return Ok(());
    };
    write_transfer(hdu, pass, &header, case.first.as_bytes(), size, Mark::End);
    let header = header_of(alloc, lines)?;
    write_transfer(hdu, pass, &header, data.as_bytes(), size, case.last);
    Ok(())
}

// Whether a reader has cleared nothing.
fn is_fresh(reader: &HduReader) -> bool
    ensures header { result ≡ true → cleared_headers reader.now ≡ [] }
    ensures blocks { result ≡ true → cleared_blocks reader.now ≡ [] }
{
    if reader.header.cleared() > 0 {
        return false;
    }
    reader.blocks.cleared() == 0
}

// Takes a turn, and answers how the recorder ended, if it did.
fn take_turn<F: Files>(
    recorder: &mut Recorder<'_, F>,
    hdu: &Hdu,
    reader: &mut HduReader,
) -> Option<RecordEnd>
    requires reads { ReadsBoth hdu.now reader.old }
    requires size { (data_shape hdu.now).size ≡ block_size recorder.old }
    requires running { has_end recorder.old ≡ None }
    requires is_open { IsOpenAs (has_open_file recorder.old) (F.is_open recorder.old.files.now) }
    requires stands { RecorderStands recorder.old (cleared_headers reader.old)
        (cleared_blocks reader.old) }
    ensures reads { ReadsBoth hdu.now reader.new }
    ensures kept { IsSameRecorder recorder.old recorder.new }
    ensures running { result ≡ None → has_end recorder.new ≡ None }
    ensures is_open { result ≡ None
        → IsOpenAs (has_open_file recorder.new) (F.is_open recorder.new.files.now) }
    ensures stands { RecorderStands recorder.new (cleared_headers reader.new)
        (cleared_blocks reader.new) }
{
    match recorder.turn(hdu, reader) {
        RecordTurn::Moved => None,
        RecordTurn::Waiting(_) => None,
        RecordTurn::Ended(end) => Some(end),
    }
}

// Takes turns until the recorder ended, up to a limit of turns.
fn take_turns<F: Files>(
    recorder: &mut Recorder<'_, F>,
    hdu: &Hdu,
    reader: &mut HduReader,
) -> Option<RecordEnd>
    requires reads { ReadsBoth hdu.now reader.old }
    requires size { (data_shape hdu.now).size ≡ block_size recorder.old }
    requires running { has_end recorder.old ≡ None }
    requires is_open { IsOpenAs (has_open_file recorder.old) (F.is_open recorder.old.files.now) }
    requires stands { RecorderStands recorder.old (cleared_headers reader.old)
        (cleared_blocks reader.old) }
{
    for _turn in 0..40 {
        if let Some(end) = take_turn(recorder, hdu, reader) {
            return Some(end);
        }
    }
    None
}

// The offsets of one transfer or of two.
fn are_offsets(offsets: &[u64]) -> bool
    ensures some { IsTrue result → 1 ≤ length offsets.now }
    ensures few { IsTrue result → length offsets.now ≤ 8 }
    ensures range { IsTrue result → All (λ offset. offset ≤ 10 ^ 15) offsets.now }
{
    match offsets {
        [first] => *first <= 1_000_000_000_000_000,
        [first, second] => { *first <= 1_000_000_000_000_000 && *second <= 1_000_000_000_000_000 }
        _ => false,
    }
}

/// Records what a case writes, and answers how that ended. One turn comes before anything is written.
pub(crate) fn record<F: Files>(
    alloc: Global,
    files: &mut F,
    case: Case,
) -> Result<Option<RecordEnd>, Fail>
    requires { ¬ F.is_open files.old }
{
    let Case {
        size,
        file_size,
        max_bytes,
        ..
    } = case;
    let both = [case.offset, SECOND_OFFSET];
    let offsets = &both[..count_of(case)];
    if !are_offsets(offsets) || file_size < 1 || file_size > 1 << 40 || max_bytes > 1 << 40 {
        return Err("a case".into());
    }
    if size < 1 || size > 1 << 16 {
        return Err("a size".into());
    }
    let shape = RingShape {
        buffers: 16,
        size,
        readers: 1,
        max_blocks: 16,
    };
    if shape.check().is_err() {
        return Err("a shape".into());
    }
    let Some(
        Rings {
            hdu,
            mut pass,
            mut reader,
        },
    ) = open_rings(alloc, shape)
    else {
        return Err("rings".into());
    };
    if !is_fresh(&reader) {
        return Err("a reader".into());
    }
    let mut recorder = Recorder::open(alloc, files, offsets, size, file_size, max_bytes)?;
    if take_turn(&mut recorder, &hdu, &mut reader).is_some() {
        return Err("an end before the first block".into());
    }
    write_all(alloc, &hdu, &mut pass, case)?;
    let end = take_turns(&mut recorder, &hdu, &mut reader);
    recorder.close();
    Ok(end)
}
