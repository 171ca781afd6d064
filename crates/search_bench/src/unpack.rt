//! Measures how spectra of 1024 channels are turned into rows, in chunks of 256 spectra.

use psr_base::Memory;
use spectra_rows::Unpacker;
use std::alloc::Global;

/// The width of a sample in the rows: 32 bits, or a byte.
#[derive(Clone, Copy)]
pub enum Kind {
    Words,
    Bytes,
}

/// A chunk that is unpacked `repeats` times.
#[derive(Clone, Copy)]
pub struct Work {
    pub into: Kind,
    pub repeats: u32,
}

/// The work of the arguments KIND REPEATS, or `None` if they are not of this form.
pub fn work_of(words: &[String]) -> Option<Work> {
    let [kind, repeats] = words else {
        return None;
    };
    Some(Work {
        into: match kind.as_str() {
            "words" => Kind::Words,
            "bytes" => Kind::Bytes,
            _ => return None,
        },
        repeats: repeats.as_str().parse().ok()?,
    })
}

// Opens an unpacker whose rows are of a kind.
fn opened(alloc: Global, into: Kind) -> Result<Unpacker, Memory> {
    match into {
        Kind::Words => Unpacker::open(alloc, 1024, true, 8, 1, 256),
        Kind::Bytes => Unpacker::open_bytes(alloc, 1024, true, 256),
    }
}

// A value of the rows, or 0 past their end.
fn value_at(unpacker: &Unpacker, at: usize) -> u32 {
    if unpacker.in_bytes() {
        u32::from(unpacker.byte_rows().get(at).copied().unwrap_or(0))
    } else {
        unpacker.rows().get(at).copied().unwrap_or(0)
    }
}

/// Unpacks a chunk as often as asked, and answers a sum of the samples.
pub fn do_work(alloc: Global, work: Work) -> Result<u32, Memory> {
    let bytes = vec![in alloc; 3_u8; 262144]?;
    let mut unpacker = opened(alloc, work.into)?;
    let mut sum = 0_u32;
    for turn in 0..work.repeats {
        let taken = unpacker.push(bytes.as_slice());
        let at = taken.wrapping_add(turn as usize) & 0xFFFF;
        sum = sum.wrapping_add(value_at(&unpacker, at));
        unpacker.taken();
    }
    Ok(sum)
}
