// Bytes that look random, pushed in pieces of many lengths, against samples that are read one by one.
ghost use Rattle.std.specs.Prelude.{◌≡◌, ◌<◌, ◌≤◌, ◌⊎◌, IsTrue, IfSome};

use spectra_rows::Unpacker;
use std::alloc::{AllocError, Global};

// On each line a shape: the channels, the order of their frequencies, the bits and the polarisations of a sample, the
// spectra of a chunk, and the width of a sample in the rows.
const SHAPES: &str = "37 falling 8 1 20 words
37 rising 8 1 3 words
70 rising 8 1 37 words
64 falling 8 1 32 words
2 rising 8 1 50 words
3 falling 16 1 7 words
5 rising 8 2 4 words
4 falling 16 2 9 words
37 falling 8 1 20 bytes
37 rising 8 1 3 bytes
70 rising 8 1 37 bytes
64 falling 8 1 33 bytes
32 falling 8 1 16 bytes
33 rising 8 1 50 bytes
2 falling 8 1 50 bytes
2 rising 8 1 1 bytes";

// A shape: what is unpacked.
#[derive(Clone, Copy, Drop)]
struct Shape {
    channels: u32,
    falling: bool,
    nbit: u32,
    npol: u32,
    chunk: u32,
    in_bytes: bool,
}

impl Shape {
    // The shape of a line, if it has one.
    fn of(line: &str) -> Option<Shape> {
        let mut words = [""; 6];
        for (i, word) in line.split_whitespace().enumerate() {
            if i < words.len() {
                words[i] = word;
            }
        }
        let [channels, order, nbit, npol, chunk, kind] = words;
        Some(Shape {
            channels: channels.parse().ok()?,
            falling: order == "falling",
            nbit: nbit.parse().ok()?,
            npol: npol.parse().ok()?,
            chunk: chunk.parse().ok()?,
            in_bytes: kind == "bytes",
        })
    }

    // Whether an unpacker can be opened for the shape.
    fn is_allowed(self) -> bool
        ensures some_channels { IsTrue result → 2 ≤ self.channels }
        ensures most_channels { IsTrue result → self.channels ≤ 4096 }
        ensures bits { IsTrue result → (self.nbit ≡ 8) ⊎ (self.nbit ≡ 16) }
        ensures polarisations { IsTrue result → (self.npol ≡ 1) ⊎ (self.npol ≡ 2) }
        ensures some_spectra { IsTrue result → 1 ≤ self.chunk }
        ensures most_spectra { IsTrue result → self.chunk ≤ 65536 }
    {
        self.channels >= 2
            && self.channels <= 4096
            && (self.nbit == 8 || self.nbit == 16)
            && (self.npol == 1 || self.npol == 2)
            && self.chunk >= 1
            && self.chunk <= 65536
    }

    fn open(self, alloc: Global) -> Option<Unpacker>
        ensures some { IfSome result (λ u. 2 ≤ self.channels) }
        ensures channels { IfSome result (λ u. u.channels ≡ self.channels) }
    {
        if !self.is_allowed() {
            return None;
        }
        if self.in_bytes {
            return Unpacker::open_bytes(alloc, self.channels, self.falling, self.chunk).ok();
        }
        Unpacker::open(
            alloc,
            self.channels,
            self.falling,
            self.nbit,
            self.npol,
            self.chunk,
        )
        .ok()
    }
}

// `count` bytes.
fn bytes_of(alloc: Global, count: usize) -> Result<Vec<u8>, AllocError> {
    let mut state = 17_u32;
    let mut bytes = Vec::new(alloc);
    for done in 0..count {
        state = state.wrapping_mul(1664525).wrapping_add(1013904223);
        bytes.push((state >> 24) as u8)?;
    }
    Ok(bytes)
}

// A byte, or 0 past the end.
fn byte(bytes: &[u8], at: usize) -> u32 {
    match bytes.get(at) {
        Some(byte) => u32::from(*byte),
        None => 0,
    }
}

// The sample of a channel of a spectrum.
fn sample(bytes: &[u8], shape: Shape, channel: usize, spectrum: usize) -> u32 {
    let channels = shape.channels as usize;
    let place = if shape.falling {
        channel
    } else {
        channels.wrapping_sub(1).wrapping_sub(channel)
    };
    let index = spectrum.wrapping_mul(channels).wrapping_add(place);
    let wide = (shape.nbit / 8) as usize;
    let first = index.wrapping_mul(wide).wrapping_mul(shape.npol as usize);
    let mut sum = 0_u32;
    for q in 0..shape.npol as usize {
        let at = first.wrapping_add(q.wrapping_mul(wide));
        sum = sum.wrapping_add(byte(bytes, at));
        if wide == 2 {
            sum = sum.wrapping_add(byte(bytes, at.wrapping_add(1)).wrapping_mul(256));
        }
    }
    sum
}

// The value at a place of the rows, or `None` past their end.
fn value_at(unpacker: &Unpacker, at: usize) -> Option<u32> {
    if unpacker.in_bytes() {
        let value = *unpacker.byte_rows().get(at)?;
        Some(u32::from(value))
    } else {
        unpacker.rows().get(at).copied()
    }
}

// Whether the rows have the samples of the spectra from `gone` on, and 0 in the channel `silent`.
fn are_rows(
    unpacker: &Unpacker,
    shape: Shape,
    bytes: &[u8],
    gone: usize,
    silent: Option<usize>,
) -> bool {
    for channel in 0..shape.channels as usize {
        for t in 0..unpacker.spectra() as usize {
            let at = channel.wrapping_mul(shape.chunk as usize).wrapping_add(t);
            let wanted = if silent == Some(channel) {
                0
            } else {
                sample(bytes, shape, channel, gone.wrapping_add(t))
            };
            if value_at(unpacker, at) != Some(wanted) {
                return false;
            }
        }
    }
    true
}

// Whether the rows are right after one channel is silenced.
fn is_silenced(
    unpacker: &mut Unpacker,
    shape: Shape,
    bytes: &[u8],
    gone: usize,
    channel: u32,
) -> bool
    requires { channel < unpacker.old.channels }
    ensures { unpacker.new.channels ≡ unpacker.old.channels }
{
    unpacker.silence(channel);
    are_rows(unpacker, shape, bytes, gone, Some(channel as usize))
}

// Pushes pieces of at most 2800 bytes; now and then silences a channel and gives up the complete spectra. Answers
// whether the rows are right after each piece.
fn are_unpacked(unpacker: &mut Unpacker, shape: Shape, bytes: &[u8]) -> bool
    requires some { 2 ≤ shape.channels }
    requires channels { unpacker.old.channels ≡ shape.channels }
{
    let mut start = 0_usize;
    let mut gone = 0_usize;
    for turn in 1..400_usize {
        let rest = bytes.get(start..).unwrap_or(&[]);
        let piece = rest.get(..turn * 37 % 2801).unwrap_or(rest);
        start = start.wrapping_add(unpacker.push(piece));
        if !are_rows(unpacker, shape, bytes, gone, None) {
            return false;
        }
        if turn % 3 == 0 {
            let channel = turn as u32 % shape.channels;
            if !is_silenced(unpacker, shape, bytes, gone, channel) {
                return false;
            }
            gone = gone.wrapping_add(unpacker.spectra() as usize);
            unpacker.taken();
        }
    }
    true
}

// Whether the bytes are unpacked into the right rows for the shape of a line.
fn is_met(alloc: Global, line: &str, bytes: &[u8]) -> bool {
    let Some(shape) = Shape::of(line) else {
        return false;
    };
    match shape.open(alloc) {
        Some(mut unpacker) => are_unpacked(&mut unpacker, shape, bytes),
        None => false,
    }
}

#[test]
fn pieces_are_cut_anywhere(rt: HostRuntime) -> Result<(), AllocError> {
    let bytes = bytes_of(rt.alloc(), 60000)?;
    for line in SHAPES.lines() {
        assert!(rt; is_met(rt.alloc(), line, bytes.as_slice()), "{line}");
    }
    Ok(())
}
