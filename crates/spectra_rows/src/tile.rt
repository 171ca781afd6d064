// Transposes sixteen spectra of 32 channels with vectors.
ghost use Rattle.std.specs.Prelude.{◌≡◌, ℕ, ◌+◌, ◌*◌, ◌/◌, ◌%◌, ◌<◌, ◌≤◌, length, slice_index, get_or, []};
ghost use Rattle.spectra_rows.specs.Cells.{lane};

use std::simd::prelude::*;

/// The number of channels of a tile.
pub const CHANNELS: usize = 32;

/// The number of spectra of a tile.
pub const SPECTRA: usize = 16;

// Picks the first eight values of each half of two vectors, alternately from the one and the other.
const FIRST: [usize; 32] = [
    0, 32, 1, 33, 2, 34, 3, 35, 4, 36, 5, 37, 6, 38, 7, 39, 16, 48, 17, 49, 18, 50, 19, 51, 20, 52,
    21, 53, 22, 54, 23, 55,
];

// Picks the last eight values of each half of two vectors, alternately from the one and the other.
const LAST: [usize; 32] = [
    8, 40, 9, 41, 10, 42, 11, 43, 12, 44, 13, 45, 14, 46, 15, 47, 24, 56, 25, 57, 26, 58, 27, 59,
    28, 60, 29, 61, 30, 62, 31, 63,
];

// Interleaves the values of the first eight vectors with those of the last eight, within each half of a vector.
#[inline(always)]
fn interleave_halves(tile: [u8x32; 16]) -> [u8x32; 16]
    requires wide { (i : ℕ) → i < 16 → length (get_or tile i []) ≡ 32 }
    ensures wide { (i : ℕ) → i < 16 → length (get_or result i []) ≡ 32 }
    ensures turned { (h k : ℕ) → h < 2 → k < 256
        → lane h result k ≡ lane h tile (k / 2 + 128 * (k % 2)) }
{
    [
        tile[0].shuffle(tile[8], FIRST),
        tile[0].shuffle(tile[8], LAST),
        tile[1].shuffle(tile[9], FIRST),
        tile[1].shuffle(tile[9], LAST),
        tile[2].shuffle(tile[10], FIRST),
        tile[2].shuffle(tile[10], LAST),
        tile[3].shuffle(tile[11], FIRST),
        tile[3].shuffle(tile[11], LAST),
        tile[4].shuffle(tile[12], FIRST),
        tile[4].shuffle(tile[12], LAST),
        tile[5].shuffle(tile[13], FIRST),
        tile[5].shuffle(tile[13], LAST),
        tile[6].shuffle(tile[14], FIRST),
        tile[6].shuffle(tile[14], LAST),
        tile[7].shuffle(tile[15], FIRST),
        tile[7].shuffle(tile[15], LAST),
    ]
}

/// The bytes of 32 channels in sixteen spectra, channel by channel. The first spectrum begins at byte `at`, the others
/// `apart` bytes later each. Vector c has channel c in its lower half and channel 16 + c in its upper half.
#[inline(always)]
pub fn turned(bytes: &[u8], at: usize, apart: usize) -> [u8x32; 16]
    requires { at + 15 * apart + CHANNELS ≤ length bytes.now }
    ensures wide { (i : ℕ) → i < 16 → length (get_or result i []) ≡ 32 }
    ensures turned { (h c s : ℕ) → h < 2 → c < 16 → s < SPECTRA
        → lane h result (16 * c + s) ≡ slice_index bytes.now (at + s * apart + 16 * h + c) }
{
    let spectra = [
        u8x32::from_slice(&bytes[at..]),
        u8x32::from_slice(&bytes[at + apart..]),
        u8x32::from_slice(&bytes[at + 2 * apart..]),
        u8x32::from_slice(&bytes[at + 3 * apart..]),
        u8x32::from_slice(&bytes[at + 4 * apart..]),
        u8x32::from_slice(&bytes[at + 5 * apart..]),
        u8x32::from_slice(&bytes[at + 6 * apart..]),
        u8x32::from_slice(&bytes[at + 7 * apart..]),
        u8x32::from_slice(&bytes[at + 8 * apart..]),
        u8x32::from_slice(&bytes[at + 9 * apart..]),
        u8x32::from_slice(&bytes[at + 10 * apart..]),
        u8x32::from_slice(&bytes[at + 11 * apart..]),
        u8x32::from_slice(&bytes[at + 12 * apart..]),
        u8x32::from_slice(&bytes[at + 13 * apart..]),
        u8x32::from_slice(&bytes[at + 14 * apart..]),
        u8x32::from_slice(&bytes[at + 15 * apart..]),
    ];
    interleave_halves(interleave_halves(interleave_halves(interleave_halves(spectra))))
}
