// Scales of 32 bits.
ghost use Rattle.std.specs.Prelude.{◌≡◌, ℕ, ◌+◌, ◌*◌, ◌^◌, ◌<◌, ◌≤◌, ◌≢◌, true, length, slice_index};
ghost use Rattle.band_level.specs.Scales.{unit, most_gain};
ghost use Rattle.band_level.specs.Rows.{HasNarrow, HasScales, NarrowAt, AreLong, Narrows};

use crate::cells::{CellScales, NarrowScales};
use crate::scale::{Scale, UNIT};

// How many values 32 bits have.
const WORD: u64 = 4294967296;

// Whether a scale fits into 32 bits, with all that is made of values up to `most`.
fn fits(scale: Scale, most: u32) -> bool
    requires gain { scale.gain ≤ most_gain }
    requires base { scale.base ≤ 68719476736 }
    requires most { most ≤ 4194303 }
    ensures gain { result ≡ true → scale.gain < 2 ^ 32 }
    ensures lift { result ≡ true → scale.lift < 2 ^ 32 }
    ensures room { result ≡ true → scale.base + scale.gain * most + unit ≤ 2 ^ 32 }
{
    let room = scale.base + scale.gain * u64::from(most) + UNIT;
    scale.gain < WORD && scale.lift < WORD && room <= WORD
}

// Sets the scale of cell `i`, and answers 0, if it fits into 32 bits; else answers 1.
fn set_narrow(
    scale: Scale,
    most: u32,
    i: usize,
    gains: &mut [u32],
    bases: &mut [u32],
    lifts: &mut [u32],
) -> u32
    requires gain { scale.gain ≤ most_gain }
    requires base { scale.base ≤ 68719476736 }
    requires most { most ≤ 4194303 }
    requires place { i < length gains.old }
    requires long { AreLong (length gains.old) gains.old bases.old lifts.old }
    ensures few { result ≤ 1 }
    ensures here { result ≡ 0 → NarrowAt most scale.gain scale.base scale.lift
        (slice_index gains.new i) (slice_index bases.new i) (slice_index lifts.new i) }
    ensures other_gains { (j : ℕ) → j ≢ i
        → slice_index gains.new j ≡ slice_index gains.old j }
    ensures other_bases { (j : ℕ) → j ≢ i
        → slice_index bases.new j ≡ slice_index bases.old j }
    ensures other_lifts { (j : ℕ) → j ≢ i
        → slice_index lifts.new j ≡ slice_index lifts.old j }
{
    if !fits(scale, most) {
        return 1;
    }
    gains[i] = scale.gain as u32;
    bases[i] = scale.base as u32;
    lifts[i] = scale.lift as u32;
    0
}

/// Sets the scales of 32 bits, and whether all fit, with all that is made of values up to `most`.
pub fn narrow_scales(scales: &CellScales, most: u32, narrow: &mut NarrowScales)
    requires scales { HasScales (length narrow.old.gains.items) scales.now }
    requires most { most ≤ 4194303 }
    requires cells { length narrow.old.gains.items ≤ 8192 }
    requires long { HasNarrow (length narrow.old.gains.items) narrow.old }
    ensures long { HasNarrow (length narrow.old.gains.items) narrow.new }
    ensures narrow { Narrows (length narrow.old.gains.items) most scales.now narrow.new }
{
    let gains = scales.gains.as_slice();
    let bases = scales.bases.as_slice();
    let lifts = scales.lifts.as_slice();
    let narrow_gains = narrow.gains.as_mut_slice();
    let narrow_bases = narrow.bases.as_mut_slice();
    let narrow_lifts = narrow.lifts.as_mut_slice();
    let mut misses = 0;
    for i in 0..gains.len() {
        let scale = Scale {
            gain: gains[i],
            base: bases[i],
            lift: lifts[i],
        };
        misses += set_narrow(scale, most, i, narrow_gains, narrow_bases, narrow_lifts);
    }
    narrow.fits = misses == 0;
}
