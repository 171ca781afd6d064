// Adding pulses to the bytes of spectra.
ghost use Rattle.std.specs.Prelude.{◌≡◌, ℕ, ◌+◌, ◌*◌, ◌/◌, ◌%◌, ◌<◌, ◌≤◌, All, length, slice_index};
ghost use Rattle.dada_model.specs.Bounds.{most_delay};
ghost use Rattle.psr_make.specs.Made.{SpecInRange, value_bytes, cell_bytes, spectrum_bytes};
ghost use Rattle.psr_make.specs.Raised.{AreRaised, Raises, AreLow, most_low, by_cell, by_run, by_channel};

use crate::spec::MakeSpec;
use crate::train::next_run;

// Adds a height to values of one byte.
#[inline(always)]
fn raise_bytes(values: &mut [u8], height: u8)
    requires height { height ≤ 200 }
    requires low { All (λ x. x ≤ most_low) values.old }
    ensures { AreRaised 1 height values.old values.new }
{
    for value in values.iter_mut() {
        *value += height;
    }
}

// Adds a height to values of two bytes, the low byte first.
#[inline(always)]
fn raise_words(values: &mut [u8], height: u8)
    requires height { height ≤ 200 }
    requires low { All (λ x. x ≤ most_low) values.old }
    requires whole { length values.old % 2 ≡ 0 }
    ensures { AreRaised 2 height values.old values.new }
{
    for i in 0..values.len() / 2 {
        values[2 * i] += height;
    }
}

// Adds the height of the pulses to the values of a cell.
#[inline(always)]
fn raise_values(spec: &MakeSpec, values: &mut [u8])
    requires spec { SpecInRange spec.now }
    requires whole { length values.old ≡ cell_bytes spec.now }
    requires low { All (λ x. x ≤ most_low) values.old }
    ensures { AreRaised (value_bytes spec.now) spec.now.height values.old values.new }
{
    if spec.value_bytes() == 1 {
        raise_bytes(values, spec.height as u8);
    } else {
        raise_words(values, spec.height as u8);
    }
}

// Adds the height of the pulses to the values of cell `cell`.
#[inline(always)]
fn raise_cell(spec: &MakeSpec, cell: usize, bytes: &mut [u8])
    requires spec { SpecInRange spec.now }
    requires within { (cell + 1) * cell_bytes spec.now ≤ length bytes.old }
    requires low { (x : ℕ) → x < cell_bytes spec.now
        → slice_index bytes.old (cell * cell_bytes spec.now + x) ≤ most_low }
    ensures { Raises spec.now bytes.old bytes.new (by_cell spec.now cell) }
{
    let wide = spec.cell_bytes();
    let start = cell * wide;
    raise_values(spec, &mut bytes[start..start + wide]);
}

// Adds the height of the pulses to the cells of a channel in the spectra `start..end` of `bytes`.
fn raise_run(spec: &MakeSpec, channel: usize, start: usize, end: usize, bytes: &mut [u8])
    requires spec { SpecInRange spec.now }
    requires channel { channel < spec.now.channels }
    requires order { start ≤ end }
    requires within { end * spectrum_bytes spec.now ≤ length bytes.old }
    requires low { AreLow spec.now bytes.old channel start end }
    ensures { Raises spec.now bytes.old bytes.new (by_run spec.now channel start end) }
{
    for t in start..end {
        raise_cell(spec, t * spec.channels as usize + channel, bytes);
    }
}

/// Adds the pulses to a channel. A pulse enters it `enters` spectra after the top of the band, and leaves it `leaves`
/// spectra after. `bytes` has `count` spectra, of which the first has the number `first`.
pub(crate) fn raise_channel(
    spec: &MakeSpec,
    channel: usize,
    enters: usize,
    leaves: usize,
    first: usize,
    count: usize,
    bytes: &mut [u8],
)
    requires spec { SpecInRange spec.now }
    requires channel { channel < spec.now.channels }
    requires passage { enters ≤ leaves }
    requires delay { leaves ≤ most_delay }
    requires spectra { first + count ≤ spec.now.spectra }
    requires whole { count * spectrum_bytes spec.now ≡ length bytes.old }
    requires low { AreLow spec.now bytes.old channel 0 count }
    ensures { Raises spec.now bytes.old bytes.new
        (by_channel spec.now channel enters leaves first count) }
{
    let mut done = 0;
    while done < count {
        let run = next_run(spec, enters, leaves, first + done, first + count);
        raise_run(spec, channel, run.start - first, run.end - first, bytes);
        done = run.end - first;
    }
}
