// Writes spectra into rows. Only a few channels are turned at a time, so that the places written stay in a near cache.
ghost use Rattle.std.specs.Prelude.{◌≡◌, ◌+◌, ◌-◌, ◌*◌, ◌<◌, ◌≤◌, length, slice_index};
ghost use Rattle.search_model.specs.Samples.{sample_bytes};
ghost use Rattle.spectra_rows.specs.Cells.{AreInTile, WritesCells, cell, channel_place};

use crate::layout::Layout;
use crate::row_sample::RowSample;
use crate::tile::{CHANNELS, SPECTRA, turned};
use std::simd::prelude::*;

// The row of the channel at place `place` of a spectrum.
#[inline(always)]
fn row_of(layout: Layout, place: usize) -> usize
    requires { place < layout.channels }
    ensures row { result ≡ channel_place layout.channels layout.is_falling place }
    ensures within { result < layout.channels }
{
    if layout.is_falling {
        place
    } else {
        layout.channels - 1 - place
    }
}

// Writes the values of sixteen spectra from `from` on into the row of the channel at place `place`.
#[inline(always)]
fn write_values<T: RowSample>(
    rows: &mut [T],
    values: u8x16,
    layout: Layout,
    place: usize,
    from: usize,
)
    requires wide { length values ≡ SPECTRA }
    requires place { place < layout.channels }
    requires chunk { from + SPECTRA ≤ layout.chunk }
    requires room { layout.channels * layout.chunk + (from + SPECTRA)
        ≤ length rows.old + layout.chunk }
    ensures { WritesCells (T.numbers rows.old) (T.numbers rows.new)
        (channel_place layout.channels layout.is_falling)
        layout.channels layout.chunk place (place + 1) from (from + SPECTRA)
        (λ p t. slice_index values (t - from)) }
{
    let at = row_of(layout, place) * layout.chunk + from;
    T::put_bytes(rows, at, values);
}

// Writes sixteen spectra from `from` on, of the 32 channels from place `place` on. A sample is a byte.
fn write_tile<T: RowSample>(rows: &mut [T], bytes: &[u8], layout: Layout, place: usize, from: usize)
    requires place { place + CHANNELS ≤ layout.channels }
    requires chunk { from + SPECTRA ≤ layout.chunk }
    requires bytes { (from + SPECTRA) * layout.channels ≤ length bytes.now }
    requires room { layout.channels * layout.chunk + (from + SPECTRA)
        ≤ length rows.old + layout.chunk }
    ensures { WritesCells (T.numbers rows.old) (T.numbers rows.new)
        (channel_place layout.channels layout.is_falling)
        layout.channels layout.chunk place (place + CHANNELS) from (from + SPECTRA)
        (λ p t. slice_index bytes.now (t * layout.channels + p)) }
{
    let tile = turned(bytes, from * layout.channels + place, layout.channels);
    for lower in 0..16 {
        let values = tile[lower].extract::<0, 16>();
        write_values(rows, values, layout, place + lower, from);
    }
    for upper in 0..16 {
        let values = tile[upper].extract::<16, 16>();
        write_values(rows, values, layout, place + 16 + upper, from);
    }
}

// Writes sixteen spectra from `from` on, of the channels at the places from `place` up to `end`: at most 32. The other
// channels of the tile are not written.
fn write_part<T: RowSample>(
    rows: &mut [T],
    bytes: &[u8],
    layout: Layout,
    place: usize,
    end: usize,
    from: usize,
)
    requires places { AreInTile layout.channels place end }
    requires chunk { from + SPECTRA ≤ layout.chunk }
    requires bytes { (from + 15) * layout.channels + place + CHANNELS ≤ length bytes.now }
    requires room { layout.channels * layout.chunk + (from + SPECTRA)
        ≤ length rows.old + layout.chunk }
    ensures { WritesCells (T.numbers rows.old) (T.numbers rows.new)
        (channel_place layout.channels layout.is_falling)
        layout.channels layout.chunk place end from (from + SPECTRA)
        (λ p t. slice_index bytes.now (t * layout.channels + p)) }
{
    let tile = turned(bytes, from * layout.channels + place, layout.channels);
    let middle = end.min(place + 16);
    for lower in 0..middle - place {
        let values = tile[lower].extract::<0, 16>();
        write_values(rows, values, layout, place + lower, from);
    }
    for upper in 0..end - middle {
        let values = tile[upper].extract::<16, 16>();
        write_values(rows, values, layout, middle + upper, from);
    }
}

// Writes the channels at the places from `place` up to `end`, sixteen spectra at a time from `from` on, while `bytes`
// contains a whole tile. Answers the first spectrum that it did not write.
fn write_tiles<T: RowSample>(
    rows: &mut [T],
    bytes: &[u8],
    layout: Layout,
    place: usize,
    end: usize,
    from: usize,
    to: usize,
) -> usize
    requires places { AreInTile layout.channels place end }
    requires order { from ≤ to }
    requires chunk { to ≤ layout.chunk }
    requires bytes { to * layout.channels ≤ length bytes.now }
    requires room { layout.channels * layout.chunk + to
        ≤ length rows.old + layout.chunk }
    ensures above { from ≤ result }
    ensures within { result ≤ to }
    ensures written { WritesCells (T.numbers rows.old) (T.numbers rows.new)
        (channel_place layout.channels layout.is_falling)
        layout.channels layout.chunk place end from result
        (λ p t. slice_index bytes.now (t * layout.channels + p)) }
{
    let mut done = from;
    while to - done >= SPECTRA {
        if end - place == CHANNELS {
            write_tile(rows, bytes, layout, place, done);
        } else if (done + 15) * layout.channels + place + CHANNELS <= bytes.len() {
            write_part(rows, bytes, layout, place, end, done);
        } else {
            return done;
        }
        done += SPECTRA;
    }
    done
}

// Does what `write_tiles` does, if a sample is one byte. Otherwise writes nothing, and answers `from`.
fn begin_channels<T: RowSample>(
    rows: &mut [T],
    bytes: &[u8],
    layout: Layout,
    place: usize,
    end: usize,
    from: usize,
    to: usize,
) -> usize
    requires places { AreInTile layout.channels place end }
    requires order { from ≤ to }
    requires chunk { to ≤ layout.chunk }
    requires kept { T.keeps layout.nbit layout.npol }
    requires bytes { to * (layout.channels * sample_bytes layout.nbit layout.npol)
        ≤ length bytes.now }
    requires room { layout.channels * layout.chunk + to
        ≤ length rows.old + layout.chunk }
    ensures above { from ≤ result }
    ensures within { result ≤ to }
    ensures written { WritesCells (T.numbers rows.old) (T.numbers rows.new)
        (channel_place layout.channels layout.is_falling)
        layout.channels layout.chunk place end from result
        (cell layout.channels layout.nbit layout.npol bytes.now) }
{
    if layout.nbit == 8 && layout.npol == 1 {
        write_tiles(rows, bytes, layout, place, end, from, to)
    } else {
        from
    }
}

// Writes one spectrum, sample by sample, for the channels at the places from `place` up to `end`.
#[inline(always)]
fn write_spectrum<T: RowSample>(
    rows: &mut [T],
    bytes: &[u8],
    layout: Layout,
    place: usize,
    end: usize,
    spectrum: usize,
)
    requires places { place ≤ end }
    requires inside { end ≤ layout.channels }
    requires chunk { spectrum < layout.chunk }
    requires kept { T.keeps layout.nbit layout.npol }
    requires bytes { (spectrum + 1) * (layout.channels * sample_bytes layout.nbit layout.npol)
        ≤ length bytes.now }
    requires room { layout.channels * layout.chunk + (spectrum + 1)
        ≤ length rows.old + layout.chunk }
    ensures { WritesCells (T.numbers rows.old) (T.numbers rows.new)
        (channel_place layout.channels layout.is_falling)
        layout.channels layout.chunk place end spectrum (spectrum + 1)
        (cell layout.channels layout.nbit layout.npol bytes.now) }
{
    for p in place..end {
        let at = row_of(layout, p) * layout.chunk + spectrum;
        T::put(rows, at, bytes, layout, spectrum * layout.channels + p);
    }
}

// Writes the spectra from `from` up to `to`, sample by sample, for the channels at the places from `place` up to `end`.
fn write_spectra<T: RowSample>(
    rows: &mut [T],
    bytes: &[u8],
    layout: Layout,
    place: usize,
    end: usize,
    from: usize,
    to: usize,
)
    requires places { place ≤ end }
    requires inside { end ≤ layout.channels }
    requires order { from ≤ to }
    requires chunk { to ≤ layout.chunk }
    requires kept { T.keeps layout.nbit layout.npol }
    requires bytes { to * (layout.channels * sample_bytes layout.nbit layout.npol)
        ≤ length bytes.now }
    requires room { layout.channels * layout.chunk + to
        ≤ length rows.old + layout.chunk }
    ensures { WritesCells (T.numbers rows.old) (T.numbers rows.new)
        (channel_place layout.channels layout.is_falling)
        layout.channels layout.chunk place end from to
        (cell layout.channels layout.nbit layout.npol bytes.now) }
{
    for spectrum in from..to {
        write_spectrum(rows, bytes, layout, place, end, spectrum);
    }
}

// Writes the spectra from `from` up to `to` for the channels at the places from `place` up to `end`.
fn write_channels<T: RowSample>(
    rows: &mut [T],
    bytes: &[u8],
    layout: Layout,
    place: usize,
    end: usize,
    from: usize,
    to: usize,
)
    requires places { AreInTile layout.channels place end }
    requires order { from ≤ to }
    requires chunk { to ≤ layout.chunk }
    requires kept { T.keeps layout.nbit layout.npol }
    requires bytes { to * (layout.channels * sample_bytes layout.nbit layout.npol)
        ≤ length bytes.now }
    requires room { layout.channels * layout.chunk + to
        ≤ length rows.old + layout.chunk }
    ensures { WritesCells (T.numbers rows.old) (T.numbers rows.new)
        (channel_place layout.channels layout.is_falling)
        layout.channels layout.chunk place end from to
        (cell layout.channels layout.nbit layout.npol bytes.now) }
{
    let done = begin_channels(rows, bytes, layout, place, end, from, to);
    write_spectra(rows, bytes, layout, place, end, done, to);
}

/// Writes the first `count` spectra of `bytes` into all rows, from the first place of each on.
pub fn unpack<T: RowSample>(rows: &mut [T], bytes: &[u8], layout: Layout, count: usize)
    requires chunk { count ≤ layout.chunk }
    requires kept { T.keeps layout.nbit layout.npol }
    requires bytes { count * (layout.channels * sample_bytes layout.nbit layout.npol)
        ≤ length bytes.now }
    requires room { layout.channels * layout.chunk + count ≤ length rows.old + layout.chunk }
    ensures { WritesCells (T.numbers rows.old) (T.numbers rows.new)
        (channel_place layout.channels layout.is_falling)
        layout.channels layout.chunk 0 layout.channels 0 count
        (cell layout.channels layout.nbit layout.npol bytes.now) }
{
    let mut place = 0;
    while place < layout.channels {
        let end = place + CHANNELS.min(layout.channels - place);
        write_channels(rows, bytes, layout, place, end, 0, count);
        place = end;
    }
}
