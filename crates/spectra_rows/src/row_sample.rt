// Two widths of a sample in a row: 32 bits and 8 bits.
ghost use Rattle.std.specs.Prelude.{◌≡◌, ℕ, ◌+◌, ◌*◌, ◌<◌, ◌≤◌, List, length, slice_set, true, false, refl};
ghost use Rattle.std.specs.Simd.Lanes.{put_chunk};
ghost use Rattle.search_model.specs.Samples.{sample_bytes, sample_at};
ghost use Rattle.spectra_rows.specs.Unpacking.{Keeps};

use crate::layout::Layout;
use crate::samples::sample;
use std::simd::prelude::*;

/// A sample as a row stores it.
pub trait RowSample: Copy + Drop {
    // rows as numbers
    ghost numbers: { List Self → List ℕ };

    // whether samples of these bits and polarisations fit
    ghost keeps: { ℕ → ℕ → Type 0 };

    /// Writes sample `index` of `bytes` to place `at` of the rows.
    fn put(rows: &mut [Self], at: usize, bytes: &[u8], layout: Layout, index: usize)
        requires kept { keeps layout.nbit layout.npol }
        requires place { at < length rows.old }
        requires inside { (index + 1) * sample_bytes layout.nbit layout.npol ≤ length bytes.now }
        ensures { numbers rows.new
            ≡ slice_set (numbers rows.old) at (sample_at layout.nbit layout.npol bytes.now index) };

    /// Writes sixteen bytes, each as a sample, from place `at` of the rows on.
    fn put_bytes(rows: &mut [Self], at: usize, values: u8x16)
        requires wide { length values ≡ 16 }
        requires place { at + 16 ≤ length rows.old }
        ensures { numbers rows.new ≡ put_chunk at (numbers rows.old) values };

    // there are as many numbers as samples
    ghost long: { (rows : List Self) → length (numbers rows) ≡ length rows };
}

impl RowSample for u32 {
    ghost numbers = { λ rows. rows };

    ghost keeps = { Keeps false };

    #[inline(always)]
    fn put(rows: &mut [u32], at: usize, bytes: &[u8], layout: Layout, index: usize) {
        rows[at] = sample(bytes, layout.nbit, layout.npol, index);
    }

    #[inline(always)]
    fn put_bytes(rows: &mut [u32], at: usize, values: u8x16) {
        values.cast::<u32>().copy_to_slice(&mut rows[at..]);
    }

    ghost long = { λ rows. refl };
}

impl RowSample for u8 {
    ghost numbers = { λ rows. rows };

    ghost keeps = { Keeps true };

    #[inline(always)]
    fn put(rows: &mut [u8], at: usize, bytes: &[u8], _layout: Layout, index: usize) {
        rows[at] = bytes[index];
    }

    #[inline(always)]
    fn put_bytes(rows: &mut [u8], at: usize, values: u8x16) {
        values.copy_to_slice(&mut rows[at..]);
    }

    ghost long = { λ rows. refl };
}
