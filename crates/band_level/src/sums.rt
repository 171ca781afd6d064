// Sums of neighbouring spectra, in as many bits as they need.
ghost use Rattle.std.specs.Prelude.{◌≡◌, ℕ, ◌+◌, ◌<◌, ◌≤◌, false, length, slice_index, IfOk};
ghost use Rattle.band_level.specs.Holding.{WritesRow, sums_of};

use crate::space::{pairs, words};
use psr_base::Memory;
use std::alloc::Global;

/// Values of 32 bits if they are wide, or else of 16. The list of the other width is empty.
#[derive(Drop)]
pub struct Sums {
    is_wide: bool,
    narrow: Vec<u16>,
    wide: Vec<u32>,
}

impl Sums {
    /// Takes the memory for `count` values.
    pub fn open(alloc: Global, is_wide: bool, count: usize) -> Result<Sums, Memory>
        ensures wide { IfOk result (λ s. s.is_wide ≡ is_wide) }
        ensures long { IfOk result (λ s. length (sums_of s) ≡ count) }
    {
        if is_wide {
            Ok(Sums {
                is_wide: true,
                narrow: pairs(alloc, 0)?,
                wide: words(alloc, count)?,
            })
        } else {
            Ok(Sums {
                is_wide: false,
                narrow: pairs(alloc, count)?,
                wide: words(alloc, 0)?,
            })
        }
    }

    /// Writes `row` from place `at` on.
    pub fn write(&mut self, at: usize, row: &[u32])
        requires room { at + length row.now ≤ length (sums_of self.old) }
        requires small { self.old.is_wide ≡ false → (i : ℕ) → i < length row.now
            → slice_index row.now i ≤ 65535 }
        ensures wide { self.new.is_wide ≡ self.old.is_wide }
        ensures writes { WritesRow at row.now (sums_of self.old) (sums_of self.new) }
    {
        if self.is_wide {
            write_wide(self.wide.as_mut_slice(), at, row);
        } else {
            write_narrow(self.narrow.as_mut_slice(), at, row);
        }
    }

    /// Reads `row` from place `at` on.
    pub fn read(&self, at: usize, row: &mut [u32])
        requires inside { at + length row.old ≤ length (sums_of self.now) }
        ensures { (i : ℕ) → i < length row.old
            → slice_index row.new i ≡ slice_index (sums_of self.now) (at + i) }
    {
        if self.is_wide {
            read_wide(self.wide.as_slice(), at, row);
        } else {
            read_narrow(self.narrow.as_slice(), at, row);
        }
    }
}

// Writes a row in 16 bits, from place `at` on.
fn write_narrow(values: &mut [u16], at: usize, row: &[u32])
    requires room { at + length row.now ≤ length values.old }
    requires small { (i : ℕ) → i < length row.now → slice_index row.now i ≤ 65535 }
    ensures { WritesRow at row.now values.old values.new }
{
    for i in 0..row.len() {
        values[at + i] = row[i] as u16;
    }
}

// Writes a row in 32 bits, from place `at` on.
fn write_wide(values: &mut [u32], at: usize, row: &[u32])
    requires room { at + length row.now ≤ length values.old }
    ensures { WritesRow at row.now values.old values.new }
{
    for i in 0..row.len() {
        values[at + i] = row[i];
    }
}

// Reads a row of 16 bits, from place `at` on.
fn read_narrow(values: &[u16], at: usize, row: &mut [u32])
    requires inside { at + length row.old ≤ length values.now }
    ensures { (i : ℕ) → i < length row.old
        → slice_index row.new i ≡ slice_index values.now (at + i) }
{
    for i in 0..row.len() {
        row[i] = u32::from(values[at + i]);
    }
}

// Reads a row of 32 bits, from place `at` on.
fn read_wide(values: &[u32], at: usize, row: &mut [u32])
    requires inside { at + length row.old ≤ length values.now }
    ensures { (i : ℕ) → i < length row.old
        → slice_index row.new i ≡ slice_index values.now (at + i) }
{
    for i in 0..row.len() {
        row[i] = values[at + i];
    }
}
