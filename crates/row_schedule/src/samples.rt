// Samples that are lent, in either width.
ghost use Rattle.std.specs.Prelude.{◌≡◌, ℕ, ◌+◌, ◌%◌, ◌^◌, ◌≤◌, length, slice_index, take, drop};
ghost use Rattle.fdmt_rows.specs.Rows.{Narrows};
ghost use Rattle.row_schedule.specs.Samples.{values_of};

use fdmt_rows::{greatest, narrow_row, widen, widen_to_narrow};

/// Samples that are lent, as values of 32 bits or as bytes.
#[derive(Clone, Copy)]
pub enum Samples<'a> {
    /// Values of 32 bits.
    Words(&'a [u32]),
    /// Samples of 8 bits, a byte each.
    Bytes(&'a [u8]),
}

impl<'a> Samples<'a> {
    /// All samples but the first `count`.
    pub fn skip(self, count: usize) -> Samples<'a>
        requires { count ≤ length (values_of self) }
        ensures { values_of result ≡ drop count (values_of self.entry) }
    {
        match self {
            Samples::Words(words) => Samples::Words(&words[count..]),
            Samples::Bytes(bytes) => Samples::Bytes(&bytes[count..]),
        }
    }

    /// An upper bound: no sample is greater.
    pub fn bound(self) -> u32
        ensures { (k : ℕ) → slice_index (values_of self.entry) k ≤ result }
    {
        match self {
            Samples::Words(words) => greatest(words),
            Samples::Bytes(bytes) => u32::from(greatest_byte(bytes)),
        }
    }

    // The `count` samples from place `at` on.
    pub(crate) fn part(self, at: usize, count: usize) -> Samples<'a>
        requires { at + count ≤ length (values_of self) }
        ensures { values_of result ≡ take count (drop at (values_of self.entry)) }
    {
        match self {
            Samples::Words(words) => Samples::Words(&words[at..at + count]),
            Samples::Bytes(bytes) => Samples::Bytes(&bytes[at..at + count]),
        }
    }

    // Writes all samples as values of 32 bits.
    pub(crate) fn copy_to(self, out: &mut [u32])
        requires { length (values_of self) ≡ length out.old }
        ensures { (k : ℕ) → slice_index out.new k ≡ slice_index (values_of self.entry) k % 2 ^ 32 }
    {
        match self {
            Samples::Words(words) => out.copy_from_slice(words),
            Samples::Bytes(bytes) => widen(out, bytes),
        }
    }

    // Writes all samples as values of 16 bits, modulo 2^16.
    pub(crate) fn narrow_to(self, out: &mut [u16])
        requires { length (values_of self) ≡ length out.old }
        ensures { Narrows out.new (values_of self.entry) }
    {
        match self {
            Samples::Words(words) => narrow_row(out, words),
            Samples::Bytes(bytes) => widen_to_narrow(out, bytes),
        }
    }
}

// An upper bound of the bytes: none is greater.
fn greatest_byte(bytes: &[u8]) -> u8
    ensures { (k : ℕ) → slice_index bytes.now k ≤ result }
{
    let mut most = 0;
    for byte in bytes {
        most = most.max(*byte);
    }
    most
}
