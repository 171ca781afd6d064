// The two rows that a row is made of.
ghost use Rattle.std.specs.Prelude.{◌≡◌, ℕ, ◌+◌, ◌-◌, ◌^◌, ◌<◌, ◌≤◌, length, slice_index};
ghost use Rattle.row_schedule.specs.Halves.{HaveLength, half_sum};

use fdmt_rows::greatest_narrow_sum;

/// Two rows of 16 bits, whose sum is a row of 32 bits.
#[derive(Clone, Copy)]
pub struct Halves<'a> {
    /// The upper row: the part of the band with the higher frequencies.
    pub upper: &'a [u16],
    /// The lower row.
    pub lower: &'a [u16],
}

impl<'a> Halves<'a> {
    /// The `count` values of a list from each of these two places on.
    pub(crate) fn of(list: &'a [u16], upper: usize, lower: usize, count: usize) -> Halves<'a>
        requires upper { upper + count ≤ length list.now }
        requires lower { lower + count ≤ length list.now }
        ensures long { HaveLength count result }
        ensures sums { (k : ℕ) → k < count → half_sum result k
            ≡ slice_index list.now (upper + k) + slice_index list.now (lower + k) }
    {
        Halves {
            upper: &list[upper..upper + count],
            lower: &list[lower..lower + count],
        }
    }

    /// An upper bound of all sums of the two rows, or `u32::MAX` if none is known.
    pub fn bound(self) -> u32
        requires { (count : ℕ) × HaveLength count self }
        ensures { (count k : ℕ) → HaveLength count self.entry → k < count → result < 2 ^ 32 - 1
            → half_sum self.entry k ≤ result }
    {
        let most = greatest_narrow_sum(self.upper, self.lower);
        if most == u16::MAX {
            return u32::MAX;
        }
        u32::from(most)
    }
}
