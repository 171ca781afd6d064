// Boxes of how far the values of a row lie above a base, in 16 bits: an upper bound of the row's boxes, found without
// making the row.
ghost use Rattle.std.specs.Prelude.{◌≡◌, ℕ, ◌+◌, ◌-◌, ◌*◌, ◌^◌, ◌<◌, ◌≤◌, ◌++◌, false, List, Some, IfOk, length, slice_index};
ghost use Rattle.fdmt_rows.specs.Capped.{capped_sum};
ghost use Rattle.fdmt_rows.specs.Excess.{excess, excess_of_two};
ghost use Rattle.box_sums.specs.Excess.{AreAllBelow, AreExcess, plain_sums};

use crate::sums::width_of;
use fdmt_rows::{add_capped_greatest, add_excess_greatest, write_excess_greatest};
use psr_base::Memory;
use std::alloc::Global;
use std::marker::Model;

// The number of widths that a box can have.
const LEVELS: usize = 6;

// How far the bases of both rows together lie below the first values, summed over the widest box: half the range of 16
// bits, so that boxes of noise fit. This is tuning; no clause asks for it.
const ROOM: u16 = 32768;

/// Memory for how far the values of a line lie above a base, and for the boxes of these: a row for each width, of
/// `stride` values.
#[derive(Drop)]
pub struct ExcessBoxes {
    stride: usize,
    rows: Vec<u16>,
}

impl Model for ExcessBoxes {
    ghost use Rattle.std.specs.Prelude.{◌≡◌, ◌*◌, ℕ, length};

    ghost Value = { ℕ };

    ghost view = { λ e. e.stride };

    ghost invariant = { λ e. length e.rows.items ≡ 6 * e.stride };
}

impl ExcessBoxes {
    /// Takes the memory for lines of at most `stride` values.
    pub fn open(alloc: Global, stride: usize) -> Result<ExcessBoxes, Memory>
        requires { stride ≤ 2 ^ 32 }
        ensures { IfOk result (λ e. e ≡ stride) }
    {
        Ok(ExcessBoxes {
            stride,
            rows: vec![in alloc; 0; LEVELS * stride]?,
        })
    }

    /// Whether a box of 2^level values of the line may reach `leasts[level]`, for any level. The line is `tail`,
    /// followed by the sums of `upper` and `lower`. If the answer is `false`, none does.
    pub fn may_reach(
        &mut self,
        tail: &[u32],
        upper: &[u16],
        lower: &[u16],
        leasts: &[Option<u32>],
    ) -> bool
        requires some { 16 ≤ length tail.now }
        requires more { 16 ≤ length upper.now }
        requires same { length lower.now ≡ length upper.now }
        requires room { length tail.now + length upper.now ≤ self.old }
        requires few { length leasts.now ≤ 6 }
        requires wide { (level : ℕ) → level < length leasts.now
            → 2 ^ level + 15 ≤ length tail.now + length upper.now }
        ensures kept { self.new ≡ self.old }
        ensures below { result ≡ false → AreAllBelow
            (tail.now ++ plain_sums upper.now lower.now)
            (length tail.now + length upper.now) leasts.now (length leasts.now) }
    {
        line_may_reach(
            self.rows.as_mut_slice(),
            self.stride,
            tail,
            upper,
            lower,
            leasts,
        )
    }
}

// The first value of a row less `room`, or 0.
fn base_of(row: &[u16], room: u16) -> u16 {
    match row.first() {
        Some(first) => first.saturating_sub(room),
        None => 0,
    }
}

// The sum of both bases.
fn both_bases(upper_base: u16, lower_base: u16) -> u32
    ensures { result ≡ upper_base + lower_base }
{
    u32::from(upper_base) + u32::from(lower_base)
}

// Writes how far the values of a line lie above both bases together: those of `tail`, then the sums of `upper` and
// `lower`. Answers the greatest value written.
fn fill(
    rows: &mut [u16],
    tail: &[u32],
    upper: &[u16],
    lower: &[u16],
    upper_base: u16,
    lower_base: u16,
) -> u16
    requires some { 16 ≤ length tail.now }
    requires more { 16 ≤ length upper.now }
    requires same { length lower.now ≡ length upper.now }
    requires room { length tail.now + length upper.now ≤ length rows.old }
    ensures front { (k : ℕ) → k < length tail.now → slice_index rows.new k
        ≡ excess (upper_base + lower_base) (slice_index tail.now k) }
    ensures back { (k : ℕ) → k < length upper.now → slice_index rows.new (length tail.now + k)
        ≡ excess_of_two upper_base lower_base (slice_index upper.now k)
        (slice_index lower.now k) }
    ensures bound { (k : ℕ) → k < length tail.now + length upper.now
        → slice_index rows.new k ≤ result }
{
    let base = both_bases(upper_base, lower_base);
    let (front, back) = rows.split_at_mut(tail.len());
    let before = write_excess_greatest(front, tail, base);
    let out = &mut back[..upper.len()];
    before.max(add_excess_greatest(out, upper, lower, upper_base, lower_base))
}

// Adds values of row `level` that are `width` places apart into the next row, and answers the greatest sum.
fn double(rows: &mut [u16], stride: usize, level: usize, width: usize, count: usize) -> u16
    requires few { level ≤ 4 }
    requires room { (level + 2) * stride ≤ length rows.old }
    requires inside { width + count ≤ stride }
    requires some { 16 ≤ count }
    ensures doubled { (i : ℕ) → i < count → slice_index rows.new ((level + 1) * stride + i)
        ≡ capped_sum (slice_index rows.old (level * stride + i))
        (slice_index rows.old (level * stride + (width + i))) }
    ensures bound { (i : ℕ) → i < count
        → slice_index rows.new ((level + 1) * stride + i) ≤ result }
{
    let (low, high) = rows.split_at_mut((level + 1) * stride);
    let from = &low[level * stride..];
    add_capped_greatest(
        &mut high[..count],
        &from[..count],
        &from[width..width + count],
    )
}

// The row of boxes that was made last, each of 2^level values, and its greatest value.
#[derive(Clone, Copy)]
struct Made {
    level: usize,
    greatest: u16,
}

impl Made {
    // An upper bound of a box of 2^level values, because none lies further above its bases than `greatest`.
    fn most(self, base: u32) -> u64
        requires { self.level ≤ 5 }
        ensures value { result ≡ base * 2 ^ self.level + self.greatest }
        ensures bound { result < 2 ^ 38 }
    {
        u64::from(base) * width_of(self.level) as u64 + u64::from(self.greatest)
    }

    // Whether a box of 2^wide values may reach `least`. It is the sum of 2^(wide - level) boxes of this row.
    fn may_reach(self, base: u32, wide: usize, least: u32) -> bool
        requires order { self.level ≤ wide }
        requires few { wide ≤ 5 }
        ensures known { result ≡ false → self.greatest < 65535 }
        ensures below { result ≡ false
            → (base * 2 ^ self.level + self.greatest) * 2 ^ (wide - self.level) < least }
    {
        if self.greatest == u16::MAX {
            return true;
        }
        self.most(base) * width_of(wide - self.level) as u64 >= u64::from(least)
    }
}

// Makes boxes of further widths, up to 2^wide values, but stops at the first width whose maximum shows that boxes of
// 2^wide values are below `least`. Answers the last row made.
fn refine(
    rows: &mut [u16],
    stride: usize,
    base: u32,
    total: usize,
    mut made: Made,
    wide: usize,
    least: u32,
) -> Made
    requires order { made.level ≤ wide }
    requires few { wide ≤ 5 }
    requires rows { length rows.old ≡ 6 * stride }
    requires short { total ≤ stride }
    requires room { 2 ^ wide + 15 ≤ total }
    ensures more { made.level ≤ result.level }
    ensures within { result.level ≤ wide }
    ensures excess { (line : List ℕ)
        → AreExcess line rows.old stride base total made.level made.greatest
        → AreExcess line rows.new stride base total result.level result.greatest }
{
    while made.level < wide && made.may_reach(base, wide, least) {
        let width = width_of(made.level);
        made = Made {
            level: made.level + 1,
            greatest: double(rows, stride, made.level, width, total + 1 - 2 * width),
        };
    }
    made
}

// Whether a box of any width may reach the threshold of its width. Row 0 is made, and `greatest` is its greatest value.
fn any_may_reach(
    rows: &mut [u16],
    stride: usize,
    base: u32,
    total: usize,
    greatest: u16,
    leasts: &[Option<u32>],
) -> bool
    requires rows { length rows.old ≡ 6 * stride }
    requires short { total ≤ stride }
    requires few { length leasts.now ≤ 6 }
    requires wide { (level : ℕ) → level < length leasts.now → 2 ^ level + 15 ≤ total }
    ensures { result ≡ false → (line : List ℕ)
        → AreExcess line rows.old stride base total 0 greatest
        → AreAllBelow line total leasts.now (length leasts.now) }
{
    let mut made = Made { level: 0, greatest };
    for wide in 0..leasts.len() {
        let Some(least) = leasts[wide] else {
            continue;
        };
        made = refine(rows, stride, base, total, made, wide, least);
        if made.may_reach(base, wide, least) {
            return true;
        }
    }
    false
}

// Does what `ExcessBoxes::may_reach` does, in these rows.
fn line_may_reach(
    rows: &mut [u16],
    stride: usize,
    tail: &[u32],
    upper: &[u16],
    lower: &[u16],
    leasts: &[Option<u32>],
) -> bool
    requires rows { length rows.old ≡ 6 * stride }
    requires some { 16 ≤ length tail.now }
    requires more { 16 ≤ length upper.now }
    requires same { length lower.now ≡ length upper.now }
    requires room { length tail.now + length upper.now ≤ stride }
    requires few { length leasts.now ≤ 6 }
    requires wide { (level : ℕ) → level < length leasts.now
        → 2 ^ level + 15 ≤ length tail.now + length upper.now }
    ensures { result ≡ false → AreAllBelow (tail.now ++ plain_sums upper.now lower.now)
        (length tail.now + length upper.now) leasts.now (length leasts.now) }
{
    let room = ROOM >> leasts.len();
    let upper_base = base_of(upper, room);
    let lower_base = base_of(lower, room);
    let base = both_bases(upper_base, lower_base);
    let greatest = fill(rows, tail, upper, lower, upper_base, lower_base);
    any_may_reach(
        rows,
        stride,
        base,
        tail.len() + upper.len(),
        greatest,
        leasts,
    )
}
