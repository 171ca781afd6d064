// Sums of neighbours, made by doubling, and the greatest of each width.
ghost use Rattle.std.specs.Prelude.{◌≡◌, ℕ, ◌+◌, ◌-◌, ◌*◌, ◌^◌, ◌<◌, ◌≤◌, false, List, length, slice_index};
ghost use Rattle.fdmt_rows.specs.Rows.{wrapping_sum, sum_from};
ghost use Rattle.box_sums.specs.Tables.{AreMade};

use fdmt_rows::add_rows_greatest;

// Adds to each of the first `count` values of a row the one `width` places later, and answers the greatest sum.
fn add_neighbours(out: &mut [u32], row: &[u32], width: usize, count: usize) -> u32
    requires room { count ≤ length out.old }
    requires inside { width + count ≤ length row.now }
    ensures sums { (i : ℕ) → i < count → slice_index out.new i
        ≡ wrapping_sum (slice_index row.now i) (slice_index row.now (width + i)) }
    ensures bound { (i : ℕ) → i < count → slice_index out.new i ≤ result }
{
    add_rows_greatest(&mut out[..count], &row[..count], &row[width..width + count])
}

// Makes the next row of boxes, twice as wide as those of row `level`, which are `width` wide. Answers the greatest one.
fn double(boxes: &mut [u32], stride: usize, level: usize, width: usize, count: usize) -> u32
    requires few { level ≤ 3 }
    requires room { (level + 2) * stride ≤ length boxes.old }
    requires inside { width + count ≤ stride }
    ensures doubled { (i : ℕ) → i < count → slice_index boxes.new ((level + 1) * stride + i)
        ≡ wrapping_sum (slice_index boxes.old (level * stride + i))
        (slice_index boxes.old (level * stride + (width + i))) }
    ensures below { (k : ℕ) → k < (level + 1) * stride
        → slice_index boxes.new k ≡ slice_index boxes.old k }
    ensures bound { (i : ℕ) → i < count
        → slice_index boxes.new ((level + 1) * stride + i) ≤ result }
{
    let (low, high) = boxes.split_at_mut((level + 1) * stride);
    add_neighbours(high, &low[level * stride..], width, count)
}

/// Makes the boxes of two of the first `total` values of a line, and their maximum, unless `widest` is 1. Answers how
/// many widths are made: 1 or 0.
pub fn add_pairs(
    boxes: &mut [u32],
    greatest: &mut [u32],
    widest: u32,
    line: &[u32],
    total: usize,
) -> usize
    requires width { 1 ≤ widest }
    requires room { total ≤ length boxes.old }
    requires places { length greatest.old ≡ 6 }
    requires inside { total ≤ length line.now }
    requires wide { widest ≤ total + 1 }
    requires fits { (i : ℕ) → sum_from line.now i widest < 2 ^ 32 }
    ensures some { 1 < widest → 1 ≤ result }
    ensures narrow { 2 ^ result ≤ widest }
    ensures made { (stride : ℕ)
        → AreMade line.now total boxes.new stride greatest.new result }
{
    if widest < 2 {
        return 0;
    }
    greatest[1] = add_neighbours(boxes, line, 1, total - 1);
    1
}

/// Makes boxes of further widths of a line's first `total` values, of which `made` widths are made. It goes up to
/// 2^level values, but stops at the first width whose maximum shows that boxes of 2^level values are below `least`.
/// Answers how many widths are made then.
pub fn double_up_to(
    boxes: &mut [u32],
    greatest: &mut [u32],
    stride: usize,
    made: usize,
    level: usize,
    least: u32,
    total: usize,
) -> usize
    requires some { 1 ≤ made }
    requires few { level ≤ 5 }
    requires room { length boxes.old ≡ 5 * stride }
    requires places { length greatest.old ≡ 6 }
    requires short { total ≤ stride }
    requires wide { 2 ^ level ≤ total + 1 }
    ensures more { made ≤ result }
    ensures within { (most : ℕ) → made ≤ most → level ≤ most → result ≤ most }
    ensures made { (line : List ℕ) → ((i : ℕ) → sum_from line i (2 ^ level) < 2 ^ 32)
        → AreMade line total boxes.old stride greatest.old made
        → AreMade line total boxes.new stride greatest.new result }
{
    if made >= level {
        return made;
    }
    for known in made..level {
        if !boxes_may_reach(greatest, known, level, least) {
            return known;
        }
        let width = width_of(known);
        greatest[known + 1] = double(boxes, stride, known - 1, width, total + 1 - 2 * width);
    }
    level
}

/// Whether a box of 2^level values may reach `least`, from the maximum of the boxes of 2^known values: it is the sum of
/// 2^(level - known) of these.
pub fn boxes_may_reach(greatest: &[u32], known: usize, level: usize, least: u32) -> bool
    requires places { length greatest.now ≡ 6 }
    requires order { known ≤ level }
    requires few { level ≤ 5 }
    ensures { result ≡ false → slice_index greatest.now known * 2 ^ (level - known) < least }
{
    u64::from(greatest[known]) * width_of(level - known) as u64 >= u64::from(least)
}

/// The width of the boxes of a level: 2^level values.
pub fn width_of(level: usize) -> usize
    requires { level ≤ 5 }
    ensures value { result ≡ 2 ^ level }
    ensures bound { result ≤ 32 }
{
    1 << level
}
