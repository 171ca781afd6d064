// The sums of each cell in a stretch: of all values, and of those beyond two bounds.
ghost use Rattle.std.specs.Prelude.{◌≡◌, ℕ, ◌+◌, ◌*◌, ◌<◌, ◌≤◌, false, length, slice_index};
ghost use Rattle.band_level.specs.Values.{cells};
ghost use Rattle.band_level.specs.Holding.{HasSpectra, held_value};
ghost use Rattle.band_level.specs.Ranges.{FormatInRange};
ghost use Rattle.band_level.specs.Rows.{HasBounds, HasMoments, AreLong};
ghost use Rattle.band_level.specs.Columns.{AddsFar, AreBelow, AreSmall, AreTotals, HoldsFar, LosesFar, far_part};

use crate::cells::{CellBounds, CellMoments};
use crate::format::Format;
use crate::held::Held;

// `y` for a value beyond the bounds; else 0.
#[inline(always)]
fn far(low: u32, high: u32, x: u32, y: u32) -> u32
    ensures far { result ≡ far_part low high x y }
    ensures most { result ≤ y }
{
    if low <= x && x <= high { 0 } else { y }
}

// Whether a value of a row lies beyond the bounds of its cell.
fn any_far(row: &[u32], lows: &[u32], highs: &[u32]) -> bool
    requires lows { length lows.now ≡ length row.now }
    requires highs { length highs.now ≡ length row.now }
    requires few { length row.now ≤ 8192 }
    ensures { result ≡ false → (i : ℕ) → i < length row.now
        → far_part (slice_index lows.now i) (slice_index highs.now i) (slice_index row.now i) 1
        ≡ 0 }
{
    let mut count = 0;
    for i in 0..row.len() {
        count += far(lows[i], highs[i], row[i], 1);
    }
    count != 0
}

// Counts the values of a row beyond the bounds, and sets the others to 0.
fn keep_far(row: &mut [u32], lows: &[u32], highs: &[u32], counts: &mut [u32])
    requires lows { length lows.now ≡ length row.old }
    requires highs { length highs.now ≡ length row.old }
    requires counts { length counts.old ≡ length row.old }
    requires small { (i : ℕ) → slice_index counts.old i ≤ 1048575 }
    ensures keeps { (i : ℕ) → i < length row.old → slice_index row.new i
        ≡ far_part (slice_index lows.now i) (slice_index highs.now i) (slice_index row.old i)
        (slice_index row.old i) }
    ensures counts { (i : ℕ) → i < length row.old → slice_index counts.new i
        ≡ slice_index counts.old i
        + far_part (slice_index lows.now i) (slice_index highs.now i) (slice_index row.old i) 1 }
    ensures fewer { (i : ℕ) → slice_index row.new i ≤ slice_index row.old i }
{
    for i in 0..row.len() {
        counts[i] += far(lows[i], highs[i], row[i], 1);
        row[i] = far(lows[i], highs[i], row[i], row[i]);
    }
}

// Adds the values of a row.
fn add_totals(row: &[u32], totals: &mut [u64])
    requires totals { length totals.old ≡ length row.now }
    requires values { (i : ℕ) → slice_index row.now i ≤ 4194303 }
    requires small { (i : ℕ) → slice_index totals.old i ≤ 1048575 * 4194303 }
    ensures { (i : ℕ) → i < length row.now → slice_index totals.new i
        ≡ slice_index totals.old i + slice_index row.now i }
{
    for i in 0..row.len() {
        totals[i] += u64::from(row[i]);
    }
}

// The square of a value.
#[inline(always)]
fn square(x: u32) -> u64
    requires { x ≤ 4194303 }
    ensures square { result ≡ x * x }
    ensures most { result ≤ 17592177655809 }
{
    u64::from(x) * u64::from(x)
}

// Adds their squares.
fn add_squares(row: &[u32], squares: &mut [u64])
    requires squares { length squares.old ≡ length row.now }
    requires values { (i : ℕ) → slice_index row.now i ≤ 4194303 }
    requires small { (i : ℕ) → slice_index squares.old i ≤ 1048575 * 17592177655809 }
    ensures { (i : ℕ) → i < length row.now → slice_index squares.new i
        ≡ slice_index squares.old i + slice_index row.now i * slice_index row.now i }
{
    for i in 0..row.len() {
        squares[i] += square(row[i]);
    }
}

// Adds the values of a row beyond the bounds to the sums; of the row it leaves those that were added, if any were.
fn add_far(
    row: &mut [u32],
    lows: &[u32],
    highs: &[u32],
    counts: &mut [u32],
    totals: &mut [u64],
    squares: &mut [u64],
)
    requires lows { length lows.now ≡ length row.old }
    requires highs { length highs.now ≡ length row.old }
    requires few { length row.old ≤ 8192 }
    requires sums { AreLong (length row.old) counts.old totals.old squares.old }
    requires values { (i : ℕ) → slice_index row.old i ≤ 4194303 }
    requires small { AreSmall 1048575 counts.old totals.old squares.old }
    ensures adds { AddsFar lows.now highs.now row.old counts.old totals.old squares.old
        counts.new totals.new squares.new }
    ensures small { (n : ℕ) → AreSmall n counts.old totals.old squares.old
        → AreSmall (n + 1) counts.new totals.new squares.new }
{
    if any_far(row, lows, highs) {
        keep_far(row, lows, highs, counts);
        add_totals(row, totals);
        add_squares(row, squares);
    }
}

/// Makes the sums of the first `count` spectra. The row is working space.
pub fn add_up(
    held: &Held,
    format: Format,
    count: usize,
    row: &mut [u32],
    totals: &mut [u64],
    squares: &mut [u64],
)
    requires format { FormatInRange format }
    requires held { HasSpectra format held.now count }
    requires most { count ≤ 1048576 }
    requires row { length row.old ≡ cells format }
    requires totals { length totals.old ≡ cells format }
    requires squares { length squares.old ≡ cells format }
    ensures sums { AreTotals (held_value format held.now) (cells format) count totals.new
        squares.new }
    ensures small { AreBelow count totals.new squares.new }
    ensures values { (t i : ℕ) → t < count → i < cells format
        → held_value format held.now t i ≤ 4194303 }
{
    totals.fill(0);
    squares.fill(0);
    for t in 0..count {
        held.read(row, format, t);
        add_totals(row, totals);
        add_squares(row, squares);
    }
}

/// Makes the sums of the values of `count` spectra that lie beyond the bounds of their cells. The row is working space.
pub fn add_up_far(
    held: &Held,
    format: Format,
    count: usize,
    row: &mut [u32],
    bounds: &CellBounds,
    far: &mut CellMoments,
)
    requires format { FormatInRange format }
    requires held { HasSpectra format held.now count }
    requires most { count ≤ 1048576 }
    requires row { length row.old ≡ cells format }
    requires bounds { HasBounds (cells format) bounds.now }
    requires long { HasMoments (cells format) far.old }
    ensures long { HasMoments (cells format) far.new }
    ensures sums { HoldsFar (held_value format held.now) (cells format) count bounds.now far.new }
{
    let lows = bounds.lows.as_slice();
    let highs = bounds.highs.as_slice();
    let counts = far.counts.as_mut_slice();
    let totals = far.totals.as_mut_slice();
    let squares = far.squares.as_mut_slice();
    counts.fill(0);
    totals.fill(0);
    squares.fill(0);
    for t in 0..count {
        held.read(row, format, t);
        add_far(row, lows, highs, counts, totals, squares);
    }
}

/// Leaves sums out of other sums.
pub fn leave_out(moments: &mut CellMoments, far: &CellMoments)
    requires moments { HasMoments (length moments.old.counts.items) moments.old }
    requires far { HasMoments (length moments.old.counts.items) far.now }
    ensures long { HasMoments (length moments.old.counts.items) moments.new }
    ensures less { LosesFar (length moments.old.counts.items) moments.old far.now moments.new }
{
    let counts = moments.counts.as_mut_slice();
    let totals = moments.totals.as_mut_slice();
    let squares = moments.squares.as_mut_slice();
    let far_counts = far.counts.as_slice();
    let far_totals = far.totals.as_slice();
    let far_squares = far.squares.as_slice();
    for i in 0..counts.len() {
        counts[i] = counts[i].saturating_sub(far_counts[i]);
        totals[i] = totals[i].saturating_sub(far_totals[i]);
        squares[i] = squares[i].saturating_sub(far_squares[i]);
    }
}
