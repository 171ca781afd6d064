// What is kept of rows: the values that later boxes need, and whole lines.
ghost use Rattle.std.specs.Prelude.{◌≡◌, ℕ, ◌+◌, ◌*◌, ◌≤◌, ◌≢◌, ◌++◌, length, take, vec_capacity};
ghost use Rattle.box_sums.specs.Tails.{row_at};
ghost use Rattle.box_sums.specs.Tables.{AreUpTo, IsFilledUp};
ghost use Rattle.box_sums.specs.Excess.{plain_sums};

use fdmt_rows::{add_widened_rows, copy_row};

/// Writes `tail`, the values before a feed, and then `feed`.
pub fn join(line: &mut [u32], tail: &[u32], feed: &[u32])
    requires room { length tail.now + length feed.now ≤ length line.old }
    ensures values { take (length tail.now + length feed.now) line.new ≡ tail.now ++ feed.now }
    ensures small { (bound : ℕ) → AreUpTo bound line.old → AreUpTo bound tail.now
        → AreUpTo bound feed.now → AreUpTo bound line.new }
{
    copy_row(&mut line[..tail.len()], tail);
    copy_row(&mut line[tail.len()..tail.len() + feed.len()], feed);
}

/// Appends zeros to a table until it has `size` values. The table has memory for them.
pub fn fill_up(table: &mut Vec<u32>, size: usize)
    requires { size ≤ vec_capacity table.old }
    ensures long { size ≤ length table.new.items }
    ensures filled { IsFilledUp table.old.items table.new.items }
    ensures capacity { vec_capacity table.new ≡ vec_capacity table.old }
{
    for _long in table.len()..size {
        table.push_reserved(0);
    }
}

/// Writes values to the front of row `at` of a table whose rows have `stride` values.
pub fn write_row(table: &mut [u32], stride: usize, at: usize, values: &[u32])
    requires row { (at + 1) * stride ≤ length table.old }
    requires short { length values.now ≤ stride }
    ensures own { take (length values.now) (row_at table.new stride at) ≡ values.now }
    ensures others { (e : ℕ) → e ≢ at → row_at table.new stride e ≡ row_at table.old stride e }
    ensures small { (bound : ℕ) → AreUpTo bound table.old → AreUpTo bound values.now
        → AreUpTo bound table.new }
{
    let start = at * stride;
    copy_row(&mut table[start..start + values.len()], values);
}

// Adds two rows of 16 bits.
fn add_part(out: &mut [u32], upper: &[u16], lower: &[u16])
    requires room { length upper.now ≡ length out.old }
    requires same { length lower.now ≡ length upper.now }
    ensures { out.new ≡ plain_sums upper.now lower.now }
{
    add_widened_rows(out, upper, lower);
}

/// Writes the sums of two rows of 16 bits to the front of row `at` of a table whose rows have `stride` values.
pub fn write_sums(table: &mut [u32], stride: usize, at: usize, upper: &[u16], lower: &[u16])
    requires row { (at + 1) * stride ≤ length table.old }
    requires short { length upper.now ≤ stride }
    requires same { length lower.now ≡ length upper.now }
    ensures own { take (length upper.now) (row_at table.new stride at)
        ≡ plain_sums upper.now lower.now }
    ensures others { (e : ℕ) → e ≢ at → row_at table.new stride e ≡ row_at table.old stride e }
    ensures small { (bound : ℕ) → AreUpTo bound table.old
        → AreUpTo bound (plain_sums upper.now lower.now) → AreUpTo bound table.new }
{
    let start = at * stride;
    add_part(&mut table[start..start + upper.len()], upper, lower);
}
