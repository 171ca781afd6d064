// Merges rows of fold sums.
ghost use Rattle.std.specs.Prelude.{◌≡◌, ◌+◌, ◌*◌, ◌%◌, ◌^◌, ◌<◌, ◌≤◌, length, slice_index, drop};
ghost use Rattle.fdmt_rows.specs.Rows.{wrapping_sum};
ghost use Rattle.fdmt_rows.specs.Writes.{Writes};
ghost use Rattle.fast_fold.specs.Merging.{AddsTurned, IsMerged, AreMerged};

use fdmt_rows::add_rows;

// How many phases of two trials are made at a time. With so few, what both read is still in the cache for the second.
const PIECE: usize = 512;

// Adds two rows at the places from `from` up to `end`. The second row is turned: its value at `q + turn` is added at
// `q`.
fn add_turned(out: &mut [u32], first: &[u32], second: &[u32], turn: usize, from: usize, end: usize)
    requires first { length first.now ≡ length out.old }
    requires second { length second.now ≡ length out.old }
    requires turn { turn < length out.old }
    requires part { from ≤ end }
    requires within { end ≤ length out.old }
    ensures { Writes out.old out.new from end (λ q. wrapping_sum (slice_index first.now q)
        (slice_index second.now ((q + turn) % length out.old))) }
{
    let cut = out.len() - turn;
    let (left, right) = (from.min(cut), end.min(cut));
    add_rows(
        &mut out[left..right],
        &first[left..right],
        &second[left + turn..right + turn],
    );
    let (left, right) = (from.max(cut), end.max(cut));
    add_rows(
        &mut out[left..right],
        &first[left..right],
        &second[left - cut..right - cut],
    );
}

// Adds two rows twice. In `odd` the second row is turned by one phase more than in `even`.
fn add_twice(even: &mut [u32], odd: &mut [u32], first: &[u32], second: &[u32], turn: usize)
    requires phases { 0 < length even.old }
    requires same { length odd.old ≡ length even.old }
    requires first { length first.now ≡ length even.old }
    requires second { length second.now ≡ length even.old }
    requires small { turn < 2 ^ 32 }
    ensures even { AddsTurned even.new first.now second.now (length even.old) turn }
    ensures odd { AddsTurned odd.new first.now second.now (length even.old) (turn + 1) }
{
    let period = even.len();
    let mut done = 0;
    while done < period {
        let end = done + PIECE.min(period - done);
        add_turned(even, first, second, turn % period, done, end);
        add_turned(odd, first, second, (turn + 1) % period, done, end);
        done = end;
    }
}

// Merges two rows into two neighbouring trials.
fn merge_pair(pair: &mut [u32], first: &[u32], second: &[u32], turn: usize)
    requires phases { 0 < length first.now }
    requires size { length pair.old ≡ 2 * length first.now }
    requires second { length second.now ≡ length first.now }
    requires small { turn < 2 ^ 32 }
    ensures even { AddsTurned pair.new first.now second.now (length first.now) turn }
    ensures odd { AddsTurned (drop (length first.now) pair.new) first.now second.now
        (length first.now) (turn + 1) }
{
    let (even, odd) = pair.split_at_mut(first.len());
    add_twice(even, odd, first, second, turn);
}

// Merges both halves of a block, each of which has `rows` trials of `period` phases.
fn merge_block(out: &mut [u32], halves: &[u32], period: usize, rows: usize)
    requires phases { 0 < period }
    requires size { 2 * rows * period ≡ length out.old }
    requires same { length halves.now ≡ length out.old }
    requires small { length out.old ≤ 2 ^ 32 }
    ensures { IsMerged out.new halves.now period rows (2 * rows) }
{
    let (first, second) = halves.split_at(rows * period);
    for j in 0..rows {
        let half = j * period;
        merge_pair(
            &mut out[2 * half..2 * half + 2 * period],
            &first[half..half + period],
            &second[half..half + period],
            j,
        );
    }
}

/// Merges each two neighbouring blocks, each of which has `rows` trials of `period` phases.
pub fn merge_blocks(out: &mut [u32], sums: &[u32], period: usize, rows: usize, blocks: usize)
    requires phases { 0 < period }
    requires some { 0 < blocks }
    requires room { blocks * (2 * rows * period) ≤ length out.old }
    requires given { blocks * (2 * rows * period) ≤ length sums.now }
    requires small { length out.old ≤ 2 ^ 32 }
    ensures { AreMerged out.new sums.now period rows blocks }
{
    let size = 2 * rows * period;
    for b in 0..blocks {
        let start = b * size;
        merge_block(
            &mut out[start..start + size],
            &sums[start..start + size],
            period,
            rows,
        );
    }
}
