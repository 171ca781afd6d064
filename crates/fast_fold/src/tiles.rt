// Finds the greatest fold sum of all trials of a period by halves. It takes a tile at a time, some phases of all
// trials, so few that the rows stay in the first cache. The sums of the last halving are not stored.
ghost use Rattle.std.specs.Prelude.{◌≡◌, ℕ, ◌+◌, ◌-◌, ◌*◌, ◌%◌, ◌^◌, ◌<◌, ◌≤◌, length, slice_index};
ghost use Rattle.fdmt_rows.specs.Capped.{capped_sum, AreRaised};
ghost use Rattle.fdmt_rows.specs.Excess.{excess};
ghost use Rattle.fast_fold.specs.Excess.{IsGreatestExcess};
ghost use Rattle.fast_fold.specs.Tiles.{AreMergedTrials, MergedUpTo, AreTrials, AreTrialsOfHalves, TrialsUpTo};

use crate::powers::power;
use fdmt_rows::{LANES, add_capped_rows, greatest_lane, raise_to_sums, write_excess};
use std::simd::prelude::*;

/// The maximum number of halvings of a tile.
pub const MOST_HALVINGS: u32 = 8;

// The maximum number of steps over the phases of a tile.
const MOST_STEPS: usize = 24;

/// The longest row of a tile: with the most steps and the most halvings.
pub const LONGEST_ROW: usize = 784;

// Some phases of a period, from `start` on. A row has `stride` places; the first `16 * steps` of them are added.
#[derive(Clone, Copy)]
struct Tile {
    base: u32,
    period: usize,
    start: usize,
    steps: usize,
    stride: usize,
}

// Fills a row with how far the values of a period lie above `base`, from phase `start` on, round and round.
fn load_row(out: &mut [u16], values: &[u32], base: u32, start: usize)
    requires start { start < length values.now }
    ensures { (x : ℕ) → x < length out.old → slice_index out.new x
        ≡ excess base (slice_index values.now ((start + x) % length values.now)) }
{
    let mut done = 0;
    let mut from = start;
    while done < out.len() {
        let count = (out.len() - done).min(values.len() - from);
        write_excess(
            &mut out[done..done + count],
            &values[from..from + count],
            base,
        );
        done += count;
        from = 0;
    }
}

// Merges two rows into two neighbouring trials.
fn merge_pair(pair: &mut [u16], first: &[u16], second: &[u16], turn: usize, steps: usize)
    requires size { length pair.old ≡ 2 * length first.now }
    requires second { length second.now ≡ length first.now }
    requires room { turn + 1 + steps * LANES ≤ length first.now }
    ensures even { (x : ℕ) → x < steps * LANES → slice_index pair.new x
        ≡ capped_sum (slice_index first.now x) (slice_index second.now (x + turn)) }
    ensures odd { (x : ℕ) → x < steps * LANES → slice_index pair.new (length first.now + x)
        ≡ capped_sum (slice_index first.now x) (slice_index second.now (x + (turn + 1))) }
{
    let (even, odd) = pair.split_at_mut(first.len());
    add_capped_rows(even, first, &second[turn..], steps);
    add_capped_rows(odd, first, &second[turn + 1..], steps);
}

// Merges the trials of both halves of a block, `half` of each.
fn merge_halves(out: &mut [u16], halves: &[u16], tile: Tile, half: usize)
    requires size { 2 * half * tile.stride ≡ length out.old }
    requires same { length halves.now ≡ length out.old }
    requires room { half + tile.steps * LANES ≤ tile.stride }
    ensures { AreMergedTrials out.new halves.now tile.stride (tile.steps * LANES) half (2 * half) }
{
    let (first, second) = halves.split_at(half * tile.stride);
    for j in 0..half {
        let row = j * tile.stride;
        merge_pair(
            &mut out[2 * row..2 * row + 2 * tile.stride],
            &first[row..row + tile.stride],
            &second[row..row + tile.stride],
            j,
            tile.steps,
        );
    }
}

// Folds `rows` rows of values, 2^level, by halves.
#[cycle(fold)]
fn fold_rows(
    out: &mut [u16],
    spare: &mut [u16],
    values: &[u32],
    tile: Tile,
    level: u32,
    rows: usize,
)
    requires few { level ≤ 8 }
    requires rows { rows ≡ 2 ^ level }
    requires size { rows * tile.stride ≡ length out.old }
    requires spare { length spare.old ≡ length out.old }
    requires values { rows * tile.period ≡ length values.now }
    requires start { tile.start < tile.period }
    requires room { rows + tile.steps * LANES ≤ tile.stride }
    ensures { AreTrials out.new tile.base values.now tile.period tile.start (tile.steps * LANES)
        tile.stride level }
{
    if level == 0 {
        load_row(out, values, tile.base, tile.start);
        return;
    }
    let half = power(level - 1);
    fold_halves(spare, out, values, tile, level - 1, half);
    merge_halves(out, spare, tile, half);
}

// Folds two halves of `rows` rows of values each.
#[cycle(fold)]
fn fold_halves(
    out: &mut [u16],
    spare: &mut [u16],
    values: &[u32],
    tile: Tile,
    level: u32,
    rows: usize,
)
    requires few { level ≤ 8 }
    requires rows { rows ≡ 2 ^ level }
    requires size { 2 * rows * tile.stride ≡ length out.old }
    requires spare { length spare.old ≡ length out.old }
    requires values { 2 * rows * tile.period ≡ length values.now }
    requires start { tile.start < tile.period }
    requires room { rows + tile.steps * LANES ≤ tile.stride }
    ensures { AreTrialsOfHalves out.new tile.base values.now tile.period tile.start
        (tile.steps * LANES) tile.stride level }
{
    let (upper, lower) = values.split_at(rows * tile.period);
    let (first, second) = out.split_at_mut(rows * tile.stride);
    let (first_spare, second_spare) = spare.split_at_mut(rows * tile.stride);
    fold_rows(first, first_spare, upper, tile, level, rows);
    fold_rows(second, second_spare, lower, tile, level, rows);
}

// Raises lanes to the greatest sums of merging both halves, with `half` trials each. The sums are not stored.
fn raise_to_merged(most: u16x16, halves: &[u16], tile: Tile, half: usize, steps: usize) -> u16x16
    requires long { length most ≡ 16 }
    requires size { 2 * half * tile.stride ≡ length halves.now }
    requires room { half + steps * LANES ≤ tile.stride }
    ensures { AreRaised most result
        (MergedUpTo halves.now tile.stride half (2 * half) (steps * LANES)) }
{
    let (first, second) = halves.split_at(half * tile.stride);
    let mut raised = most;
    for j in 0..half {
        let row = j * tile.stride;
        raised = raise_to_sums(
            raised,
            &first[row..row + tile.stride],
            &second[row..row + tile.stride],
            j,
            steps,
        );
        raised = raise_to_sums(
            raised,
            &first[row..row + tile.stride],
            &second[row..row + tile.stride],
            j + 1,
            steps,
        );
    }
    raised
}

// How many steps a tile takes, so that all tiles of a period take as many.
fn phase_steps(period: usize) -> usize
    ensures some { 1 ≤ result }
    ensures few { result ≤ 24 }
{
    let tiles = period.div_ceil(MOST_STEPS * LANES).max(1);
    period.div_ceil(tiles * LANES).clamp(1, MOST_STEPS)
}

// Raises lanes to the greatest sums of all trials of two halves of `rows` rows of values each, at the first phases of a
// tile.
fn raise_to_tile(
    most: u16x16,
    out: &mut [u16],
    spare: &mut [u16],
    values: &[u32],
    tile: Tile,
    level: u32,
    rows: usize,
    steps: usize,
) -> u16x16
    requires long { length most ≡ 16 }
    requires few { level ≤ 8 }
    requires rows { rows ≡ 2 ^ level }
    requires size { 2 * rows * tile.stride ≡ length out.old }
    requires spare { length spare.old ≡ length out.old }
    requires values { 2 * rows * tile.period ≡ length values.now }
    requires start { tile.start < tile.period }
    requires room { rows + tile.steps * LANES ≤ tile.stride }
    requires shifted { steps * LANES + 2 * rows ≤ tile.steps * LANES + 1 }
    ensures { AreRaised most result
        (TrialsUpTo tile.base values.now tile.period (level + 1) tile.start (steps * LANES)) }
{
    fold_halves(out, spare, values, tile, level, rows);
    raise_to_merged(most, out, tile, rows, steps)
}

/// The greatest fold sum of how far the values lie above `base`, over all trials of `2^halvings` rows of a period;
/// 65535 if it is greater.
pub fn greatest_excess(
    out: &mut [u16],
    spare: &mut [u16],
    values: &[u32],
    base: u32,
    period: usize,
    halvings: u32,
) -> u32
    requires some { 1 ≤ period }
    requires short { period < 2 ^ 32 }
    requires some_halvings { 1 ≤ halvings }
    requires few_halvings { halvings ≤ 8 }
    requires values { 2 ^ halvings * period ≡ length values.now }
    requires out { 2 ^ halvings * LONGEST_ROW ≤ length out.old }
    requires spare { 2 ^ halvings * LONGEST_ROW ≤ length spare.old }
    ensures { IsGreatestExcess base values.now period halvings result }
{
    let half = power(halvings - 1);
    let seen = phase_steps(period);
    let steps = seen + half / 8 + 1;
    let stride = steps * LANES + half;
    let size = 2 * half * stride;
    let mut most = u16x16::splat(0);
    let mut start = 0;
    while start < period {
        let tile = Tile {
            base,
            period,
            start,
            steps,
            stride,
        };
        most = raise_to_tile(
            most,
            &mut out[..size],
            &mut spare[..size],
            values,
            tile,
            halvings - 1,
            half,
            seen,
        );
        start += seen * LANES;
    }
    u32::from(greatest_lane(most))
}
