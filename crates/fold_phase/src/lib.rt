//! Fold sums by definition: each row of a series is shifted by an amount that the bits of its number give.
//!
//! Source: Staelin, Proc. IEEE 57:724, 1969.
#![tactic(auto)]

ghost use Rattle.std.specs.Prelude.{◌≡◌, ◌+◌, ◌-◌, ◌*◌, ◌/◌, ◌%◌, ◌^◌, ◌==◌, ◌<◌, ◌≤◌, length, if◌then◌else◌};
ghost use Rattle.search_model.specs.Folds.{shift as shift_of, fold_sum as fold_sum_of};

// What bit `m - 1 - k` of row `i` adds to the shift of trial `j`: half of `j / 2^k`, rounded up, if the bit is set.
fn part(m: u32, j: u32, i: u32, k: u32) -> u32
    requires bits { m ≤ 12 }
    requires bit { k < m }
    requires trial { j < 2 ^ 12 }
    ensures value { result
        ≡ (if (i / 2 ^ (m - 1 - k)) % 2 == 1 then (j / 2 ^ k + 1) / 2 else 0) }
    ensures bound { result ≤ 2048 }
{
    if (i >> (m - 1 - k)) % 2 == 1 {
        ((j >> k) + 1) / 2
    } else {
        0
    }
}

/// By how many phases trial `j` of `2^m` rows shifts row `i`.
pub fn shift(m: u32, j: u32, i: u32) -> u32
    requires some { 1 ≤ m }
    requires few { m ≤ 12 }
    requires trial { j < 2 ^ m }
    requires row { i < 2 ^ m }
    ensures value { result ≡ shift_of m j i }
    ensures bound { result ≤ 2 ^ 16 }
{
    let mut shift = 0;
    for k in 0..m {
        shift += part(m, j, i, k);
    }
    shift
}

/// The sum of trial `j` at a phase, over the first `2^m` rows of `p` values of a series.
pub fn fold_sum(series: &[u32], p: u32, m: u32, j: u32, phase: u32) -> u64
    requires some { 1 ≤ m }
    requires few { m ≤ 12 }
    requires trial { j < 2 ^ m }
    requires phase { phase < p }
    requires long { 2 ^ m * p ≤ length series.now }
    ensures { result ≡ fold_sum_of series.now p m j phase }
{
    let period = p as usize;
    let mut sum = 0;
    for row in 0..1_u32 << m {
        let place = (phase as usize + shift(m, j, row) as usize) % period;
        sum += series[row as usize * period + place] as u64;
    }
    sum
}
