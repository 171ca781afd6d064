//! A fold of a series.
ghost use Rattle.std.specs.Prelude.{◌≡◌, ℕ, ◌*◌, ◌^◌, ◌<◌, ◌≤◌, IfOk, length, slice_index};
ghost use Rattle.search_model.specs.Folds.{fold_sum};

use fast_fold::{Folder, folds_see_rows};
use psr_base::Memory;
use std::alloc::Global;

/// The profile of a trial over the first `2^halvings` rows of `period` values: a sum for each phase. Trial `j` of `n`
/// rows stands for the period `period + j / (n - 1)`.
pub fn folded(
    alloc: Global,
    series: &[u32],
    period: u32,
    halvings: u32,
    trial: u32,
) -> Result<Vec<u32>, Memory>
    requires some_phases { 1 ≤ period }
    requires some_halvings { 1 ≤ halvings }
    requires few_halvings { halvings ≤ 12 }
    requires size { period * 2 ^ halvings ≤ 2 ^ 22 }
    requires long { 2 ^ halvings * period ≤ length series.now }
    requires fits { (k : ℕ) → k < 2 ^ halvings * period
        → slice_index series.now k * 2 ^ halvings < 2 ^ 32 }
    requires trial { trial < 2 ^ halvings }
    ensures phases { IfOk result (λ sums. length sums.items ≡ period) }
    ensures sums { IfOk result (λ sums. (phase : ℕ) → phase < period
        → slice_index sums.items phase ≡ fold_sum series.now period halvings trial phase) }
{
    folds_see_rows();
    let mut folder = Folder::open(alloc, period, halvings)?;
    folder.load(series, period, halvings);
    for done in 0..halvings {
        folder.halve();
    }
    Ok(Vec::from_slice(alloc, folder.profile(0, trial))?)
}
