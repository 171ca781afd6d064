// Whether a search of an observation fits the engine.
ghost use Rattle.std.specs.Prelude.{◌≡◌, ◌+◌, ◌-◌, ◌*◌, ◌^◌, ◌≤◌, ◌<◌, ◌&&◌, None, OnOk, IfErr, length, nat_lt};
ghost use Rattle.dada_model.specs.Observation.{max_sample as max_sample_of};
ghost use Rattle.search_model.specs.Search.{SettingsInRange, fold_delays, folds_are_on as folds_are_on_of};
ghost use Rattle.search_model.specs.Plan.{plan_refusal, most_added as most_added_of};
ghost use Rattle.fold_search.specs.Counts.{most_folded};
ghost use Rattle.search_engine.specs.Plan.{IsRefusedFirst};

use crate::fault::PlanFault;
use fold_search::fold_row_count;
use obs_plan::Observation;
use search_model::Search;

/// The greatest sum that fits into 32 bits.
const MOST_SUM: u64 = (1 << 32) - 1;
/// The maximum number of values of a fold.
const MOST_FOLDED: u64 = 1 << 22;
/// The maximum number of delays that can be folded.
const MOST_FOLD_DELAYS: u32 = 64;

/// Checks that the sums, folds and shards of a search of an observation fit. The error is the first fault, in the order
/// of `PlanFault`, and never `Memory`.
pub fn check_plan(observation: &Observation, search: &Search) -> Result<(), PlanFault>
    requires { SettingsInRange search.now }
    ensures fits { OnOk result (plan_refusal observation.now search.now ≡ None) }
    ensures refused { IfErr result (IsRefusedFirst (plan_refusal observation.now search.now)) }
{
    observation.lies_in_range();
    let max_sample = observation.max_sample();
    let cells = observation.channels() + search.max_delay;
    let factor = most_added(search);
    let count = fold_delay_count(search);
    let delays = search.max_delay + 1 - search.min_delay;
    if is_past_sums(observation, search) {
        Err(PlanFault::SumBound {
            max_sample,
            cells,
            factor,
        })
    } else if folds_are_too_large(search) {
        Err(PlanFault::FoldTooLarge {
            pmax: search.fold_max,
            mmax: search.fold_rows,
        })
    } else if folds_are_on(search) && count > MOST_FOLD_DELAYS {
        Err(PlanFault::TooManyFolds { count })
    } else if search.shards > delays {
        Err(PlanFault::TooManyShards {
            count: search.shards,
            delays,
        })
    } else {
        Ok(())
    }
}

// Whether a sum may pass 32 bits.
fn is_past_sums(observation: &Observation, search: &Search) -> bool
    requires { SettingsInRange search.now }
    ensures { result ≡ nat_lt (2 ^ 32 - 1) (max_sample_of observation.now
        * (observation.now.channels + search.now.max_delay) * most_added_of search.now) }
{
    observation.lies_in_range();
    let cells = u64::from(observation.channels()) + u64::from(search.max_delay);
    u64::from(observation.max_sample()) * cells * u64::from(most_added(search)) > MOST_SUM
}

// Whether folds are on and one has too many values.
fn folds_are_too_large(search: &Search) -> bool
    requires { SettingsInRange search.now }
    ensures { result ≡ (folds_are_on_of search.now
        && nat_lt most_folded (search.now.fold_max * 2 ^ search.now.fold_rows)) }
{
    let most = u64::from(search.fold_max) * u64::from(fold_row_count(search.fold_rows));
    folds_are_on(search) && most > MOST_FOLDED
}

// Whether there are periods to fold.
fn folds_are_on(search: &Search) -> bool
    ensures { result ≡ folds_are_on_of search.now }
{
    search.fold_min <= search.fold_max
}

// The maximum number of path sums that a box or a fold adds up.
fn most_added(search: &Search) -> u32
    requires { SettingsInRange search.now }
    ensures value { result ≡ most_added_of search.now }
    ensures bound { result ≤ 4096 }
{
    let rows = if folds_are_on(search) {
        fold_row_count(search.fold_rows)
    } else {
        1
    };
    search.widest.max(rows)
}

// The number of delays that are folded, if folding is on.
fn fold_delay_count(search: &Search) -> u32
    requires { SettingsInRange search.now }
    ensures { result ≡ length (fold_delays search.now) }
{
    let least = search.min_delay;
    let step = search.fold_step;
    (least..search.max_delay + 1)
        .filter(|d| (*d - least) % step == 0)
        .count() as u32
}
