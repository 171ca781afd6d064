// Judges the folds of a list of values.
ghost use Rattle.std.specs.Prelude.{◌≡◌, ℕ, ◌+◌, ◌-◌, ◌*◌, ◌^◌, ◌<◌, ◌≤◌, List, [], Option, Some, None, false, length, slice_index};
ghost use Rattle.search_model.specs.declared.search.Search.{Search};
ghost use Rattle.search_model.specs.Folds.{halvings as halvings_of, fold_sum};
ghost use Rattle.search_model.specs.Search.{SettingsInRange};
ghost use Rattle.detect_rule.specs.Noise.{StandOutFrom};
ghost use Rattle.fast_fold.specs.Folding.{StandsForSeries, IsAt, IsLoaded, HaveSameRoom};
ghost use Rattle.fold_search.specs.Counts.{most_folded, most_folds_of_delay};
ghost use Rattle.fold_search.specs.Judging.{Adds, AreFoldThresholds, reaching_folds, detected_folds, noise_of, folds_in_trials, folds_in_period, folds_in_values};
ghost use Rattle.fold_search.specs.FoldSearch.{CanFold, FitFolds};
ghost use Rattle.fold_search.specs.Cells.{cells_by};

use crate::cells::Cells;
use candidate_book::Book;
use detect_rule::Rule;
use fast_fold::{Folder, MOST_HALVINGS, folds_see_rows};
use fdmt_rows::greatest;
use search_model::{Candidate, Search, tests_detection};

/// The maximum number of thresholds: one for each number of halvings, from 0 to 12.
const LEAST_SUMS: usize = 13;

/// The greatest sum above a base that a folder answers.
const MOST_EXCESS: u32 = 65535;

// The trials of the series of a delay at a period, with `2^halvings` rows.
#[derive(Clone, Copy)]
struct Trials {
    delay: u32,
    period: u32,
    halvings: u32,
}

// Adds the phases of a trial whose sums are at least `least`.
fn add_reaching(book: &mut Book, sums: &[u32], least: u32, of: Trials, trial: u32)
    requires room { book.old.count + length sums.now ≤ 2 ^ 63 }
    requires short { length sums.now < 2 ^ 32 }
    ensures list { Adds book.old book.new
        (reaching_folds (Some least) of.delay of.period of.halvings trial sums.now) }
    ensures count { book.new.count ≤ book.old.count + length sums.now }
{
    for phase in 0..sums.len() {
        let sum = sums[phase];
        if sum >= least {
            book.add(Candidate::Fold {
                delay: of.delay,
                period: of.period,
                halvings: of.halvings,
                trial,
                phase: phase as u32,
                sum,
            });
        }
    }
}

// Adds the phases of a trial that are detected: those whose sums are at least `least`. They are looked at one by one
// only if the greatest sum is.
fn judge(book: &mut Book, sums: &[u32], least: Option<u32>, of: Trials, trial: u32)
    requires room { book.old.count + length sums.now ≤ 2 ^ 63 }
    requires short { length sums.now < 2 ^ 32 }
    ensures list { (cells : ℕ → ℕ) (s : Search)
        → StandOutFrom (noise_of s) (2 ^ of.halvings * cells of.delay) least
        → Adds book.old book.new
        (detected_folds cells s of.delay of.period of.halvings trial sums.now) }
    ensures count { book.new.count ≤ book.old.count + length sums.now }
{
    tests_detection();
    if let Some(least) = least {
        if greatest(sums) >= least {
            add_reaching(book, sums, least, of, trial);
        }
    }
}

// Adds the detected folds of all trials that a folder holds.
fn judge_trials(book: &mut Book, folder: &Folder, least: Option<u32>, of: Trials)
    requires loaded { IsLoaded folder.now }
    requires level { IsAt folder.now of.period of.halvings of.halvings }
    requires few { of.halvings ≤ 12 }
    requires size { 2 ^ of.halvings * of.period ≤ most_folded }
    requires room { book.old.count + most_folded ≤ 2 ^ 63 }
    ensures list { (cells : ℕ → ℕ) (s : Search) (values : List ℕ)
        → StandOutFrom (noise_of s) (2 ^ of.halvings * cells of.delay) least
        → StandsForSeries folder.now values
        → Adds book.old book.new
        (folds_in_trials cells s of.delay of.period of.halvings values) }
    ensures count { book.new.count ≤ book.old.count + 2 ^ of.halvings * of.period }
{
    folds_see_rows();
    for trial in 0..fold_row_count(of.halvings) {
        judge(book, folder.profile(0, trial), least, of, trial);
    }
}

// Folds values by halves until one block is left.
fn fold_all(folder: &mut Folder, values: &[u32], period: u32, halvings: u32)
    requires some_phases { 1 ≤ period }
    requires short { period ≤ folder.old.longest }
    requires some_halvings { 1 ≤ halvings }
    requires few_halvings { halvings ≤ folder.old.most }
    requires long { 2 ^ halvings * period ≤ length values.now }
    requires fits { (k : ℕ) → slice_index values.now k * 2 ^ halvings < 2 ^ 32 }
    ensures room { HaveSameRoom folder.new folder.old }
    ensures level { IsAt folder.new period halvings halvings }
    ensures sums { StandsForSeries folder.new values.now }
{
    folder.load(values, period, halvings);
    while folder.level() < halvings {
        folder.halve();
    }
}

// The greatest number of halvings, at most `most`, whose rows of `period` values fit into `room` values; 0 if not even
// two rows do.
fn halvings(most: u32, period: u32, room: usize) -> u32
    requires few { most ≤ 12 }
    ensures value { result ≡ halvings_of most period room }
    ensures within { result ≤ most }
    ensures fits { 0 < result → 2 ^ result * period ≤ room }
{
    let mut halvings = 0;
    let mut next = 2 * u64::from(period);
    while halvings < most && next <= room as u64 {
        halvings += 1;
        next *= 2;
    }
    halvings
}

// For each number of halvings up to `most`, the smallest sum of a fold that is detected.
fn least_sums(rule: &Rule, cells: u32, most: u32) -> [Option<u32>; LEAST_SUMS]
    requires few { most ≤ 12 }
    requires cells { cells ≤ 12288 }
    ensures { AreFoldThresholds rule.now cells most result }
{
    let mut least = [None; LEAST_SUMS];
    for halvings in 0..most + 1 {
        let rows = u64::from(fold_row_count(halvings));
        least[halvings as usize] = rule.least(rows * u64::from(cells));
    }
    least
}

// Whether a fold sum of a period may reach `least`. None does if the greatest sum above a base is less than `least`
// less the bases of all rows. The base is the smallest one for which 16 bits can tell.
fn may_reach(folder: &mut Folder, values: &[u32], least: u32, period: u32, halvings: u32) -> bool
    requires some_phases { 1 ≤ period }
    requires some_halvings { 1 ≤ halvings }
    requires few_halvings { halvings ≤ folder.old.most }
    requires few { halvings ≤ 12 }
    requires long { 2 ^ halvings * period ≤ length values.now }
    ensures same { folder.new ≡ folder.old }
    ensures none { result ≡ false → (trial phase : ℕ) → trial < 2 ^ halvings → phase < period
        → fold_sum values.now period halvings trial phase < least }
{
    if halvings > MOST_HALVINGS {
        return true;
    }
    let rows = fold_row_count(halvings);
    let base = least.saturating_sub(MOST_EXCESS).div_ceil(rows);
    let needed = least.saturating_sub(base * rows);
    folder.greatest_excess(values, base, period, halvings) >= needed
}

// Whether a fold of a period may be detected.
fn may_be_detected(folder: &mut Folder, values: &[u32], least: Option<u32>, of: Trials) -> bool
    requires some_phases { 1 ≤ of.period }
    requires some_halvings { 1 ≤ of.halvings }
    requires few_halvings { of.halvings ≤ folder.old.most }
    requires few { of.halvings ≤ 12 }
    requires long { 2 ^ of.halvings * of.period ≤ length values.now }
    ensures same { folder.new ≡ folder.old }
    ensures none { result ≡ false → (cells : ℕ → ℕ) (s : Search)
        → StandOutFrom (noise_of s) (2 ^ of.halvings * cells of.delay) least
        → folds_in_trials cells s of.delay of.period of.halvings values.now ≡ [] }
{
    tests_detection();
    match least {
        Some(least) => may_reach(folder, values, least, of.period, of.halvings),
        None => true,
    }
}

// Adds the detected folds of values at a period. It folds all trials only if one may be detected.
fn fold_period(
    book: &mut Book,
    folder: &mut Folder,
    search: &Search,
    values: &[u32],
    least: &[Option<u32>],
    delay: u32,
    period: u32,
)
    requires range { SettingsInRange search.now }
    requires folder { CanFold search.now folder.old.longest folder.old.most }
    requires period { period ≤ search.now.fold_max }
    requires some { 1 ≤ period }
    requires fits { FitFolds search.now values.now }
    requires room { book.old.count + most_folded ≤ 2 ^ 63 }
    requires least { length least.now ≡ LEAST_SUMS }
    ensures room { HaveSameRoom folder.new folder.old }
    ensures list { (cells : ℕ → ℕ)
        → AreFoldThresholds (noise_of search.now) (cells delay) search.now.fold_rows least.now
        → Adds book.old book.new (folds_in_period cells search.now delay period values.now) }
    ensures count { book.new.count ≤ book.old.count + most_folded }
{
    let halvings = halvings(search.fold_rows, period, values.len());
    if halvings == 0 {
        return;
    }
    let of = Trials {
        delay,
        period,
        halvings,
    };
    let least = least[halvings as usize];
    if !may_be_detected(folder, values, least, of) {
        return;
    }
    fold_all(folder, values, period, halvings);
    judge_trials(book, folder, least, of);
}

/// Adds the detected folds of the series of a delay, over all periods of a search.
pub(crate) fn fold_values(
    book: &mut Book,
    folder: &mut Folder,
    search: &Search,
    values: &[u32],
    delay: u32,
    cells: &Cells,
)
    requires range { SettingsInRange search.now }
    requires on { search.now.fold_min ≤ search.now.fold_max }
    requires folder { CanFold search.now folder.old.longest folder.old.most }
    requires fits { FitFolds search.now values.now }
    requires cells { cells_by cells.now delay ≤ 12288 }
    requires room { book.old.count + most_folds_of_delay ≤ 2 ^ 63 }
    ensures room { HaveSameRoom folder.new folder.old }
    ensures list { Adds book.old book.new
        (folds_in_values (cells_by cells.now) search.now delay values.now) }
    ensures count { book.new.count ≤ book.old.count + most_folds_of_delay }
{
    let rule = Rule {
        mean: search.mean,
        sd: search.sd,
        snr: search.snr,
    };
    let least = least_sums(&rule, cells.at(delay), search.fold_rows);
    for period in search.fold_min..search.fold_max + 1 {
        fold_period(book, folder, search, values, &least, delay, period);
    }
}

/// The number of rows that a fold has after `halvings` halvings.
pub fn fold_row_count(halvings: u32) -> u32
    requires { halvings ≤ 12 }
    ensures value { result ≡ 2 ^ halvings }
    ensures bound { result ≤ 4096 }
{
    2u32.pow(halvings)
}
