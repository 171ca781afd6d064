// What becomes of a levelled spectrum: a burst is clipped, and the mean of the spectrum is taken out.
ghost use Rattle.std.specs.Prelude.{◌≡◌, ℕ, ◌+◌, ◌-◌, ◌*◌, ◌/◌, ◌%◌, ◌<◌, ◌≤◌, ◌≢◌, ◌⊎◌, length, slice_index, if◌then◌else◌};
ghost use Rattle.band_level.specs.Levelled.{marks_cell};
ghost use Rattle.band_level.specs.Ranges.{PlanInRange};
ghost use Rattle.band_level.specs.Finished.{kept_before, kept_total, is_far, clipped_at, clipped, share, balanced, without_mean, finished};
ghost use Rattle.band_level.specs.Shares.{IsSpread, left_over, with_share, spread_level};

use crate::plan::Plan;

// Whether cell `i` is masked.
#[inline(always)]
fn is_masked(masked: &[bool], polarisations: u32, i: usize) -> bool
    requires polarisations { (polarisations ≡ 1) ⊎ (polarisations ≡ 2) }
    requires inside { i < length masked.now * polarisations }
    ensures { result ≡ marks_cell masked.now polarisations i }
{
    if polarisations == 2 {
        masked[i / 2]
    } else {
        masked[i]
    }
}

// A value of cell `i`, if it isn't masked.
#[inline(always)]
fn kept(masked: &[bool], polarisations: u32, i: usize, value: u32) -> u32
    requires polarisations { (polarisations ≡ 1) ⊎ (polarisations ≡ 2) }
    requires inside { i < length masked.now * polarisations }
    ensures kept { result ≡ (if marks_cell masked.now polarisations i then 0 else value) }
    ensures few { result ≤ value }
{
    if is_masked(masked, polarisations, i) {
        0
    } else {
        value
    }
}

// How many cells aren't masked.
#[tactic(auto, using(crate::proofs::Kept::kept_more, crate::proofs::Kept::kept_none))]
fn count_kept(masked: &[bool], polarisations: u32, cells: usize) -> u32
    requires polarisations { (polarisations ≡ 1) ⊎ (polarisations ≡ 2) }
    requires cells { cells ≡ length masked.now * polarisations }
    requires few { cells ≤ 8192 }
    ensures count { result ≡ kept_before (marks_cell masked.now polarisations) cells }
    ensures few { result ≤ cells }
{
    let mut count = 0;
    for i in 0..cells {
        count += kept(masked, polarisations, i, 1);
    }
    count
}

// The sum of the levels of cells that aren't masked.
#[tactic(auto, using(crate::proofs::Kept::total_more, crate::proofs::Kept::total_none))]
fn total_kept(masked: &[bool], polarisations: u32, levels: &[u32]) -> u32
    requires polarisations { (polarisations ≡ 1) ⊎ (polarisations ≡ 2) }
    requires cells { length levels.now ≡ length masked.now * polarisations }
    requires few { length levels.now ≤ 8192 }
    requires small { (i : ℕ) → i < length levels.now → slice_index levels.now i ≤ 65535 }
    ensures total { result ≡ kept_total (marks_cell masked.now polarisations) levels.now }
    ensures small { result ≤ length levels.now * 65535 }
{
    let mut total = 0;
    for i in 0..levels.len() {
        total += kept(masked, polarisations, i, levels[i]);
    }
    total
}

// The square of a number.
fn square(x: u64) -> u128
    requires { x ≤ 1000000000000 }
    ensures square { result ≡ x * x }
    ensures most { (m : ℕ) → x ≤ m → result ≤ m * m }
{
    x as u128 * x as u128
}

// Whether the sum of so many levels lies farther from their mean than `clip` deviations.
fn is_far(plan: Plan, clip: u32, count: u32, total: u32) -> bool
    requires plan { PlanInRange plan }
    requires clip { clip ≤ 1000000000 }
    requires count { count ≤ 8192 }
    requires total { total ≤ 8192 * 65535 }
    ensures { result ≡ is_far plan clip count total }
{
    let far = (1000 * total as u64).abs_diff(count as u64 * plan.mean as u64);
    let reach = square(clip as u64) * square(plan.deviation as u64) * count as u128;
    reach < square(far) * 1000000
}

/// An amount that is spread over values, each of which loses its share or gains it. `whole` and `rest` are the quotient
/// and the remainder of the amount by the count.
#[derive(Clone, Copy, Drop)]
pub struct Spread {
    pub count: u32,
    pub amount: u32,
    pub whole: u32,
    pub rest: u32,
    pub start: u32,
    pub is_taken: bool,
    pub most: u32,
}

// An amount that is spread over so many values.
fn spread_of(count: u32, amount: u32, start: u32, is_taken: bool, most: u32) -> Spread
    requires count { count ≤ 8192 }
    requires amount { amount ≤ 8192 * 65535 }
    requires start { start < count }
    requires most { most ≤ 65535 }
    ensures spread { IsSpread result }
    ensures count { result.count ≡ count }
    ensures amount { result.amount ≡ amount }
    ensures start { result.start ≡ start }
    ensures taken { result.is_taken ≡ is_taken }
    ensures most { result.most ≡ most }
{
    Spread {
        count,
        amount,
        whole: amount / count,
        rest: amount % count,
        start,
        is_taken,
        most,
    }
}

// How what a spectrum has more than its means is spread, or what it has less.
fn spread_for(plan: Plan, count: u32, total: u32) -> Spread
    requires plan { PlanInRange plan }
    requires count { count ≤ 8192 }
    requires total { total ≤ 8192 * 65535 }
    ensures spread { IsSpread result }
    ensures most { result.most ≡ plan.most }
    ensures shares { 0 < count → (j value : ℕ)
        → with_share result (share result.count result.amount result.start j) value
        ≡ balanced plan count total j value }
{
    let means = (count as u64 * plan.mean as u64 / 1000) as u32;
    let some = count.max(1);
    if total >= means {
        spread_of(some, total - means, 0, true, plan.most)
    } else {
        spread_of(some, means - total, some - 1, false, plan.most)
    }
}

// What is left over behind a further value.
#[inline(always)]
fn left_behind(spread: Spread, left: u32) -> u32
    requires spread { IsSpread spread }
    requires left { left < spread.count }
    ensures below { result < spread.count }
    ensures left { (m : ℕ) → left ≡ m % spread.count
        → result ≡ (m + spread.amount) % spread.count }
{
    let sum = left + spread.rest;
    if sum < spread.count {
        sum
    } else {
        sum - spread.count
    }
}

// The share of a value.
#[inline(always)]
fn share_of(spread: Spread, left: u32) -> u32
    requires spread { IsSpread spread }
    requires left { left < spread.count }
    ensures share { (m : ℕ) → left ≡ m % spread.count
        → result ≡ (m + spread.amount) / spread.count - m / spread.count }
    ensures most { result ≤ 8192 * 65535 + 1 }
{
    if left + spread.rest < spread.count {
        spread.whole
    } else {
        spread.whole + 1
    }
}

// A value with its share.
#[inline(always)]
fn changed(spread: Spread, part: u32, value: u32) -> u32
    requires part { part ≤ 8192 * 65535 + 1 }
    requires value { value ≤ 65535 }
    ensures value { result ≡ with_share spread part value }
    ensures most { result ≤ spread.most }
{
    if spread.is_taken {
        value.saturating_sub(part).min(spread.most)
    } else {
        (value + part).min(spread.most)
    }
}

// Gives cell `i` its share, if it isn't masked, and answers what is left over behind it.
#[inline(always)]
fn spread_at(spread: Spread, is_masked: bool, levels: &mut [u32], i: usize, left: u32) -> u32
    requires spread { IsSpread spread }
    requires place { i < length levels.old }
    requires left { left < spread.count }
    requires small { slice_index levels.old i ≤ spread.most }
    ensures below { result < spread.count }
    ensures left { (j : ℕ) → left ≡ left_over spread j
        → result ≡ left_over spread (if is_masked then j else j + 1) }
    ensures here { (j : ℕ) → left ≡ left_over spread j → slice_index levels.new i
        ≡ (if is_masked then slice_index levels.old i
        else with_share spread (share spread.count spread.amount spread.start j)
        (slice_index levels.old i)) }
    ensures others { (k : ℕ) → k ≢ i → slice_index levels.new k ≡ slice_index levels.old k }
{
    if is_masked {
        return left;
    }
    levels[i] = changed(spread, share_of(spread, left), levels[i]);
    left_behind(spread, left)
}

// Gives each cell that isn't masked its share.
fn spread_over(spread: Spread, masked: &[bool], polarisations: u32, levels: &mut [u32])
    requires spread { IsSpread spread }
    requires polarisations { (polarisations ≡ 1) ⊎ (polarisations ≡ 2) }
    requires cells { length levels.old ≡ length masked.now * polarisations }
    requires small { (i : ℕ) → i < length levels.old → slice_index levels.old i ≤ spread.most }
    ensures levels { (i : ℕ) → i < length levels.old → slice_index levels.new i
        ≡ spread_level spread (marks_cell masked.now polarisations) levels.old i }
    ensures small { (i : ℕ) → i < length levels.old → slice_index levels.new i ≤ spread.most }
{
    let mut left = spread.start;
    for i in 0..levels.len() {
        let skips = is_masked(masked, polarisations, i);
        left = spread_at(spread, skips, levels, i, left);
    }
}

// Takes the mean of a spectrum out of it.
fn take_mean(plan: Plan, masked: &[bool], polarisations: u32, levels: &mut [u32])
    requires plan { PlanInRange plan }
    requires polarisations { (polarisations ≡ 1) ⊎ (polarisations ≡ 2) }
    requires cells { length levels.old ≡ length masked.now * polarisations }
    requires few { length levels.old ≤ 8192 }
    requires small { (i : ℕ) → i < length levels.old → slice_index levels.old i ≤ plan.most }
    ensures levels { levels.new
        ≡ without_mean plan (marks_cell masked.now polarisations) levels.old }
    ensures small { (i : ℕ) → i < length levels.old → slice_index levels.new i ≤ plan.most }
{
    let count = count_kept(masked, polarisations, levels.len());
    let total = total_kept(masked, polarisations, levels);
    spread_over(
        spread_for(plan, count, total),
        masked,
        polarisations,
        levels,
    );
}

// Writes the mean in every cell of a burst.
fn clip_row(plan: Plan, clip: u32, masked: &[bool], polarisations: u32, levels: &mut [u32])
    requires plan { PlanInRange plan }
    requires clip { clip ≤ 1000000000 }
    requires polarisations { (polarisations ≡ 1) ⊎ (polarisations ≡ 2) }
    requires cells { length levels.old ≡ length masked.now * polarisations }
    requires few { length levels.old ≤ 8192 }
    requires small { (i : ℕ) → i < length levels.old → slice_index levels.old i ≤ plan.most }
    ensures levels { levels.new
        ≡ clipped_at plan clip (marks_cell masked.now polarisations) levels.old }
    ensures small { (i : ℕ) → i < length levels.old → slice_index levels.new i ≤ plan.most }
{
    let count = count_kept(masked, polarisations, levels.len());
    let total = total_kept(masked, polarisations, levels);
    if is_far(plan, clip, count, total) {
        levels.fill(plan.most.min(plan.mean / 1000));
    }
}

// Clips a burst, if bursts are clipped.
fn clip(plan: Plan, masked: &[bool], polarisations: u32, levels: &mut [u32])
    requires plan { PlanInRange plan }
    requires polarisations { (polarisations ≡ 1) ⊎ (polarisations ≡ 2) }
    requires cells { length levels.old ≡ length masked.now * polarisations }
    requires few { length levels.old ≤ 8192 }
    requires small { (i : ℕ) → i < length levels.old → slice_index levels.old i ≤ plan.most }
    ensures levels { levels.new ≡ clipped plan (marks_cell masked.now polarisations) levels.old }
    ensures small { (i : ℕ) → i < length levels.old → slice_index levels.new i ≤ plan.most }
{
    match plan.clip {
        Some(clip) => clip_row(plan, clip, masked, polarisations, levels),
        None => {}
    }
}

/// Makes of the levels of a spectrum what is written.
#[tactic(auto, unfolding(crate::specs::Finished::finished))]
pub fn finish_row(plan: Plan, masked: &[bool], polarisations: u32, levels: &mut [u32])
    requires plan { PlanInRange plan }
    requires polarisations { (polarisations ≡ 1) ⊎ (polarisations ≡ 2) }
    requires cells { length levels.old ≡ length masked.now * polarisations }
    requires few { length levels.old ≤ 8192 }
    requires small { (i : ℕ) → i < length levels.old → slice_index levels.old i ≤ plan.most }
    ensures levels { levels.new ≡ finished plan (marks_cell masked.now polarisations) levels.old }
    ensures small { (i : ℕ) → i < length levels.old → slice_index levels.new i ≤ plan.most }
{
    clip(plan, masked, polarisations, levels);
    if plan.zero_dm {
        take_mean(plan, masked, polarisations, levels);
    }
}
