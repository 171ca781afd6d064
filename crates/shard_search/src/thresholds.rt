// The thresholds of boxes: their smallest detected sums.
ghost use Rattle.std.specs.Prelude.{◌≡◌, ℕ, ◌+◌, ◌-◌, ◌*◌, ◌^◌, ◌≤◌, ◌<◌, false, All, IfOk, OnOk, IfSome, length, slice_get, slice_index, option_to_list, Option, Some};
ghost use Rattle.box_sums.specs.Rows.{IsWidth};
ghost use Rattle.detect_rule.specs.Noise.{StandOutFrom};
ghost use Rattle.fold_search.specs.Judging.{noise_of};
ghost use Rattle.search_model.specs.declared.search.Search.{Search};
ghost use Rattle.search_model.specs.Search.{SettingsInRange, widths};
ghost use Rattle.shard_search.specs.PulseSearch.{CanBeWide, IsTakenRow};
ghost use Rattle.shard_search.specs.Pulses.{box_of, pulse_of};
ghost use Rattle.shard_search.specs.Sought.{Sought as Described, CanBeSought, cells_in};
ghost use Rattle.shard_search.specs.Thresholds.{AreLeastSums, IsHit, pulses_of_hits};

use crate::sought::Sought;
use box_sums::Boxes;
use detect_rule::Rule;
use fdmt_rows::greatest;
use psr_base::Memory;
use search_model::Search;
use std::alloc::Global;
// Laws: they do nothing when they run, and the proofs use what they ensure.
use box_sums::sums_add_values;
use search_model::tests_detection;

/// The widths that a box can have.
const WIDTHS: [u32; 6] = [1, 2, 4, 8, 16, 32];

/// A delay and a width at which a box that ends at one of the last spectra may be detected.
#[derive(Clone, Copy, Drop)]
pub(crate) struct Hit {
    /// The delay, in spectra.
    pub(crate) delay: u32,
    /// The width, in path sums.
    pub(crate) width: u32,
    /// The smallest sum of such a box that is detected.
    pub(crate) least: u32,
}

/// The widths of a search, and their thresholds for each delay. The thresholds of one delay are neighbours, so they lie
/// in one or two cache lines.
#[derive(Drop)]
pub(crate) struct BoxThresholds {
    /// The widths, from the narrowest on.
    pub(crate) widths: Vec<u32>,
    /// For each delay from the first on, the smallest detected sum of each width, or `None` if no sum is detected.
    pub(crate) least_sums: Vec<Option<u32>>,
}

impl BoxThresholds {
    ghost use Rattle.shard_search.specs.Thresholds.{AreThresholds};

    /// The thresholds of a search for the delays from `first` up to, but without, `end`.
    pub(crate) fn open(
        alloc: Global,
        search: &Search,
        sought: &Sought,
        first: u32,
        end: u32,
    ) -> Result<BoxThresholds, Memory>
        requires range { SettingsInRange search.now }
        requires sought { CanBeSought sought.now 4096 end }
        requires order { first ≤ end }
        requires few_delays { end ≤ 8193 }
        ensures { IfOk result (AreThresholds search.now sought.now first end) }
    {
        let widths = widths_of(alloc, search)?;
        let least_sums = open_sums(alloc, search, sought, widths.as_slice(), first, end)?;
        Ok(BoxThresholds { widths, least_sums })
    }

    /// The smallest detected sum of a box of delay `d` and of width number `at`. `None` if no sum is detected.
    pub(crate) fn least(&self, first: u32, d: u32, at: usize) -> Option<u32>
        requires above { first ≤ d }
        requires width { at < length self.now.widths.items }
        requires inside { length self.now.widths.items * (d - first) + at
            < length self.now.least_sums.items }
        ensures { (s : Search) (c : Described) (end : ℕ) → AreThresholds s c first end self.now
            → StandOutFrom (noise_of s) (slice_index self.now.widths.items at * cells_in c d)
            result }
    {
        self.least_sums[self.widths.len() * (d - first) as usize + at]
    }

    /// The smallest detected sums of all widths for delay `d`, from the narrowest on.
    pub(crate) fn leasts(&self, first: u32, d: u32) -> &[Option<u32>]
        requires above { first ≤ d }
        requires inside { length self.now.widths.items * (d - first)
            + length self.now.widths.items ≤ length self.now.least_sums.items }
        ensures long { length result.now ≡ length self.now.widths.items }
        ensures least { (s : Search) (c : Described) (end at : ℕ) (least : Option ℕ)
            → AreThresholds s c first end self.now → slice_get result.now at ≡ Some least
            → StandOutFrom (noise_of s) (slice_index self.now.widths.items at * cells_in c d)
            least }
    {
        let from = self.widths.len() * (d - first) as usize;
        &self.least_sums[from..from + self.widths.len()]
    }
}

// The widths of a search.
fn widths_of(alloc: Global, search: &Search) -> Result<Vec<u32>, Memory>
    ensures { IfOk result (λ ws. ws.items ≡ widths search.now) }
{
    let mut widths = Vec::with_capacity(alloc, WIDTHS.len())?;
    for width in WIDTHS {
        if width <= search.widest {
            widths.push(width)?;
        }
    }
    Ok(widths)
}

// The thresholds of these widths, for the delays from `first` up to, but without, `end`.
fn open_sums(
    alloc: Global,
    search: &Search,
    sought: &Sought,
    widths: &[u32],
    first: u32,
    end: u32,
) -> Result<Vec<Option<u32>>, Memory>
    requires range { SettingsInRange search.now }
    requires sought { CanBeSought sought.now 4096 end }
    requires order { first ≤ end }
    requires few_delays { end ≤ 8193 }
    requires widths { All (λ w. w ≤ 32) widths.now }
    requires few_widths { length widths.now ≤ 6 }
    ensures count { IfOk result (λ sums.
        length sums.items ≡ length widths.now * (end - first)) }
    ensures least { IfOk result (λ sums.
        AreLeastSums search.now sought.now first widths.now sums.items) }
{
    let mut sums = Vec::with_capacity(alloc, widths.len() * (end - first) as usize)?;
    for d in first..end {
        add_sums(&mut sums, search, sought, widths, first, d)?;
    }
    Ok(sums)
}

// Appends the thresholds of delay `d` to those of the delays before it.
fn add_sums(
    sums: &mut Vec<Option<u32>>,
    search: &Search,
    sought: &Sought,
    widths: &[u32],
    first: u32,
    d: u32,
) -> Result<(), Memory>
    requires range { SettingsInRange search.now }
    requires cells { cells_in sought.now d < 2 ^ 14 }
    requires above { first ≤ d }
    requires widths { All (λ w. w ≤ 32) widths.now }
    requires count { length sums.old.items ≡ length widths.now * (d - first) }
    requires before { AreLeastSums search.now sought.now first widths.now sums.old.items }
    ensures count { OnOk result
        (length sums.new.items ≡ length widths.now * (d - first) + length widths.now) }
    ensures least { OnOk result
        (AreLeastSums search.now sought.now first widths.now sums.new.items) }
{
    for at in 0..widths.len() {
        sums.push(least_sum(search, sought, widths[at], d))?;
    }
    Ok(())
}

// The smallest sum of a box of this width and of delay `d` that is detected. `None` if no sum below 2^32 is.
fn least_sum(search: &Search, sought: &Sought, width: u32, d: u32) -> Option<u32>
    requires range { SettingsInRange search.now }
    requires cells { cells_in sought.now d < 2 ^ 14 }
    requires width { width ≤ 32 }
    ensures { StandOutFrom (noise_of search.now) (width * cells_in sought.now d) result }
{
    let rule = Rule {
        mean: search.mean,
        sd: search.sd,
        snr: search.snr,
    };
    let cells = u64::from(width) * u64::from(sought.cells(d));
    rule.least(cells)
}

/// The hit of delay `d` and a width, if a box of these that ends in the row may be detected. `row` is the row that was
/// taken last, and `least` its threshold. If the answer is `None`, no such box is detected.
pub(crate) fn find_hit(
    boxes: &mut Boxes,
    row: &[u32],
    d: u32,
    width: u32,
    least: Option<u32>,
) -> Option<Hit>
    requires width { CanBeWide boxes.old width }
    ensures same { boxes.new ≡ boxes.old }
    ensures own { IfSome result (λ hit. hit.delay ≡ d) }
    ensures hit { (s : Search) (c : Described) (first end : ℕ) → first ≤ d → d < end
        → width ≤ s.widest → StandOutFrom (noise_of s) (width * cells_in c d) least
        → IfSome result (IsHit s c first end) }
    ensures pulses { (s : Search) (c : Described) (m k : ℕ) (y : ℕ → ℕ → ℕ)
        → StandOutFrom (noise_of s) (width * cells_in c d) least
        → IsTakenRow y boxes.old d m row.now → k < length row.now
        → pulses_of_hits y s c (m + k) (option_to_list result) ≡ pulse_of y s c (m + k) d width }
{
    tests_detection();
    boxes_fit(boxes, row, width);
    let least = least?;
    if may_reach(boxes, row, width, least) {
        Some(Hit {
            delay: d,
            width,
            least,
        })
    } else {
        None
    }
}

// Law: each box of a width that ends in the row that was taken last fits into 32 bits.
fn boxes_fit(boxes: &Boxes, row: &[u32], width: u32)
    requires width { IsWidth width }
    requires within { width ≤ boxes.now.widest }
    ensures { (y : ℕ → ℕ → ℕ) (d m k : ℕ) → IsTakenRow y boxes.now d m row.now → k < length row.now
        → box_of y d (m + k) width < 2 ^ 32 }
{
    sums_add_values();
    boxes.sums_fit();
}

// Whether a box of a width that ends in the row that was taken last may reach `least`. If the answer is `false`, none
// does. A box of width 1 is a single sum.
fn may_reach(boxes: &mut Boxes, row: &[u32], width: u32, least: u32) -> bool
    requires width { IsWidth width }
    requires within { width ≤ boxes.old.widest }
    ensures same { boxes.new ≡ boxes.old }
    ensures below { result ≡ false → (y : ℕ → ℕ → ℕ) (d m k : ℕ)
        → IsTakenRow y boxes.old d m row.now
        → k < length row.now → box_of y d (m + k) width < least }
{
    if width < 2 {
        return greatest(row) >= least;
    }
    sums_add_values();
    boxes.may_reach(width, least)
}
