// Rows that are fed, and boxes over them.
ghost use Rattle.std.specs.Prelude.{◌≡◌, ℕ, ◌+◌, ◌-◌, ◌*◌, ◌^◌, ◌<◌, ◌≤◌, ◌≢◌, ◌++◌, true, false, List, Some, [], slice_get, length, sum, take, drop, replicate, vec_capacity, IfOk};
ghost use Rattle.std.specs.List.{All};
ghost use Rattle.dada_model.specs.Bounds.{most_delay};
ghost use Rattle.search_model.specs.Search.{longest_chunk};
ghost use Rattle.box_sums.specs.Tails.{RowTails, StandsForRow, IsNewest, IsKept, HasLastFeed, KeepsRow, FeedsRow, LeavesOthers, AreAlike, CanFeedHalves, IsOpened};
ghost use Rattle.box_sums.specs.Rows.{IsWidth, SumsAddValues, ending_in_feed, sum_ending};
ghost use Rattle.box_sums.specs.Excess.{plain_sums};
ghost use Rattle.box_sums.specs.Tables.{TablesAreSound};

use crate::excess::ExcessBoxes;
use crate::keep::{fill_up, join, write_row, write_sums};
use crate::sums::{add_pairs, boxes_may_reach, double_up_to};
use psr_base::Memory;
use std::alloc::Global;
use std::marker::Model;

/// The number of widths that a box can have.
const LEVELS: usize = 6;

/// How many values are copied in a step.
const LANES: usize = 16;

/// Rows that are fed in pieces, and sums of neighbouring values (boxes) that end at any place of the last feed.
///
/// `feed_row` and `sum` serve all rows. A search that reads boxes of few rows calls `feed_unkept` and `may_reach`, and
/// only for these few `keep_newest` and then `kept_sum`. If a row is the sum of two rows of 16 bits, `feed_quiet` feeds
/// it without making it, unless a box may reach its threshold. Memory for kept rows is used only up to the kept row
/// with the highest number.
///
/// `boxes` has the boxes of the row that was fed last, of two values, four and so on, and `greatest` the greatest of
/// each width. `made` of these widths are made so far.
#[derive(Drop)]
pub struct Boxes {
    first: u32,
    last: u32,
    chunk: u32,
    widest: u32,
    bound: u32,
    reach: usize,
    tails: Vec<u32>,
    newest: u32,
    fed: u32,
    line: Vec<u32>,
    kept: Vec<u32>,
    boxes: Vec<u32>,
    greatest: Vec<u32>,
    made: usize,
    excess: ExcessBoxes,
}

impl Model for Boxes {
    ghost Value = { RowTails };

    ghost view = { λ b. record {
      first = b.first;
      last = b.last;
      chunk = b.chunk;
      widest = b.widest;
      bound = b.bound;
      reach = b.reach;
      tails = b.tails.items;
      newest = b.newest;
      fed = b.fed;
      line = b.line.items;
      kept = b.kept.items;
    } };

    ghost invariant = { λ b. TablesAreSound (record {
      first = b.first;
      last = b.last;
      chunk = b.chunk;
      widest = b.widest;
      bound = b.bound;
      reach = b.reach;
      tails = b.tails.items;
      newest = b.newest;
      fed = b.fed;
      line = b.line.items;
      kept = b.kept.items;
    }) b.boxes.items b.greatest.items b.made (vec_capacity b.kept) b.excess };
}

impl Boxes {
    /// Takes the memory for the rows `first` to `last`, for feeds of at most `chunk` values, none above `bound`, and
    /// for boxes of at most `widest` values. No row is fed.
    pub fn open(
        alloc: Global,
        first: u32,
        last: u32,
        chunk: u32,
        widest: u32,
        bound: u32,
    ) -> Result<Boxes, Memory>
        requires order { first ≤ last }
        requires rows { last ≤ most_delay }
        requires some { 1 ≤ chunk }
        requires most { chunk ≤ longest_chunk }
        requires width { IsWidth widest }
        requires fits { bound * widest < 2 ^ 32 }
        ensures opened { IfOk result (λ b. IsOpened b first last chunk widest bound) }
        ensures none { IfOk result (λ b. (d : ℕ) → KeepsRow b d → StandsForRow b d []) }
    {
        let reach = in_whole_lanes(widest - 1);
        let stride = reach + chunk as usize;
        let rows = (last - first) as usize + 1;
        Ok(Boxes {
            first,
            last,
            chunk,
            widest,
            bound,
            reach,
            tails: zeros(alloc, rows * reach)?,
            newest: first,
            fed: 0,
            line: zeros(alloc, stride)?,
            kept: Vec::with_capacity(alloc, rows * stride)?,
            boxes: zeros(alloc, (LEVELS - 1) * stride)?,
            greatest: zeros(alloc, LEVELS)?,
            made: level_of(widest),
            excess: ExcessBoxes::open(alloc, stride)?,
        })
    }

    /// Feeds row `d` with its next values, and keeps the row, so that `sum` can be asked for its boxes.
    pub fn feed_row(&mut self, d: u32, row: &[u32])
        requires row { KeepsRow self.old d }
        requires short { length row.now ≤ self.old.chunk }
        requires small { All (λ x. x ≤ self.old.bound) row.now }
        ensures alike { AreAlike self.new self.old }
        ensures own { (xs : List ℕ) → StandsForRow self.old d xs
            → HasLastFeed self.new d (length row.now) (xs ++ row.now) }
        ensures newest { (xs : List ℕ) → StandsForRow self.old d xs
            → IsNewest self.new d (length row.now) (xs ++ row.now) }
        ensures others { LeavesOthers self.old self.new d }
        ensures kept { (e n : ℕ) (xs : List ℕ) → KeepsRow self.old e → e ≢ d
            → IsKept self.old e n xs → IsKept self.new e n xs }
    {
        self.feed_unkept(d, row);
        self.keep_newest();
    }

    /// The sum of the `w` values of row `d` that end at value `k`, counted from 0, of its last feed. Values before the
    /// first one count 0.
    pub fn sum(&self, d: u32, k: u32, w: u32) -> u32
        requires row { KeepsRow self.now d }
        requires place { k < self.now.chunk }
        requires width { IsWidth w }
        requires narrow { w ≤ self.now.widest }
        ensures { (n : ℕ) (xs : List ℕ) → HasLastFeed self.now d n xs → k < n
            → result ≡ sum_ending xs (length xs - n + k) w }
    {
        self.kept_sum(d, k, w)
    }

    /// Feeds row `d` with its next values. Only those that later boxes need are kept, unless `keep_newest` comes next.
    pub fn feed_unkept(&mut self, d: u32, row: &[u32])
        requires row { KeepsRow self.old d }
        requires short { length row.now ≤ self.old.chunk }
        requires small { All (λ x. x ≤ self.old.bound) row.now }
        ensures alike { AreAlike self.new self.old }
        ensures own { FeedsRow self.old self.new d row.now }
        ensures last { self.new.newest ≡ d }
        ensures newest { (xs : List ℕ) → (1 < self.old.widest → StandsForRow self.old d xs)
            → IsNewest self.new d (length row.now) (xs ++ row.now) }
        ensures others { LeavesOthers self.old self.new d }
        ensures kept { (e n : ℕ) (xs : List ℕ) → IsKept self.old e n xs → IsKept self.new e n xs }
    {
        let at = (d - self.first) as usize;
        let tail = front_of(self.tails.as_slice(), at * self.reach, self.reach);
        join(self.line.as_mut_slice(), tail, row);
        let last = front_of(self.line.as_slice(), row.len(), self.reach);
        write_row(self.tails.as_mut_slice(), self.reach, at, last);
        self.made = add_pairs(
            self.boxes.as_mut_slice(),
            self.greatest.as_mut_slice(),
            self.widest,
            self.line.as_slice(),
            self.reach + row.len(),
        );
        self.newest = d;
        self.fed = row.len() as u32;
    }

    /// Feeds row `d` with its next values, the sums of two rows, if no box that ends at one of them reaches the
    /// threshold of its width; `leasts` has the thresholds of the widths 1, 2, 4 and so on. Answers whether it did. If
    /// not, nothing was fed: a box may reach its threshold, or the feed is too short.
    pub fn feed_quiet(
        &mut self,
        d: u32,
        upper: &[u16],
        lower: &[u16],
        leasts: &[Option<u32>],
    ) -> bool
        requires { CanFeedHalves self.old d upper.now lower.now leasts.now }
        ensures same { self.new ≡ record self.old { tails = self.new.tails } }
        ensures own { result ≡ true
            → FeedsRow self.old self.new d (plain_sums upper.now lower.now) }
        ensures others { LeavesOthers self.old self.new d }
        ensures below { result ≡ true → (xs : List ℕ) (level least k : ℕ)
            → StandsForRow self.old d xs → level < length leasts.now
            → slice_get leasts.now level ≡ Some (Some least) → k < length upper.now
            → ending_in_feed xs (plain_sums upper.now lower.now) k (2 ^ level) < least }
        ensures fits { result ≡ true → (xs : List ℕ) (k w : ℕ) → StandsForRow self.old d xs
            → k < length upper.now → w ≤ self.old.widest
            → ending_in_feed xs (plain_sums upper.now lower.now) k w < 2 ^ 32 }
        ensures unfed { result ≡ false → self.new ≡ self.old }
    {
        if upper.len() < self.reach {
            return false;
        }
        let at = (d - self.first) as usize;
        let tail = front_of(self.tails.as_slice(), at * self.reach, self.reach);
        if self.excess.may_reach(tail, upper, lower, leasts) {
            return false;
        }
        let from = upper.len() - self.reach;
        write_sums(
            self.tails.as_mut_slice(),
            self.reach,
            at,
            &upper[from..],
            &lower[from..],
        );
        true
    }

    /// Keeps the row that was fed last. `kept_sum` then answers its boxes until it is kept again.
    pub fn keep_newest(&mut self)
        ensures same { self.new ≡ record self.old { kept = self.new.kept } }
        ensures alike { AreAlike self.new self.old }
        ensures own { (d n : ℕ) (xs : List ℕ) → IsNewest self.old d n xs
            → IsKept self.new d n xs }
        ensures others { (e n : ℕ) (xs : List ℕ) → KeepsRow self.old e → e ≢ self.old.newest
            → IsKept self.old e n xs → IsKept self.new e n xs }
    {
        let at = (self.newest - self.first) as usize;
        let stride = self.reach + self.chunk as usize;
        fill_up(&mut self.kept, (at + 1) * stride);
        let line = front_of(self.line.as_slice(), 0, self.reach + self.fed as usize);
        write_row(self.kept.as_mut_slice(), stride, at, line);
    }

    /// The sum of the `w` values of row `d` that end at value `k`, counted from 0, of the feed after which it was kept
    /// last. Values before the first one count 0.
    pub fn kept_sum(&self, d: u32, k: u32, w: u32) -> u32
        requires row { KeepsRow self.now d }
        requires place { k < self.now.chunk }
        requires width { IsWidth w }
        requires narrow { w ≤ self.now.widest }
        ensures { (n : ℕ) (xs : List ℕ) → IsKept self.now d n xs → k < n
            → result ≡ sum_ending xs (length xs - n + k) w }
    {
        let at = (d - self.first) as usize;
        let stride = self.reach + self.chunk as usize;
        let place = at * stride + (self.reach + 1 - w as usize) + k as usize;
        if self.kept.len() < place + w as usize {
            // a row that was never kept
            return 0;
        }
        add_all(front_of(self.kept.as_slice(), place, w as usize))
    }

    /// Whether a box of `w` values of the row that was fed last may reach `least`, if it ends at a value of that feed.
    /// If the answer is `false`, none does. Boxes are made, each from two of half its width, only as far as the answer
    /// needs.
    pub fn may_reach(&mut self, w: u32, least: u32) -> bool
        requires width { IsWidth w }
        requires wide { 2 ≤ w }
        requires narrow { w ≤ self.old.widest }
        ensures same { self.new ≡ self.old }
        ensures below { result ≡ false → (d n k : ℕ) (xs : List ℕ) → IsNewest self.old d n xs
            → k < n → sum_ending xs (length xs - n + k) w < least }
    {
        let level = level_of(w);
        self.made = double_up_to(
            self.boxes.as_mut_slice(),
            self.greatest.as_mut_slice(),
            self.reach + self.chunk as usize,
            self.made,
            level,
            least,
            self.reach + self.fed as usize,
        );
        boxes_may_reach(self.greatest.as_slice(), self.made.min(level), level, least)
    }

    /// Law: every box that ends at a value of the last feed of the row that was fed last fits into 32 bits. It does
    /// nothing.
    pub fn sums_fit(&self)
        ensures { (d n k w : ℕ) (xs : List ℕ) → IsNewest self.now d n xs → k < n → IsWidth w
            → w ≤ self.now.widest → sum_ending xs (length xs - n + k) w < 2 ^ 32 }
    {
        let _ = &self.line;
    }
}

/// Law: the sum of the last `w` values is that of the values one by one.
pub fn sums_add_values()
    ensures { SumsAddValues }
{}

// `count` zeros.
fn zeros(alloc: Global, count: usize) -> Result<Vec<u32>, Memory>
    ensures { IfOk result (λ v. v.items ≡ replicate count 0) }
{
    Ok(vec![in alloc; 0; count]?)
}

// `count`, rounded up to a multiple of 16.
fn in_whole_lanes(count: u32) -> usize
    requires { count < 32 }
    ensures enough { count ≤ result }
    ensures near { result ≤ 32 }
    ensures none { count ≡ 0 → result ≡ 0 }
    ensures some { 0 < count → 16 ≤ result }
{
    (count as usize).div_ceil(LANES) * LANES
}

// The level of a width: `w` is 2^level.
fn level_of(w: u32) -> usize
    requires { IsWidth w }
    ensures power { 2 ^ result ≡ w }
    ensures few { result ≤ 5 }
{
    match w {
        1 => 0,
        2 => 1,
        4 => 2,
        8 => 3,
        16 => 4,
        _ => 5,
    }
}

// The `count` values of a table from `place` on.
fn front_of(table: &[u32], place: usize, count: usize) -> &[u32]
    requires { place + count ≤ length table.now }
    ensures long { length result.now ≡ count }
    ensures values { result.now ≡ take count (drop place table.now) }
{
    &table[place..place + count]
}

// The sum of all values.
fn add_all(values: &[u32]) -> u32
    requires { sum values.now < 2 ^ 32 }
    ensures { result ≡ sum values.now }
{
    values.iter().sum()
}
