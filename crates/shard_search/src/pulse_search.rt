// Searches for pulses in the path sums of a shard.
ghost use Rattle.std.specs.Prelude.{◌≡◌, ◌≢◌, ℕ, ◌+◌, ◌-◌, ◌*◌, ◌^◌, ◌≤◌, ◌<◌, ◌++◌, [], true, false, All, List, IfOk, length, vec_len, vec_capacity, option_to_list};
ghost use Rattle.std.specs.List.{flat_map, range_with_len};
ghost use Rattle.box_sums.specs.Tails.{KeepsRow, AreAlike, IsNewest, IsKept};
ghost use Rattle.search_model.specs.Search.{SettingsInRange};
ghost use Rattle.fold_search.specs.Judging.{Adds};
ghost use Rattle.shard_search.specs.Thresholds.{IsHit, AreThresholds, pulses_of_hits, pulse_of_hit};
ghost use Rattle.shard_search.specs.PulseSearch.{PulseState, PulsesAreSound, SearchesDelay, SearchesFor, SearchAlike, RowsStandFor, CanJudge, WideRowHas, IsTakenRow, HitIsKept, IsHitBelow, AddsHitsOf, CanTakeHalves, half_row};
ghost use Rattle.search_model.specs.declared.search.Search.{Search};
ghost use Rattle.shard_search.specs.Pulses.{first_sums, IsRowOf, pulses_of_delay};
ghost use Rattle.shard_search.specs.Sought.{Sought as Described, CanBeSought, is_sought_end, sought_from};

use crate::sought::Sought;
use crate::thresholds::{BoxThresholds, Hit, find_hit};
use box_sums::Boxes;
use candidate_book::Book;
use psr_base::Memory;
use row_schedule::Halves;
use search_model::{Candidate, Search};
use std::alloc::Global;
use std::marker::Model;
// Laws: they do nothing when they run, and the proofs use what they ensure.
use box_sums::sums_add_values;
use search_model::tests_detection;

/// The number of widths that a box can have.
const MOST_WIDTHS: usize = 6;

/// Boxes over the path sums of some delays, and the search for those that are detected.
#[derive(Drop)]
pub(crate) struct PulseSearch {
    search: Search,
    sought: Sought,
    first: u32,
    end: u32,
    boxes: Boxes,
    thresholds: BoxThresholds,
    hits: Vec<Hit>,
}

impl Model for PulseSearch {
    ghost Value = { PulseState };

    ghost view = { λ p. record {
      search = p.search;
      sought = p.sought;
      first = p.first;
      end = p.end;
      boxes = p.boxes;
      hits = p.hits.items;
    } };

    ghost invariant = { λ p. PulsesAreSound (record {
      search = p.search;
      sought = p.sought;
      first = p.first;
      end = p.end;
      boxes = p.boxes;
      hits = p.hits.items;
    }) p.thresholds (vec_capacity p.hits) };
}

impl PulseSearch {
    /// Takes the memory for the delays from `first` up to, but without, `end`, for rows of at most `chunk` path sums,
    /// none above `bound`.
    pub(crate) fn open(
        alloc: Global,
        search: &Search,
        sought: Sought,
        first: u32,
        end: u32,
        chunk: u32,
        bound: u32,
    ) -> Result<PulseSearch, Memory>
        requires range { SettingsInRange search.now }
        requires sought { CanBeSought sought 4096 end }
        requires order { first < end }
        requires few_delays { end ≤ 8193 }
        requires some_spectra { 1 ≤ chunk }
        requires most_spectra { chunk ≤ 65536 }
        requires fits { bound * search.now.widest < 2 ^ 32 }
        ensures opened { IfOk result (λ p.
            SearchesFor p search.now sought first end chunk bound) }
        ensures stands { IfOk result (λ p. (y : ℕ → ℕ → ℕ) → RowsStandFor y p 0) }
    {
        let delays = (end - first) as usize;
        Ok(PulseSearch {
            search: *search,
            first,
            end,
            boxes: Boxes::open(alloc, first, end - 1, chunk, search.widest, bound)?,
            thresholds: BoxThresholds::open(alloc, search, &sought, first, end)?,
            hits: Vec::with_capacity(alloc, MOST_WIDTHS * delays)?,
            sought,
        })
    }

    /// What is sought in the rows.
    pub(crate) fn sought(&self) -> &Sought
        ensures value { result.now ≡ self.now.sought }
        ensures fits { CanBeSought result.now 4096 self.now.end }
    {
        &self.sought
    }

    /// Forgets the hits of earlier spectra.
    pub(crate) fn begin(&mut self)
        ensures { self.new ≡ record self.old { hits = [] } }
    {
        self.hits.clear();
    }

    /// From now on also leaves out the pulses that end before spectrum `place` of the observation.
    pub(crate) fn leave_out(&mut self, place: u64)
        ensures { self.new ≡ record self.old {
          sought = sought_from place self.old.sought;
          hits = [];
        } }
    {
        self.sought.leave_out(place);
        self.hits.clear();
    }

    /// Takes the next path sums of delay `d`, the sums of two rows, if no pulse ends at any of them. Answers whether it
    /// did. If not, nothing was taken: a pulse may end at one of them.
    pub(crate) fn take_quiet(&mut self, d: u32, halves: Halves<'_>) -> bool
        requires { CanTakeHalves self.old d halves }
        ensures same { self.new ≡ record self.old { boxes = self.new.boxes } }
        ensures alike { SearchAlike self.new self.old }
        ensures own { result ≡ true → (xs : List ℕ) → WideRowHas self.old.boxes d xs
            → WideRowHas self.new.boxes d (xs ++ half_row halves.entry) }
        ensures others { (e : ℕ) (xs : List ℕ) → SearchesDelay self.old e → e ≢ d
            → WideRowHas self.old.boxes e xs → WideRowHas self.new.boxes e xs }
        ensures kept { (e n : ℕ) (xs : List ℕ) → IsKept self.old.boxes e n xs
            → IsKept self.new.boxes e n xs }
        ensures quiet { result ≡ true → (y : ℕ → ℕ → ℕ) (m k : ℕ)
            → IsRowOf y d m (half_row halves.entry)
            → WideRowHas self.old.boxes d (first_sums y d m)
            → k < length (half_row halves.entry)
            → pulses_of_delay y self.old.search self.old.sought (m + k) d ≡ [] }
        ensures untaken { result ≡ false → self.new ≡ self.old }
    {
        tests_detection();
        sums_add_values();
        if self.search.widest > 1 {
            let leasts = self.thresholds.leasts(self.first, d);
            return self.boxes.feed_quiet(d, halves.upper, halves.lower, leasts);
        }
        let least = self.thresholds.least(self.first, d, 0);
        halves.bound() < least.unwrap_or(u32::MAX)
    }

    /// Takes the next path sums of delay `d`, and notes the widths at which a box that ends at one of them may be
    /// detected. No box of another width is.
    pub(crate) fn take(&mut self, d: u32, row: &[u32])
        requires delay { SearchesDelay self.old d }
        requires short { length row.now ≤ self.old.boxes.chunk }
        requires small { All (λ x. x ≤ self.old.boxes.bound) row.now }
        requires room { length self.old.hits + 6 ≤ 6 * (self.old.end - self.old.first) }
        ensures alike { SearchAlike self.new self.old }
        ensures few { length self.new.hits ≤ length self.old.hits + 6 }
        ensures own { (xs : List ℕ) → WideRowHas self.old.boxes d xs
            → WideRowHas self.new.boxes d (xs ++ row.now) }
        ensures others { (e : ℕ) (xs : List ℕ) → SearchesDelay self.old e → e ≢ d
            → WideRowHas self.old.boxes e xs → WideRowHas self.new.boxes e xs }
        ensures hits { (y : ℕ → ℕ → ℕ) (m k : ℕ) → IsRowOf y d m row.now
            → WideRowHas self.old.boxes d (first_sums y d m) → k < length row.now
            → pulses_of_hits y self.old.search self.old.sought (m + k) self.new.hits
            ≡ pulses_of_hits y self.old.search self.old.sought (m + k) self.old.hits
            ++ pulses_of_delay y self.old.search self.old.sought (m + k) d }
        ensures kept { (y : ℕ → ℕ → ℕ) (m : ℕ) → IsRowOf y d m row.now
            → WideRowHas self.old.boxes d (first_sums y d m)
            → All (IsHitBelow y self.old.boxes m (length row.now) d) self.old.hits
            → All (IsHitBelow y self.new.boxes m (length row.now) (d + 1)) self.new.hits }
    {
        let before = self.hits.len();
        feed_boxes(&mut self.boxes, self.search.widest, d, row);
        note_hits(
            &mut self.hits,
            &self.thresholds,
            &mut self.boxes,
            row,
            self.first,
            d,
        );
        if self.hits.len() > before {
            keep_row(&mut self.boxes, self.search.widest, d, row);
        }
    }

    /// Adds the detected boxes of all hits to a book, as far as they are sought and end at one of the `spectra` spectra
    /// from `start` on: by end, then in the order in which the hits were noted.
    pub(crate) fn report(&self, start: u64, spectra: u32, book: &mut Book)
        requires short { spectra ≤ self.now.boxes.chunk }
        requires early { start + spectra < 2 ^ 62 }
        requires room { book.old.count + spectra * length self.now.hits < 2 ^ 63 }
        ensures count { book.new.count ≤ book.old.count + spectra * length self.now.hits }
        ensures pulses { (y : ℕ → ℕ → ℕ)
            → All (HitIsKept y self.now.boxes start spectra) self.now.hits
            → Adds book.old book.new (flat_map
            (λ u. pulses_of_hits y self.now.search self.now.sought u self.now.hits)
            (range_with_len start spectra)) }
    {
        let ends = self.sought.ends(start, spectra);
        for k in ends.from..ends.to {
            self.report_end(start, k, book);
        }
    }

    // Adds the detected boxes that end at spectrum `start + k`, which is sought.
    fn report_end(&self, start: u64, k: u32, book: &mut Book)
        requires spectrum { k < self.now.boxes.chunk }
        requires early { start + k < 2 ^ 62 }
        requires sought { is_sought_end self.now.sought (start + k) ≡ true }
        requires room { book.old.count + length self.now.hits < 2 ^ 63 }
        ensures count { book.new.count ≤ book.old.count + length self.now.hits }
        ensures pulses { (y : ℕ → ℕ → ℕ) (n : ℕ) → k < n
            → All (HitIsKept y self.now.boxes start n) self.now.hits
            → Adds book.old book.new
            (pulses_of_hits y self.now.search self.now.sought (start + k) self.now.hits) }
    {
        for at in 0..self.hits.len() {
            let hit = self.hits[at];
            self.report_hit(&hit, start, k, book);
        }
    }

    // Adds the box of a hit that ends at spectrum `start + k`, if it doesn't begin before the delay and is detected.
    fn report_hit(&self, hit: &Hit, start: u64, k: u32, book: &mut Book)
        requires hit { IsHit self.now.search self.now.sought self.now.first self.now.end hit.now }
        requires spectrum { k < self.now.boxes.chunk }
        requires early { start + k < 2 ^ 62 }
        requires sought { is_sought_end self.now.sought (start + k) ≡ true }
        requires room { book.old.count < 2 ^ 63 }
        ensures count { book.new.count ≤ book.old.count + 1 }
        ensures pulse { (y : ℕ → ℕ → ℕ) (n : ℕ) → k < n → HitIsKept y self.now.boxes start n hit.now
            → Adds book.old book.new
            (pulse_of_hit y self.now.search self.now.sought (start + k) hit.now) }
    {
        tests_detection();
        sums_add_values();
        let Hit {
            delay,
            width,
            least,
        } = *hit;
        let end = start + u64::from(k);
        if u64::from(delay) + u64::from(width) > end + 1 {
            return;
        }
        let sum = self.boxes.kept_sum(delay, k, width);
        if sum >= least {
            book.add(Candidate::Pulse {
                end: self.sought.first() + end,
                delay,
                width,
                sum,
            });
        }
    }
}

// Feeds the boxes with the next sums of row `d`, if `widest` is more than 1.
fn feed_boxes(boxes: &mut Boxes, widest: u32, d: u32, row: &[u32])
    requires widest { widest ≡ boxes.old.widest }
    requires row { KeepsRow boxes.old d }
    requires short { length row.now ≤ boxes.old.chunk }
    requires small { All (λ x. x ≤ boxes.old.bound) row.now }
    ensures alike { AreAlike boxes.new boxes.old }
    ensures last { 1 < boxes.new.widest → boxes.new.newest ≡ d }
    ensures own { (xs : List ℕ) → WideRowHas boxes.old d xs
        → WideRowHas boxes.new d (xs ++ row.now) }
    ensures newest { (xs : List ℕ) → WideRowHas boxes.old d xs → 1 < boxes.new.widest
        → IsNewest boxes.new d (length row.now) (xs ++ row.now) }
    ensures others { (e : ℕ) (xs : List ℕ) → KeepsRow boxes.old e → e ≢ d
        → WideRowHas boxes.old e xs → WideRowHas boxes.new e xs }
    ensures kept { (e n : ℕ) (xs : List ℕ) → IsKept boxes.old e n xs → IsKept boxes.new e n xs }
{
    if widest > 1 {
        boxes.feed_unkept(d, row);
    }
}

// Keeps row `d`, which was taken last. If `widest` is 1, the row is fed only now.
fn keep_row(boxes: &mut Boxes, widest: u32, d: u32, row: &[u32])
    requires widest { widest ≡ boxes.old.widest }
    requires row { KeepsRow boxes.old d }
    requires short { length row.now ≤ boxes.old.chunk }
    requires small { All (λ x. x ≤ boxes.old.bound) row.now }
    requires last { 1 < boxes.old.widest → boxes.old.newest ≡ d }
    ensures alike { AreAlike boxes.new boxes.old }
    ensures rows { (e : ℕ) (xs : List ℕ) → WideRowHas boxes.old e xs → WideRowHas boxes.new e xs }
    ensures own { (xs : List ℕ)
        → (1 < boxes.old.widest → IsNewest boxes.old d (length row.now) (xs ++ row.now))
        → IsKept boxes.new d (length row.now) (xs ++ row.now) }
    ensures others { (e n : ℕ) (xs : List ℕ) → KeepsRow boxes.old e → e ≢ d
        → IsKept boxes.old e n xs → IsKept boxes.new e n xs }
{
    if widest > 1 {
        boxes.keep_newest();
        return;
    }
    boxes.feed_unkept(d, row);
    boxes.keep_newest();
}

// Notes the widths at which a box over row `d`, which was taken last, may be detected.
fn note_hits(
    hits: &mut Vec<Hit>,
    thresholds: &BoxThresholds,
    boxes: &mut Boxes,
    row: &[u32],
    first: u32,
    d: u32,
)
    requires judge { CanJudge boxes.old first d thresholds.now }
    requires room { vec_len hits.old + length thresholds.now.widths.items ≤ vec_capacity hits.old }
    ensures same { boxes.new ≡ boxes.old }
    ensures capacity { vec_capacity hits.new ≡ vec_capacity hits.old }
    ensures few { length hits.new.items
        ≤ length hits.old.items + length thresholds.now.widths.items }
    ensures hits { (s : Search) (c : Described) (end : ℕ)
        → AreThresholds s c first end thresholds.now
        → All (IsHit s c first end) hits.old.items → All (IsHit s c first end) hits.new.items }
    ensures own { AddsHitsOf d hits.old.items hits.new.items }
    ensures pulses { (s : Search) (c : Described) (end m k : ℕ) (y : ℕ → ℕ → ℕ)
        → AreThresholds s c first end thresholds.now
        → IsTakenRow y boxes.old d m row.now → k < length row.now
        → pulses_of_hits y s c (m + k) hits.new.items
        ≡ pulses_of_hits y s c (m + k) hits.old.items ++ pulses_of_delay y s c (m + k) d }
{
    for at in 0..thresholds.widths.len() {
        let width = thresholds.widths[at];
        let least = thresholds.least(first, d, at);
        note(hits, find_hit(boxes, row, d, width, least));
    }
}

// Notes a hit, if there is one.
fn note(hits: &mut Vec<Hit>, hit: Option<Hit>)
    requires { vec_len hits.old < vec_capacity hits.old }
    ensures capacity { vec_capacity hits.new ≡ vec_capacity hits.old }
    ensures items { hits.new.items ≡ hits.old.items ++ option_to_list hit }
{
    if let Some(hit) = hit {
        hits.push_reserved(hit);
    }
}
