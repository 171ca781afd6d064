// Folds of the series of a shard's delays.
ghost use Rattle.std.specs.Prelude.{◌≡◌, ℕ, ◌+◌, ◌-◌, ◌*◌, ◌^◌, ◌<◌, ◌≤◌, ◌≢◌, ◌++◌, List, [], false, All, IfOk, IsTrue, length, slice_index_or};
ghost use Rattle.search_model.specs.Samples.{Filterbank};
ghost use Rattle.search_model.specs.Search.{SettingsInRange, folds_are_on};
ghost use Rattle.search_model.specs.Folds.{series};
ghost use Rattle.search_model.specs.Candidates.{folds, within_delays};
ghost use Rattle.fast_fold.specs.Folding.{HaveSameRoom};
ghost use Rattle.fold_search.specs.Counts.{most_folded, most_folds, most_folds_of_delay};
ghost use Rattle.fold_search.specs.Judging.{Adds};
ghost use Rattle.fold_search.specs.Series.{no_front, IsFrontOf};
ghost use Rattle.fold_search.specs.FoldSearch.{Fronts, HasDelay, KeepsFrontOf, FoldsAlike, FoldsFor, FoldsFit, IsDelayRange, IsDelayOf, AreFronts, AreOfSeries, CanFold, IsReady, is_folded as is_folded_of, most_used as most_used_of, FitFolds, folds_if_folded, folds_of_delays};
ghost use Rattle.fold_search.specs.Cells.{AreFewCells, cells_by};

use crate::cells::Cells;
use crate::judging::fold_values;
use crate::series::Series;
use candidate_book::Book;
use fast_fold::{Folder, folds_see_rows};
use psr_base::Memory;
use search_model::Search;
use std::alloc::Global;
use std::marker::Model;

/// The series of a shard's delays, as far as folds use them, and the search of their folds. `open` takes all memory.
#[derive(Drop)]
pub struct FoldSearch {
    search: Search,
    first: u32,
    end: u32,
    bound: u32,
    fronts: Vec<Series>,
    folder: Folder,
}

impl Model for FoldSearch {
    ghost Value = { Fronts };

    ghost view = { λ f. record {
      search = f.search;
      first = f.first;
      end = f.end;
      bound = f.bound;
      fronts = f.fronts.items;
    } };

    ghost invariant = { λ f. IsReady f.search f.first f.end f.bound f.fronts.items f.folder.longest
        f.folder.most };
}

impl FoldSearch {
    /// Takes the memory for the delays from `first` up to, but without, `end`, in spectra. No path sum is above
    /// `bound`.
    pub fn open(
        alloc: Global,
        search: &Search,
        first: u32,
        end: u32,
        bound: u32,
    ) -> Result<FoldSearch, Memory>
        requires range { SettingsInRange search.now }
        requires delays { IsDelayRange search.now first end }
        requires fits { IsTrue (folds_are_on search.now) → FoldsFit search.now bound }
        ensures opened { IfOk result (λ f. FoldsFor f search.now first end bound) }
        ensures none { IfOk result (λ f. (d : ℕ) → HasDelay f d → KeepsFrontOf f d []) }
    {
        Ok(FoldSearch {
            search: *search,
            first,
            end,
            bound,
            fronts: open_fronts(alloc, search, first, end)?,
            folder: open_folder(alloc, search)?,
        })
    }

    /// Whether the series of a delay is folded. If not, nothing of it is kept.
    pub fn is_folded(&self, delay: u32) -> bool
        requires { HasDelay self.now delay }
        ensures value { result ≡ is_folded_of self.now.search delay }
        ensures kept { result ≡ false → (xs ys : List ℕ) → KeepsFrontOf self.now delay xs
            → KeepsFrontOf self.now delay ys }
    {
        is_folded(&self.search, delay)
    }

    /// Takes the next path sums of a delay. The first one of a delay must end at the spectrum with the delay's number.
    pub fn take(&mut self, delay: u32, row: &[u32])
        requires delay { HasDelay self.old delay }
        requires small { All (λ x. x ≤ self.old.bound) row.now }
        ensures alike { FoldsAlike self.new self.old }
        ensures own { (xs : List ℕ) → KeepsFrontOf self.old delay xs
            → KeepsFrontOf self.new delay (xs ++ row.now) }
        ensures others { (d : ℕ) (xs : List ℕ) → HasDelay self.old d → d ≢ delay
            → KeepsFrontOf self.old d xs → KeepsFrontOf self.new d xs }
    {
        let at = (delay - self.first) as usize;
        let front = &mut self.fronts[at];
        front.take(row);
    }

    /// Adds the detected folds of the delays to a book, in the order of the candidate list.
    pub fn end(&mut self, cells: &Cells, book: &mut Book)
        requires cells { AreFewCells cells.now 4096 self.old.end }
        requires room { book.old.count + most_folds ≤ 2 ^ 63 }
        ensures same { self.new ≡ self.old }
        ensures count { book.new.count ≤ book.old.count + most_folds }
        ensures folds { (f : Filterbank) (edges : List ℕ)
            → ((d : ℕ) → HasDelay self.old d → KeepsFrontOf self.old d (series f edges d))
            → Adds book.old book.new (within_delays self.old.first self.old.end
            (folds f edges (cells_by cells.now) self.old.search)) }
    {
        fold_fronts(
            book,
            &mut self.folder,
            &self.search,
            self.fronts.as_slice(),
            self.first,
            cells,
        );
    }
}

// Whether the series of a delay is folded.
fn is_folded(search: &Search, delay: u32) -> bool
    requires range { SettingsInRange search.now }
    requires from { search.now.min_delay ≤ delay }
    ensures { result ≡ is_folded_of search.now delay }
{
    search.fold_min <= search.fold_max && (delay - search.min_delay) % search.fold_step == 0
}

// How many values of the series of a delay folds use.
fn most_used(search: &Search, delay: u32) -> usize
    requires range { SettingsInRange search.now }
    requires from { search.now.min_delay ≤ delay }
    ensures { result ≡ most_used_of search.now delay }
{
    if is_folded(search, delay) {
        (search.fold_max as usize) << search.fold_rows
    } else {
        0
    }
}

// A folder for the folds of a search, or the smallest one if folding is off.
fn open_folder(alloc: Global, search: &Search) -> Result<Folder, Memory>
    requires range { SettingsInRange search.now }
    requires fits { IsTrue (folds_are_on search.now)
        → search.now.fold_max * 2 ^ search.now.fold_rows ≤ most_folded }
    ensures { IfOk result (λ f. IsTrue (folds_are_on search.now)
        → CanFold search.now f.longest f.most) }
{
    if search.fold_min <= search.fold_max {
        Folder::open(alloc, search.fold_max, search.fold_rows)
    } else {
        Folder::open(alloc, 1, 1)
    }
}

// Empty series for the delays from `first` up to, but without, `end`.
fn open_fronts(alloc: Global, search: &Search, first: u32, end: u32) -> Result<Vec<Series>, Memory>
    requires range { SettingsInRange search.now }
    requires delays { IsDelayRange search.now first end }
    ensures count { IfOk result (λ v. length v.items ≡ end - first) }
    ensures fronts { IfOk result (λ v. AreFronts search.now first v.items) }
    ensures none { IfOk result (λ v. (k : ℕ) → (slice_index_or v.items k no_front).values ≡ []) }
{
    let mut fronts = Vec::with_capacity(alloc, (end - first) as usize)?;
    for delay in first..end {
        fronts.push(Series::open(alloc, most_used(search, delay))?)?;
    }
    Ok(fronts)
}

// Adds the detected folds of a delay, if it is folded.
fn fold_front(
    book: &mut Book,
    folder: &mut Folder,
    search: &Search,
    front: &Series,
    delay: u32,
    cells: &Cells,
)
    requires range { SettingsInRange search.now }
    requires delay { IsDelayOf search.now delay }
    requires cells { cells_by cells.now delay ≤ 12288 }
    requires folder { IsTrue (folds_are_on search.now)
        → CanFold search.now folder.old.longest folder.old.most }
    requires most { front.now.most ≡ most_used_of search.now delay }
    requires fits { IsTrue (folds_are_on search.now) → FitFolds search.now front.now.values }
    requires room { book.old.count + most_folds_of_delay ≤ 2 ^ 63 }
    ensures room { HaveSameRoom folder.new folder.old }
    ensures count { book.new.count ≤ book.old.count + most_folds_of_delay }
    ensures folds { (f : Filterbank) (edges : List ℕ) → IsFrontOf front.now (series f edges delay)
        → Adds book.old book.new
        (folds_if_folded f edges (cells_by cells.now) search.now delay) }
{
    if is_folded(search, delay) {
        folds_see_rows();
        fold_values(book, folder, search, front.values(), delay, cells);
    }
}

// Adds the detected folds of all delays, which begin with `first`.
fn fold_fronts(
    book: &mut Book,
    folder: &mut Folder,
    search: &Search,
    fronts: &[Series],
    first: u32,
    cells: &Cells,
)
    requires range { SettingsInRange search.now }
    requires delays { IsDelayRange search.now first (first + length fronts.now) }
    requires cells { AreFewCells cells.now 4096 (first + length fronts.now) }
    requires folder { IsTrue (folds_are_on search.now)
        → CanFold search.now folder.old.longest folder.old.most }
    requires fronts { AreFronts search.now first fronts.now }
    requires fits { IsTrue (folds_are_on search.now) → (k : ℕ)
        → FitFolds search.now (slice_index_or fronts.now k no_front).values }
    requires room { book.old.count + most_folds ≤ 2 ^ 63 }
    ensures room { HaveSameRoom folder.new folder.old }
    ensures count { book.new.count ≤ book.old.count + most_folds }
    ensures folds { (f : Filterbank) (edges : List ℕ) → AreOfSeries fronts.now f edges first
        → Adds book.old book.new (folds_of_delays f edges (cells_by cells.now) search.now first
        (length fronts.now)) }
{
    for at in 0..fronts.len() {
        fold_front(book, folder, search, &fronts[at], first + at as u32, cells);
    }
}
