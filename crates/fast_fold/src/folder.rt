// Folds a series by halves, level by level.
ghost use Rattle.std.specs.Prelude.{◌≡◌, ℕ, ◌+◌, ◌-◌, ◌*◌, ◌^◌, ◌<◌, ◌≤◌, List, length, slice_index, IfOk};
ghost use Rattle.search_model.specs.Folds.{fold_sum};
ghost use Rattle.fast_fold.specs.Folding.{Folding, IsAt, IsLoaded, HaveSameRoom, StandsForSeries, FoldsSeeRows, block_of};
ghost use Rattle.fast_fold.specs.Excess.{IsGreatestExcess};
ghost use Rattle.fast_fold.specs.Tables.{IsRoomy};

use crate::merge::merge_blocks;
use crate::powers::power;
use crate::tiles::{LONGEST_ROW, MOST_HALVINGS, greatest_excess};
use psr_base::Memory;
use std::alloc::Global;
use std::marker::Model;
use std::mem;

/// The fold sums of all trials of a period over rows of a series. A level is one halving: at level r each block of 2^r
/// neighbouring rows has 2^r trials, in order, each with as many phases as the period has.
#[derive(Drop)]
pub struct Folder {
    longest: u32,
    most: u32,
    period: u32,
    halvings: u32,
    level: u32,
    sums: Vec<u32>,
    spare: Vec<u32>,
    tile: Vec<u16>,
    spare_tile: Vec<u16>,
}

impl Model for Folder {
    ghost Value = { Folding };

    ghost view = { λ f. record {
      longest = f.longest;
      most = f.most;
      period = f.period;
      halvings = f.halvings;
      level = f.level;
      sums = f.sums.items;
    } };

    ghost invariant = { λ f. IsRoomy f.longest f.most f.period f.halvings f.level
        (length f.sums.items) (length f.spare.items)
        (length f.tile.items) (length f.spare_tile.items) };
}

impl Folder {
    /// Takes the memory for periods of at most `pmax` spectra and for at most `2^mmax` rows.
    pub fn open(alloc: Global, pmax: u32, mmax: u32) -> Result<Folder, Memory>
        requires some_phases { 1 ≤ pmax }
        requires some_halvings { 1 ≤ mmax }
        requires few_halvings { mmax ≤ 12 }
        requires size { pmax * 2 ^ mmax ≤ 2 ^ 22 }
        ensures { IfOk result (λ f. (f.longest ≡ pmax) × (f.most ≡ mmax)) }
    {
        let size = pmax as usize * power(mmax);
        let tile = power(mmax.min(MOST_HALVINGS)) * LONGEST_ROW;
        Ok(Folder {
            longest: pmax,
            most: mmax,
            period: 0,
            halvings: 0,
            level: 0,
            sums: vec![in alloc; 0; size]?,
            spare: vec![in alloc; 0; size]?,
            tile: vec![in alloc; 0; tile]?,
            spare_tile: vec![in alloc; 0; tile]?,
        })
    }

    /// Loads the first `2^m` rows of `p` values of a series. The level is then 0.
    pub fn load(&mut self, series: &[u32], p: u32, m: u32)
        requires some_phases { 1 ≤ p }
        requires short { p ≤ self.old.longest }
        requires some_halvings { 1 ≤ m }
        requires few_halvings { m ≤ self.old.most }
        requires long { 2 ^ m * p ≤ length series.now }
        requires fits { (k : ℕ) → k < 2 ^ m * p → slice_index series.now k * 2 ^ m < 2 ^ 32 }
        ensures room { HaveSameRoom self.new self.old }
        ensures level { IsAt self.new p m 0 }
        ensures sums { StandsForSeries self.new series.now }
    {
        let table = self.sums.as_mut_slice();
        copy_front(table, series, power(m) * p as usize);
        self.period = p;
        self.halvings = m;
        self.level = 0;
    }

    /// Merges each two neighbouring blocks. The level is then one more.
    pub fn halve(&mut self)
        requires loaded { IsLoaded self.old }
        requires more { self.old.level < self.old.halvings }
        ensures room { HaveSameRoom self.new self.old }
        ensures level { IsAt self.new self.old.period self.old.halvings (self.old.level + 1) }
        ensures sums { (series : List ℕ) → StandsForSeries self.old series
            → StandsForSeries self.new series }
    {
        let rows = power(self.level);
        let blocks = power(self.halvings - self.level - 1);
        merge_blocks(
            self.spare.as_mut_slice(),
            self.sums.as_slice(),
            self.period as usize,
            rows,
            blocks,
        );
        mem::swap(&mut self.sums, &mut self.spare);
        self.level += 1;
    }

    /// The greatest fold sum of how far the values lie above `base`, over all trials of the first `2^m` rows of `p`
    /// values of a series; 65535 if it is greater. What was loaded stays.
    pub fn greatest_excess(&mut self, series: &[u32], base: u32, p: u32, m: u32) -> u32
        requires some_phases { 1 ≤ p }
        requires some_halvings { 1 ≤ m }
        requires few_halvings { m ≤ self.old.most }
        requires tiled { m ≤ MOST_HALVINGS }
        requires long { 2 ^ m * p ≤ length series.now }
        ensures same { self.new ≡ self.old }
        ensures greatest { IsGreatestExcess base series.now p m result }
    {
        let size = power(m) * p as usize;
        greatest_excess(
            self.tile.as_mut_slice(),
            self.spare_tile.as_mut_slice(),
            &series[..size],
            base,
            p as usize,
            m,
        )
    }

    /// The level: the number of halvings since the last `load`.
    pub fn level(&self) -> u32
        requires { IsLoaded self.now }
        ensures { result ≡ self.now.level }
    {
        self.level
    }

    /// The sums of trial `j` of a block, one for each phase. At level r of m there are `2^(m - r)` blocks, in the order
    /// of the series.
    pub fn profile(&self, block: u32, j: u32) -> &[u32]
        requires loaded { IsLoaded self.now }
        requires block { block < 2 ^ (self.now.halvings - self.now.level) }
        requires trial { j < 2 ^ self.now.level }
        ensures phases { length result.now ≡ self.now.period }
        ensures sums { (series : List ℕ) (q : ℕ) → StandsForSeries self.now series
            → q < self.now.period
            → slice_index result.now q
            ≡ fold_sum (block_of series self.now.period self.now.level block) self.now.period
            self.now.level j q }
    {
        let row = block as usize * power(self.level) + j as usize;
        row_of(self.sums.as_slice(), row, self.period as usize)
    }
}

// The values of row `row`.
fn row_of(table: &[u32], row: usize, period: usize) -> &[u32]
    requires { (row + 1) * period ≤ length table.now }
    ensures long { length result.now ≡ period }
    ensures values { (q : ℕ) → q < period
        → slice_index result.now q ≡ slice_index table.now (row * period + q) }
{
    let start = row * period;
    &table[start..start + period]
}

/// Law: a block that begins the series has the fold sums of the series itself.
pub fn folds_see_rows()
    ensures { FoldsSeeRows }
{}

// Copies the first `size` values of a series.
fn copy_front(out: &mut [u32], series: &[u32], size: usize)
    requires room { size ≤ length out.old }
    requires long { size ≤ length series.now }
    ensures { (k : ℕ) → k < size → slice_index out.new k ≡ slice_index series.now k }
{
    out[..size].copy_from_slice(&series[..size]);
}
