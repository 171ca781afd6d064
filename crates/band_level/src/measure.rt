// The scales of all cells, by the values of a stretch.
ghost use Rattle.std.specs.Prelude.{◌≡◌, ℕ, ◌<◌, ◌≤◌, ◌≢◌, length, slice_index};
ghost use Rattle.band_level.specs.Values.{cells};
ghost use Rattle.band_level.specs.Holding.{HasSpectra, held_value};
ghost use Rattle.band_level.specs.Moments.{moments, fair_moments};
ghost use Rattle.band_level.specs.Columns.{HoldsNear, IsSmall, column, near_column, moments_in, MomentsInRange, moments_of};
ghost use Rattle.band_level.specs.Rows.{HasBounds, HasMoments, HasScales, HoldScales, ScalesFit, SetsScales, SpaceFits, scale_held, scale_in};
ghost use Rattle.band_level.specs.Scales.{scale_of};
ghost use Rattle.band_level.specs.Ranges.{FormatInRange, PlanInRange};
ghost use Rattle.band_level.specs.Levelled.{is_masked};
ghost use Rattle.band_level.specs.Sound.{FitsTask, task_in};

use crate::cells::{CellBounds, CellMoments, CellScales, CellSpace};
use crate::format::Format;
use crate::held::Held;
use crate::moments::{add_up, add_up_far, leave_out};
use crate::plan::Plan;
use crate::scale::{Moments, near_bounds, scale_of_cell};
use crate::task::Task;

// Bounds of what lies near the mean of each cell.
fn set_bounds(moments: &CellMoments, bounds: &mut CellBounds)
    requires moments { HasMoments (length moments.now.counts.items) moments.now }
    requires bounds { HasBounds (length moments.now.counts.items) bounds.old }
    requires small { IsSmall 1048576 moments.now }
    requires some { (i : ℕ) → i < length moments.now.counts.items
        → 0 < slice_index moments.now.counts.items i }
    ensures long { HasBounds (length moments.now.counts.items) bounds.new }
    ensures near { HoldsNear (length moments.now.counts.items) moments.now bounds.new }
{
    let counts = moments.counts.as_slice();
    let totals = moments.totals.as_slice();
    let squares = moments.squares.as_slice();
    let lows = bounds.lows.as_mut_slice();
    let highs = bounds.highs.as_mut_slice();
    for i in 0..counts.len() {
        let near = near_bounds(Moments {
            count: counts[i],
            total: totals[i],
            squares: squares[i],
        });
        lows[i] = near.low;
        highs[i] = near.high;
    }
}

// Sets the scale of a cell, where values were counted of it.
fn set_scale(
    plan: Plan,
    is_masked: bool,
    moments: Moments,
    i: usize,
    gains: &mut [u64],
    bases: &mut [u64],
    lifts: &mut [u64],
)
    requires plan { PlanInRange plan }
    requires range { MomentsInRange (moments_of moments) }
    requires place { i < length gains.old }
    requires scales { ScalesFit (length gains.old) gains.old bases.old lifts.old }
    ensures fit { ScalesFit (length gains.old) gains.new bases.new lifts.new }
    ensures here { 0 < moments.count → scale_held gains.new bases.new lifts.new i
        ≡ scale_of plan is_masked (moments_of moments) }
    ensures none { moments.count ≡ 0 → scale_held gains.new bases.new lifts.new i
        ≡ scale_held gains.old bases.old lifts.old i }
    ensures others { (j : ℕ) → j ≢ i → scale_held gains.new bases.new lifts.new j
        ≡ scale_held gains.old bases.old lifts.old j }
{
    if moments.count == 0 {
        return;
    }
    let scale = scale_of_cell(plan, is_masked, moments);
    gains[i] = scale.gain;
    bases[i] = scale.base;
    lifts[i] = scale.lift;
}

// The scale of each cell of which values were counted; the others keep theirs.
fn set_scales(task: &Task, moments: &CellMoments, scales: &mut CellScales)
    requires task { FitsTask task.now }
    requires moments { HasMoments (cells task.now.format) moments.now }
    requires small { IsSmall 1048576 moments.now }
    requires scales { HasScales (cells task.now.format) scales.old }
    ensures fit { HasScales (cells task.now.format) scales.new }
    ensures sets { SetsScales (cells task.now.format) task.now.plan (is_masked (task_in task.now))
        (moments_in moments.now) (scale_in scales.old) (scale_in scales.new) }
{
    let masked = task.masked.as_slice();
    let polarisations = task.format.polarisations;
    let counts = moments.counts.as_slice();
    let totals = moments.totals.as_slice();
    let squares = moments.squares.as_slice();
    let gains = scales.gains.as_mut_slice();
    let bases = scales.bases.as_mut_slice();
    let lifts = scales.lifts.as_mut_slice();
    for i in 0..counts.len() {
        let moments = Moments {
            count: counts[i],
            total: totals[i],
            squares: squares[i],
        };
        let is_masked = masked[i / polarisations as usize];
        set_scale(task.plan, is_masked, moments, i, gains, bases, lifts);
    }
}

// The moments of all values of each cell.
fn measure_all(held: &Held, format: Format, count: usize, row: &mut [u32], sums: &mut CellMoments)
    requires format { FormatInRange format }
    requires held { HasSpectra format held.now count }
    requires most { count ≤ 1048576 }
    requires row { length row.old ≡ cells format }
    requires long { HasMoments (cells format) sums.old }
    ensures long { HasMoments (cells format) sums.new }
    ensures moments { (i : ℕ) → i < cells format
        → moments_in sums.new i ≡ moments (column (held_value format held.now) count i) }
    ensures small { IsSmall 1048576 sums.new }
    ensures values { (t i : ℕ) → t < count → i < cells format
        → held_value format held.now t i ≤ 4194303 }
{
    let counts = sums.counts.as_mut_slice();
    let totals = sums.totals.as_mut_slice();
    let squares = sums.squares.as_mut_slice();
    counts.fill(count as u32);
    add_up(held, format, count, row, totals, squares);
}

// The moments of the values of each cell between its bounds, from those of all.
fn measure_near(held: &Held, format: Format, count: usize, row: &mut [u32], space: &mut CellSpace)
    requires format { FormatInRange format }
    requires held { HasSpectra format held.now count }
    requires most { count ≤ 1048576 }
    requires row { length row.old ≡ cells format }
    requires space { SpaceFits (cells format) space.old }
    requires moments { (i : ℕ) → i < cells format → moments_in space.old.moments i
        ≡ moments (column (held_value format held.now) count i) }
    requires values { (t i : ℕ) → t < count → i < cells format
        → held_value format held.now t i ≤ 4194303 }
    ensures space { SpaceFits (cells format) space.new }
    ensures moments { (i : ℕ) → i < cells format → moments_in space.new.moments i
        ≡ moments (near_column (held_value format held.now) space.old.bounds.lows.items
        space.old.bounds.highs.items count i) }
    ensures small { IsSmall 1048576 space.new.moments }
{
    add_up_far(held, format, count, row, &space.bounds, &mut space.far);
    leave_out(&mut space.moments, &space.far);
}

/// The scale of each cell by the values of `count` spectra. The row is working space too.
pub fn measure(
    held: &Held,
    task: &Task,
    count: usize,
    row: &mut [u32],
    space: &mut CellSpace,
    scales: &mut CellScales,
)
    requires task { FitsTask task.now }
    requires held { HasSpectra task.now.format held.now count }
    requires some { 0 < count }
    requires most { count ≤ 1048576 }
    requires row { length row.old ≡ cells task.now.format }
    requires space { SpaceFits (cells task.now.format) space.old }
    requires scales { HasScales (cells task.now.format) scales.old }
    ensures space { SpaceFits (cells task.now.format) space.new }
    ensures fit { HasScales (cells task.now.format) scales.new }
    ensures scales { HoldScales (cells task.now.format)
        (λ i. scale_of task.now.plan (is_masked (task_in task.now) i)
        (fair_moments (column (held_value task.now.format held.now) count i)))
        scales.new.gains.items scales.new.bases.items scales.new.lifts.items }
{
    let format = task.format;
    measure_all(held, format, count, row, &mut space.moments);
    set_bounds(&space.moments, &mut space.bounds);
    set_scales(task, &space.moments, scales);
    measure_near(held, format, count, row, space);
    set_scales(task, &space.moments, scales);
}
