// Spectra that are held, levelled and written.
ghost use Rattle.std.specs.Prelude.{◌≡◌, ◌+◌, ◌*◌, ◌≤◌, [], length, take};
ghost use Rattle.band_level.specs.Values.{cells, most_value};
ghost use Rattle.band_level.specs.Holding.{HasSpectra};
ghost use Rattle.band_level.specs.Rows.{HasRows, HasScales, Narrows};
ghost use Rattle.band_level.specs.Ranges.{FormatInRange};
ghost use Rattle.band_level.specs.Sound.{FitsTask, task_in};
ghost use Rattle.band_level.specs.Spectra.{LevelsSpectra, written_bytes};

use crate::cells::{CellRows, CellScales};
use crate::finish::finish_row;
use crate::format::Format;
use crate::held::Held;
use crate::levels::{level_row, write_levels};
use crate::narrow::narrow_scales;
use crate::task::Task;

// The greatest value that a cell may have.
fn most_value(format: Format) -> u32
    requires { FormatInRange format }
    ensures value { result ≡ most_value format }
    ensures small { result ≤ 4194303 }
{
    format.average * if format.bits == 16 { 65535 } else { 255 }
}

/// Levels a spectrum that is held, and writes it from a place on.
fn level_spectrum(
    held: &Held,
    task: &Task,
    t: usize,
    scales: &CellScales,
    rows: &mut CellRows,
    out: &mut [u8],
    at: usize,
)
    requires task { FitsTask task.now }
    requires held { HasSpectra task.now.format held.now (t + 1) }
    requires scales { HasScales (cells task.now.format) scales.now }
    requires rows { HasRows (cells task.now.format) rows.old }
    requires narrow { Narrows (cells task.now.format) (most_value task.now.format) scales.now
        rows.old.narrow }
    requires room { at + written_bytes task.now.format task.now.plan ≤ length out.old }
    ensures rows { HasRows (cells task.now.format) rows.new }
    ensures narrow { rows.new.narrow ≡ rows.old.narrow }
    ensures levels { LevelsSpectra (task_in task.now) held.now scales.now.gains.items
        scales.now.bases.items scales.now.lifts.items t 1 rows.old.fractions.items
        rows.new.fractions.items (take at out.old)
        (take (at + written_bytes task.now.format task.now.plan) out.new) }
{
    let plan = task.plan;
    let row = rows.row.as_mut_slice();
    let levels = rows.levels.as_mut_slice();
    held.read(row, task.format, t);
    level_row(
        row,
        most_value(task.format),
        scales,
        &rows.narrow,
        plan.most,
        rows.fractions.as_mut_slice(),
        levels,
    );
    finish_row(
        plan,
        task.masked.as_slice(),
        task.format.polarisations,
        levels,
    );
    write_levels(out, at, levels, plan.bits);
}

/// Levels spectra that are held, and writes them from the front on.
pub fn level_spectra(
    held: &Held,
    task: &Task,
    first: usize,
    count: usize,
    scales: &CellScales,
    rows: &mut CellRows,
    out: &mut [u8],
)
    requires task { FitsTask task.now }
    requires few { first + count ≤ 1048576 }
    requires held { HasSpectra task.now.format held.now (first + count) }
    requires scales { HasScales (cells task.now.format) scales.now }
    requires rows { HasRows (cells task.now.format) rows.old }
    requires room { count * written_bytes task.now.format task.now.plan ≤ length out.old }
    ensures rows { HasRows (cells task.now.format) rows.new }
    ensures levels { LevelsSpectra (task_in task.now) held.now scales.now.gains.items
        scales.now.bases.items scales.now.lifts.items first count rows.old.fractions.items
        rows.new.fractions.items []
        (take (count * written_bytes task.now.format task.now.plan) out.new) }
{
    let written = task.written_bytes();
    narrow_scales(scales, most_value(task.format), &mut rows.narrow);
    for t in 0..count {
        level_spectrum(held, task, first + t, scales, rows, out, t * written);
    }
}
