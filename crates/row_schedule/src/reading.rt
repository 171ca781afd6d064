// Reads what is known of a row.
ghost use Rattle.std.specs.Prelude.{◌≡◌, ℕ, ◌^◌, ◌<◌, ◌≤◌, Some, slice_get};
ghost use Rattle.row_model.specs.Sums.{is_narrow};
ghost use Rattle.row_model.specs.Tails.{AreRows, row_count};
ghost use Rattle.row_schedule.specs.Layout.{tail_of};

use row_model::{Rows, Source};

/// Whether row `row` has 16 bits.
pub fn row_is_narrow(narrow: &[bool], row: usize) -> bool
    ensures { result ≡ is_narrow narrow.now row }
{
    match narrow.get(row) {
        Some(is_narrow) => *is_narrow,
        None => false,
    }
}

/// What row `row` is made of, or `None` if there is no such row.
pub fn find_source(rows: &Rows, row: usize) -> Option<Source>
    ensures { result ≡ slice_get rows.now.sources.items row }
{
    match rows.sources.get(row) {
        Some(source) => Some(*source),
        None => None,
    }
}

/// What row `row` is made of.
pub fn source(rows: &Rows, row: usize) -> Source
    requires { row < row_count rows.now }
    ensures { slice_get rows.now.sources.items row ≡ Some result }
{
    rows.sources[row]
}

/// How many values are kept of row `row`.
pub fn tail(rows: &Rows, row: usize) -> u32
    requires rows { (c : ℕ) × AreRows c rows.now }
    requires row { row < row_count rows.now }
    ensures value { result ≡ tail_of rows.now row }
    ensures short { result ≤ 2 ^ 14 }
{
    rows.tails[row]
}
