// Notes of the orders so far: the row of each slot, and the slot of each row.
ghost use Rattle.std.specs.Prelude.{◌≡◌, ◌<◌, ℕ, IsTrue, ◌↔◌, IfOk, OnOk, Option, None, Some, length, replicate, slice_index_or};

use psr_base::Memory;
use std::alloc::Global;

/// A list of `count` empty notes.
pub fn unmarked(alloc: Global, count: usize) -> Result<Vec<Option<u32>>, Memory>
    ensures { IfOk result (λ marks. marks.items ≡ replicate count None) }
{
    Ok(vec![in alloc; None; count]?)
}

/// Whether row `row` stands in slot `slot`.
pub fn has_row(marks: &[Option<u32>], slot: u32, row: u32) -> bool
    ensures { IsTrue result ↔ slice_index_or marks.now slot None ≡ Some row }
{
    matches!(marks.get(slot as usize), Some(Some(other)) if *other == row)
}

/// The slot in which row `row` was made, or `None` if it was not made.
pub fn slot_found(found: &[Option<u32>], row: usize) -> Option<u32>
    ensures { result ≡ slice_index_or found.now row None }
{
    match found.get(row) {
        Some(slot) => *slot,
        None => None,
    }
}

/// Extends the list with empty notes so that row `row` has a place in it.
pub fn reach(found: &mut Vec<Option<u32>>, row: u32) -> Result<(), Memory>
    ensures same { (r : ℕ) → slice_index_or found.new.items r None
        ≡ slice_index_or found.old.items r None }
    ensures room { OnOk result (row < length found.new.items) }
{
    let row = row as usize;
    if found.len() <= row {
        found.resize(row + 1, None)?;
    }
    Ok(())
}
