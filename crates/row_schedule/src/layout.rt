// Places slots in the list of their width.
ghost use Rattle.std.specs.Prelude.{◌≡◌, ℕ, ◌+◌, ◌*◌, ◌^◌, ◌<◌, ◌≤◌, ◌++◌, ◌∷◌, [], IfOk, OnOk, length, replicate, slice_index, if◌then◌else◌};
ghost use Rattle.row_model.specs.Tails.{AreRows};
ghost use Rattle.row_schedule.specs.Layout.{AreHolds, AreLaid, AreSizes, AreWithin};

use crate::builder::Order;
use crate::lead::{LEAD, NARROW_LEAD};
use crate::reading::{row_is_narrow, tail};
use psr_base::Memory;
use row_model::Rows;
use std::alloc::Global;

// Rows begin at multiples of this many values.
const STRIDE: usize = 16;

/// The places of slots, or of what is kept of rows, each in the list of its width.
#[derive(Drop)]
pub struct Layout {
    /// Where each one begins.
    pub places: Vec<usize>,
    /// How long the list of 16-bit values is.
    pub narrow_size: usize,
    /// How long the list of 32-bit values is.
    pub wide_size: usize,
}

impl Layout {
    // Places the next slot or row at the end of the list of its width.
    fn place(&mut self, narrow: bool, size: usize) -> Result<(), Memory>
        requires narrow { self.old.narrow_size ≤ 2 ^ 62 }
        requires wide { self.old.wide_size ≤ 2 ^ 62 }
        requires short { size ≤ 2 ^ 17 }
        ensures places { OnOk result (self.new.places.items ≡ self.old.places.items
            ++ (if narrow then self.old.narrow_size else self.old.wide_size) ∷ []) }
        ensures narrow { OnOk result (self.new.narrow_size
            ≡ self.old.narrow_size + (if narrow then size else 0)) }
        ensures wide { OnOk result (self.new.wide_size
            ≡ self.old.wide_size + (if narrow then 0 else size)) }
    {
        if narrow {
            self.places.push(self.narrow_size)?;
            self.narrow_size += size;
            return Ok(());
        }
        self.places.push(self.wide_size)?;
        self.wide_size += size;
        Ok(())
    }

    /// Places all slots. Slot s has `sizes[s]` values, of 16 bits if `slots[s]`.
    pub fn of(alloc: Global, slots: &[bool], sizes: &[usize]) -> Result<Layout, Memory>
        requires same { length sizes.now ≡ length slots.now }
        requires few { length slots.now ≤ 2 ^ 27 }
        requires short { (s : ℕ) → slice_index sizes.now s ≤ 2 ^ 17 }
        ensures laid { IfOk result (λ l. AreLaid slots.now sizes.now (length slots.now)
            l.places.items l.narrow_size l.wide_size) }
        ensures near { IfOk result (λ l. (s : ℕ) → slice_index l.places.items s ≤ 2 ^ 50) }
    {
        let mut layout = Layout {
            places: Vec::with_capacity(alloc, slots.len())?,
            narrow_size: NARROW_LEAD,
            wide_size: LEAD,
        };
        for s in 0..slots.len() {
            layout.place(slots[s], sizes[s])?;
        }
        Ok(layout)
    }

    /// Places what is kept of all rows, in 16 bits for the rows that are `narrow`.
    pub fn of_kept(alloc: Global, rows: &Rows, narrow: &[bool]) -> Result<Layout, Memory>
        requires rows { (c : ℕ) × AreRows c rows.now }
        ensures { IfOk result (λ l. AreHolds rows.now narrow.now l.places.items l.narrow_size
            l.wide_size) }
    {
        let mut layout = Layout {
            places: Vec::with_capacity(alloc, rows.sources.len())?,
            narrow_size: NARROW_LEAD,
            wide_size: LEAD,
        };
        for r in 0..rows.sources.len() {
            layout.place(row_is_narrow(narrow, r), tail(rows, r) as usize)?;
        }
        Ok(layout)
    }
}

// `count`, rounded up to a multiple of the stride.
fn rounded(count: usize) -> usize
    requires { count ≤ 65536 }
    ensures least { count ≤ result }
    ensures most { result ≤ count + 15 }
{
    (count + STRIDE - 1) / STRIDE * STRIDE
}

// A list of sizes: `slots` times `size`.
fn filled(alloc: Global, size: usize, slots: usize) -> Result<Vec<usize>, Memory>
    ensures { IfOk result (λ sizes. sizes.items ≡ replicate slots size) }
{
    Ok(vec![in alloc; size; slots]?)
}

// Makes a slot at least `size` values long.
fn raise(sizes: &mut Vec<usize>, slot: usize, size: usize)
    requires { slot < length sizes.old.items }
    ensures entries { length sizes.new.items ≡ length sizes.old.items }
    ensures raised { size ≤ slice_index sizes.new.items slot }
    ensures grows { (s : ℕ) → slice_index sizes.old.items s ≤ slice_index sizes.new.items s }
    ensures bound { (m : ℕ) → size ≤ m → ((s : ℕ) → slice_index sizes.old.items s ≤ m)
        → (s : ℕ) → slice_index sizes.new.items s ≤ m }
{
    sizes[slot] = size.max(sizes[slot]);
}

/// The number of values of each slot: the longest tail of a row that is made in it, and room for `most` values behind
/// that tail.
pub fn slot_sizes(
    alloc: Global,
    rows: &Rows,
    orders: &[Order],
    slots: usize,
    most: usize,
) -> Result<Vec<usize>, Memory>
    requires rows { (c : ℕ) × AreRows c rows.now }
    requires orders { AreWithin rows.now orders.now slots }
    requires short { most ≤ 65536 }
    ensures { IfOk result (λ sizes. AreSizes rows.now orders.now slots most sizes.items) }
{
    let room = rounded(most);
    let mut sizes = filled(alloc, room, slots)?;
    for order in orders {
        let size = tail(rows, order.row as usize) as usize + room;
        raise(&mut sizes, order.slot as usize, size);
    }
    Ok(sizes)
}
