// Drafts an order of rows for which few slots are in use at a time. Nothing rests on it: whoever takes the draft checks
// it.
//
// The nodes at two depths, and those of one and two channels, have a slot for each of their rows. These rows are made
// when the node is opened; then the slots of the nodes below it are given back. Each other node has one slot for each
// width of its rows, in which a row is made when it is asked for: from one delay to the next, one of its halves goes on
// by one row. So the rows of the whole band are made one after another.
use psr_base::Memory;
use row_model::Source;
use row_schedule::Order;
use std::alloc::Global;
use subband_plan::{Node, PlanRows};

// Stands for no slot and no row.
const NONE: u32 = u32::MAX;

// The depths at which nodes have a slot for each row. With these the rows below such a node mostly stay in the second
// cache.
const TABLE_DEPTHS: [u32; 2] = [4, 7];

// The depths at which nodes have a slot for each row, if nodes have many rows of 32 bits.
const DEEP_TABLE_DEPTHS: [u32; 2] = [5, 8];

// Nodes have many rows if the greatest delay of the band is at least this.
const MANY_ROWS_FROM: u32 = 4096;

// How often a band of 4096 channels is halved.
const DEEPEST: u32 = 12;

/// A draft of a pass.
#[derive(Drop)]
pub struct Draft {
    /// The orders, in the order in which they are carried out.
    pub orders: Vec<Order>,
    /// For each slot, whether its rows have 16 bits.
    pub slots: Vec<bool>,
    /// The stops: 0, and for each row of the whole band the number of orders that are carried out once it is made.
    pub stops: Vec<usize>,
}

impl Draft {
    /// Drafts the orders for the rows of these nodes. `narrow` tells which rows have 16 bits.
    pub fn of(
        alloc: Global,
        nodes: &[Node],
        rows: &PlanRows,
        narrow: &[bool],
    ) -> Result<Draft, Memory> {
        let tree = Tree {
            nodes,
            rows,
            narrow,
        };
        let mut drafting = Drafting::new(alloc, rows.nodes.len())?;
        drafting.open_node(&tree, 0, 0, false)?;
        let (first, end) = tree.rows_of(0);
        drafting.need_all(&tree, first, end)?;
        Ok(drafting.end())
    }
}

// The nodes of a plan, and their rows.
#[derive(Clone, Copy)]
struct Tree<'a> {
    nodes: &'a [Node],
    rows: &'a PlanRows,
    narrow: &'a [bool],
}

impl Tree<'_> {
    // The number of the first row of node `k`, and of the row after its last.
    fn rows_of(&self, k: usize) -> (u32, u32) {
        let starts = self.rows.starts.as_slice();
        (number_at(starts, k), number_at(starts, k.saturating_add(1)))
    }

    fn is_narrow(&self, r: u32) -> bool {
        self.narrow.get(r as usize) == Some(&true)
    }

    // The depths at which nodes have a slot for each row.
    fn table_depths(&self) -> [u32; 2] {
        match self.nodes.first() {
            Some(band) if band.last_row >= MANY_ROWS_FROM && !self.has_narrow_rows() => {
                DEEP_TABLE_DEPTHS
            }
            _ => TABLE_DEPTHS,
        }
    }

    // Whether all rows of the nodes at the first of the usual depths have 16 bits. It looks at the longest of them: the
    // last row of the node of the lowest frequencies.
    fn has_narrow_rows(&self) -> bool {
        let mut k = 0_usize;
        for _ in 0..TABLE_DEPTHS[0] {
            let Some(node) = self.nodes.get(k) else {
                return false;
            };
            k = lower_number(k, node.hi.saturating_sub(node.lo));
        }
        let (_, end) = self.rows_of(k);
        self.is_narrow(end.saturating_sub(1))
    }

    // Whether row `r` is a row of the whole band that is shown.
    fn is_shown(&self, r: u32) -> bool {
        let Some(band) = self.nodes.first() else {
            return false;
        };
        at(self.rows.nodes.as_slice(), r) == 0
            && at(self.rows.delays.as_slice(), r) >= band.first_row
    }
}

// The slots of one width. The first ones are in use.
#[derive(Drop)]
struct Stack {
    slots: Vec<u32>,
    used: usize,
}

// A draft that is being made: the slot of each row, and the row in each slot.
#[derive(Drop)]
struct Drafting {
    draft: Draft,
    narrow_slots: Stack,
    wide_slots: Stack,
    slot_of: Vec<u32>,
    row_in: Vec<u32>,
}

impl Drafting {
    fn new(alloc: Global, count: usize) -> Result<Drafting, Memory> {
        let mut stops = Vec::new(alloc);
        stops.push(0)?;
        Ok(Drafting {
            draft: Draft {
                orders: Vec::new(alloc),
                slots: Vec::new(alloc),
                stops,
            },
            narrow_slots: Stack {
                slots: Vec::new(alloc),
                used: 0,
            },
            wide_slots: Stack {
                slots: Vec::new(alloc),
                used: 0,
            },
            slot_of: vec![in alloc; NONE; count]?,
            row_in: Vec::new(alloc),
        })
    }

    fn end(self) -> Draft {
        self.draft
    }

    // Gives slots to the rows of node `k`, opens the nodes below it, and makes its rows if each has a slot. Rows of a
    // single channel past delay 0 are made only if `asked`.
    fn open_node(
        &mut self,
        tree: &Tree<'_>,
        k: usize,
        depth: u32,
        asked: bool,
    ) -> Result<(), Memory> {
        let Some(node) = tree.nodes.get(k) else {
            return Ok(());
        };
        if depth > DEEPEST {
            return Ok(());
        }
        let channels = node.hi.saturating_sub(node.lo);
        let is_table = channels <= 2 || tree.table_depths().contains(&depth);
        let (first, mut end) = tree.rows_of(k);
        if channels < 2 && !asked {
            end = first.saturating_add(1);
        }
        self.give_slots(tree, first, end, is_table)?;
        let (narrow_used, wide_used) = (self.narrow_slots.used, self.wide_slots.used);
        if channels >= 2 {
            let lower = lower_number(k, channels);
            self.open_node(tree, k.saturating_add(1), depth + 1, channels == 3)?;
            self.open_node(tree, lower, depth + 1, channels == 3)?;
        }
        if is_table {
            self.need_all(tree, first, end)?;
            self.narrow_slots.used = narrow_used;
            self.wide_slots.used = wide_used;
        }
        Ok(())
    }

    // Gives a slot to each of these rows; or, unless `each`, one slot to all neighbouring rows of one width.
    fn give_slots(
        &mut self,
        tree: &Tree<'_>,
        first: u32,
        end: u32,
        each: bool,
    ) -> Result<(), Memory> {
        let mut slot = NONE;
        for r in first..end {
            let narrow = tree.is_narrow(r);
            if each || r == first || narrow != tree.is_narrow(r.saturating_sub(1)) {
                slot = self.new_slot(narrow)?;
            }
            put(&mut self.slot_of, r, slot);
        }
        Ok(())
    }

    // A slot that is not in use.
    fn new_slot(&mut self, narrow: bool) -> Result<u32, Memory> {
        let slots = &mut self.draft.slots;
        let slot = if narrow {
            self.narrow_slots.take(true, slots)?
        } else {
            self.wide_slots.take(false, slots)?
        };
        self.row_in.resize(self.draft.slots.len(), NONE)?;
        Ok(slot)
    }

    // Whether row `r` stands in its slot.
    fn has_row(&self, r: u32) -> bool {
        at(&self.row_in, at(&self.slot_of, r)) == r
    }

    // Makes these rows one after another, unless they stand.
    fn need_all(&mut self, tree: &Tree<'_>, first: u32, end: u32) -> Result<(), Memory> {
        for r in first..end {
            self.need(tree, r, DEEPEST + 1)?;
        }
        Ok(())
    }

    // Makes row `r`, unless it stands, after the rows that it is made of; these are at most `levels` deep.
    fn need(&mut self, tree: &Tree<'_>, r: u32, levels: u32) -> Result<(), Memory> {
        if levels == 0 || self.has_row(r) {
            return Ok(());
        }
        if let Some(Source::Sum(merge)) = tree.rows.rows.sources.get(r as usize) {
            self.need(tree, merge.upper, levels - 1)?;
            self.need(tree, merge.lower, levels - 1)?;
        }
        self.make(tree, r)
    }

    // Makes row `r` in its slot.
    fn make(&mut self, tree: &Tree<'_>, r: u32) -> Result<(), Memory> {
        let slot = at(&self.slot_of, r);
        put(&mut self.row_in, slot, r);
        self.draft.orders.push(Order { row: r, slot })?;
        if tree.is_shown(r) {
            self.draft.stops.push(self.draft.orders.len())?;
        }
        Ok(())
    }
}

impl Stack {
    // Takes the next slot into use, or a new one if all are in use.
    fn take(&mut self, narrow: bool, slots: &mut Vec<bool>) -> Result<u32, Memory> {
        if let Some(slot) = self.slots.get(self.used) {
            let slot = *slot;
            self.used = self.used.saturating_add(1);
            return Ok(slot);
        }
        let slot = u32::try_from(slots.len()).unwrap_or(NONE);
        slots.push(narrow)?;
        self.slots.push(slot)?;
        self.used = self.slots.len();
        Ok(slot)
    }
}

// The number of the lower half of node `k`, which has `channels` channels.
fn lower_number(k: usize, channels: u32) -> usize {
    k.saturating_add(2 * (channels / 2) as usize)
}

// The number at a place, or `NONE` past the end.
fn at(list: &[u32], place: u32) -> u32 {
    list.get(place as usize).copied().unwrap_or(NONE)
}

// The count at a place as a number, or `NONE` past the end.
fn number_at(list: &[usize], place: usize) -> u32 {
    match list.get(place) {
        Some(number) => u32::try_from(*number).unwrap_or(NONE),
        None => NONE,
    }
}

// Sets the number at a place. Does nothing past the end.
fn put(list: &mut [u32], place: u32, number: u32) {
    if let Some(entry) = list.get_mut(place as usize) {
        *entry = number;
    }
}
