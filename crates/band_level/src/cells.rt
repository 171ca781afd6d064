// Lists with a number for each cell.
ghost use Rattle.std.specs.Prelude.{◌≡◌, ℕ, slice_index, IfOk};
ghost use Rattle.band_level.specs.Rows.{HasMoments, HasRows, HasScales, SpaceFits};

use crate::space::{longs, words};
use psr_base::Memory;
use std::alloc::Global;

/// How many values each cell has, their sum, and the sum of their squares.
#[derive(Drop)]
pub struct CellMoments {
    pub counts: Vec<u32>,
    pub totals: Vec<u64>,
    pub squares: Vec<u64>,
}

/// The least and the greatest value of each cell that lies near its mean.
#[derive(Drop)]
pub struct CellBounds {
    pub lows: Vec<u32>,
    pub highs: Vec<u32>,
}

/// The scale of each cell.
#[derive(Drop)]
pub struct CellScales {
    pub gains: Vec<u64>,
    pub bases: Vec<u64>,
    pub lifts: Vec<u64>,
}

/// The scale of each cell in 32 bits, and whether all fit into these.
#[derive(Drop)]
pub struct NarrowScales {
    pub fits: bool,
    pub gains: Vec<u32>,
    pub bases: Vec<u32>,
    pub lifts: Vec<u32>,
}

/// What each cell has carried on, in units; and working space: a row of values, its levels, and narrow scales.
#[derive(Drop)]
pub struct CellRows {
    pub fractions: Vec<u32>,
    pub row: Vec<u32>,
    pub levels: Vec<u32>,
    pub narrow: NarrowScales,
}

/// Working space: the sums of each cell, their bounds, and the sums of the values beyond these.
#[derive(Drop)]
pub struct CellSpace {
    pub moments: CellMoments,
    pub bounds: CellBounds,
    pub far: CellMoments,
}

impl CellMoments {
    /// Takes the memory for so many cells.
    pub fn open(alloc: Global, cells: usize) -> Result<CellMoments, Memory>
        ensures { IfOk result (HasMoments cells) }
    {
        Ok(CellMoments {
            counts: words(alloc, cells)?,
            totals: longs(alloc, cells)?,
            squares: longs(alloc, cells)?,
        })
    }
}

impl CellScales {
    /// Takes the memory for so many cells.
    pub fn open(alloc: Global, cells: usize) -> Result<CellScales, Memory>
        ensures { IfOk result (HasScales cells) }
    {
        Ok(CellScales {
            gains: longs(alloc, cells)?,
            bases: longs(alloc, cells)?,
            lifts: longs(alloc, cells)?,
        })
    }
}

impl CellRows {
    /// Takes the memory for so many cells, which have carried nothing on.
    pub fn open(alloc: Global, cells: usize) -> Result<CellRows, Memory>
        ensures rows { IfOk result (HasRows cells) }
        ensures nothing { IfOk result (λ r. (i : ℕ) → slice_index r.fractions.items i ≡ 0) }
    {
        Ok(CellRows {
            fractions: words(alloc, cells)?,
            row: words(alloc, cells)?,
            levels: words(alloc, cells)?,
            narrow: NarrowScales {
                fits: false,
                gains: words(alloc, cells)?,
                bases: words(alloc, cells)?,
                lifts: words(alloc, cells)?,
            },
        })
    }
}

impl CellSpace {
    /// Takes the memory for so many cells.
    pub fn open(alloc: Global, cells: usize) -> Result<CellSpace, Memory>
        ensures { IfOk result (SpaceFits cells) }
    {
        Ok(CellSpace {
            moments: CellMoments::open(alloc, cells)?,
            bounds: CellBounds {
                lows: words(alloc, cells)?,
                highs: words(alloc, cells)?,
            },
            far: CellMoments::open(alloc, cells)?,
        })
    }
}
