// How many cells path sums add up.
ghost use Rattle.std.specs.Prelude.{◌≡◌, ◌^◌, ◌<◌, slice_index};
ghost use Rattle.fold_search.specs.Cells.{cells_by, Plain, Counted};

use std::marker::Model;

// The cells of the path sum of each delay: all channels of the path, or a count for each delay from 0 on, and 0 past
// the last count.
#[derive(Drop)]
enum Kept {
    Plain(u32),
    Counted(Vec<u32>),
}

/// How many cells a path sum of each delay adds up.
#[derive(Drop)]
pub struct Cells {
    kept: Kept,
}

impl Model for Cells {
    ghost use Rattle.fold_search.specs.Kept.{counts_of};
    ghost use Rattle.fold_search.specs.Cells.{CellCounts};

    ghost Value = { CellCounts };

    ghost view = { λ c. counts_of c.kept };
}

impl Cells {
    /// All cells of each path over `channels` channels.
    pub fn plain(channels: u32) -> Cells
        ensures { result ≡ Plain channels }
    {
        Cells {
            kept: Kept::Plain(channels),
        }
    }

    /// `counts[d]` cells for delay `d`, and none past the last count.
    pub fn counted(counts: Vec<u32>) -> Cells
        ensures { result ≡ Counted counts.items }
    {
        Cells {
            kept: Kept::Counted(counts),
        }
    }

    /// How many cells a path sum of `delay` adds up.
    pub fn at(&self, delay: u32) -> u32
        requires { cells_by self.now delay < 2 ^ 32 }
        ensures { result ≡ cells_by self.now delay }
    {
        match &self.kept {
            Kept::Plain(channels) => *channels + delay,
            Kept::Counted(counts) => count_at(counts.as_slice(), delay),
        }
    }
}

// The count of a delay, or 0 past the last.
fn count_at(counts: &[u32], delay: u32) -> u32
    ensures { result ≡ slice_index counts.now delay }
{
    match counts.get(delay as usize) {
        Some(count) => *count,
        None => 0,
    }
}
