// Counts how many cells of each delay path lie in the channels that are kept.
ghost use Rattle.std.specs.Prelude.{◌≡◌, ℕ, ◌+◌, ◌≤◌, ◌<◌, List, length, slice_index, if◌then◌else◌, IfOk};
ghost use Rattle.dada_model.specs.Bounds.{most_delay};
ghost use Rattle.dada_model.specs.Edges.{AreEdges};
ghost use Rattle.dada_model.specs.Observation.{edges as edges_of};
ghost use Rattle.search_model.specs.Masks.{kept_cells};
ghost use Rattle.search_engine.specs.Scope.{kept_by};
ghost use Rattle.channel_mask.specs.Counting.{AreCounts};

use crate::mask::Mask;
use band_paths::split;
use obs_plan::Observation;
use psr_base::Memory;
use std::alloc::{AllocError, Global};
// Laws: they do nothing when they run, and the proofs use what they ensure.
use search_model::{
    halves_add, one_channel_adds, one_channel_is_its_sample, path_sums_count_cells,
    whole_band_is_path_sum,
};
use subband_plan::asked_rows_are_there;

// How many kept cells a path of delay `d` has in channel `c`: one for each spectrum, or none if the channel is masked.
fn cells_of_channel(masked: &[bool], c: usize, d: u32) -> u32
    requires channel { c < length masked.now }
    requires delay { d ≤ most_delay }
    ensures { result ≡ (if kept_by masked.now c then d + 1 else 0) }
{
    if masked[c] { 0 } else { d + 1 }
}

// The kept cells of each delay up to `last` in channel `c`.
fn count_channel(
    alloc: Global,
    masked: &[bool],
    c: usize,
    last: u32,
) -> Result<Vec<u32>, AllocError>
    requires channel { c < length masked.now }
    requires delay { last ≤ most_delay }
    ensures { IfOk result (λ counts. (edges : List ℕ) → AreEdges (length masked.now) edges
        → AreCounts edges masked.now c (c + 1) (last + 1) counts.items) }
{
    one_channel_adds();
    one_channel_is_its_sample();
    let mut counts = Vec::with_capacity(alloc, last as usize + 1)?;
    for d in 0..last + 1 {
        counts.push(cells_of_channel(masked, c, d))?;
    }
    Ok(counts)
}

// The kept cells of each delay up to `last` in the channels from `lo` up to `hi`: those in the upper and the lower half
// together, each of which has its part of the delay.
fn count_part(
    alloc: Global,
    edges: &[u32],
    masked: &[bool],
    lo: usize,
    hi: usize,
    last: u32,
) -> Result<Vec<u32>, AllocError>
    requires edges { AreEdges (length masked.now) edges.now }
    requires some { lo < hi }
    requires within { hi ≤ length masked.now }
    requires delay { last ≤ most_delay }
    ensures { IfOk result (λ counts.
        AreCounts edges.now masked.now lo hi (last + 1) counts.items) }
{
    if hi - lo < 2 {
        return count_channel(alloc, masked, lo, last);
    }
    halves_add();
    asked_rows_are_there();
    let middle = lo + (hi - lo) / 2;
    let above = split(edges, lo, middle, hi, last);
    let upper = count_part(alloc, edges, masked, lo, middle, above)?;
    let lower = count_part(alloc, edges, masked, middle, hi, last - above)?;
    let mut counts = Vec::with_capacity(alloc, last as usize + 1)?;
    for d in 0..last + 1 {
        let part = split(edges, lo, middle, hi, d);
        counts.push(upper[part as usize] + lower[(d - part) as usize])?;
    }
    Ok(counts)
}

impl Mask {
    /// For each delay from 0 to `max_delay` spectra, how many cells of its path lie in channels that are kept.
    pub fn count_cells(
        &self,
        alloc: Global,
        obs: &Observation,
        max_delay: u32,
    ) -> Result<Vec<u32>, Memory>
        requires channels { length self.now ≡ obs.now.channels }
        requires delay { max_delay ≤ most_delay }
        ensures long { IfOk result (λ counts. length counts.items ≡ max_delay + 1) }
        ensures cells { IfOk result (λ counts. (d : ℕ) → d ≤ max_delay
            → slice_index counts.items d
            ≡ kept_cells (kept_by self.now) (edges_of obs.now) obs.now.channels d) }
    {
        path_sums_count_cells();
        whole_band_is_path_sum();
        let masked = self.masked.as_slice();
        Ok(count_part(alloc, obs.edges(), masked, 0, masked.len(), max_delay)?)
    }
}
