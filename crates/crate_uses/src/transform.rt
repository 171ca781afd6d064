//! A series of path sums.
ghost use Rattle.std.specs.Prelude.{◌≡◌, ℕ, ◌*◌, ◌<◌, ◌≤◌, IfOk, length, slice_index};
ghost use Rattle.dada_model.specs.Bounds.{most_delay};
ghost use Rattle.dada_model.specs.Edges.{AreEdges};
ghost use Rattle.band_paths.specs.Edges.{channels_of};
ghost use Rattle.search_model.specs.Samples.{Filterbank};
ghost use Rattle.search_model.specs.Sums.{path_sum};
ghost use Rattle.crate_uses.specs.Streams.{BeginsWith};

use fdmt_carry::Carry;
use psr_base::Memory;
use std::alloc::Global;
use subband_plan::Plan;

// A copy of a row.
fn copied(alloc: Global, row: &[u32]) -> Result<Vec<u32>, Memory>
    ensures { IfOk result (λ sums. sums.items ≡ row.now) }
{
    Ok(Vec::from_slice(alloc, row)?)
}

/// The sums along the path of a delay that end at each of the first `spectra` spectra. The edges of the channels are in
/// kHz, the highest first; the samples of channel `c`, at most 255, begin at `c * spectra`.
pub fn dedispersed(
    alloc: Global,
    edges: &[u32],
    rows: &[u32],
    spectra: u32,
    delay: u32,
) -> Result<Vec<u32>, Memory>
    requires edges { AreEdges (channels_of edges.now) edges.now }
    requires some { 1 ≤ spectra }
    requires most { spectra ≤ 65536 }
    requires rows { length rows.now ≡ channels_of edges.now * spectra }
    requires delay { delay ≤ most_delay }
    ensures long { IfOk result (λ sums. length sums.items ≡ spectra) }
    ensures sums { IfOk result (λ sums. (f : Filterbank) (u : ℕ)
        → BeginsWith f (channels_of edges.now) 255 rows.now spectra → u < spectra
        → slice_index sums.items u ≡ path_sum f edges.now u delay) }
{
    let plan = Plan::open(alloc, edges, delay, delay)?;
    let mut carry = Carry::open(alloc, plan, spectra, 255)?;
    carry.feed(rows, spectra);
    copied(alloc, carry.row(delay))
}
