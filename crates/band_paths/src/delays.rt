// The delay of a pulse at each edge of the band.
ghost use Rattle.std.specs.Prelude.{◌≡◌, ◌+◌, ◌-◌, ◌*◌, ◌/◌, ◌^◌, ◌<◌, ◌≤◌, length, IfOk, slice_index};
ghost use Rattle.search_model.specs.Paths.{IsHalved, IsPath, path};
ghost use Rattle.search_model.specs.Paths.{split as split_of};
ghost use Rattle.dada_model.specs.Observation.{square as square_of};
ghost use Rattle.dada_model.specs.Edges.{AreEdges, top_khz};
ghost use Rattle.dada_model.specs.Bounds.{most_delay};
ghost use Rattle.band_paths.specs.Edges.{AreDelays, channels_of, KeepsOutside};

use psr_base::Memory;
// Laws: they do nothing when they run, and the proofs use what they ensure.
use search_model::{halves_join, has_one_path, paths_rise, splits_fit};
use std::alloc::Global;

// The square of a frequency in kHz.
fn square(khz: u32) -> u128
    requires { khz ≤ top_khz }
    ensures value { result ≡ square_of khz }
    ensures bound { result ≤ 2 ^ 48 }
{
    u128::from(khz) * u128::from(khz)
}

/// Splits a delay of `d` spectra over the channels from `lo` up to `hi`: the part of it in the channels from `lo` up to
/// `m`, rounded to the nearest spectrum. The edges are in kHz, the highest first.
pub fn split(edges: &[u32], lo: usize, m: usize, hi: usize, d: u32) -> u32
    requires edges { AreEdges (channels_of edges.now) edges.now }
    requires above { lo < m }
    requires below { m < hi }
    requires within { hi < length edges.now }
    requires delay { d ≤ most_delay }
    ensures value { result
        ≡ split_of (slice_index edges.now lo) (slice_index edges.now m)
        (slice_index edges.now hi) d }
    ensures part { result ≤ d }
{
    share(edges[lo], edges[m], edges[hi], d)
}

// The part between `high` and `mid` of a delay of `d` spectra between `high` and `low`, all three in kHz.
fn share(high: u32, mid: u32, low: u32, d: u32) -> u32
    requires top { high ≤ top_khz }
    requires above { mid < high }
    requires below { low < mid }
    requires delay { d ≤ most_delay }
    ensures value { result ≡ split_of high mid low d }
    ensures part { result ≤ d }
{
    splits_fit();
    let part = (square(high) - square(mid)) * square(low);
    let whole = (square(high) - square(low)) * square(mid);
    rounded(part, whole, d)
}

// `d * part / whole`, rounded to the nearest integer, halves up.
fn rounded(part: u128, whole: u128, d: u32) -> u32
    requires part { part < whole }
    requires whole { whole ≤ 2 ^ 96 }
    requires delay { d ≤ most_delay }
    ensures value { result ≡ (2 * d * part + whole) / (2 * whole) }
    ensures part { result ≤ d }
{
    splits_fit();
    ((2 * u128::from(d) * part + whole) / (2 * whole)) as u32
}

/// The delay path of `d` spectra: for each edge, how many spectra after the top of the band the pulse passes it, from 0 to
/// `d`. The edges are in kHz, the highest first.
pub fn edge_delays(alloc: Global, edges: &[u32], d: u32) -> Result<Vec<u32>, Memory>
    requires edges { AreEdges (channels_of edges.now) edges.now }
    requires delay { d ≤ most_delay }
    ensures path { IfOk result (λ delays. IsPath edges.now (channels_of edges.now) d delays.items) }
    ensures value { IfOk result (λ delays.
        delays.items ≡ path edges.now (channels_of edges.now) d) }
    ensures delays { IfOk result (λ delays. AreDelays (channels_of edges.now) delays.items) }
{
    has_one_path();
    paths_rise();
    let mut delays = vec![in alloc; 0u32; edges.len()]?;
    lay_path(edges, delays.as_mut_slice(), d);
    Ok(delays)
}

// Writes the path of `d` spectra over `delays`.
fn lay_path(edges: &[u32], delays: &mut [u32], d: u32)
    requires edges { AreEdges (channels_of edges.now) edges.now }
    requires entries { length delays.old ≡ length edges.now }
    requires delay { d ≤ most_delay }
    ensures { IsPath edges.now (channels_of edges.now) d delays.new }
{
    let channels = edges.len() - 1;
    delays[0] = 0;
    delays[channels] = d;
    halve(edges, delays, 0, channels);
}

// Fills in the delays between the edges `lo` and `hi`, whose own delays are set.
fn halve(edges: &[u32], delays: &mut [u32], lo: usize, hi: usize)
    requires edges { AreEdges (channels_of edges.now) edges.now }
    requires entries { length delays.old ≡ length edges.now }
    requires order { lo < hi }
    requires within { hi < length edges.now }
    requires rise { slice_index delays.old lo ≤ slice_index delays.old hi }
    requires most { slice_index delays.old hi ≤ most_delay }
    ensures halved { IsHalved edges.now lo hi (λ k. slice_index delays.new k) }
    ensures kept { KeepsOutside lo hi delays.old delays.new }
{
    halves_join();
    if hi - lo < 2 {
        return;
    }
    let middle = lo + (hi - lo) / 2;
    let upper = split(edges, lo, middle, hi, delays[hi] - delays[lo]);
    delays[middle] = delays[lo] + upper;
    halve(edges, delays, lo, middle);
    halve(edges, delays, middle, hi);
}
