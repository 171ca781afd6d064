// The band of a made observation.
ghost use Rattle.std.specs.Prelude.{◌≡◌, ◌+◌, ◌≤◌, IfOk};
ghost use Rattle.dada_model.specs.Edges.{AreEdges};
ghost use Rattle.dada_model.specs.Observation.{edge, edges};
ghost use Rattle.band_paths.specs.Edges.{AreDelays};
ghost use Rattle.psr_make.specs.Made.{SpecInRange, made_observation, made_path};

use crate::spec::MakeSpec;
use band_paths::edge_delays;
// Laws: they do nothing when they run, and the proofs use what they ensure.
use dada_model::{edges_are_quotients, edges_fall};
use psr_base::Memory;
use std::alloc::{AllocError, Global};

/// The centre of the band, in Hz.
const CENTRE_HZ: u64 = 1_382_000_000;

/// The width of the band, in Hz.
const WIDTH_HZ: u64 = 400_000_000;

// Edge `k` of the channels in kHz. Edge 0 is the top of the band.
fn edge_of(spec: &MakeSpec, k: u32) -> u32
    requires spec { SpecInRange spec.now }
    requires within { k ≤ spec.now.channels }
    ensures { result ≡ edge (made_observation spec.now) k }
{
    edges_are_quotients();
    let channels = u64::from(spec.channels);
    let top = (2 * CENTRE_HZ + WIDTH_HZ) * channels;
    let below = 2 * WIDTH_HZ * u64::from(k);
    ((top - below) / (2000 * channels)) as u32
}

// The edges of the channels in kHz, from the top of the band down to its foot.
fn edges_of(alloc: Global, spec: &MakeSpec) -> Result<Vec<u32>, AllocError>
    requires { SpecInRange spec.now }
    ensures edges { IfOk result (λ e. e.items ≡ edges (made_observation spec.now)) }
    ensures falls { IfOk result (λ e. AreEdges spec.now.channels e.items) }
{
    edges_fall();
    let mut edges = Vec::new(alloc);
    for k in 0..spec.channels + 1 {
        edges.push(edge_of(spec, k))?;
    }
    Ok(edges)
}

/// The delay path of the pulses: for each edge, how many spectra after the top of the band a pulse passes it.
pub(crate) fn delays_of(alloc: Global, spec: &MakeSpec) -> Result<Vec<u32>, Memory>
    requires { SpecInRange spec.now }
    ensures path { IfOk result (λ delays. delays.items ≡ made_path spec.now) }
    ensures delays { IfOk result (λ delays. AreDelays spec.now.channels delays.items) }
{
    let edges = edges_of(alloc, spec)?;
    edge_delays(alloc, edges.as_slice(), spec.delay)
}
