//! One call of each of some small crates.
ghost use Rattle.std.specs.Prelude.{◌≡◌, ◌*◌, ◌/◌, ◌^◌, ◌<◌, ◌≤◌, ◌↔◌, true, All, IsTrue, IfOk, length};
ghost use Rattle.dada_model.specs.Bounds.{most_delay};
ghost use Rattle.dada_model.specs.Edges.{AreEdges};
ghost use Rattle.search_model.specs.Detection.{IsDetected};
ghost use Rattle.search_model.specs.Folds.{fold_sum as fold_sum_of};
ghost use Rattle.search_model.specs.Samples.{filterbank};
ghost use Rattle.search_model.specs.Sums.{path_sum as path_sum_of};
ghost use Rattle.band_paths.specs.Edges.{channels_of, most_sample};
ghost use Rattle.ring_core.specs.State.{Steps, answer_of, event_of};

use band_paths::{edge_delays, path_sum};
use detect_rule::Rule;
use fold_phase::fold_sum;
use psr_base::Memory;
use ring_core::{Answer, Core, Event};
use std::alloc::Global;

/// Whether a sum of `cells` samples of mean 16 and standard deviation 2.828 lies at least 7 deviations of the sum above
/// its mean.
pub fn is_pulse(sum: u64, cells: u64) -> bool
    requires sum_fits { sum < 2 ^ 32 }
    requires cells_fit { cells ≤ 2 ^ 26 }
    ensures { IsTrue result ↔ IsDetected 16000 2828 700 sum cells }
{
    let rule = Rule {
        mean: 16_000,
        sd: 2_828,
        snr: 700,
    };
    rule.detected(sum, cells)
}

/// The sum along the path of a delay that ends at spectrum `u`. The samples are in the order of the data, the highest
/// frequency of each spectrum first.
pub fn plain_sum(
    alloc: Global,
    edges: &[u32],
    samples: &[u32],
    delay: u32,
    u: usize,
) -> Result<u64, Memory>
    requires edges { AreEdges (channels_of edges.now) edges.now }
    requires delay { delay ≤ most_delay }
    requires small { All (λ x. x ≤ most_sample) samples.now }
    requires spectrum { u < length samples.now / channels_of edges.now }
    ensures { IfOk result (λ sum. sum
        ≡ path_sum_of (filterbank (channels_of edges.now) true samples.now) edges.now u delay) }
{
    let delays = edge_delays(alloc, edges, delay)?;
    Ok(path_sum(samples, edges.len() - 1, delays.as_slice(), u))
}

/// The fold sum of a phase over the first `2^halvings` rows of a series, none of them shifted.
pub fn unshifted(series: &[u32], period: u32, halvings: u32, phase: u32) -> u64
    requires some { 1 ≤ halvings }
    requires few { halvings ≤ 12 }
    requires phase { phase < period }
    requires long { 2 ^ halvings * period ≤ length series.now }
    ensures { result ≡ fold_sum_of series.now period halvings 0 phase }
{
    fold_sum(series, period, halvings, 0, phase)
}

/// A reader of a ring asks for its next block.
pub fn ask(core: &mut Core, reader: u32) -> Answer
    ensures steps { Steps core.old (event_of (Event.ReaderTake reader)) (answer_of result) core.new }
    ensures refused { result ≡ Answer.Refused → core.new ≡ core.old }
{
    core.apply(Event::ReaderTake(reader))
}
