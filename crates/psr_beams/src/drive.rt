// A search of several beams from its settings to its end.
ghost use Rattle.std.specs.Prelude.{◌≡◌, ◌≤◌, length};
ghost use Rattle.search_words.specs.Settings.{AllInRange, settings_seen};
ghost use Rattle.run_outcome.specs.Lone.{IsOfOne};
ghost use Rattle.psr_beams.specs.Driven.{IsDriven};

use crate::ends::write_end;
use crate::feeders::begin_all;
use crate::opened::{judge_all, open_all};
use crate::words::BeamWords;
use beam_set::run_set;
use psr_base::{Inputs, Sink};
use run_outcome::Stop;
use search_session::Gate;
use std::alloc::Global;
use std::sync::Wait;
use std::thread::Threads;
// A law: it does nothing when it runs, and the proofs use what it ensures.
use beam_set::later_headers_agree;

/// Drives a search of several beams from its settings to its end, and answers what it came to: its stop, or none where
/// all of its text is written. It may not end.
pub(crate) fn drive<I: Inputs + Send, K: Sink, G: Gate + Sync, R: Threads + Wait + Sync>(
    rt: &R,
    alloc: Global,
    said: &BeamWords,
    inputs: &mut [I],
    out: &mut K,
    gate: &G,
) -> Option<Stop>
    requires range { AllInRange (settings_seen said.now.settings) }
    requires one { IsOfOne (settings_seen said.now.settings) }
    requires beams { (2 ≤ length said.now.settings.run.names.items)
        × (length said.now.settings.run.names.items ≤ 7) }
    requires lent { length inputs.old ≡ 7 }
    ensures { IsDriven I.told I.is_calm I.faults (settings_seen said.now.settings) said.now.within
        said.now.more inputs.old inputs.new (K.seen out.old) (K.seen out.new) result }
{
    later_headers_agree();
    let feeders = match begin_all(alloc, &said.settings, inputs) {
        Ok(feeders) => feeders,
        Err(stop) => return Some(stop),
    };
    let observation = match judge_all(alloc, &said.settings, feeders.as_slice()) {
        Ok(observation) => observation,
        Err(stop) => return Some(stop),
    };
    let beams = match open_all(rt, alloc, &said.settings, &observation, feeders) {
        Ok(beams) => beams,
        Err(_memory) => return Some(Stop::Memory),
    };
    let ends = run_set(rt, beams, inputs, said.settings.run.turns, gate);
    write_end(
        &said.settings.search,
        &observation,
        said.within,
        said.more,
        ends.as_slice(),
        out,
    )
}
