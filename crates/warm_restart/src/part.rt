// The text of a part of a search, and which spectra the part needs.
ghost use Rattle.std.specs.Prelude.{◌≡◌, ◌≤◌, List, All};
ghost use Rattle.psr_base.specs.Written.{Wrote};
ghost use Rattle.search_model.specs.declared.candidate.Candidate.{Candidate};
ghost use Rattle.search_model.specs.Observed.{labels_of};
ghost use Rattle.search_model.specs.Parts.{within_part, part_text, first_needed as first_needed_of};
ghost use Rattle.candidate_book.specs.Conditions.{IsSearched};
ghost use Rattle.warm_restart.specs.Counts.{greatest_count};
ghost use Rattle.warm_restart.specs.LastLine.{last_line as last_line_of};

use crate::checkpoint::Checkpoint;
use crate::lines::last_line;
use candidate_book::{Book, PlainLabels, SinkStop, write_lines};
use obs_plan::Observation;
use psr_base::{Sink, write_all};
use search_model::Search;
// A law: it does nothing when it runs, and the proofs use what it ensures.
use psr_base::pieces_join;

/// The first spectrum that is needed to find the pulses that end at spectrum `place` or later: the longest delay and
/// the widest box before `place`, or 0 if that would be before the first spectrum.
pub fn first_needed(search: &Search, place: u64) -> u64
    ensures value { result ≡ first_needed_of search.now place }
    ensures bound { result ≤ place }
{
    place.saturating_sub(u64::from(search.max_delay) + u64::from(search.widest))
}

/// Writes the last line of the text of a part that stops before spectrum `until`: CHECK if more follow of the `spectra`
/// spectra of the observation, otherwise END. `pulses` is how many end before `until`, counted from the first spectrum
/// on. After a fault the sink has taken a beginning of the line.
pub fn write_last_line<K: Sink>(
    until: u64,
    spectra: u64,
    pulses: u64,
    sink: &mut K,
) -> Result<(), SinkStop>
    ensures { Wrote (last_line_of until spectra pulses) (K.seen sink.old) (K.seen sink.new) result }
{
    match write_all(sink, last_line(until, spectra, pulses).as_bytes()) {
        Ok(()) => Ok(()),
        Err(_) => Err(SinkStop::Fault),
    }
}

/// Writes the text of the part from a checkpoint up to, but without, spectrum `until`: the lines of the pulses that a
/// book keeps, and the last line, which adds their number to that of the checkpoint. The observation has `spectra`
/// spectra. After a fault the sink has taken a beginning of the text.
///
/// The checkpoint counts at most 2^48 pulses, as every one that was read does. If the sum is greater, it is written all
/// the same, and no further part can read it. That can happen only after a checkpoint that no search wrote.
pub fn write_part<K: Sink>(
    book: &Book,
    obs: &Observation,
    checkpoint: &Checkpoint,
    until: u64,
    spectra: u64,
    sink: &mut K,
) -> Result<(), SinkStop>
    requires searched { All IsSearched book.now.kept }
    requires pulses { checkpoint.now.pulses ≤ greatest_count }
    ensures { let from = checkpoint.now in (list : List Candidate)
        → book.now.kept ≡ within_part from.place until list
        → Wrote (part_text (labels_of obs.now) spectra from.place until from.pulses list)
        (K.seen sink.old) (K.seen sink.new) result }
{
    pieces_join();
    let kept = book.kept();
    match write_lines(kept, obs, &PlainLabels::of(obs), sink) {
        Ok(_) => write_last_line(until, spectra, checkpoint.pulses + kept.len() as u64, sink),
        Err(stop) => Err(stop),
    }
}
