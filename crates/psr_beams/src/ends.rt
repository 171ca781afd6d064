// What the ends of all beams come to.
ghost use Rattle.std.specs.Prelude.{◌≡◌, ◌≤◌, ℕ, List, length, None, IfSome};
ghost use Rattle.search_model.specs.Search.{SettingsInRange};
ghost use Rattle.beam_set.specs.Laws.{BeamsHoldData};
ghost use Rattle.psr_beams.specs.Ends.{stop_at_data, stop_at_header, slot_stop, slot_count as slot_count_of, StopsBy, NoneStopsBy, StopsFirst, NoneStops, CountsTooMany, NoneCountsTooMany, EndsWritten, EndsBeams};

use beam_set::{BeamEnd, write_beams};
use disk_feeder::FeedEnd;
use obs_plan::Observation;
use psr_base::Sink;
use run_outcome::Stop;
use search_model::Search;
// A law: it does nothing when it runs, and the proofs use what it ensures.
use beam_set::searched_beams_are_found;

// The stop of a beam whose feeder ended so at its data, or none.
fn data_stop(beam: u32, end: FeedEnd) -> Option<Stop>
    ensures { result ≡ stop_at_data beam end }
{
    match end {
        FeedEnd::ReadFault => Some(Stop::ReadFault),
        FeedEnd::TooLong { limit } => Some(Stop::TooLong { limit }),
        _ => None,
    }
}

// The stop of a beam whose feeder ended so at its header, or none. All headers are judged before data are read, so none
// ends so; no clause of a feeder says it.
fn header_stop(beam: u32, end: FeedEnd) -> Option<Stop>
    ensures { result ≡ stop_at_header beam end }
{
    match end {
        FeedEnd::BadHeader { file: _, cause } => Some(Stop::Header { file: beam, cause }),
        FeedEnd::Gap {
            file: _,
            expected,
            found,
        } => Some(Stop::Gap {
            file: beam,
            expected,
            found,
        }),
        _ => None,
    }
}

// The stop at its data of the beam of a slot, or none.
fn slot_data_stop(beam: u32, slot: &Option<BeamEnd>) -> Option<Stop>
    ensures { result ≡ slot_stop stop_at_data beam slot.now }
{
    match slot {
        Some(end) => data_stop(beam, end.feed),
        None => None,
    }
}

// The stop at its header of the beam of a slot, or none.
fn slot_header_stop(beam: u32, slot: &Option<BeamEnd>) -> Option<Stop>
    ensures { result ≡ slot_stop stop_at_header beam slot.now }
{
    match slot {
        Some(end) => header_stop(beam, end.feed),
        None => None,
    }
}

// How many candidates the beam of a slot counted.
fn slot_count(slot: &Option<BeamEnd>) -> u64
    ensures { result ≡ slot_count_of slot.now }
{
    match slot {
        Some(end) => end.book.count(),
        None => 0,
    }
}

// The stop of the lowest beam that stopped at its data, or none.
fn first_data_stop(ends: &[Option<BeamEnd>]) -> Option<Stop>
    requires { length ends.now ≤ 7 }
    ensures none { result ≡ None → NoneStopsBy stop_at_data ends.now }
    ensures first { IfSome result (StopsBy stop_at_data ends.now) }
{
    for beam in 0..ends.len() {
        if let Some(stop) = slot_data_stop(beam as u32, &ends[beam]) {
            return Some(stop);
        }
    }
    None
}

// The stop of the lowest beam that stopped at its header, or none.
fn first_header_stop(ends: &[Option<BeamEnd>]) -> Option<Stop>
    requires { length ends.now ≤ 7 }
    ensures none { result ≡ None → NoneStopsBy stop_at_header ends.now }
    ensures first { IfSome result (StopsBy stop_at_header ends.now) }
{
    for beam in 0..ends.len() {
        if let Some(stop) = slot_header_stop(beam as u32, &ends[beam]) {
            return Some(stop);
        }
    }
    None
}

// The stop of the lowest beam that stopped at its data, or of the lowest that stopped at its header, or none.
fn first_stop(ends: &[Option<BeamEnd>]) -> Option<Stop>
    requires { length ends.now ≤ 7 }
    ensures none { result ≡ None → NoneStops ends.now }
    ensures first { IfSome result (StopsFirst ends.now) }
{
    if let Some(stop) = first_data_stop(ends) {
        return Some(stop);
    }
    first_header_stop(ends)
}

// The stop at the lowest beam that has more candidates than there may be, or none.
fn first_crowded(ends: &[Option<BeamEnd>], limit: u32) -> Option<Stop>
    ensures none { result ≡ None → NoneCountsTooMany ends.now limit }
    ensures first { IfSome result (CountsTooMany ends.now limit) }
{
    for beam in 0..ends.len() {
        let count = slot_count(&ends[beam]);
        if count > u64::from(limit) {
            return Some(Stop::TooMany { count, limit });
        }
    }
    None
}

// Writes the text of all beams, none of which stopped or has too many candidates.
fn write_text<K: Sink>(
    search: &Search,
    observation: &Observation,
    within: u32,
    more: u32,
    ends: &[Option<BeamEnd>],
    out: &mut K,
) -> Option<Stop>
    requires range { SettingsInRange search.now }
    requires whole { NoneStops ends.now }
    requires few { NoneCountsTooMany ends.now search.now.max_candidates }
    requires found { (data_of_beams : List (List ℕ))
        × BeamsHoldData observation.now search.now data_of_beams ends.now }
    ensures { EndsWritten observation.now search.now within more ends.now (K.seen out.old)
        (K.seen out.new) result }
{
    searched_beams_are_found();
    match write_beams(ends, observation, within, more, out) {
        Ok(()) => None,
        Err(_fault) => Some(Stop::SinkFault),
    }
}

/// Writes the text of what was found, where no beam stopped or has too many candidates, and answers what the search
/// came to.
pub(crate) fn write_end<K: Sink>(
    search: &Search,
    observation: &Observation,
    within: u32,
    more: u32,
    ends: &[Option<BeamEnd>],
    out: &mut K,
) -> Option<Stop>
    requires range { SettingsInRange search.now }
    requires few { length ends.now ≤ 7 }
    requires found { NoneStops ends.now → (data_of_beams : List (List ℕ))
        × BeamsHoldData observation.now search.now data_of_beams ends.now }
    ensures { EndsBeams observation.now search.now within more ends.now (K.seen out.old)
        (K.seen out.new) result }
{
    if let Some(stop) = first_stop(ends) {
        return Some(stop);
    }
    if let Some(stop) = first_crowded(ends, search.max_candidates) {
        return Some(stop);
    }
    write_text(search, observation, within, more, ends, out)
}
