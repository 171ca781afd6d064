// Laws of the text, which the contracts of functions that do nothing carry. A caller whose proof needs a law calls its
// function.
ghost use Rattle.live_search.specs.Laws.{LiveDataGrow, LiveStopsAreSaid, LiveStopsGoOn, LiveTextsArePlain, LiveTextsGoOn, LiveTextsGrow};
ghost use Rattle.live_search.specs.Used.{UsedLaws};

use obs_plan::Observation;
// Laws: they do nothing when they run, and the proofs use what they ensure.
use dada_model::edges_fall;
use psr_base::pieces_join;
use search_engine::parts_are_found;
use search_model::{
    candidates_are_listed, candidates_rise, has_one_path, one_shard_is_all, parts_join, paths_rise,
    rising_lists_agree, samples_of_bytes,
};
use warm_restart::{lines_are_read_back, part_texts_join};

// The laws of lower crates that the proofs of a search use.
pub(crate) fn laws_hold()
    ensures { UsedLaws }
{
    pieces_join();
    parts_are_found();
    candidates_are_listed();
    one_shard_is_all();
}

/// The text so far is a front of all that is written once more spectra came.
pub fn live_texts_grow()
    ensures { LiveTextsGrow }
{}

/// So it is of data bytes: the text so far is a front of that of all data, whatever data follow.
pub fn live_data_grow(observation: &Observation)
    ensures { LiveDataGrow observation.now }
{
    observation.lies_in_range();
}

/// A search that goes on from a CHECK line writes the rest of the text.
pub fn live_texts_go_on()
    ensures { LiveTextsGoOn }
{
    lines_are_read_back();
}

/// The last line of a search whose data stopped is the CHECK line of a checkpoint.
pub fn live_stops_are_said()
    ensures { LiveStopsAreSaid }
{
    lines_are_read_back();
}

/// A search that goes on from there over all data writes what is left of the text: without CHECK lines both texts are
/// that of one search, if no part of it has too many pulses. The data may stop in the middle of a part.
pub fn live_stops_go_on(observation: &Observation)
    ensures { LiveStopsGoOn observation.now }
{
    observation.lies_in_range();
    candidates_are_listed();
    candidates_rise();
    edges_fall();
    has_one_path();
    parts_join();
    paths_rise();
    rising_lists_agree();
    samples_of_bytes();
}

/// Without its CHECK lines the text is that of a search of the whole, where no part has too many pulses.
pub fn live_texts_are_plain()
    ensures { LiveTextsArePlain }
{
    candidates_are_listed();
    candidates_rise();
    parts_join();
    part_texts_join();
}
