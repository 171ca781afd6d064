// Laws of beams, which the contracts of functions that do nothing carry. A caller whose proof needs a law calls its
// function.
ghost use Rattle.beam_set.specs.Laws.{SearchedBeamsAreFound};
ghost use Rattle.beam_set.specs.Later.{LaterHeadersAgree};

// Laws: they do nothing when they run, and the proof uses what they ensure.
use dada_model::accepted_by_rows;
use search_model::{candidates_are_listed, candidates_rise};

/// Beams whose books are those of the candidate lists of their data, none of them longer than the limit, can be
/// written, and they found what a search of their data finds.
pub fn searched_beams_are_found()
    ensures { SearchedBeamsAreFound }
{
    candidates_are_listed();
    candidates_rise();
}

/// A later header with the values of the first one and its OBS_OFFSET has its observation.
pub fn later_headers_agree()
    ensures { LaterHeadersAgree }
{
    accepted_by_rows();
}
