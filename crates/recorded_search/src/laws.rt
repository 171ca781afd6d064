// Laws of recordings and searches, which the contracts of functions that do nothing carry. A caller whose proof needs a
// law calls its function.
ghost use Rattle.stream_model.specs.RecordedLaws.{RecordedFilesGiveTheData};
ghost use Rattle.recorded_search.specs.ReadBack.{RecordedIsReadBack, RecordedIsObservedAlike, RecordedIsSearchedAlike, RecordedCanBeSearched};
ghost use Rattle.recorded_search.specs.Again.{RecordedIsFoundAlike, RecordedIsAccepted};

use psr_base::Inputs;
// Laws: they do nothing when they run, and the proofs use what they ensure.
use dada_model::{accepted_by_rows, headers_are_read_back, headers_are_text, headers_by_front};
use stream_model::{
    each_header_has_room, headers_keep_observation, headers_keep_values,
    recorded_files_give_the_data, recorded_transfers_give_the_data, walk_joins_data, whole_exactly,
};

/// Fed in order, the recorded files of a whole transfer are a whole stream with the data of that transfer.
pub fn recorded_files_are_read_back()
    ensures { RecordedFilesGiveTheData }
{
    recorded_files_give_the_data();
}

/// Fed in order, the files of a recording of all data are a whole stream with these data.
pub fn recorded_is_read_back()
    ensures { RecordedIsReadBack }
{
    headers_are_read_back();
    whole_exactly();
    walk_joins_data();
    recorded_transfers_give_the_data();
}

// Both laws of recorded files that are searched.
fn recorded_is_alike()
    ensures observed { RecordedIsObservedAlike }
    ensures searched { RecordedCanBeSearched }
{
    headers_are_read_back();
    headers_by_front();
    headers_are_text();
    accepted_by_rows();
    whole_exactly();
    walk_joins_data();
    each_header_has_room();
    headers_keep_values();
    headers_keep_observation();
    recorded_is_read_back();
}

/// Fed in order, the files of a recording of all data have the transfers that were recorded, as they are searched: each
/// with its observation and its data.
pub fn recorded_is_observed_alike()
    ensures { RecordedIsObservedAlike }
{
    recorded_is_alike();
}

/// A search of the files of a recording of all data has the text and the candidates that this search has of the data.
pub fn recorded_is_searched_alike()
    ensures { RecordedIsSearchedAlike }
{
    recorded_is_observed_alike();
}

/// Nothing stands against a search of the files of a recording of all data if nothing stands against that search of the
/// data, it records nothing itself, and it may take as many data bytes as the recording.
pub fn recorded_can_be_searched()
    ensures { RecordedCanBeSearched }
{
    recorded_is_alike();
}

/// Two searches with equal settings that end with status 0 write one text if one searches files, and the other the
/// files of a recording of all their data.
pub fn recorded_is_found_alike<I: Inputs, J: Inputs>()
    ensures { (inputs : I) (again : J) → RecordedIsFoundAlike (I.is_calm inputs) (J.is_calm again) }
{
    recorded_is_searched_alike();
}

/// The search of the files of a recording of all data is accepted if that search of the data is, it records nothing
/// itself, and it may take as many data bytes as the recording.
pub fn recorded_is_accepted()
    ensures { RecordedIsAccepted }
{
    recorded_is_searched_alike();
    recorded_can_be_searched();
}
