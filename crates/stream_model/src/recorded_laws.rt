// Laws of recorded files, which the contracts of functions that do nothing carry. A caller whose proof needs a law
// calls its function.
ghost use Rattle.stream_model.specs.RecordedLaws.{ChangesStayAlike, EachHeaderHasRoom, HeadersKeepValues, HeadersKeepObservation, RecordedFilesGiveTheData, RecordedTransfersGiveTheData};

// Laws: they do nothing when they run, and the proofs use what they ensure.
use crate::walk_laws::{accepted_is_later, headers_continue, no_stop_is_whole, whole_exactly};
use dada_model::{
    accepted_by_rows, blank_keeps_length, change_gives_value, change_keeps_others,
    changed_is_read_back, fields_by_lines, first_word_of_line, headers_are_text, headers_by_front,
    numbers_are_spelled,
};

/// If two texts are alike, they stay so if a key gets values of one width in both.
pub fn changes_stay_alike()
    ensures { ChangesStayAlike }
{
    first_word_of_line();
    fields_by_lines();
    change_gives_value();
    change_keeps_others();
    blank_keeps_length();
}

/// If a recording isn't refused, the header of each file has room for its changes.
pub fn each_header_has_room()
    ensures { EachHeaderHasRoom }
{
    changes_stay_alike();
}

/// The header of a recorded file has numbers of its own, and otherwise the values of the transfer's header.
pub fn headers_keep_values()
    ensures { HeadersKeepValues }
{
    change_gives_value();
    change_keeps_others();
    changed_is_read_back();
}

/// The header of a recorded file has the transfer's observation, at an offset of its own.
pub fn headers_keep_observation()
    ensures { HeadersKeepObservation }
{
    change_gives_value();
    change_keeps_others();
    numbers_are_spelled();
    accepted_by_rows();
}

/// The recorded files of whole transfers, fed in order, are a whole stream with the data of each transfer.
pub fn recorded_transfers_give_the_data()
    ensures { RecordedTransfersGiveTheData }
{
    headers_by_front();
    headers_are_text();
    each_header_has_room();
    headers_keep_values();
    headers_keep_observation();
    accepted_is_later();
    headers_continue();
    whole_exactly();
    no_stop_is_whole();
}

/// The recorded files of a whole transfer, fed in order, are a whole stream with the data of the transfer.
pub fn recorded_files_give_the_data()
    ensures { RecordedFilesGiveTheData }
{
    recorded_transfers_give_the_data();
}
