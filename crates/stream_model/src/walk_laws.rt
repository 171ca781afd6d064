// Laws of the walk of the files, which the contracts of functions that do nothing carry. A caller whose proof needs a
// law calls its function.
ghost use Rattle.stream_model.specs.WalkLaws.{HeadersContinue, AcceptedIsLater, FirstFilesContinue, WholeExactly, FirstStopCounts, NoStopIsWhole, FilesAreInTransfers, DataGrow, DataJoin, DataNone, TransfersJoin, WalkJoinsData, OneTransferMore};

// Laws: they do nothing when they run, and the proofs use what they ensure.
use dada_model::{accepted_by_rows, accepted_is_in_range};

/// A header stops no walk exactly if its file continues its transfer.
pub fn headers_continue()
    ensures { HeadersContinue }
{}

/// An accepted header is that of a later file of its own observation, at its own offset.
pub fn accepted_is_later()
    ensures { AcceptedIsLater }
{
    accepted_by_rows();
    accepted_is_in_range();
}

/// The first file of a transfer continues it.
pub fn first_files_continue()
    ensures { FirstFilesContinue }
{
    accepted_is_later();
    headers_continue();
}

/// A walk is whole exactly if no header stops it and the data of all files are within the limit.
pub fn whole_exactly()
    ensures { WholeExactly }
{}

/// A walk stops at the first file that stops it.
pub fn first_stop_counts()
    ensures { FirstStopCounts }
{}

/// A walk that no file stops is whole.
pub fn no_stop_is_whole()
    ensures { NoStopIsWhole }
{}

/// A file from the first to the last one of a transfer is in that transfer.
pub fn files_are_in_transfers()
    ensures { FilesAreInTransfers }
{}

/// With one file more, the data of some files grow by the data of that file.
pub fn data_grow()
    ensures { DataGrow }
{}

/// The data of some files, joined to the data of the files after them, are the data of all of these.
pub fn data_join()
    ensures { DataJoin }
{}

/// No files have no data.
pub fn data_none()
    ensures { DataNone }
{}

/// The data of the transfers before that of a file, joined to the data of the files before it in its own transfer, are
/// the data of all files before it.
pub fn transfers_join()
    ensures { TransfersJoin }
{}

/// The data of all transfers, joined, are the data of all files in order.
pub fn walk_joins_data()
    ensures { WalkJoinsData }
{}

/// With one transfer more, the data of the transfers grow by the data of that transfer.
pub fn one_transfer_more()
    ensures { OneTransferMore }
{}
