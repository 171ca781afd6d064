//! Laws, as calls that do nothing when they run.
ghost use Rattle.disk_feeder.specs.Laws.{FeedersBegin, FeedersEnd, HeadersAreFirst, FaultsLeave};

// Laws: they do nothing when they run, and the proofs use what they ensure.
use crate::reached::walk_goes_on;
use stream_model::{bytes_are_joined, ends_are_counted, streams_stop_once};

/// Until a feeder ended, the data blocks that it sealed begin the stream of its files, without a Cut.
pub fn feeders_begin<I>()
    ensures { FeedersBegin I }
{
    ends_are_counted();
    walk_goes_on();
}

/// Once a feeder ended, the data blocks that it sealed are a stream with its end, and no beginning of them is.
pub fn feeders_end<I>()
    ensures { FeedersEnd I }
{
    bytes_are_joined();
    ends_are_counted();
    streams_stop_once();
}

/// The header blocks that a feeder sealed are those of the first transfers, in order: of as many as ended in the data
/// ring, or of one more.
pub fn headers_are_first<I>()
    ensures { HeadersAreFirst I }
{
    ends_are_counted();
}

/// If a fault of the inputs ended a feeder, nothing that was read stops the walk of its files, and the full blocks that
/// it sealed are those of the data that were read, which begin with the data of the files before the fault. If it came
/// to a file that could not be opened after only the files before it were read, it still says so.
pub fn faults_leave<I>()
    ensures { FaultsLeave I }
{}
