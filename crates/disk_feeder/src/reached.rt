//! A law of the walk of the files, as a call that does nothing when it runs.
ghost use Rattle.disk_feeder.specs.Reached.{WalkGoesOn};

// Laws: they do nothing when they run, and the proofs use what they ensure.
use stream_model::{
    data_join, files_are_in_transfers, first_stop_counts, no_stop_is_whole, one_transfer_more,
    streams_begin,
};

/// However the walk goes on from a file that it came to, the blocks of the data read so far begin its stream.
pub(crate) fn walk_goes_on()
    ensures { WalkGoesOn }
{
    streams_begin();
    data_join();
    files_are_in_transfers();
    first_stop_counts();
    no_stop_is_whole();
    one_transfer_more();
}
