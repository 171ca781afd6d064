//! Laws of runs that stream their data through, which the contracts of functions that do nothing carry. A caller whose
//! proof needs a law calls its function.
ghost use Rattle.drive_stream.specs.Laws.{AcceptedGoesThrough, HeadersAreAnswered, RefusalsAreAnswered, StopsAreAnswered, StreamsEnd};

use crate::streaming::Streaming;
// Laws: they do nothing when they run, and the proofs use what they ensure.
use run_outcome::accepted_is_not_refused;
use stream_model::{bytes_are_joined, first_stop_counts, walk_joins_data};

/// A run that came to no stop took all data.
pub fn streams_end<T: Streaming>(task: &T)
    ensures { StreamsEnd (T.block task.now) (T.takes task.now) (T.refuses task.now)
        (T.leaves task.now) }
{
    bytes_are_joined();
    walk_joins_data();
}

/// What stands against a run is answered by its stop, over the files that say it, or there is no memory, or inputs or
/// output failed; and where nothing does, the run goes through.
pub fn causes_are_answered<T: Streaming>(task: &T)
    ensures accepted { AcceptedGoesThrough (T.block task.now) (T.takes task.now)
        (T.refuses task.now) (T.leaves task.now) }
    ensures headers { HeadersAreAnswered (T.block task.now) (T.takes task.now)
        (T.refuses task.now) (T.leaves task.now) }
    ensures refusals { RefusalsAreAnswered (T.block task.now) (T.takes task.now)
        (T.refuses task.now) (T.leaves task.now) }
    ensures stops { StopsAreAnswered (T.block task.now) (T.takes task.now) (T.refuses task.now)
        (T.leaves task.now) }
{
    task.taken_is_not_refused();
    accepted_is_not_refused();
    bytes_are_joined();
    first_stop_counts();
    walk_joins_data();
}
