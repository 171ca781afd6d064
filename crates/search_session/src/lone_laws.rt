//! Laws of lone sessions, as calls that do nothing when they run.
ghost use Rattle.search_session.specs.LoneEnds.{LoneTurnsAdd, LoneSessionsEnd};

use psr_base::Inputs;
// Laws: they do nothing when they run, and the proofs use what they ensure.
use dada_recorder::recordings_end;
use disk_feeder::{faults_leave, feeders_end, headers_are_first};
use stream_model::{bytes_are_joined, ends_are_counted, streams_have_transfers};

/// Turns of a lone session add up, over any inputs that are lent to it.
pub fn lone_turns_add<I: Inputs>()
    ensures { LoneTurnsAdd I.told I.is_calm I.faults }
{}

/// What a lone session came to that took turns until its feeder and its shard ended: the end of the walk of its files,
/// or a fault of its inputs that they counted; and its engines have searched what went through.
pub fn lone_sessions_end<I: Inputs>()
    ensures { LoneSessionsEnd I.told I.is_calm I.faults }
{
    feeders_end::<I>();
    headers_are_first::<I>();
    faults_leave::<I>();
    recordings_end();
    bytes_are_joined();
    ends_are_counted();
    streams_have_transfers();
}
