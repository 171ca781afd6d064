// Laws of what runs record, as functions that do nothing. A caller whose proof needs a law calls its function.
ghost use Rattle.run_outcome.specs.Laws.{RunsRecordBlocks, WholeRunsRecordData};

// Laws: they do nothing when they run, and the proofs use what they ensure.
use stream_model::{ends_are_counted, streams_have_transfers};

/// Law: the files of a run are what is recorded of its blocks.
pub fn runs_record_blocks()
    ensures { RunsRecordBlocks }
{}

/// Law: a run over a complete walk records all data.
pub fn whole_runs_record_data()
    ensures { WholeRunsRecordData }
{
    ends_are_counted();
    streams_have_transfers();
}
