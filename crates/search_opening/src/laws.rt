// Laws of a run before its session and at its end, as functions that do nothing. A caller whose proof needs one calls
// its function.
ghost use Rattle.search_opening.specs.Early.{EarlyStopsStand};
ghost use Rattle.search_opening.specs.Ended.{CutsStayTold, EarlyStopsAreSaid, EarlyStopsLeave, FirstsStayTold, SessionsFeedFiles, RecordingsAreSaid};

use psr_base::Inputs;
// A law: it does nothing when it runs, and the proofs use what it ensures.
use run_outcome::words_say_once;

/// Law: what a stop before the session tells of the files holds as long as the known bytes of these files stay the
/// same.
pub fn early_stops_stand()
    ensures { EarlyStopsStand }
{}

/// Law: the first files stay known as long as the known bytes of these files stay the same.
pub fn firsts_stay_told()
    ensures { FirstsStayTold }
{}

/// Law: what was sealed at a fault of the inputs stays so as long as the known bytes of the files stay the same, for
/// every plan over these files.
pub fn cuts_stay_told()
    ensures { CutsStayTold }
{}

/// Law: if a run stops by its settings before its session, it stops so for every command line that gives these
/// settings, and it has read what such a run reads.
pub fn early_stops_are_said<I: Inputs>()
    ensures said { EarlyStopsAreSaid }
    ensures leave { (inputs : I) → EarlyStopsLeave (I.is_calm inputs) }
{
    words_say_once();
}

/// Law: the feeder of a session over the files of a run's settings did what the feeder of the run does, for every
/// command line that gives these settings.
pub fn sessions_feed_files<I: Inputs, F>()
    ensures { SessionsFeedFiles F I.told I.is_calm I.faults }
{
    words_say_once();
}

/// Law: a recording that is right for the settings of a run is right for every command line that gives these settings.
pub fn recordings_are_said()
    ensures { RecordingsAreSaid }
{
    words_say_once();
}
