// Laws of how a run of either program ends, as functions that do nothing. A caller whose proof needs a law calls its
// function.
ghost use Rattle.run_outcome.specs.Ends.{EndAtWords, WordsSayOnce, EndBeforeSession, EndAtStop, EndAfterWhole, AcceptedGoesOn, TextsAreAnswered, FirstsAreAnswered, StopsAreAnswered, AcceptedIsNotRefused, StatusesSayStops};

use psr_base::Inputs;
// Laws: they do nothing when they run, and the proofs use what they ensure.
use crate::laws::whole_runs_record_data;
use search_words::said_is_in_range;
use stream_model::{first_stop_counts, no_stop_is_whole};

/// Law: status 5 means only `Memory`, status 6 only `ReadFault`.
pub fn statuses_say_stops()
    ensures { StatusesSayStops }
{}

/// Law: what the exit status means if the arguments give no settings.
pub fn end_at_words<I: Inputs>()
    ensures { (inputs : I) → EndAtWords (I.is_calm inputs) }
{}

/// Law: arguments never give two different settings.
pub fn words_say_once()
    ensures { WordsSayOnce }
{}

/// Law: what the exit status means if a run stops between its arguments and its session. Nothing was recorded, and no
/// block was sealed.
pub fn end_before_session<I: Inputs>()
    ensures { (inputs : I) → EndBeforeSession (I.is_calm inputs) }
{}

/// Law: what the exit status means if the feeder of the session was stopped.
pub fn end_at_stop<I: Inputs>()
    ensures { (inputs : I) → EndAtStop (I.is_calm inputs) }
{}

/// Law: what the exit status tells of arguments, inputs, files and data ring, once all data were sealed.
pub fn end_after_whole<I: Inputs>()
    ensures { (inputs : I) → EndAfterWhole (I.is_calm inputs) }
{
    whole_runs_record_data();
}

/// Law: if nothing stands against a run, it ends at none of its arguments, inputs and files.
pub fn accepted_goes_on<I: Inputs>()
    ensures { (inputs : I) → AcceptedGoesOn (I.is_calm inputs) }
{}

/// Law: if a first file has no header, and those before it have one, a run ends with status 3, or with 5 if it has no
/// memory, whatever other files contain.
pub fn texts_are_answered<I: Inputs>()
    ensures { (inputs : I) → TextsAreAnswered (I.is_calm inputs) }
{
    said_is_in_range();
}

/// Law: all first files have headers. If one of these has no observation, a run ends with status 3; if a search or a
/// recording is refused, with status 4; or with 5 if it has no memory. No bytes of other files need be known.
pub fn firsts_are_answered<I: Inputs>()
    ensures { (inputs : I) → FirstsAreAnswered (I.is_calm inputs) }
{
    said_is_in_range();
}

/// Law: if the walk of its files stops, and its session began or its first files are known and accepted, a run ends
/// with the status of that stop, which is 3, 7 or 8, or with 5 if it has no memory. No bytes of later files need be
/// known.
pub fn stops_are_answered<I: Inputs>()
    ensures { (inputs : I) → StopsAreAnswered (I.is_calm inputs) }
{
    first_stop_counts();
    no_stop_is_whole();
}

/// Law: a first header that is accepted is not refused, nor is a search or a recording that fits.
pub fn accepted_is_not_refused()
    ensures { AcceptedIsNotRefused }
{}
