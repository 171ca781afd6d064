// Laws of how a program that searches alone ends, which the contracts of functions that do nothing carry. A caller
// whose proof needs a law calls its function. Each stands for inputs that may be calm, and for those that may be calm
// and hold more names than those of the words.
ghost use Rattle.std.specs.Prelude.{ℕ, List};
ghost use Rattle.psr_base.specs.Told.{Told};
ghost use Rattle.disk_feeder.specs.Filling.{HoldsAll};
ghost use Rattle.drive_lone.specs.EndLaws.{AloneAtWords, AloneBeforeSession, AloneAtOwnStop, AloneAtFeedStop, AloneAfterWhole};

use psr_base::Inputs;
// Laws: they do nothing when they run, and the proofs use what they ensure.
use run_outcome::{
    end_after_whole, end_at_stop, end_at_words, end_before_session, statuses_say_stops,
    words_say_once,
};

/// What the exit status says if the arguments give no settings of the program's searches.
pub fn alone_at_words<I: Inputs>()
    ensures plain { (inputs : I) → AloneAtWords (I.is_calm inputs) }
    ensures with_more { (inputs : I) (told : Told) (more : List (List ℕ))
        → AloneAtWords (I.is_calm inputs × HoldsAll told more) }
{
    end_at_words::<I>();
}

/// What the exit status says if a program stops between its arguments and its session, as any run can: no block was
/// sealed.
pub fn alone_before_session<I: Inputs>()
    ensures plain { (inputs : I) → AloneBeforeSession (I.is_calm inputs) }
    ensures with_more { (inputs : I) (told : Told) (more : List (List ℕ))
        → AloneBeforeSession (I.is_calm inputs × HoldsAll told more) }
{
    words_say_once();
    statuses_say_stops();
    end_before_session::<I>();
}

/// What the exit status says if a program comes to a stop of its own between its arguments and its session.
pub fn alone_at_own_stop<I: Inputs>()
    ensures plain { (inputs : I) → AloneAtOwnStop (I.is_calm inputs) }
    ensures with_more { (inputs : I) (told : Told) (more : List (List ℕ))
        → AloneAtOwnStop (I.is_calm inputs × HoldsAll told more) }
{
    words_say_once();
}

/// What the exit status says if the feeder of the session was stopped.
pub fn alone_at_feed_stop<I: Inputs>()
    ensures plain { (inputs : I) → AloneAtFeedStop (I.is_calm inputs) }
    ensures with_more { (inputs : I) (told : Told) (more : List (List ℕ))
        → AloneAtFeedStop (I.is_calm inputs × HoldsAll told more) }
{
    words_say_once();
    end_at_stop::<I>();
}

/// What the exit status says of arguments, inputs, files and data ring, once all data were sealed.
pub fn alone_after_whole<I: Inputs>()
    ensures plain { (inputs : I) → AloneAfterWhole (I.is_calm inputs) }
    ensures with_more { (inputs : I) (told : Told) (more : List (List ℕ))
        → AloneAfterWhole (I.is_calm inputs × HoldsAll told more) }
{
    words_say_once();
    end_after_whole::<I>();
}
