// Laws of the outcome, which the contracts of functions that do nothing carry. A caller whose proof needs a law calls
// its function.
ghost use Rattle.psr_live.specs.Causes.{CausesAreAnswered};
ghost use Rattle.psr_live.specs.Sample.{SamplesAreFound};

use psr_base::Inputs;
// Laws: they do nothing when they run, and the proofs use what they ensure.
use run_outcome::{accepted_is_not_refused, end_at_words, words_say_once};
use stream_model::bytes_are_joined;
use warm_restart::{lines_are_read_back, texts_say_one};

/// What stands against a search is answered by its status and its line, if the files that say it are told: words that
/// are refused by 2, a checkpoint by 13, a first header by 3, a plan by 4, the stop of the walk of the files by its
/// status, and a place behind all data by 13. If nothing does, the status is 0. Otherwise there is no memory, or the
/// inputs or the output counted a fault; calm inputs that hold all files don't.
pub fn causes_are_answered<I: Inputs>()
    ensures { (inputs : I) → CausesAreAnswered (I.is_calm inputs) }
{
    accepted_is_not_refused();
    bytes_are_joined();
    end_at_words::<I>();
    texts_say_one();
    words_say_once();
}

/// The samples of this crate are found: a search of their file that ends with status 0 has written the line of its
/// pulse, or, where no pulse may be printed, the line that counts it.
pub fn samples_are_found<I: Inputs>()
    ensures { (inputs : I) → SamplesAreFound (I.is_calm inputs) }
{
    bytes_are_joined();
    lines_are_read_back();
    texts_say_one();
    words_say_once();
}
