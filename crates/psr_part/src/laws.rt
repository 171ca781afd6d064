// Laws of the outcome, which the contracts of functions that do nothing carry. A caller whose proof needs a law calls
// its function.
ghost use Rattle.psr_part.specs.Causes.{AcceptedIsSearched, CausesAreAnswered, ToldRoomIsEnough};
ghost use Rattle.psr_part.specs.Joins.{PartsAreJoined};
ghost use Rattle.psr_part.specs.Sample.{SampleIsFound};

use psr_base::Inputs;
// Laws: they do nothing when they run, and the proofs use what they ensure.
use run_outcome::{
    accepted_goes_on, accepted_is_not_refused, firsts_are_answered, stops_are_answered,
    texts_are_answered,
};
use search_model::{candidates_rise, parts_join};
use warm_restart::{lines_are_read_back, part_texts_join, texts_say_one};

/// If arguments, a checkpoint, headers and data are accepted, they are searched, or there is no memory, provided that
/// neither the inputs nor the output count a fault.
pub fn accepted_is_searched<I: Inputs>()
    ensures { (inputs : I) → AcceptedIsSearched (I.is_calm inputs) }
{
    texts_say_one();
    accepted_goes_on::<I>();
}

/// What stands against a search whose arguments are accepted is answered, over inputs that are calm and hold all files,
/// or that count no fault: a checkpoint that is refused by 13; from one that is accepted, a refused first header by 3,
/// a refused search by 4, the stop of the walk of the files by its status, a place behind all data by 13, and too many
/// pulses by 9; or there is no memory.
pub fn causes_are_answered<I: Inputs>()
    ensures { (inputs : I) → CausesAreAnswered (I.is_calm inputs) }
{
    texts_say_one();
    accepted_is_not_refused();
    texts_are_answered::<I>();
    firsts_are_answered::<I>();
    stops_are_answered::<I>();
    accepted_goes_on::<I>();
}

/// If the files that are read are told, 10 never comes over an output that told enough room for the text.
pub fn told_room_is_enough<I: Inputs>()
    ensures { (inputs : I) → ToldRoomIsEnough (I.is_calm inputs) }
{
    texts_say_one();
}

/// Searches of parts, each of which goes on from the CHECK line of the one before it, write the text of the whole
/// search, except for these lines. There may be any number of parts, and the first begins with `new`.
pub fn parts_are_joined<I: Inputs>()
    ensures { (inputs : I) → PartsAreJoined (I.is_calm inputs) }
{
    texts_say_one();
    lines_are_read_back();
    part_texts_join();
    parts_join();
    candidates_rise();
}

/// The sample of this crate is found: a search of it that ends with status 0 has written its two lines.
pub fn sample_is_found<I: Inputs>()
    ensures { (inputs : I) → SampleIsFound (I.is_calm inputs) }
{
    texts_say_one();
    lines_are_read_back();
}
