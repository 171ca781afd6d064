// Laws of the outcome, which the contracts of functions that do nothing carry. A caller whose proof needs a law calls
// its function.
ghost use Rattle.psr_search.specs.Causes.{CausesAreAnswered, ToldRoomIsEnough};
ghost use Rattle.psr_search.specs.Outcome.{AcceptedIsSearched};
ghost use Rattle.psr_search.specs.RecordedSample.{BothAreRecorded, BothAreTooMany};
ghost use Rattle.psr_search.specs.Sample.{SampleIsFound};

use psr_base::Inputs;
// Laws: they do nothing when they run, and the proofs use what they ensure.
use run_outcome::{accepted_goes_on, firsts_are_answered, stops_are_answered, texts_are_answered};

/// If arguments, headers and data are accepted, they are searched, or there is no memory, provided that neither the
/// inputs nor the output nor the files that are made count a fault.
pub fn accepted_is_searched<I: Inputs>()
    ensures { (inputs : I) → AcceptedIsSearched (I.is_calm inputs) }
{
    accepted_goes_on::<I>();
}

/// What stands against a search whose arguments are accepted is answered, over inputs that are calm and hold all files,
/// or that count no fault: a refused first header by 3, a refused search or recording by 4, the stop of the walk of the
/// files by its status, and too many candidates by 9; or there is no memory.
pub fn causes_are_answered<I: Inputs>()
    ensures { (inputs : I) → CausesAreAnswered (I.is_calm inputs) }
{
    texts_are_answered::<I>();
    firsts_are_answered::<I>();
    stops_are_answered::<I>();
    accepted_goes_on::<I>();
}

/// If the files that are read are told, 10 never comes over an output that told enough room for the text, nor 11 over
/// files that told enough room for all data.
pub fn told_room_is_enough<I: Inputs>()
    ensures { (inputs : I) → ToldRoomIsEnough (I.is_calm inputs) }
{}

/// The sample of this crate is found: a search of it that ends with status 0 has written its two lines.
pub fn sample_is_found<I: Inputs>()
    ensures { (inputs : I) → SampleIsFound (I.is_calm inputs) }
{}

/// The sample of two observations is found and recorded: a search of them that records ends with status 0, its five
/// lines and its three files, or there is no memory, provided that nothing counts a fault.
pub fn both_samples_are_recorded<I: Inputs>()
    ensures { (inputs : I) → BothAreRecorded (I.is_calm inputs) }
{
    accepted_is_searched::<I>();
}

/// A search of the sample of two observations that may keep no candidate ends with status 9, or there is no memory.
pub fn both_samples_are_too_many<I: Inputs>()
    ensures { (inputs : I) → BothAreTooMany (I.is_calm inputs) }
{
    causes_are_answered::<I>();
}
