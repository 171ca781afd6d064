// Laws of the outcome, which the contracts of functions that do nothing carry. A caller whose proof needs a law calls
// its function.
ghost use Rattle.psr_mask.specs.Causes.{CausesAreAnswered, ToldRoomIsEnough};
ghost use Rattle.psr_mask.specs.Outcome.{AcceptedIsSearched};
ghost use Rattle.psr_mask.specs.Sample.{SampleIsFound};

use psr_base::Inputs;
// Laws: they do nothing when they run, and the proofs use what they ensure.
use channel_mask::masks_are_not_refused;
use run_outcome::{
    accepted_goes_on, accepted_is_not_refused, firsts_are_answered, stops_are_answered,
    texts_are_answered,
};

/// If arguments, first header, mask, plan and data are accepted, they are searched, or there is no memory, provided
/// that neither the inputs nor the output count a fault.
pub fn accepted_is_searched<I: Inputs>()
    ensures { (inputs : I) → AcceptedIsSearched (I.is_calm inputs) }
{
    accepted_goes_on::<I>();
    masks_are_not_refused();
}

/// What stands against a search whose arguments are accepted is answered, over inputs that are calm and hold all files,
/// or that count no fault: a refused first header by 3, a refused mask by 12, a refused plan by 4, the stop of the walk
/// of the files by its status, and too many candidates by 9; or there is no memory. A refused mask is answered by 12
/// whatever is told of the files after the first one.
pub fn causes_are_answered<I: Inputs>()
    ensures { (inputs : I) → CausesAreAnswered (I.is_calm inputs) }
{
    accepted_is_not_refused();
    masks_are_not_refused();
    texts_are_answered::<I>();
    firsts_are_answered::<I>();
    stops_are_answered::<I>();
    accepted_goes_on::<I>();
}

/// If the files that are read are told, 10 never comes over an output that told enough room for the text.
pub fn told_room_is_enough<I: Inputs>()
    ensures { (inputs : I) → ToldRoomIsEnough (I.is_calm inputs) }
{}

/// The sample of this crate is found: a search of it that ends with status 0 has written its two lines.
pub fn sample_is_found<I: Inputs>()
    ensures { (inputs : I) → SampleIsFound (I.is_calm inputs) }
{}
