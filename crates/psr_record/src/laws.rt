// A law of the outcome, which the contract of a function that does nothing carries. A caller whose proof needs the law
// calls its function.
ghost use Rattle.psr_record.specs.Outcome.{AcceptedIsRecorded};

use psr_base::Inputs;
// A law: it does nothing when it runs, and the proofs use what it ensures.
use run_outcome::accepted_goes_on;

/// If arguments, headers, recordings and data are accepted, the data are recorded, or there is no memory, provided that
/// neither the inputs nor the files that are made count a fault.
pub fn accepted_is_recorded<I: Inputs>()
    ensures { (inputs : I) → AcceptedIsRecorded (I.is_calm inputs) }
{
    accepted_goes_on::<I>();
}
