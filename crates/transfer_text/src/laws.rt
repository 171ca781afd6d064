// Laws of how many candidates there can be, which the contracts of functions that do nothing carry. A caller whose
// proof needs a law calls its function.
ghost use Rattle.transfer_text.specs.Laws.{CandidatesAreFew, TotalsAreCounted};

/// A search that is not refused has at most 49158 candidates for each spectrum, and 2^48 more.
pub fn candidates_are_few()
    ensures { CandidatesAreFew }
{}

/// The number of candidates of all transfers fits 64 bits.
pub fn totals_are_counted()
    ensures { TotalsAreCounted }
{
    candidates_are_few();
}
