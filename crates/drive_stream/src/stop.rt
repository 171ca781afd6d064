//! Why a run that streams its data through stopped.
use run_outcome::Stop;

/// Why a run that streams its data through ended without all that it was asked for: as any run, or since the program
/// refuses the observation, or its data at their end.
#[derive(Clone, Copy, Debug, PartialEq, Eq)]
pub enum StreamStop<F> {
    Run(Stop),
    Refused(F),
}
