//! Why a lone run stopped before its session.
use run_outcome::Stop;

/// Why a lone run stopped before its session.
#[derive(Clone, Copy, Debug, PartialEq, Eq)]
pub enum LoneStop<F> {
    /// As any run can stop.
    Run(Stop),
    /// The program refuses the observation.
    Unscoped(F),
}
