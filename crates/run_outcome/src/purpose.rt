//! What a run is for.
use search_model::Search;

/// The purpose of a run.
#[derive(Clone, Copy, Debug, PartialEq)]
pub enum Purpose {
    /// Search files by this search. The settings of the run may ask to record them too.
    Search(Search),
    /// Record files, as the settings of the run ask, and search nothing.
    Record,
}
