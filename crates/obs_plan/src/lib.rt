//! What a header in the DADA form says of an observation: its numbers, or why it has none; the edges of its channels;
//! dispersion measures; whether a later file continues it. It also gives its users `Search`, the settings of a search.
#![tactic(auto)]

mod fault;
mod found;
mod numbers;
mod observation;
mod profile;
mod rows;

pub use dada_model::Key;
pub use fault::ObsFault;
pub use observation::Observation;
pub use profile::Profile;
pub use search_model::Search;
