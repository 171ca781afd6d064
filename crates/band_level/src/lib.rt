//! Data bytes, cut anywhere, as levelled bytes: a flat and steady band, stretch by stretch.
#![tactic(auto)]

mod cells;
mod finish;
mod format;
mod held;
mod laws;
mod leveller;
mod levels;
mod measure;
mod moments;
mod narrow;
mod plan;
mod row;
mod scale;
mod space;
mod spectra;
mod sums;
mod task;

pub use format::Format;
pub use laws::{means_are_kept, spectra_have_the_mean};
pub use leveller::Leveller;
pub use plan::Plan;
