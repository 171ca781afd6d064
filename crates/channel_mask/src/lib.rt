//! Masks of channels: reads the text that names them, counts how many cells of each delay path are kept, and searches
//! the channels that are kept and writes the text of that search.
#![tactic(auto)]

mod cells;
mod engine;
mod fault;
mod front;
mod laws;
mod lines;
mod mask;
mod ranges;
mod scope;

pub use engine::MaskEngine;
pub use fault::MaskFault;
pub use laws::{fronts_are_read, masks_are_not_refused, masks_are_spelled};
pub use lines::write_masked;
pub use mask::Mask;
