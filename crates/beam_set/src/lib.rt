//! Several beams: they are searched at the same time, each over its own inputs (`run_set`); which of their pulses are
//! taken for interference (`marked`); and the text of what they found (`write_beams`).
#![tactic(auto)]

mod beam;
mod ended;
mod labels;
mod laws;
mod marks;
mod near;
mod rounds;
mod set;
mod space;
mod texts;

pub use beam::{Beam, MOST_BEAMS};
pub use candidate_book::SinkStop;
pub use ended::BeamEnd;
pub use laws::{later_headers_agree, searched_beams_are_found};
pub use marks::marked;
pub use set::run_set;
pub use space::BeamSpace;
pub use texts::write_beams;
