//! The recorder: writes what comes through two rings into files, each with a header of its own (PSRDADA manual:
//! dada_dbdisk).
#![tactic(auto)]

mod answers;
mod changes;
mod naming;
mod recorder;
mod recording_laws;
mod space;
mod transfer_files;
mod transfers;

pub use answers::{RecordEnd, RecordFault, RecordTurn};
pub use changes::fits;
pub use recorder::Recorder;
pub use recording_laws::recordings_end;
pub use space::RecorderSpace;
