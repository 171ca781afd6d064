//! The outside world as objects: what a search reads from and writes to, in memory and in the system.
#![tactic(auto)]

mod calls;
mod calm;
mod calm_inputs;
mod earlier;
mod faults;
mod files;
mod fixed;
mod held;
mod in_memory;
mod inputs;
mod lookup;
mod mem_files;
mod mem_inputs;
mod mem_sink;
mod reading;
mod real_files;
mod real_sink;
mod real_streams;
mod sink;
mod stored;
mod words;
mod writing;

pub use calm::{CalmFiles, CalmSink};
pub use calm_inputs::CalmInputs;
pub use faults::{Failed, Memory};
pub use files::Files;
pub use fixed::{Fixed, NumberFault};
pub use in_memory::{append_to_memory, read_from_memory, write_to_memory};
pub use inputs::Inputs;
pub use mem_files::MemFiles;
pub use mem_inputs::MemInputs;
pub use mem_sink::MemSink;
pub use reading::{DataFault, fill, read_file, read_to_end, reads_join};
pub use real_files::{RealFiles, RealInputs};
pub use real_sink::RealSink;
pub use real_streams::TakenStreams;
pub use sink::Sink;
pub use words::{NoWords, command_words};
pub use writing::{append_all, appends_join, pieces_join, write_all};
