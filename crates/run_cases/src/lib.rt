//! For tests of the programs: runs over objects in memory, as lines of tables give them, and what they leave. A table
//! has a line for each file (`FileTable`) or for each run (`Case`), with its fields divided by `|`. A test reads the
//! fields in the order of its table, runs its program, and asks `Case::is_met` whether the run ended as its line says.
#![tactic(auto)]

mod case;
mod ended;
mod files;
mod limits;
mod lines;
mod programs;

pub use case::Case;
pub use ended::Ended;
pub use files::{FileTable, NO_FILE, calls_of};
pub use limits::{ENOUGH, Limits, NEVER};
pub use lines::{
    before_last_line, fields_of, has_lines, push_data, push_lines, push_words, words_of,
};
pub use programs::{made_observation, search_text};
