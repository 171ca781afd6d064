//! Searches in parts: the checkpoint texts by which a part goes on where the one before it stopped, the arguments that
//! give where a part begins and stops, the search of a part, and its text.
#![tactic(auto)]

mod checkpoint;
mod counts;
mod laws;
mod lines;
mod named;
mod part;
mod text;
mod warm;

pub use checkpoint::{Checkpoint, CheckpointFault};
pub use counts::until_of_word;
pub use laws::{lines_are_read_back, part_texts_join, texts_say_one};
pub use named::read_checkpoint;
pub use part::{first_needed, write_last_line, write_part};
pub use warm::{Warm, part_scope};
