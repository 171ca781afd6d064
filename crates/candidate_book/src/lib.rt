//! The book of candidates, which keeps the first of them and counts all, and the lines that are written for the
//! candidates of one or several books.
#![tactic(auto)]

mod asked;
mod book;
mod labels;
mod laws;
mod lines;
mod listed;
mod merge;
mod merged;
mod page;

pub use book::Book;
pub use labels::{LineLabels, PlainLabels, PulseWord};
pub use laws::books_have_a_merge;
pub use listed::{write_lines, write_text};
pub use merged::{SinkStop, Totals, write_merged};
pub use search_model::Candidate;
