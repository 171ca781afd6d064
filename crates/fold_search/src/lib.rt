//! Folds the series of a shard's delays at all periods of a search, and adds the detected folds to a book.
#![tactic(auto)]

mod cells;
mod folds;
mod judging;
mod laws;
mod series;

pub use cells::Cells;
pub use folds::FoldSearch;
pub use judging::fold_row_count;
pub use laws::delays_are_part;
