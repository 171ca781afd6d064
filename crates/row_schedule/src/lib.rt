//! Makes rows of sums chunk by chunk, in an order and in slots that are laid once.
//!
//! In its slot a row begins with what is kept of it from earlier spectra; its values of the next spectra follow. A slot
//! can be used again for other rows. An `Order` says which row is made in which slot. `Builder` takes an order only if
//! it can be carried out after those before it, and `Schedule` carries all of them out.
//!
//! If all rows are to stand at once, each is made at a place of its own (`Stores::fill_row`), without what is kept.
#![tactic(auto)]

mod builder;
mod filling;
mod halves;
mod kept;
mod layout;
mod lead;
mod making;
mod marks;
mod reading;
mod samples;
mod schedule;
mod spare;
mod step;
mod stores;

pub use builder::{Builder, Order};
pub use halves::Halves;
pub use kept::{last_rows_are_left_out, nothing_kept, running_begins, running_ends};
pub use samples::Samples;
pub use schedule::Schedule;
pub use spare::SpareStores;
pub use stores::{Sizes, Stores};
