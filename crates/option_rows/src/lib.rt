//! Rows of tables of options: how a value is read, which numbers it may be, and the default.
#![tactic(auto)]

mod laws;
mod row;

pub use laws::{none_fails, values_are_allowed};
pub use row::{Limits, Reader, Row};
