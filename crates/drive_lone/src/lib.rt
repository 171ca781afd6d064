//! A run of a program that searches one transfer, on one thread and without recording: from its arguments to the end of
//! its session (`settings_after`, `drive_alone`). By the trait `Scoping` the program says what of the observation is
//! searched.
#![tactic(auto)]

mod ends;
mod found;
mod lent;
mod open;
mod run;
mod scoping;
mod session;
mod stop;
mod words;

pub use ends::{
    alone_after_whole, alone_at_feed_stop, alone_at_own_stop, alone_at_words, alone_before_session,
};
pub use found::LoneFound;
pub use run::drive_alone;
pub use scoping::{ScopeFault, Scoping};
pub use stop::LoneStop;
pub use words::settings_after;
