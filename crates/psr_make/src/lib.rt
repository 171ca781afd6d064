//! Observations that are made from a number: noise and a train of dispersed pulses.
#![tactic(auto)]

mod band;
mod blocks;
mod command;
mod draws;
mod header;
mod laws;
mod maker;
mod making;
mod opt;
mod raised;
mod request;
mod spec;
mod stop;
mod top;
mod train;

pub use laws::{draws_are_splitmix, train_goes_by_path};
pub use making::{MakeStop, make, make_bytes};
pub use opt::Opt;
pub use spec::MakeSpec;
pub use stop::Stop;
pub use top::run_make;
