//! Path sums over a stream of spectra that is fed chunk by chunk, made by halving the band.
//!
//! Source: Zackay & Ofek, ApJ 835:11, 2017.
#![tactic(auto)]

mod building;
mod carry;
mod draft;
mod numbers;
mod opening;
mod passing;
mod plain;
mod tables;

pub use carry::Carry;
pub use row_schedule::Samples;
