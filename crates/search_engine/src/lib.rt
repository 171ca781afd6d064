//! Searches one shard of an observation: data bytes, fed in pieces, become a book of candidates.
#![tactic(auto)]

mod chunk;
mod engine;
mod fault;
mod hiding;
mod laws;
mod plan;
mod scope;

pub use engine::Engine;
pub use fault::PlanFault;
pub use laws::{parts_are_found, scopes_are_found};
pub use plan::check_plan;
pub use scope::Scope;
