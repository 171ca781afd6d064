//! Examples for programs that use one part of this repository, each with its contract: headers, the ring, folds, path
//! sums, a search. docs/USING.md shows these files.
#![tactic(auto)]

pub mod calls;
pub mod folding;
pub mod headers;
pub mod masked;
pub mod ring;
pub mod search;
#[cfg(test)]
mod tests;
pub mod transform;
