//! Tests of the search of a shard. A crate with tests is proved twice, so the tests of several crates stand together in
//! one that has nothing else.
#![tactic(auto)]

#[cfg(test)]
mod direct_folds;
#[cfg(test)]
mod direct_sums;
#[cfg(test)]
mod made;
#[cfg(test)]
mod plans;
#[cfg(test)]
mod scopes;
#[cfg(test)]
mod whole;
