//! Tests of rows: how they are planned, unpacked and carried chunk by chunk, by worked values and all sums against
//! direct ones; their sums, folds and boxes. A crate with tests is proved twice, so the tests of several crates stand
//! together in one that has nothing else.
#![tactic(auto)]

#[cfg(test)]
mod boxes;
#[cfg(test)]
mod direct;
#[cfg(test)]
mod fed;
#[cfg(test)]
mod folds;
#[cfg(test)]
mod pieces;
#[cfg(test)]
mod plans;
#[cfg(test)]
mod rows;
#[cfg(test)]
mod runs;
#[cfg(test)]
mod unpacked;
#[cfg(test)]
mod values;
#[cfg(test)]
mod worked;
