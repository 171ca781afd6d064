//! Tests of the search of several beams: whole runs over objects in memory. There is nothing else here: a crate with
//! tests is proved twice, so those that cross crates stand together.
#![tactic(auto)]

#[cfg(test)]
mod cases;
#[cfg(test)]
mod files;
#[cfg(test)]
mod plain;
#[cfg(test)]
mod rows;
#[cfg(test)]
mod running;
#[cfg(test)]
mod sets;
#[cfg(test)]
mod tests;
