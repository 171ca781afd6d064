//! Tests of the programs: which settings arguments give, whole searches and recordings over objects in memory, and
//! observations that are made. There is nothing else here: a crate with tests is proved twice, so those that cross
//! crates stand together. The runs are tables of text, a run on each line, since each constant in code costs the prover
//! more than a line of text.
#![tactic(auto)]

#[cfg(test)]
mod cases;
#[cfg(test)]
mod files;
#[cfg(test)]
mod made_bytes;
#[cfg(test)]
mod made_runs;
#[cfg(test)]
mod recordings;
#[cfg(test)]
mod running;
#[cfg(test)]
mod searches;
#[cfg(test)]
mod tests;
#[cfg(test)]
mod words;
