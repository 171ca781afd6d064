//! Tests of the outside world as objects, in memory and of the system; of number texts; of headers and the changes of
//! their fields; of observations and of later headers. Nothing else is here: a crate with tests is proved twice, so the
//! tests stand apart from what they test.
#![tactic(auto)]

#[cfg(test)]
mod changes;
#[cfg(test)]
mod fakes;
#[cfg(test)]
mod files;
#[cfg(test)]
mod inputs;
#[cfg(test)]
mod lines;
#[cfg(test)]
mod numbers;
#[cfg(test)]
mod observations;
#[cfg(test)]
mod sinks;
#[cfg(test)]
mod texts;
