//! Tests of a ring: its blocks, its two ends on one thread and on several, and traces of its machine.
#![tactic(auto)]

#[cfg(test)]
mod blocks;
#[cfg(test)]
mod ends;
#[cfg(test)]
mod traces;
