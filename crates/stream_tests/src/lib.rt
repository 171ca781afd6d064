//! Tests of streams of blocks: two rings as one, by turns and in threads; the feeder and the recorder, by loops on one
//! thread. There is nothing else here: a crate with tests is proved twice, so those that cross crates stand together.
#![tactic(auto)]

#[cfg(test)]
mod both;
#[cfg(test)]
mod feeding;
#[cfg(test)]
mod feeds;
#[cfg(test)]
mod files;
#[cfg(test)]
mod firsts;
#[cfg(test)]
mod fitting;
#[cfg(test)]
mod lending;
#[cfg(test)]
mod lines;
#[cfg(test)]
mod recording;
#[cfg(test)]
mod recordings;
#[cfg(test)]
mod rings;
#[cfg(test)]
mod threads;
#[cfg(test)]
mod turns;
