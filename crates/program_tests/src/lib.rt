//! Tests of `psr_mask`, `psr_level`, `psr_part` and `psr_live`: whole runs over objects in memory. There is nothing else
//! here: a crate with tests is proved twice, and its tests link all that the programs stand on.
#![tactic(auto)]

#[cfg(test)]
mod level;
#[cfg(test)]
mod live;
#[cfg(test)]
mod mask;
#[cfg(test)]
mod part;
