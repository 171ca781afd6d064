// Runs over objects in memory, and what they leave.
use psr_base::MemInputs;
use psr_level::run_level;
use run_cases::{Ended, Limits, words_of};
use std::alloc::Global;
use std::sync::Wait;
use std::test::Fail;

/// Levels by the arguments of a line over these inputs.
pub(crate) fn level<R: Wait>(
    rt: &R,
    alloc: Global,
    line: &str,
    inputs: &mut MemInputs,
    limits: &Limits,
) -> Result<Ended, Fail> {
    let words = words_of(alloc, line, "")?;
    let (mut out, mut notes) = limits.sinks(alloc)?;
    let status = run_level(rt, alloc, words.as_slice(), inputs, &mut out, &mut notes);
    Ended::of(alloc, status, &out, &notes)
}
