// Runs over objects in memory, and what they leave.
use psr_base::MemInputs;
use psr_part::run_part_in_memory;
use run_cases::{Ended, Limits};
use std::alloc::Global;
use std::sync::Wait;
use std::test::Fail;

/// Searches a part with these words over these inputs.
pub(crate) fn run_words<R: Wait>(
    rt: &R,
    alloc: Global,
    words: &[String],
    inputs: &mut MemInputs,
    limits: &Limits,
) -> Result<Ended, Fail> {
    let (mut out, mut notes) = limits.sinks(alloc)?;
    let ran = run_part_in_memory(rt, alloc, words, inputs, &mut out, &mut notes);
    Ended::of_ran(alloc, ran, &out, &notes)
}
