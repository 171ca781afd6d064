// Runs over objects in memory, and what they leave.
use psr_base::MemInputs;
use psr_live::run_live_in_memory;
use run_cases::{Ended, Limits};
use std::alloc::Global;
use std::sync::Wait;
use std::test::Fail;

/// Runs a search by these words over these inputs.
pub(crate) fn run_words<R: Wait>(
    rt: &R,
    alloc: Global,
    words: &[String],
    inputs: &mut MemInputs,
    limits: &Limits,
) -> Result<Ended, Fail> {
    let (mut out, mut notes) = limits.sinks(alloc)?;
    let status = run_live_in_memory(rt, alloc, words, inputs, &mut out, &mut notes);
    Ended::of(alloc, status, &out, &notes)
}

/// The lines of a text that are no CHECK lines.
pub(crate) fn without_checks(alloc: Global, text: &[u8]) -> Result<Vec<u8>, Fail> {
    let mut kept = Vec::new(alloc);
    let mut line = Vec::new(alloc);
    for byte in text {
        line.push(*byte)?;
        if *byte == b'\n' {
            if !line.as_slice().starts_with(b"CHECK ") {
                kept.extend_from_slice(line.as_slice())?;
            }
            line.truncate(0);
        }
    }
    Ok(kept)
}
