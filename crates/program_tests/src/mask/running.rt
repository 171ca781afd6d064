// Runs over objects in memory, and what they leave.
use psr_base::MemInputs;
use psr_mask::run_mask_in_memory;
use run_cases::{Ended, Limits, push_words};
use std::alloc::Global;
use std::sync::Wait;
use std::test::Fail;

/// The program's name, a mask text, and the arguments of two lines.
pub(crate) fn words_of(
    alloc: Global,
    mask: &str,
    first: &str,
    more: &str,
) -> Result<Vec<String>, Fail> {
    let mut words = Vec::new(alloc);
    words.push(String::from_str(alloc, "psr_mask")?)?;
    words.push(String::from_str(alloc, mask)?)?;
    push_words(alloc, &mut words, first)?;
    push_words(alloc, &mut words, more)?;
    Ok(words)
}

/// Runs the program with these words over these inputs.
pub(crate) fn run_over<R: Wait>(
    rt: &R,
    alloc: Global,
    words: &[String],
    inputs: &mut MemInputs,
    limits: &Limits,
) -> Result<Ended, Fail> {
    let (mut out, mut notes) = limits.sinks(alloc)?;
    let ran = run_mask_in_memory(rt, alloc, words, inputs, &mut out, &mut notes);
    Ended::of_ran(alloc, ran, &out, &notes)
}
