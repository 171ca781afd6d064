// Runs over objects in memory, and what they leave.
use crate::files::FILES;
use psr_base::MemInputs;
use psr_beams::run_beams;
use run_cases::{Ended, Limits, NEVER, push_words};
use search_session::Gate;
use std::alloc::Global;
use std::sync::Wait;
use std::test::Fail;
use std::thread::Threads;

// The arguments of every run, after WITHIN and MORE.
const WORDS: &str = "--mean 1 --sd 2 --snr 7 --max-delay 1 --widths 1";

/// The program's name, WITHIN and MORE, the arguments of every run, and those of a line. Blocks are small if the line
/// doesn't say how large they are.
pub(crate) fn words_of(alloc: Global, numbers: &str, line: &str) -> Result<Vec<String>, Fail> {
    let size = if line.contains("--size") {
        ""
    } else {
        "--size 512"
    };
    let mut words = Vec::new(alloc);
    for part in ["psr_beams", numbers, WORDS, size, line] {
        push_words(alloc, &mut words, part)?;
    }
    Ok(words)
}

// The inputs of a beam, which hold the files that the arguments name.
fn inputs_of_beam(
    alloc: Global,
    words: &str,
    beam: u64,
    limits: &Limits,
) -> Result<MemInputs, Fail> {
    let failing = if limits.beam == beam {
        limits.input
    } else {
        NEVER
    };
    FILES.inputs_for(alloc, words, failing)
}

/// The inputs of all beams. Each holds the files that the arguments name.
pub(crate) fn all_inputs(
    alloc: Global,
    words: &str,
    limits: &Limits,
) -> Result<[MemInputs; 7], Fail> {
    Ok([
        inputs_of_beam(alloc, words, 0, limits)?,
        inputs_of_beam(alloc, words, 1, limits)?,
        inputs_of_beam(alloc, words, 2, limits)?,
        inputs_of_beam(alloc, words, 3, limits)?,
        inputs_of_beam(alloc, words, 4, limits)?,
        inputs_of_beam(alloc, words, 5, limits)?,
        inputs_of_beam(alloc, words, 6, limits)?,
    ])
}

/// Runs the program with these words over these inputs; a gate is called at each turn.
pub(crate) fn run_past<G: Gate + Sync, R: Threads + Wait + Sync>(
    rt: &R,
    alloc: Global,
    words: &[String],
    inputs: &mut [MemInputs; 7],
    limits: &Limits,
    gate: &G,
) -> Result<Ended, Fail> {
    let (mut out, mut notes) = limits.sinks(alloc)?;
    let status = run_beams(rt, alloc, words, inputs, &mut out, &mut notes, gate);
    Ended::of(alloc, status, &out, &notes)
}
