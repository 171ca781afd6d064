// Runs over objects in memory, and what they leave.
use psr_base::{MemFiles, MemInputs};
use psr_record::run_record;
use psr_search::run_in_memory;
use run_cases::{Ended, Limits};
use search_session::Gate;
use std::alloc::Global;
use std::sync::Wait;
use std::test::Fail;
use std::thread::Threads;
use std::time::Clock;

/// Which program runs.
#[derive(Clone, Copy)]
pub(crate) enum Program {
    Search,
    Record,
}

/// Runs a program with these words over these inputs; a gate is called at each turn. Answers how it ended, and the files
/// that it made.
pub(crate) fn run_past<G: Gate + Sync, R: Threads + Wait + Clock + Sync>(
    rt: &R,
    alloc: Global,
    program: Program,
    words: &[String],
    inputs: &mut MemInputs,
    limits: &Limits,
    gate: &G,
) -> Result<(Ended, MemFiles), Fail> {
    let mut made = MemFiles::open(alloc, limits.files, limits.file_room, &[limits.file])?;
    let (mut out, mut notes) = limits.sinks(alloc)?;
    let ran = match program {
        Program::Search => run_in_memory(
            rt, alloc, words, inputs, &mut made, &mut out, &mut notes, gate,
        ),
        Program::Record => run_record(rt, alloc, words, inputs, &mut made, &mut notes, gate),
    };
    Ok((Ended::of_ran(alloc, ran, &out, &notes)?, made))
}
