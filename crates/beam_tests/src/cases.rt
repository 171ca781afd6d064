// Runs as the lines of a table give them, and how they must end.
use crate::running::{all_inputs, run_past, words_of};
use psr_base::MemInputs;
use run_cases::{Case, calls_of, fields_of};
use search_session::NoGate;
use std::alloc::Global;
use std::process::Abort;
use std::sync::Wait;
use std::test::Fail;
use std::thread::Threads;

// How many calls were made of all inputs.
fn all_calls(inputs: &mut [MemInputs; 7]) -> u64 {
    let mut count: u64 = 0;
    for beam in inputs {
        count = count.wrapping_add(calls_of(beam));
    }
    count
}

fn check<R: Threads + Wait + Sync + Abort>(
    rt: &R,
    alloc: Global,
    line: &'static str,
) -> Result<(), Fail> {
    let [numbers, words, limits, status, text, notes, _] = fields_of(line);
    let case = Case::of(words, limits, status, text, notes)?;
    let mut inputs = all_inputs(alloc, words, &case.limits)?;
    let words = words_of(alloc, numbers, words)?;
    let ended = run_past(
        rt,
        alloc,
        words.as_slice(),
        &mut inputs,
        &case.limits,
        &NoGate,
    )?;
    let calls = all_calls(&mut inputs);
    assert!(rt;
        case.is_met(alloc, &ended, calls)?,
        "{line}: {ended}, {calls} calls"
    );
    Ok(())
}

/// Runs the lines of a table, each of which must end as the line says.
pub(crate) fn check_all<R: Threads + Wait + Sync + Abort>(
    rt: &R,
    alloc: Global,
    table: &'static str,
) -> Result<(), Fail> {
    for line in table.lines() {
        if !line.is_empty() {
            check(rt, alloc, line)?;
        }
    }
    Ok(())
}
