// Runs as the lines of a table give them, and how they must end.
use crate::mask::files::FILES;
use crate::mask::running::{run_over, words_of};
use run_cases::{Case, calls_of, fields_of};
use std::alloc::Global;
use std::process::Abort;
use std::sync::Wait;
use std::test::Fail;

/// A run on each line: the mask; its arguments after those of the whole table; the numbers of the calls that fail, and
/// how much room there is, if it is little; the status; the output and the line on the notes, with `;` for the end of a
/// line; and, of some, how many calls of the inputs were made, and how many blocks went through.
#[derive(Clone, Copy)]
pub(crate) struct Table {
    pub(crate) words: &'static str,
    pub(crate) runs: &'static str,
}

fn check<R: Wait + Abort>(
    rt: &R,
    alloc: Global,
    table: &Table,
    line: &'static str,
) -> Result<(), Fail> {
    let [mask, words, limits, status, text, notes, counts] = fields_of(line);
    let mut case = Case::of(words, limits, status, text, notes)?;
    case.set_all(counts)?;
    let mut inputs = FILES.inputs_for(alloc, words, case.limits.input)?;
    let words = words_of(alloc, mask, table.words, words)?;
    let ended = run_over(rt, alloc, words.as_slice(), &mut inputs, &case.limits)?;
    let calls = calls_of(&mut inputs);
    assert!(rt;
        case.is_met(alloc, &ended, calls)?,
        "{line}: {ended}, {calls} calls"
    );
    Ok(())
}

/// Runs the lines of the tables, each of which must end as the line says.
pub(crate) fn check_all<R: Wait + Abort>(
    rt: &R,
    alloc: Global,
    tables: &[Table],
) -> Result<(), Fail> {
    for table in tables {
        for line in table.runs.lines() {
            if !line.is_empty() {
                check(rt, alloc, table, line)?;
            }
        }
    }
    Ok(())
}
