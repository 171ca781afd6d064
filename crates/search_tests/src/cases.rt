// Runs as the lines of a table give them, and how they must end.
use crate::files::FILES;
use crate::running::{Program, run_past};
use psr_base::MemFiles;
use run_cases::{Case, calls_of, fields_of, push_data, words_of};
use search_session::NoGate;
use std::alloc::Global;
use std::process::Abort;
use std::sync::Wait;
use std::test::Fail;
use std::thread::Threads;
use std::time::Clock;

/// A run on each line: its arguments after those of the whole table; the numbers of the calls that fail, and how much
/// room there is, if it is little; the status; the output and the line on the notes, with `;` for the end of a line;
/// the files that are made, each with its data; and, of some, how many calls of the inputs were made, how many blocks
/// went through, and how the recorder ended.
#[derive(Clone, Copy)]
pub(crate) struct Table {
    pub(crate) program: Program,
    pub(crate) words: &'static str,
    pub(crate) runs: &'static str,
}

// ---- files that were made

const FIRST: &str = "2024-01-02-03:04:05_0000000000000000.000000.dada";

const SECOND: &str = "2024-01-02-03:04:05_0000000000000004.000001.dada";

const NEXT: &str = "2024-01-02-03:05:05_0000000000000000.000000.dada";

// Whether `body` is a header and the data; `-` stands for a file without a header.
fn has_data(alloc: Global, body: &[u8], data: &str) -> Result<bool, Fail> {
    if data == "-" {
        return Ok(body.is_empty());
    }
    let mut wanted = Vec::new(alloc);
    push_data(&mut wanted, data)?;
    Ok(body.len() >= 4096 && &body[4096..] == wanted.as_slice())
}

// Whether a file has the name and the data of `first 10 0 0 20`.
fn is_file(alloc: Global, name: &str, body: &[u8], file: &str) -> Result<bool, Fail> {
    let (word, data) = file.split_once(' ').unwrap_or((file, ""));
    let whole_name = match word {
        "first" => FIRST,
        "second" => SECOND,
        _ => NEXT,
    };
    Ok(name == whole_name && has_data(alloc, body, data)?)
}

/// Whether exactly these files were made, in this order.
pub(crate) fn has_files(alloc: Global, made: &MemFiles, files: &str) -> Result<bool, Fail> {
    if files.is_empty() {
        return Ok(made.count() == 0);
    }
    let mut rest = files.split(',');
    for i in 0..made.count() {
        let Some(file) = rest.next() else {
            return Ok(false);
        };
        if !is_file(alloc, made.name(i), made.body(i), file.trim())? {
            return Ok(false);
        }
    }
    Ok(rest.next().is_none())
}

// ---- runs

fn check<R: Threads + Wait + Clock + Sync + Abort>(
    rt: &R,
    alloc: Global,
    table: &Table,
    line: &'static str,
) -> Result<(), Fail> {
    let [words, limits, status, text, notes, files, counts] = fields_of(line);
    let mut case = Case::of(words, limits, status, text, notes)?;
    case.set_all(counts)?;
    let mut inputs = FILES.inputs_for(alloc, words, case.limits.input)?;
    let words = words_of(alloc, table.words, words)?;
    let (ended, made) = run_past(
        rt,
        alloc,
        table.program,
        words.as_slice(),
        &mut inputs,
        &case.limits,
        &NoGate,
    )?;
    let calls = calls_of(&mut inputs);
    assert!(rt;
        case.is_met(alloc, &ended, calls)? && has_files(alloc, &made, files)?,
        "{line}: {ended}, {calls} calls, {} files",
        made.count()
    );
    Ok(())
}

/// Runs the lines of the tables, each of which must end as the line says.
pub(crate) fn check_all<R: Threads + Wait + Clock + Sync + Abort>(
    rt: &R,
    alloc: Global,
    tables: &[Table],
) -> Result<(), Fail> {
    for table in tables {
        for line in table.runs.lines() {
            if !line.is_empty() {
                check(rt, alloc, table, line)?;
            }
        }
    }
    Ok(())
}
