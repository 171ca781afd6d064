// The top call.
ghost use Rattle.std.specs.Prelude.{map, string_bytes};
ghost use Rattle.psr_demo.specs.Outcome.{Outcome};

use crate::asking::asked;
use crate::finding::find;
use crate::stop::Stop;
use crate::summary::write_summary;
use psr_base::{Failed, Memory, Sink};
use search_session::Gate;
use std::alloc::Global;
use std::sync::Wait;
use std::thread::Threads;
use std::time::Clock;

/// Makes the observation of the number that the arguments ask for, searches it in memory, and writes a summary to
/// `out`. `words` are the program's name and its arguments. Answers the exit status: that of the search, or that of the
/// stop for which there is no whole summary. Only the search writes to `notes`, whose faults change nothing, and calls
/// `gate` at each turn. It may not end.
pub fn run_demo<K: Sink, E: Sink, G: Gate + Sync, R: Threads + Wait + Clock + Sync>(
    rt: &R,
    alloc: Global,
    words: &[String],
    out: &mut K,
    notes: &mut E,
    gate: &G,
) -> u8
    ensures { Outcome (map string_bytes words.now) (K.seen out.old) (K.seen out.new)
        (E.seen notes.old) (E.seen notes.new) result }
{
    let Some(number) = asked(words) else {
        return Stop::Words.status();
    };
    let found = match find(rt, alloc, number, notes, gate) {
        Ok(found) => found,
        Err(Memory) => return Stop::Memory.status(),
    };
    match write_summary(number, found.status, found.text.body(), out) {
        Ok(()) => found.status,
        Err(Failed) => Stop::SinkFault.status(),
    }
}
