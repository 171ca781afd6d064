// A search over objects in memory.
ghost use Rattle.std.specs.Prelude.{◌≡◌, [], map, string_bytes};
ghost use Rattle.psr_base.specs.InMemory.{told_of, calls_of, files_seen, sink_seen, IsMaking};
ghost use Rattle.run_outcome.specs.Outcomes.{ReadsNoData, LeavesAtFault, LeavesFiles};
ghost use Rattle.run_outcome.specs.Runs.{Searching};
ghost use Rattle.psr_search.specs.Outcome.{AsksToRecord, Outcome};

use crate::top::run;
use psr_base::{MemFiles, MemInputs, MemSink};
use run_outcome::Ran;
use search_session::Gate;
use std::alloc::Global;
use std::sync::Wait;
use std::thread::Threads;
use std::time::Clock;

/// Searches files in memory, as `run` does. The inputs are calm if none of their calls is to fail. `recorded` of the
/// answer says how the recorder ended, also if the status names another cause.
pub fn run_in_memory<G: Gate + Sync, R: Threads + Wait + Clock + Sync>(
    rt: &R,
    alloc: Global,
    words: &[String],
    inputs: &mut MemInputs,
    files: &mut MemFiles,
    out: &mut MemSink,
    notes: &mut MemSink,
    gate: &G,
) -> Ran
    requires closed { AsksToRecord (map string_bytes words.now) → ¬ IsMaking files.old }
    ensures outcome { Outcome (map string_bytes words.now)
        (record {
          told = told_of inputs.old;
          faults_before = (calls_of inputs.old).faults;
          faults_after = (calls_of inputs.new).faults;
        })
        ((calls_of inputs.old).fail ≡ []) (files_seen files.old) (files_seen files.new)
        (sink_seen out.old) (sink_seen out.new) (sink_seen notes.old) (sink_seen notes.new)
        result }
    ensures early { result.status ≡ 5 → ReadsNoData Searching (map string_bytes words.now)
        (told_of inputs.old) (told_of inputs.new) }
    ensures broken { result.status ≡ 6 → LeavesAtFault Searching (map string_bytes words.now)
        ((calls_of inputs.old).fail ≡ []) (told_of inputs.old) (told_of inputs.new) result.blocks }
    ensures left { LeavesFiles Searching (map string_bytes words.now) IsMaking files_seen files.old
        files.new result.blocks result.recorded result.status }
{
    run(rt, alloc, words, inputs, files, out, notes, gate)
}
