// The search of a part over objects in memory.
ghost use Rattle.std.specs.Prelude.{◌≡◌, [], None, map, string_bytes};
ghost use Rattle.psr_base.specs.InMemory.{told_of, calls_of, sink_seen};
ghost use Rattle.psr_part.specs.Outcome.{Outcome, ReadsCheck, ReadsNoData, LeavesAtFault};

use crate::top::run_part;
use psr_base::{MemInputs, MemSink};
use run_outcome::Ran;
use std::alloc::Global;
use std::sync::Wait;

/// Searches a part of files in memory, as `run_part` does. The inputs are calm if none of their calls is to fail.
pub fn run_part_in_memory<R: Wait>(
    rt: &R,
    alloc: Global,
    words: &[String],
    inputs: &mut MemInputs,
    out: &mut MemSink,
    notes: &mut MemSink,
) -> Ran
    ensures outcome { Outcome (map string_bytes words.now)
        (record {
          told = told_of inputs.old;
          faults_before = (calls_of inputs.old).faults;
          faults_after = (calls_of inputs.new).faults;
        })
        ((calls_of inputs.old).fail ≡ []) (sink_seen out.old) (sink_seen out.new)
        (sink_seen notes.old) (sink_seen notes.new) result }
    ensures early { result.status ≡ 5
        → ReadsNoData (map string_bytes words.now) (told_of inputs.old) (told_of inputs.new) }
    ensures refused { result.status ≡ 13 → result.blocks ≡ None
        → ReadsCheck (map string_bytes words.now) (told_of inputs.old) (told_of inputs.new) }
    ensures broken { result.status ≡ 6 → LeavesAtFault (map string_bytes words.now)
        ((calls_of inputs.old).fail ≡ []) (told_of inputs.old) (told_of inputs.new)
        result.blocks }
{
    run_part(rt, alloc, words, inputs, out, notes)
}
