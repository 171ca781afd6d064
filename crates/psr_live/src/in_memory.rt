// The search over objects in memory.
ghost use Rattle.std.specs.Prelude.{◌≡◌, [], map, string_bytes};
ghost use Rattle.psr_base.specs.InMemory.{told_of, calls_of, sink_seen};
ghost use Rattle.psr_live.specs.Outcome.{Outcome, WritesText};
ghost use Rattle.psr_live.specs.Reads.{LeavesAtFault, NotesRefusal, ReadsNoData};

use crate::top::run_live;
use psr_base::{MemInputs, MemSink};
use std::alloc::Global;
use std::sync::Wait;

/// Searches files in memory, as `run_live` does. The inputs are calm where none of their calls is to fail.
pub fn run_live_in_memory<R: Wait>(
    rt: &R,
    alloc: Global,
    words: &[String],
    inputs: &mut MemInputs,
    out: &mut MemSink,
    notes: &mut MemSink,
) -> u8
    ensures outcome { Outcome (map string_bytes words.now)
        (record {
          told = told_of inputs.old;
          faults_before = (calls_of inputs.old).faults;
          faults_after = (calls_of inputs.new).faults;
        })
        ((calls_of inputs.old).fail ≡ []) (sink_seen out.old) (sink_seen out.new)
        (sink_seen notes.old) (sink_seen notes.new) result }
    ensures text { result ≡ 0 → WritesText (map string_bytes words.now) (told_of inputs.old)
        (sink_seen out.old) (sink_seen out.new) }
    ensures early { result ≡ 5
        → ReadsNoData (map string_bytes words.now) (told_of inputs.old) (told_of inputs.new) }
    ensures refused { result ≡ 13 → NotesRefusal (map string_bytes words.now)
        (told_of inputs.old) (told_of inputs.new) (sink_seen notes.old) (sink_seen notes.new) }
    ensures broken { result ≡ 6 → LeavesAtFault (map string_bytes words.now)
        ((calls_of inputs.old).fail ≡ []) (told_of inputs.old) (told_of inputs.new)
        (sink_seen out.old) (sink_seen out.new) }
{
    run_live(rt, alloc, words, inputs, out, notes)
}
