// The loops over inputs, files and sinks, for the objects in memory: clauses say what these hold.
ghost use Rattle.std.specs.Prelude.{◌≡◌, ◌≢◌, ◌≤◌, ◌<◌, ◌++◌, [], length, vec_len, Err, IfOk, OnOk, OnErr, IsOk, IsSome};
ghost use Rattle.psr_base.specs.Count.{Rose};
ghost use Rattle.psr_base.specs.Told.{OfFile};
ghost use Rattle.psr_base.specs.Written.{WroteFront};
ghost use Rattle.psr_base.specs.Made.{AppendedFront, longer_by};
ghost use Rattle.psr_base.specs.InMemory.{told_of, calls_of, body_of, free_room, sink_calls, sink_seen, made_of, files_left, files_calls, files_seen, IsMaking};

use crate::faults::Failed;
use crate::mem_files::MemFiles;
use crate::mem_inputs::MemInputs;
use crate::mem_sink::MemSink;
use crate::reading::{DataFault, read_file};
use crate::writing::{append_all, write_all};
use std::alloc::Global;

/// Reads a file of inputs in memory, as `read_file` does.
pub fn read_from_memory(
    alloc: Global,
    inputs: &mut MemInputs,
    name: &str,
    limit: usize,
) -> Result<Vec<u8>, DataFault>
    ensures whole { IfOk result (λ bytes.
        OfFile (told_of inputs.old) name.now (λ file. bytes.items ≡ file)) }
    ensures within { IfOk result (λ bytes. vec_len bytes ≤ limit) }
    ensures too_long { result ≡ Err DataFault.TooLong
        → OfFile (told_of inputs.old) name.now (λ file. limit < length file) }
    ensures failed { result ≡ Err DataFault.Failed
        → Rose (calls_of inputs.old).faults (calls_of inputs.new).faults }
    ensures serves { (calls_of inputs.old).fail ≡ []
        → IsSome ((told_of inputs.old).bytes_under name.now) → result ≢ Err DataFault.Failed }
{
    read_file(alloc, inputs, name, limit)
}

/// Writes all of `bytes` to a sink in memory, as `write_all` does.
pub fn write_to_memory(sink: &mut MemSink, bytes: &[u8]) -> Result<(), Failed>
    ensures all { OnOk result (body_of sink.new ≡ body_of sink.old ++ bytes.now) }
    ensures front { OnErr result (WroteFront bytes.now (sink_seen sink.old) (sink_seen sink.new)) }
    ensures serves { (sink_calls sink.old).fail ≡ []
        → length bytes.now ≤ free_room sink.old → IsOk result }
{
    write_all(sink, bytes)
}

/// Appends all of `bytes` to a file in memory, as `append_all` does.
pub fn append_to_memory(files: &mut MemFiles, bytes: &[u8]) -> Result<(), Failed>
    requires { IsMaking files.old }
    ensures all { OnOk result (made_of files.new ≡ longer_by bytes.now (made_of files.old)) }
    ensures front { OnErr result
        (AppendedFront bytes.now (files_seen files.old) (files_seen files.new)) }
    ensures still_making { IsMaking files.new }
    ensures serves { (files_calls files.old).fail ≡ []
        → length bytes.now ≤ (files_left files.old).bytes → IsOk result }
{
    append_all(files, bytes)
}
