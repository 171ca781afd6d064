//! Replays a trace of the events of a ring, with a line of output for each answer.
#![tactic(auto)]

ghost use Rattle.std.specs.Prelude.{map, string_bytes};
ghost use Rattle.ring_trace.specs.Stop.{end_status};
ghost use Rattle.ring_trace.specs.Run.{Outcome};

mod answers;
mod lines;
mod replay;
mod stop;
mod text;

use crate::replay::replay;
use psr_base::{DataFault, Inputs, Memory, Sink, read_file, write_all};
use std::alloc::Global;
pub use stop::Stop;

/// The largest number of bytes of a trace.
const MOST_BYTES: usize = 1_048_576;

/// Replays the trace in the file that the second argument names, and writes the answers to `out`.
///
/// Returns the exit status: 0 if all lines were answered; 2 if the arguments are not the program's name and one file
/// name; 3 if a line is malformed (the lines before it are answered) or the file is empty; 5 if there is no memory; 6
/// if the file can't be read; 8 if it has more than 1048576 bytes; 10 if `out` fails.
pub fn run_trace<I: Inputs, K: Sink>(
    alloc: Global,
    words: &[String],
    inputs: &mut I,
    out: &mut K,
) -> u8
    ensures { Outcome (map string_bytes words.now)
        (record {
          told = I.told inputs.old;
          faults_before = I.faults inputs.old;
          faults_after = I.faults inputs.new;
        })
        (I.is_calm inputs.old) (I.told inputs.new) (K.seen out.old) (K.seen out.new) result }
{
    match answer_words(alloc, words, inputs, out) {
        Ok(()) => 0,
        Err(stop) => stop.status(),
    }
}

// Replays the trace, as `run_trace` does, and returns the stop in place of its status.
fn answer_words<I: Inputs, K: Sink>(
    alloc: Global,
    words: &[String],
    inputs: &mut I,
    out: &mut K,
) -> Result<(), Stop>
    ensures { Outcome (map string_bytes words.now)
        (record {
          told = I.told inputs.old;
          faults_before = I.faults inputs.old;
          faults_after = I.faults inputs.new;
        })
        (I.is_calm inputs.old) (I.told inputs.new) (K.seen out.old) (K.seen out.new)
        (end_status result) }
{
    if words.len() != 2 {
        return Err(Stop::Words);
    }
    let file = match read_file(alloc, inputs, words[1].as_str(), MOST_BYTES) {
        Ok(file) => file,
        Err(DataFault::Failed) => return Err(Stop::ReadFault),
        Err(DataFault::TooLong) => return Err(Stop::TooLong),
        Err(DataFault::Memory) => return Err(Stop::Memory),
    };
    let answers = match replay(alloc, file.as_slice()) {
        Ok(answers) => answers,
        Err(Memory) => return Err(Stop::Memory),
    };
    if write_all(out, answers.text.as_slice()).is_err() {
        return Err(Stop::SinkFault);
    }
    if answers.is_whole {
        Ok(())
    } else {
        Err(Stop::BadLine)
    }
}
