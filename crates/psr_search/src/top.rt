// The top call.
ghost use Rattle.std.specs.Prelude.{◌≡◌, ℕ, Some, None, map, string_bytes};
ghost use Rattle.run_outcome.specs.Outcomes.{ReadsNoData, LeavesAtFault, LeavesFiles};
ghost use Rattle.run_outcome.specs.Runs.{Searching};
ghost use Rattle.psr_search.specs.Outcome.{AsksToRecord, Outcome};
ghost use Rattle.psr_search.specs.Ends.{Ends};

use crate::writing::write_end;
use drive_session::{ProgramEnd, drive};
use psr_base::{Files, Inputs, Sink};
use run_outcome::{Purpose, Ran, Stop, tell};
use search_session::Gate;
use search_words::Settings;
use std::alloc::Global;
use std::sync::Wait;
use std::thread::Threads;
use std::time::Clock;
// Laws: they do nothing when they run, and the proofs use what they ensure.
use run_outcome::{end_after_whole, end_at_stop, end_at_words, end_before_session, words_say_once};

/// Searches the files that the arguments name for dispersed pulses and folded periods, and writes their text to `out`.
/// The data are recorded in `files` if the arguments ask for it. `words` are the program's name and its arguments.
/// `gate` is called at each turn. Answers the exit status, and what went through the data ring, if there was one; if
/// the status isn't 0, a line to `notes` says why. `recorded` of the answer says how the recorder ended, also if the
/// status names another cause. A fault of `notes` changes nothing. It may not end.
pub fn run<
    I: Inputs + Send,
    F: Files + Send,
    K: Sink,
    E: Sink,
    G: Gate + Sync,
    R: Threads + Wait + Clock + Sync,
>(
    rt: &R,
    alloc: Global,
    words: &[String],
    inputs: &mut I,
    files: &mut F,
    out: &mut K,
    notes: &mut E,
    gate: &G,
) -> Ran
    requires closed { AsksToRecord (map string_bytes words.now) → ¬ F.is_open files.old }
    ensures outcome { Outcome (map string_bytes words.now)
        (record {
          told = I.told inputs.old;
          faults_before = I.faults inputs.old;
          faults_after = I.faults inputs.new;
        })
        (I.is_calm inputs.old) (F.seen files.old) (F.seen files.new) (K.seen out.old)
        (K.seen out.new) (E.seen notes.old) (E.seen notes.new) result }
    ensures early { result.status ≡ 5 → ReadsNoData Searching (map string_bytes words.now)
        (I.told inputs.old) (I.told inputs.new) }
    ensures broken { result.status ≡ 6 → LeavesAtFault Searching (map string_bytes words.now)
        (I.is_calm inputs.old) (I.told inputs.old) (I.told inputs.new) result.blocks }
    ensures left { LeavesFiles Searching (map string_bytes words.now) F.is_open F.seen files.old
        files.new result.blocks result.recorded result.status }
{
    let ProgramEnd {
        stop,
        blocks,
        recorded,
    } = search(rt, alloc, words, inputs, files, out, gate);
    let status = tell(stop, notes);
    Ran {
        status,
        blocks,
        recorded,
    }
}

// Searches as `run` does, without the notes.
fn search<
    I: Inputs + Send,
    F: Files + Send,
    K: Sink,
    G: Gate + Sync,
    R: Threads + Wait + Clock + Sync,
>(
    rt: &R,
    alloc: Global,
    words: &[String],
    inputs: &mut I,
    files: &mut F,
    out: &mut K,
    gate: &G,
) -> ProgramEnd
    requires closed { AsksToRecord (map string_bytes words.now) → ¬ F.is_open files.old }
    ensures ends { Ends (map string_bytes words.now)
        (record {
          told = I.told inputs.old;
          faults_before = I.faults inputs.old;
          faults_after = I.faults inputs.new;
        })
        (I.is_calm inputs.old) (F.seen files.old) (F.seen files.new) (K.seen out.old)
        (K.seen out.new) result.stop result.blocks result.recorded }
    ensures early { result.stop ≡ Some Stop.Memory
        → ReadsNoData Searching (map string_bytes words.now) (I.told inputs.old)
        (I.told inputs.new) }
    ensures broken { result.stop ≡ Some Stop.ReadFault
        → LeavesAtFault Searching (map string_bytes words.now) (I.is_calm inputs.old)
        (I.told inputs.old) (I.told inputs.new) result.blocks }
    ensures left { (status : ℕ) → (status ≡ 0 → result.stop ≡ None)
        → LeavesFiles Searching (map string_bytes words.now) F.is_open F.seen files.old files.new
        result.blocks result.recorded status }
{
    end_at_words::<I>();
    words_say_once();
    end_before_session::<I>();
    end_at_stop::<I>();
    end_after_whole::<I>();
    let settings = match Settings::of(alloc, words) {
        Ok(settings) => settings,
        Err(fault) => {
            return ProgramEnd {
                stop: Some(Stop::of_words(fault)),
                blocks: None,
                recorded: None,
            };
        }
    };
    match drive(
        rt,
        alloc,
        Purpose::Search(settings.search),
        &settings.run,
        inputs,
        files,
        gate,
    ) {
        Ok(found) => {
            let stop = write_end(&settings.search, &found, out);
            ProgramEnd {
                stop,
                blocks: Some(found.blocks),
                recorded: found.recorded,
            }
        }
        Err(stop) => ProgramEnd {
            stop: Some(stop),
            blocks: None,
            recorded: None,
        },
    }
}
