// The top call.
ghost use Rattle.std.specs.Prelude.{◌≡◌, ℕ, Some, None, map, string_bytes};
ghost use Rattle.disk_feeder.specs.declared.answers.FeedEnd.TheVariants.{ReadFault};
ghost use Rattle.run_outcome.specs.Conversions.{stop_of_feed};
ghost use Rattle.run_outcome.specs.Outcomes.{ReadsNoData, LeavesAtFault, LeavesFiles};
ghost use Rattle.run_outcome.specs.Runs.{RecordingAlone};
ghost use Rattle.psr_record.specs.Outcome.{Outcome};
ghost use Rattle.psr_record.specs.Ends.{Ends, stop_of_session};

use drive_session::{Found, ProgramEnd, drive};
use psr_base::{Files, Inputs, Sink};
use run_outcome::{Purpose, Ran, Stop, tell};
use search_session::Gate;
use search_words::RunSettings;
use std::alloc::Global;
use std::sync::Wait;
use std::thread::Threads;
use std::time::Clock;
// Laws: they do nothing when they run, and the proofs use what they ensure.
use run_outcome::{end_after_whole, end_at_stop, end_at_words, end_before_session};

/// Records the data of the files that the arguments name in new files. `words` are the program's name and its
/// arguments. `gate` is called at each turn. Answers the exit status, and what went through the data ring, if there was
/// one; if the status isn't 0, a line to `notes` says why. `recorded` of the answer says how the recorder ended, also
/// if the status names another cause. A fault of `notes` changes nothing. It may not end.
pub fn run_record<
    I: Inputs + Send,
    F: Files + Send,
    E: Sink,
    G: Gate + Sync,
    R: Threads + Wait + Clock + Sync,
>(
    rt: &R,
    alloc: Global,
    words: &[String],
    inputs: &mut I,
    files: &mut F,
    notes: &mut E,
    gate: &G,
) -> Ran
    requires closed { ¬ F.is_open files.old }
    ensures outcome { Outcome (map string_bytes words.now)
        (record {
          told = I.told inputs.old;
          faults_before = I.faults inputs.old;
          faults_after = I.faults inputs.new;
        })
        (I.is_calm inputs.old) (F.seen files.old) (F.seen files.new) (E.seen notes.old)
        (E.seen notes.new) result }
    ensures early { result.status ≡ 5 → ReadsNoData RecordingAlone (map string_bytes words.now)
        (I.told inputs.old) (I.told inputs.new) }
    ensures broken { result.status ≡ 6 → LeavesAtFault RecordingAlone (map string_bytes words.now)
        (I.is_calm inputs.old) (I.told inputs.old) (I.told inputs.new) result.blocks }
    ensures left { LeavesFiles RecordingAlone (map string_bytes words.now) F.is_open F.seen
        files.old files.new result.blocks result.recorded result.status }
{
    let ProgramEnd {
        stop,
        blocks,
        recorded,
    } = record_files(rt, alloc, words, inputs, files, gate);
    let status = tell(stop, notes);
    Ran {
        status,
        blocks,
        recorded,
    }
}

// What stopped a session.
fn stop_of(found: &Found) -> Option<Stop>
    ensures is { result ≡ stop_of_session (stop_of_feed found.now.feed) found.now.recorded }
    ensures read_fault { result ≡ Some Stop.ReadFault → found.now.feed ≡ ReadFault }
{
    match Stop::of_feed(found.feed) {
        Some(stop) => Some(stop),
        None => Stop::of_recorder(found.recorded),
    }
}

// Records as `run_record` does, without the notes.
fn record_files<
    I: Inputs + Send,
    F: Files + Send,
    G: Gate + Sync,
    R: Threads + Wait + Clock + Sync,
>(rt: &R, alloc: Global, words: &[String], inputs: &mut I, files: &mut F, gate: &G) -> ProgramEnd
    requires closed { ¬ F.is_open files.old }
    ensures ends { Ends (map string_bytes words.now)
        (record {
          told = I.told inputs.old;
          faults_before = I.faults inputs.old;
          faults_after = I.faults inputs.new;
        })
        (I.is_calm inputs.old) (F.seen files.old) (F.seen files.new) result.stop result.blocks
        result.recorded }
    ensures early { result.stop ≡ Some Stop.Memory
        → ReadsNoData RecordingAlone (map string_bytes words.now) (I.told inputs.old)
        (I.told inputs.new) }
    ensures broken { result.stop ≡ Some Stop.ReadFault
        → LeavesAtFault RecordingAlone (map string_bytes words.now) (I.is_calm inputs.old)
        (I.told inputs.old) (I.told inputs.new) result.blocks }
    ensures left { (status : ℕ) → (status ≡ 0 → result.stop ≡ None)
        → LeavesFiles RecordingAlone (map string_bytes words.now) F.is_open F.seen files.old
        files.new result.blocks result.recorded status }
{
    end_at_words::<I>();
    end_before_session::<I>();
    end_at_stop::<I>();
    end_after_whole::<I>();
    let settings = match RunSettings::of_record(alloc, words) {
        Ok(settings) => settings,
        Err(fault) => {
            return ProgramEnd {
                stop: Some(Stop::of_words(fault)),
                blocks: None,
                recorded: None,
            };
        }
    };
    match drive(rt, alloc, Purpose::Record, &settings, inputs, files, gate) {
        Ok(found) => {
            let stop = stop_of(&found);
            ProgramEnd {
                stop,
                blocks: Some(found.blocks),
                recorded: found.recorded,
            }
        }
        Err(stop) => ProgramEnd {
            stop: Some(stop),
            blocks: None,
            recorded: None,
        },
    }
}
