//! The top call.
ghost use Rattle.std.specs.Prelude.{◌≡◌, ◌≢◌, ◌⊎◌, [], ◌∷◌, Some, None, map, option_map, string_bytes};
ghost use Rattle.psr_base.specs.Inputs.{HasReadFrom};
ghost use Rattle.psr_base.specs.Written.{WroteAll};
ghost use Rattle.disk_feeder.specs.Filling.{HoldsAll};
ghost use Rattle.search_opening.specs.Settings.{OfRun};
ghost use Rattle.level_words.specs.Settings.{LevelInRange, LevelSeen, SayLevel, level_seen};
ghost use Rattle.drive_stream.specs.Outcome.{LeavesInputs};
ghost use Rattle.psr_level.specs.Complete.{IsComplete};
ghost use Rattle.psr_level.specs.Files.{ForLevel, level_file};
ghost use Rattle.psr_level.specs.Levels.{CanLevel, Leaves, level_block};
ghost use Rattle.psr_level.specs.Notes.{end_status, stop_of_stream};
ghost use Rattle.psr_level.specs.Outcome.{EndsAtWords, EndsLevel, EndsSettings, LeavesFiles, Outcome, ReadsRefused};

use crate::refusal::LevelRefusal;
use crate::stop::LevelStop;
use crate::task::LevelTask;
use drive_stream::{StreamStop, drive_stream};
use level_words::LevelSettings;
use psr_base::{Inputs, Sink};
use run_outcome::{Stop, tell_line};
use std::alloc::Global;
use std::sync::Wait;
// Laws: they do nothing when they run, and the proofs use what they ensure.
use drive_stream::{causes_are_answered, streams_end};
use run_outcome::statuses_say_stops;

// Streams the files of settings through to the output, and answers why it stopped early, if it did.
fn stream<R: Wait, I: Inputs, K: Sink>(
    rt: &R,
    alloc: Global,
    settings: &LevelSettings,
    inputs: &mut I,
    out: &mut K,
) -> Option<StreamStop<LevelRefusal>>
    requires range { LevelInRange (level_seen settings.now) }
    requires one { (level_seen settings.now).run.starts ≡ 0 ∷ [] }
    ensures inputs { HasReadFrom I.told I.is_calm I.faults
        (result ≡ Some (StreamStop.Run Stop.ReadFault)) inputs.old inputs.new }
    ensures serves { I.is_calm inputs.old
        → HoldsAll (I.told inputs.old) (level_seen settings.now).run.names
        → result ≢ Some (StreamStop.Run Stop.ReadFault) }
    ensures ends { EndsLevel (level_seen settings.now) (I.told inputs.old) (K.seen out.old)
        (K.seen out.new) result }
    ensures whole { result ≡ None → OfRun (I.told inputs.old) (level_seen settings.now).run (λ w.
        WroteAll (level_file (level_seen settings.now) w) (K.seen out.old) (K.seen out.new)) }
    ensures complete { IsComplete (level_seen settings.now) (I.told inputs.old)
        (end_status (option_map stop_of_stream result)) }
    ensures leaves { LeavesInputs level_block (CanLevel (level_seen settings.now))
        (Leaves (level_seen settings.now)) (level_seen settings.now).run (I.is_calm inputs.old)
        (I.told inputs.old) (I.told inputs.new) (K.seen out.old) (K.seen out.new) result }
    ensures refused { ReadsRefused (level_seen settings.now) (I.told inputs.old)
        (I.told inputs.new) result }
{
    let task = LevelTask { settings };
    streams_end(&task);
    causes_are_answered(&task);
    drive_stream(rt, alloc, &settings.run, &task, inputs, out)
}

// The same for words, without the notes.
fn level<R: Wait, I: Inputs, K: Sink>(
    rt: &R,
    alloc: Global,
    words: &[String],
    inputs: &mut I,
    out: &mut K,
) -> Option<LevelStop>
    ensures ends { EndsAtWords (map string_bytes words.now) (record {
      told = I.told inputs.old;
      faults_before = I.faults inputs.old;
      faults_after = I.faults inputs.new;
    })
        (K.seen out.old) (K.seen out.new) result
        ⊎ EndsSettings (map string_bytes words.now) (record {
          told = I.told inputs.old;
          faults_before = I.faults inputs.old;
          faults_after = I.faults inputs.new;
        })
        (I.is_calm inputs.old) (K.seen out.old) (K.seen out.new) result }
    ensures whole { result ≡ None → ForLevel (map string_bytes words.now) (I.told inputs.old)
        (λ s w. WroteAll (level_file s w) (K.seen out.old) (K.seen out.new)) }
    ensures complete { (s : LevelSeen) → SayLevel (map string_bytes words.now) s
        → IsComplete s (I.told inputs.old) (end_status result) }
    ensures leaves { LeavesFiles (map string_bytes words.now) (I.is_calm inputs.old)
        (I.told inputs.old) (I.told inputs.new) (K.seen out.old) (K.seen out.new)
        (end_status result) }
{
    statuses_say_stops();
    match LevelSettings::of(alloc, words) {
        Ok(settings) => match stream(rt, alloc, &settings, inputs, out) {
            Some(stop) => Some(LevelStop::of_stream(stop)),
            None => None,
        },
        Err(fault) => Some(LevelStop::of_words(fault)),
    }
}

/// Levels the files that the words name and writes the levelled file to `out` as the data come. The first word is the
/// program's name. It answers the exit status; at each but 0, a line to `notes` says why. A fault of `notes` changes
/// nothing. It may not end.
pub fn run_level<R: Wait, I: Inputs, K: Sink, E: Sink>(
    rt: &R,
    alloc: Global,
    words: &[String],
    inputs: &mut I,
    out: &mut K,
    notes: &mut E,
) -> u8
    ensures headline { result ≡ 0 → ForLevel (map string_bytes words.now) (I.told inputs.old)
        (λ s w. WroteAll (level_file s w) (K.seen out.old) (K.seen out.new)) }
    ensures outcome { Outcome (map string_bytes words.now) (record {
      told = I.told inputs.old;
      faults_before = I.faults inputs.old;
      faults_after = I.faults inputs.new;
    })
        (I.is_calm inputs.old) (K.seen out.old) (K.seen out.new) (E.seen notes.old)
        (E.seen notes.new) result }
    ensures complete { (s : LevelSeen) → SayLevel (map string_bytes words.now) s
        → IsComplete s (I.told inputs.old) result }
    ensures leaves { LeavesFiles (map string_bytes words.now) (I.is_calm inputs.old)
        (I.told inputs.old) (I.told inputs.new) (K.seen out.old) (K.seen out.new) result }
{
    match level(rt, alloc, words, inputs, out) {
        Some(stop) => {
            tell_line(&stop.note(), notes);
            stop.status()
        }
        None => 0,
    }
}
