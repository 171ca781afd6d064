// The top call.
ghost use Rattle.std.specs.Prelude.{◌≡◌, map, string_bytes};
ghost use Rattle.psr_live.specs.Outcome.{EndsLive, Outcome, WritesText};
ghost use Rattle.psr_live.specs.Reads.{LeavesAtFault, LeavesFiles, NotesRefusal, ReadsNoData};

use crate::stop::stop_of_stream;
use crate::task::LiveTask;
use crate::telling::tell_live;
use crate::words::{LiveWords, live_words};
use drive_stream::drive_stream;
use psr_base::{Inputs, Sink};
use psr_part::{PartStop, check_of};
use run_outcome::Stop;
use std::alloc::Global;
use std::sync::Wait;
use warm_restart::read_checkpoint;
// Laws: they do nothing when they run, and the proofs use what they ensure.
use drive_stream::causes_are_answered;
use run_outcome::words_say_once;
use stream_model::bytes_are_joined;

/// No data have more spectra, 2^48.
const GREATEST_PLACE: u64 = 281_474_976_710_656;

/// Searches the observation of the files that the words name, from a checkpoint on, and writes its text to `out` part by
/// part, each as soon as its spectra are searched. After the program's name stand EVERY, how many spectra a part has, and
/// CHECK: `new`, or the name of a file with a CHECK line; then the words of a search. All data are read. It answers the
/// exit status; where that isn't 0, a line to `notes` says why. A fault of `notes` changes nothing. It may not end.
pub fn run_live<R: Wait, I: Inputs, K: Sink, E: Sink>(
    rt: &R,
    alloc: Global,
    words: &[String],
    inputs: &mut I,
    out: &mut K,
    notes: &mut E,
) -> u8
    ensures outcome { Outcome (map string_bytes words.now)
        (record {
          told = I.told inputs.old;
          faults_before = I.faults inputs.old;
          faults_after = I.faults inputs.new;
        })
        (I.is_calm inputs.old) (K.seen out.old) (K.seen out.new) (E.seen notes.old)
        (E.seen notes.new) result }
    ensures text { result ≡ 0 → WritesText (map string_bytes words.now) (I.told inputs.old)
        (K.seen out.old) (K.seen out.new) }
    ensures early { result ≡ 5
        → ReadsNoData (map string_bytes words.now) (I.told inputs.old) (I.told inputs.new) }
    ensures refused { result ≡ 13 → NotesRefusal (map string_bytes words.now)
        (I.told inputs.old) (I.told inputs.new) (E.seen notes.old) (E.seen notes.new) }
    ensures broken { result ≡ 6 → LeavesAtFault (map string_bytes words.now)
        (I.is_calm inputs.old) (I.told inputs.old) (I.told inputs.new) (K.seen out.old)
        (K.seen out.new) }
{
    bytes_are_joined();
    words_say_once();
    let stop = search(rt, alloc, words, inputs, out);
    tell_live(stop, notes)
}

// The same without the notes.
fn search<R: Wait, I: Inputs, K: Sink>(
    rt: &R,
    alloc: Global,
    words: &[String],
    inputs: &mut I,
    out: &mut K,
) -> Option<PartStop>
    ensures ends { EndsLive (map string_bytes words.now)
        (record {
          told = I.told inputs.old;
          faults_before = I.faults inputs.old;
          faults_after = I.faults inputs.new;
        })
        (I.is_calm inputs.old) (K.seen out.old) (K.seen out.new) result }
    ensures leaves { LeavesFiles (map string_bytes words.now) (I.is_calm inputs.old)
        (I.told inputs.old) (I.told inputs.new) (K.seen out.old) (K.seen out.new) result }
{
    let LiveWords { every, settings } = match live_words(alloc, words) {
        Ok(said) => said,
        Err(fault) => return Some(PartStop::Run(Stop::of_words(fault))),
    };
    let from = match read_checkpoint(inputs, check_of(words), GREATEST_PLACE) {
        Ok(from) => from,
        Err(fault) => return Some(PartStop::of_checkpoint(fault)),
    };
    let task = LiveTask {
        search: settings.search,
        every,
        from,
    };
    causes_are_answered(&task);
    stop_of_stream(drive_stream(rt, alloc, &settings.run, &task, inputs, out))
}
