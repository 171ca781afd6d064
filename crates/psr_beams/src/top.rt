// The top call.
ghost use Rattle.std.specs.Prelude.{◌≡◌, ◌≤◌, ℕ, length, slice_index_or, map, string_bytes};
ghost use Rattle.search_words.specs.Settings.{SettingsSeen};
ghost use Rattle.run_outcome.specs.Ends.{end_status};
ghost use Rattle.psr_beams.specs.Words.{SayBeams};
ghost use Rattle.psr_beams.specs.Seen.{told_at, calm_at, seen_at};
ghost use Rattle.psr_beams.specs.Outcome.{Outcome, FailsFirst, ReadsNoData};
ghost use Rattle.psr_beams.specs.Ends.{Leaves};

use crate::drive::drive;
use crate::words::read_words;
use psr_base::{Inputs, Sink};
use run_outcome::{Stop, tell};
use search_session::Gate;
use std::alloc::Global;
use std::sync::Wait;
use std::thread::Threads;
// Laws: they do nothing when they run, and the proofs use what they ensure.
use beam_set::later_headers_agree;
use dada_model::accepted_by_rows;
use run_outcome::{end_at_words, words_say_once};
use stream_model::first_files_continue;

/// Searches the files that the arguments name, 2 to 7, each as a beam of one observation, and writes the text of all
/// beams to `out`. `words` are the program's name and its arguments. The first argument is the largest difference, in
/// spectra, between the ends of pulses that are near each other, 0 to 65536; the second is the largest number of beams
/// of a pulse that is not marked, 1 to 6. Beam b reads from `inputs[b]`, of which there are seven. The gate is called
/// with a beam's number. Answers the exit status; if it isn't 0, a line to `notes` says why. A fault of `notes` changes
/// nothing. It may not end.
pub fn run_beams<I: Inputs + Send, K: Sink, E: Sink, G: Gate + Sync, R: Threads + Wait + Sync>(
    rt: &R,
    alloc: Global,
    words: &[String],
    inputs: &mut [I],
    out: &mut K,
    notes: &mut E,
    gate: &G,
) -> u8
    requires { length inputs.old ≡ 7 }
    ensures outcome { Outcome (map string_bytes words.now)
        (seen_at I.told I.faults inputs.old inputs.new) (calm_at I.is_calm inputs.old)
        (K.seen out.old) (K.seen out.new) (E.seen notes.old) (E.seen notes.new) result }
    ensures early { result ≡ 5 → ReadsNoData (map string_bytes words.now)
        (told_at I.told inputs.old) (told_at I.told inputs.new) }
    ensures order { result ≡ 6 → FailsFirst (map string_bytes words.now)
        (seen_at I.told I.faults inputs.old inputs.new) (told_at I.told inputs.new) }
    ensures refused { result ≡ 2 → inputs.new ≡ inputs.old }
    ensures others { (s : SettingsSeen) (k : ℕ) (x : I) → SayBeams (map string_bytes words.now) s
        → length s.names ≤ k → slice_index_or inputs.new k x ≡ slice_index_or inputs.old k x }
{
    let stop = search(rt, alloc, words, inputs, out, gate);
    tell(stop, notes)
}

// Searches as `run_beams` does, without the notes.
fn search<I: Inputs + Send, K: Sink, G: Gate + Sync, R: Threads + Wait + Sync>(
    rt: &R,
    alloc: Global,
    words: &[String],
    inputs: &mut [I],
    out: &mut K,
    gate: &G,
) -> Option<Stop>
    requires { length inputs.old ≡ 7 }
    ensures leaves { Leaves I.told I.is_calm I.faults (map string_bytes words.now) inputs.old
        inputs.new (K.seen out.old) (K.seen out.new) result }
    ensures refused { end_status result ≡ 2 → inputs.new ≡ inputs.old }
    ensures others { (s : SettingsSeen) (k : ℕ) (x : I) → SayBeams (map string_bytes words.now) s
        → length s.names ≤ k → slice_index_or inputs.new k x ≡ slice_index_or inputs.old k x }
{
    end_at_words::<I>();
    words_say_once();
    accepted_by_rows();
    first_files_continue();
    later_headers_agree();
    match read_words(alloc, words) {
        Ok(said) => drive(rt, alloc, &said, inputs, out, gate),
        Err(fault) => Some(Stop::of_words(fault)),
    }
}
