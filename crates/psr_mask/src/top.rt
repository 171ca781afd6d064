// The top call.
ghost use Rattle.std.specs.Prelude.{◌≡◌, Some, map, string_bytes};
ghost use Rattle.run_outcome.specs.Outcomes.{ReadsNoData, LeavesAtFault};
ghost use Rattle.run_outcome.specs.Runs.{Alone};
ghost use Rattle.drive_lone.specs.Stops.{ReadsHeader};
ghost use Rattle.psr_mask.specs.Masking.{mask_search};
ghost use Rattle.psr_mask.specs.Outcome.{Outcome};
ghost use Rattle.psr_mask.specs.Ends.{Ends, as_alone};

use crate::refusal::MaskRefusal;
use crate::telling::tell_mask;
use crate::words::{mask_word, settings_of};
use crate::writing::write_end;
use drive_lone::{LoneFound, LoneStop, drive_alone};
use psr_base::{Inputs, Sink};
use ring_ends::Finished;
use run_outcome::{Ran, Stop};
use std::alloc::Global;
use std::sync::Wait;
// Laws: they do nothing when they run, and the proofs use what they ensure.
use drive_lone::{
    alone_after_whole, alone_at_feed_stop, alone_at_own_stop, alone_at_words, alone_before_session,
};
use run_outcome::words_say_once;

// How a search ended: its stop, or none if it went to its end; and what went through its data ring, if there was one.
#[derive(Drop)]
struct Ended {
    stop: Option<LoneStop<MaskRefusal>>,
    blocks: Option<Finished>,
}

// A stop of any run as one of this program.
fn as_stop(stop: Option<Stop>) -> Option<LoneStop<MaskRefusal>>
    ensures { result ≡ as_alone stop }
{
    match stop {
        Some(stop) => Some(LoneStop::Run(stop)),
        None => None,
    }
}

/// Searches the files that the arguments name for dispersed pulses and folded periods, without the channels that a mask
/// names, and writes their text to `out`. `words` are the program's name, the mask text, which counts channels in the
/// order of the file, and the arguments of a search of one transfer, on this thread and without recording. Answers the
/// exit status, and what went through the data ring, if there was one; if the status isn't 0, a line to `notes` says
/// why. A fault of `notes` changes nothing. It may not end.
pub fn run_mask<R: Wait, I: Inputs, K: Sink, E: Sink>(
    rt: &R,
    alloc: Global,
    words: &[String],
    inputs: &mut I,
    out: &mut K,
    notes: &mut E,
) -> Ran
    ensures outcome { Outcome (map string_bytes words.now)
        (record {
          told = I.told inputs.old;
          faults_before = I.faults inputs.old;
          faults_after = I.faults inputs.new;
        })
        (I.is_calm inputs.old) (K.seen out.old) (K.seen out.new) (E.seen notes.old)
        (E.seen notes.new) result }
    ensures early { result.status ≡ 5
        → ReadsNoData (Alone (mask_search (map string_bytes words.now)))
        (map string_bytes words.now) (I.told inputs.old) (I.told inputs.new) }
    ensures refused { result.status ≡ 12
        → ReadsHeader (mask_search (map string_bytes words.now)) (map string_bytes words.now)
        (I.told inputs.old) (I.told inputs.new) }
    ensures broken { result.status ≡ 6
        → LeavesAtFault (Alone (mask_search (map string_bytes words.now)))
        (map string_bytes words.now) (I.is_calm inputs.old) (I.told inputs.old)
        (I.told inputs.new) result.blocks }
{
    let Ended { stop, blocks } = search(rt, alloc, words, inputs, out);
    let status = tell_mask(stop, notes);
    Ran {
        status,
        blocks,
        recorded: None,
    }
}

// Searches as `run_mask` does, without the notes.
fn search<R: Wait, I: Inputs, K: Sink>(
    rt: &R,
    alloc: Global,
    words: &[String],
    inputs: &mut I,
    out: &mut K,
) -> Ended
    ensures ends { Ends (map string_bytes words.now)
        (record {
          told = I.told inputs.old;
          faults_before = I.faults inputs.old;
          faults_after = I.faults inputs.new;
        })
        (I.is_calm inputs.old) (K.seen out.old) (K.seen out.new) result.stop result.blocks }
    ensures early { result.stop ≡ Some (LoneStop.Run Stop.Memory)
        → ReadsNoData (Alone (mask_search (map string_bytes words.now)))
        (map string_bytes words.now) (I.told inputs.old) (I.told inputs.new) }
    ensures refused { (refusal : MaskRefusal) → result.stop ≡ Some (LoneStop.Unscoped refusal)
        → ReadsHeader (mask_search (map string_bytes words.now)) (map string_bytes words.now)
        (I.told inputs.old) (I.told inputs.new) }
    ensures broken { result.stop ≡ Some (LoneStop.Run Stop.ReadFault)
        → LeavesAtFault (Alone (mask_search (map string_bytes words.now)))
        (map string_bytes words.now) (I.is_calm inputs.old) (I.told inputs.old)
        (I.told inputs.new) result.blocks }
{
    alone_at_words::<I>();
    words_say_once();
    alone_before_session::<I>();
    alone_at_own_stop::<I>();
    alone_at_feed_stop::<I>();
    alone_after_whole::<I>();
    let settings = match settings_of(alloc, words) {
        Ok(settings) => settings,
        Err(fault) => {
            return Ended {
                stop: Some(LoneStop::Run(Stop::of_words(fault))),
                blocks: None,
            };
        }
    };
    match drive_alone(rt, alloc, &settings, &mask_word(words), inputs) {
        Ok(found) => {
            let LoneFound {
                feed,
                observation,
                engine,
                blocks,
            } = found;
            let stop = write_end(&settings.search, feed, &observation, engine, out);
            Ended {
                stop: as_stop(stop),
                blocks: Some(blocks),
            }
        }
        Err(stop) => Ended {
            stop: Some(stop),
            blocks: None,
        },
    }
}
