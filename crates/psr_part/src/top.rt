// The top call.
ghost use Rattle.std.specs.Prelude.{◌≡◌, Some, None, map, string_bytes};
ghost use Rattle.run_outcome.specs.declared.stop.Stop.TheVariants.{Memory, ReadFault};
ghost use Rattle.psr_part.specs.declared.stop.CheckpointRefusal.{CheckpointRefusal};
ghost use Rattle.psr_part.specs.declared.stop.PartStop.TheVariants.{Run, Refused};
ghost use Rattle.psr_part.specs.Outcome.{Outcome, ReadsCheck, ReadsNoData, LeavesAtFault};
ghost use Rattle.psr_part.specs.Ends.{Ends};

use crate::scope::PartScope;
use crate::stop::PartStop;
use crate::telling::tell_part;
use crate::words::{PartWords, check_of, part_words};
use crate::writing::{Ended, finish};
use drive_lone::{LoneStop, drive_alone};
use psr_base::{Inputs, Sink};
use run_outcome::{Ran, Stop};
use std::alloc::Global;
use std::convert::Infallible;
use std::sync::Wait;
use warm_restart::read_checkpoint;
// Laws: they do nothing when they run, and the proofs use what they ensure.
use drive_lone::{
    alone_after_whole, alone_at_feed_stop, alone_at_own_stop, alone_at_words, alone_before_session,
};
use run_outcome::words_say_once;

/// Searches a part of the observation of the files that the arguments name, from a checkpoint on, and writes its text
/// to `out`. `words` are the program's name and its arguments: UNTIL, the spectrum that the part stops before; CHECK,
/// which is `new` or the name of a file with the CHECK line that an earlier part ended with; and the arguments of a
/// search. All data are read. Answers the exit status, and what went through the data ring, if there was one; if the
/// status isn't 0, a line to `notes` says why. A fault of `notes` changes nothing. It may not end.
pub fn run_part<R: Wait, I: Inputs, K: Sink, E: Sink>(
    rt: &R,
    alloc: Global,
    words: &[String],
    inputs: &mut I,
    out: &mut K,
    notes: &mut E,
) -> Ran
    ensures outcome { Outcome (map string_bytes words.now)
        (record {
          told = I.told inputs.old;
          faults_before = I.faults inputs.old;
          faults_after = I.faults inputs.new;
        })
        (I.is_calm inputs.old) (K.seen out.old) (K.seen out.new) (E.seen notes.old)
        (E.seen notes.new) result }
    ensures early { result.status ≡ 5
        → ReadsNoData (map string_bytes words.now) (I.told inputs.old) (I.told inputs.new) }
    ensures refused { result.status ≡ 13 → result.blocks ≡ None
        → ReadsCheck (map string_bytes words.now) (I.told inputs.old) (I.told inputs.new) }
    ensures broken { result.status ≡ 6 → LeavesAtFault (map string_bytes words.now)
        (I.is_calm inputs.old) (I.told inputs.old) (I.told inputs.new) result.blocks }
{
    let Ended { stop, blocks } = search(rt, alloc, words, inputs, out);
    let status = tell_part(stop, notes);
    Ran {
        status,
        blocks,
        recorded: None,
    }
}

// The stop of a search that was driven: none of its own, since no observation is refused.
fn stop_of_run(stop: LoneStop<Infallible>) -> Stop
    ensures { stop ≡ LoneStop.Run result }
{
    match stop {
        LoneStop::Run(stop) => stop,
        LoneStop::Unscoped(never) => match never {},
    }
}

// Searches as `run_part` does, without the notes.
fn search<R: Wait, I: Inputs, K: Sink>(
    rt: &R,
    alloc: Global,
    words: &[String],
    inputs: &mut I,
    out: &mut K,
) -> Ended
    ensures ends { Ends (map string_bytes words.now)
        (record {
          told = I.told inputs.old;
          faults_before = I.faults inputs.old;
          faults_after = I.faults inputs.new;
        })
        (I.is_calm inputs.old) (K.seen out.old) (K.seen out.new) result.stop result.blocks }
    ensures early { result.stop ≡ Some (Run Memory)
        → ReadsNoData (map string_bytes words.now) (I.told inputs.old) (I.told inputs.new) }
    ensures refused { (refusal : CheckpointRefusal) → result.stop ≡ Some (Refused refusal)
        → result.blocks ≡ None
        → ReadsCheck (map string_bytes words.now) (I.told inputs.old) (I.told inputs.new) }
    ensures broken { result.stop ≡ Some (Run ReadFault) → LeavesAtFault (map string_bytes words.now)
        (I.is_calm inputs.old) (I.told inputs.old) (I.told inputs.new) result.blocks }
{
    alone_at_words::<I>();
    alone_before_session::<I>();
    alone_at_own_stop::<I>();
    alone_at_feed_stop::<I>();
    alone_after_whole::<I>();
    words_say_once();
    let PartWords { until, settings } = match part_words(alloc, words) {
        Ok(said) => said,
        Err(fault) => {
            return Ended {
                stop: Some(PartStop::Run(Stop::of_words(fault))),
                blocks: None,
            };
        }
    };
    let checkpoint = match read_checkpoint(inputs, check_of(words), until) {
        Ok(checkpoint) => checkpoint,
        Err(fault) => {
            return Ended {
                stop: Some(PartStop::of_checkpoint(fault)),
                blocks: None,
            };
        }
    };
    let scope = PartScope::of(checkpoint.place, until);
    match drive_alone(rt, alloc, &settings, &scope, inputs) {
        Ok(found) => finish(&settings.search, checkpoint, until, found, out),
        Err(stop) => Ended {
            stop: Some(PartStop::Run(stop_of_run(stop))),
            blocks: None,
        },
    }
}
