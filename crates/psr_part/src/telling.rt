// How the user is told.
ghost use Rattle.std.specs.Prelude.{◌≡◌, ℕ, List, Option, Some};
ghost use Rattle.psr_base.specs.Told.{Told};
ghost use Rattle.ring_ends.specs.declared.finished.Finished.{Finished};
ghost use Rattle.warm_restart.specs.declared.checkpoint.Checkpoint.{Checkpoint};
ghost use Rattle.run_outcome.specs.declared.stop.Stop.TheVariants.{Memory, ReadFault};
ghost use Rattle.psr_part.specs.declared.stop.CheckpointRefusal.{CheckpointRefusal};
ghost use Rattle.psr_part.specs.declared.stop.PartStop.TheVariants.{Run, Refused};
ghost use Rattle.psr_part.specs.Texts.{end_status};
ghost use Rattle.psr_part.specs.Outcome.{TellsPart};
ghost use Rattle.psr_part.specs.Ends.{IsPartSaid};

use crate::stop::PartStop;
use psr_base::Sink;
use run_outcome::{tell, tell_line};

/// Writes why the search of a part stopped as a line to the notes, and answers the exit status. If it didn't stop, the
/// status is 0 and the notes take nothing. A fault of the notes changes nothing.
pub(crate) fn tell_part<E: Sink>(stop: Option<PartStop>, notes: &mut E) -> u8
    ensures status { result ≡ end_status stop }
    ensures memory { result ≡ 5 → stop ≡ Some (Run Memory) }
    ensures read_fault { result ≡ 6 → stop ≡ Some (Run ReadFault) }
    ensures refused { result ≡ 13
        → (refusal : CheckpointRefusal) × (stop ≡ Some (Refused refusal)) }
    ensures told { (words : List (List ℕ)) (from : Checkpoint) (told : Told)
        (blocks : Option Finished) → IsPartSaid words from told blocks stop
        → TellsPart words from told blocks (E.seen notes.old) (E.seen notes.new) result }
{
    match stop {
        Some(PartStop::Refused(refusal)) => {
            tell_line(&refusal.note(), notes);
            13
        }
        Some(PartStop::Run(stop)) => tell(Some(stop), notes),
        None => tell(None, notes),
    }
}
