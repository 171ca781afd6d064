// How the user is told.
ghost use Rattle.std.specs.Prelude.{◌≡◌, ℕ, List, Some};
ghost use Rattle.psr_base.specs.Told.{Told};
ghost use Rattle.run_outcome.specs.declared.stop.Stop.TheVariants.{Memory, ReadFault};
ghost use Rattle.drive_lone.specs.declared.stop.LoneStop.TheVariants.{Run, Unscoped};
ghost use Rattle.psr_mask.specs.Notes.{end_status, mask_status};
ghost use Rattle.psr_mask.specs.Ends.{IsSaidOf};
ghost use Rattle.psr_mask.specs.Outcome.{TellsMask};

use crate::refusal::MaskRefusal;
use drive_lone::LoneStop;
use psr_base::Sink;
use run_outcome::{tell, tell_line};

// The exit status of a mask that is refused.
const MASK_REFUSED: u8 = 12;

/// Writes why a search stopped as a line to the notes, and answers the exit status. If it didn't stop, the status is 0
/// and the notes take nothing. A fault of the notes changes nothing.
pub(crate) fn tell_mask<E: Sink>(stop: Option<LoneStop<MaskRefusal>>, notes: &mut E) -> u8
    ensures status { result ≡ end_status stop }
    ensures memory { result ≡ 5 → stop ≡ Some (Run Memory) }
    ensures read_fault { result ≡ 6 → stop ≡ Some (Run ReadFault) }
    ensures refused { result ≡ mask_status
        → (refusal : MaskRefusal) × (stop ≡ Some (Unscoped refusal)) }
    ensures told { (words : List (List ℕ)) (told : Told) → IsSaidOf words told stop
        → TellsMask words told (E.seen notes.old) (E.seen notes.new) result }
{
    match stop {
        Some(LoneStop::Run(stop)) => tell(Some(stop), notes),
        Some(LoneStop::Unscoped(refusal)) => {
            tell_line(&refusal.note(), notes);
            MASK_REFUSED
        }
        None => 0,
    }
}
