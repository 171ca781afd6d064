// How the user is told.
ghost use Rattle.std.specs.Prelude.{◌≡◌, None, Some, IfSome};
ghost use Rattle.run_outcome.specs.declared.stop.Stop.TheVariants.{Memory, ReadFault};
ghost use Rattle.psr_part.specs.declared.stop.CheckpointRefusal.{CheckpointRefusal};
ghost use Rattle.psr_part.specs.declared.stop.PartStop.TheVariants.{Run, Refused};
ghost use Rattle.psr_base.specs.Written.{Noted};
ghost use Rattle.psr_part.specs.Texts.{end_status};
ghost use Rattle.psr_live.specs.Texts.{live_note};

use psr_base::Sink;
use psr_part::PartStop;
use run_outcome::{tell, tell_line};

/// Tells why a search stopped, by a line to the notes, and answers the exit status. Where it came to no stop that is 0,
/// and the notes take nothing. A fault of the notes changes nothing.
pub(crate) fn tell_live<E: Sink>(stop: Option<PartStop>, notes: &mut E) -> u8
    ensures status { result ≡ end_status stop }
    ensures memory { result ≡ 5 → stop ≡ Some (Run Memory) }
    ensures read_fault { result ≡ 6 → stop ≡ Some (Run ReadFault) }
    ensures refused { result ≡ 13
        → (refusal : CheckpointRefusal) × (stop ≡ Some (Refused refusal)) }
    ensures silent { stop ≡ None → E.seen notes.new ≡ E.seen notes.old }
    ensures line { IfSome stop (λ what. Noted (live_note what) (E.seen notes.old)
        (E.seen notes.new)) }
{
    match stop {
        Some(PartStop::Refused(refusal)) => {
            tell_line(&refusal.note(), notes);
            13
        }
        Some(PartStop::Run(stop)) => tell(Some(stop), notes),
        None => tell(None, notes),
    }
}
