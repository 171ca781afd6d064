// How the user is told.
ghost use Rattle.std.specs.Prelude.{◌≡◌, ℕ, List, None, Some, IfSome};
ghost use Rattle.psr_base.specs.Told.{Told};
ghost use Rattle.psr_base.specs.Written.{Noted};
ghost use Rattle.run_outcome.specs.Runs.{Task};
ghost use Rattle.run_outcome.specs.Outcomes.{TellsNotes};
ghost use Rattle.run_outcome.specs.Ends.{end_status, IsSaid};
ghost use Rattle.run_outcome.specs.Texts.{note_of};

use crate::stop::Stop;
use psr_base::{Sink, write_all};
use text_line::Line;

/// Writes a line to the notes. A fault of the notes changes nothing: they have taken a beginning of the line.
pub fn tell_line<E: Sink>(line: &Line, notes: &mut E)
    ensures { Noted line.now (E.seen notes.old) (E.seen notes.new) }
{
    let _ = write_all(notes, line.as_bytes());
}

/// Writes why a run stopped as a line to the notes, and answers the exit status. If it didn't stop, the status is 0 and
/// the notes take nothing. A fault of the notes changes nothing.
pub fn tell<E: Sink>(stop: Option<Stop>, notes: &mut E) -> u8
    ensures status { result ≡ end_status stop }
    ensures silent { stop ≡ None → E.seen notes.new ≡ E.seen notes.old }
    ensures line { IfSome stop (λ s. Noted (note_of s) (E.seen notes.old) (E.seen notes.new)) }
    ensures none { result ≡ 0 → stop ≡ None }
    ensures memory { result ≡ 5 → stop ≡ Some Stop.Memory }
    ensures read_fault { result ≡ 6 → stop ≡ Some Stop.ReadFault }
    ensures told { (task : Task) (words : List (List ℕ)) (told : Told)
        → IsSaid task words told stop
        → TellsNotes task words told (E.seen notes.old) (E.seen notes.new) result }
{
    match stop {
        Some(stop) => {
            tell_line(&stop.note(), notes);
            stop.status()
        }
        None => 0,
    }
}
