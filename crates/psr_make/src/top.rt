// The top call.
ghost use Rattle.std.specs.Prelude.{◌≢◌, Err, map, string_bytes};
ghost use Rattle.psr_make.specs.Outcome.{AskForOne, Outcome, Ends};

use crate::making::{MakeStop, make};
use crate::request::Request;
use crate::stop::Stop;
use psr_base::{Files, Sink, write_all};
use std::alloc::Global;

/// Makes the observation that the arguments `words` ask for in a new file. The first of `words` is the program's name.
/// Returns the exit status; if it isn't 0, a line to `notes` tells why. A fault of `notes` changes nothing. Unless the
/// files failed (status 11), no file is left open, and more can be made.
pub fn run_make<F: Files, E: Sink>(
    alloc: Global,
    words: &[String],
    files: &mut F,
    notes: &mut E,
) -> u8
    requires closed { AskForOne (map string_bytes words.now) → ¬ F.is_open files.old }
    ensures outcome { Outcome (map string_bytes words.now) (F.seen files.old) (F.seen files.new)
        (E.seen notes.old) (E.seen notes.new) result }
    ensures closed { result ≢ 11 → ¬ F.is_open files.old → ¬ F.is_open files.new }
{
    match make_asked(alloc, words, files) {
        Ok(()) => 0,
        Err(stop) => {
            let _ = write_all(notes, stop.note().as_bytes());
            stop.status()
        }
    }
}

// Makes the observation, as `run_make` does, without the notes.
fn make_asked<F: Files>(alloc: Global, words: &[String], files: &mut F) -> Result<(), Stop>
    requires closed { AskForOne (map string_bytes words.now) → ¬ F.is_open files.old }
    ensures ends { Ends (map string_bytes words.now) (F.seen files.old) (F.seen files.new) result }
    ensures closed { result ≢ Err Stop.RecordFault → ¬ F.is_open files.old
        → ¬ F.is_open files.new }
{
    let request = match Request::of(alloc, words) {
        Ok(request) => request,
        Err(stop) => return Err(stop),
    };
    match make(alloc, &request.spec, request.name, files) {
        Ok(()) => Ok(()),
        Err(MakeStop::Memory) => Err(Stop::Memory),
        Err(MakeStop::FileFault) => Err(Stop::RecordFault),
    }
}
