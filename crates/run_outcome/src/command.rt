// The arguments of the command line, or how a program ends without them.
ghost use Rattle.std.specs.Prelude.{◌≡◌, ◌≢◌, ◌↔◌, ◌⊎◌, Err, IfErr, IfOk, IsErrAnd, IsOkAnd};
ghost use Rattle.std.specs.Vec.Iter.{into_iter_items};
ghost use Rattle.std.specs.IoError.{error_kind};
ghost use Rattle.run_outcome.specs.Outcomes.{AnswersStop};
ghost use Rattle.run_outcome.specs.Texts.{status_of};

use crate::stop::Stop;
use crate::telling::tell;
use psr_base::{NoWords, Sink, command_words};
use std::alloc::Global;
use std::env::Args;
use std::io;
use std::io::ErrorKind;

/// The arguments that a program was started with, its name first. If the system gives none, a line to the notes says
/// why, and the exit status is answered: that of refused arguments, for instance if one isn't UTF-8, or that of want of
/// memory. A fault of the notes changes nothing.
pub fn words_or_status<E: Sink>(
    args: io::Result<Args>,
    alloc: Global,
    notes: &mut E,
) -> Result<Vec<String>, u8>
    ensures words { IfOk result (λ words. IsOkAnd args (λ all. words.items ≡ into_iter_items all)) }
    ensures silent { IfOk result (λ _. E.seen notes.new ≡ E.seen notes.old) }
    ensures refused { (result ≡ Err (status_of Stop.Words))
        ↔ IsErrAnd args (λ error. error_kind error ≢ ErrorKind.OutOfMemory) }
    ensures told { IfErr result (λ status.
        AnswersStop Stop.Words (E.seen notes.old) (E.seen notes.new) status
        ⊎ AnswersStop Stop.Memory (E.seen notes.old) (E.seen notes.new) status) }
{
    match command_words(args, alloc) {
        Ok(words) => Ok(words),
        Err(NoWords::Refused) => Err(tell(Some(Stop::Words), notes)),
        Err(NoWords::Memory) => Err(tell(Some(Stop::Memory), notes)),
    }
}
