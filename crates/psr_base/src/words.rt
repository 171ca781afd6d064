// The arguments that a program is called with.
ghost use Rattle.std.specs.Prelude.{◌≡◌, ◌≢◌, ◌↔◌, Err, IfOk, IsErrAnd, IsOkAnd};
ghost use Rattle.std.specs.Vec.Iter.{into_iter_items};
ghost use Rattle.std.specs.IoError.{error_kind};

use std::alloc::Global;
use std::env::Args;
use std::io;
use std::io::ErrorKind;
use thiserror::Error;

/// Why a program has no arguments.
#[derive(Clone, Copy, Debug, PartialEq, Eq, Error)]
pub enum NoWords {
    /// The system gives none, for instance because one isn't UTF-8. Callers treat this like wrong arguments.
    #[error("the words can't be had")]
    Refused,
    /// There was no memory.
    #[error("no memory")]
    Memory,
}

impl NoWords {
    // Why there are none, if the system gave this error in their place.
    fn of_error(error: io::Error) -> NoWords
        ensures { (result ≡ NoWords.Refused) ↔ (error_kind error ≢ ErrorKind.OutOfMemory) }
    {
        if error.kind() == ErrorKind::OutOfMemory {
            NoWords::Memory
        } else {
            NoWords::Refused
        }
    }
}

/// The arguments of a program, its name first: exactly those of `env::args`, if it succeeded.
pub fn command_words(args: io::Result<Args>, alloc: Global) -> Result<Vec<String>, NoWords>
    ensures words { IfOk result (λ words. IsOkAnd args (λ all. words.items ≡ into_iter_items all)) }
    ensures refused { (result ≡ Err NoWords.Refused)
        ↔ IsErrAnd args (λ error. error_kind error ≢ ErrorKind.OutOfMemory) }
{
    match args {
        Ok(all) => match all.collect(alloc) {
            Ok(words) => Ok(words),
            Err(_) => Err(NoWords::Memory),
        },
        Err(error) => Err(NoWords::of_error(error)),
    }
}
