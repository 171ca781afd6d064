// Writing more than one call takes, and in more than one piece.
ghost use Rattle.std.specs.Prelude.{Result};
ghost use Rattle.psr_base.specs.Written.{Wrote, PiecesJoin, LoopsJoin};
ghost use Rattle.psr_base.specs.Made.{Appended, AppendsJoin};

use crate::faults::Failed;
use crate::files::Files;
use crate::sink::Sink;

/// Writes all of `bytes`. After a fault the sink has taken the front of them, which may be empty.
pub fn write_all<S: Sink>(sink: &mut S, bytes: &[u8]) -> Result<(), Failed>
    ensures { Wrote bytes.now (S.seen sink.old) (S.seen sink.new) result }
{
    let mut taken = 0;
    while taken < bytes.len() {
        taken += sink.write(&bytes[taken..])?;
    }
    Ok(())
}

/// Appends all of `bytes` to the open file. After a fault it has taken the front of them, which may be empty.
pub fn append_all<F: Files>(files: &mut F, bytes: &[u8]) -> Result<(), Failed>
    requires { F.is_open files.old }
    ensures appended { Appended bytes.now (F.seen files.old) (F.seen files.new) result }
    ensures still_open { F.is_open files.new }
{
    let mut taken = 0;
    while taken < bytes.len() {
        taken += files.append(&bytes[taken..])?;
    }
    Ok(())
}

/// Law: pieces that are written one after another make the whole text or, after a fault, its front.
pub fn pieces_join()
    ensures pieces { PiecesJoin }
    ensures loops { LoopsJoin }
{}

/// Law: pieces that are appended one after another make the whole bytes or, after a fault, their front.
pub fn appends_join()
    ensures { AppendsJoin }
{}
