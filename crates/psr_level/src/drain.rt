//! What is to be levelled is levelled and written.
ghost use Rattle.std.specs.Prelude.{OnOk, OnErr};
ghost use Rattle.psr_level.specs.Draining.{Drains, BreaksDrain, LevelsAreFronts, StretchesAreWhole};

use band_level::Leveller;
use psr_base::{Failed, Sink, write_all};
// A law: it does nothing when it runs, and the proofs use what it ensures.
use psr_base::pieces_join;

/// Levels and writes all that is to be levelled.
pub(crate) fn drain<K: Sink>(leveller: &mut Leveller, out: &mut K) -> Result<(), Failed>
    ensures drained { OnOk result
        (Drains leveller.old leveller.new (K.seen out.old) (K.seen out.new)) }
    ensures broke { OnErr result
        (BreaksDrain leveller.old leveller.new (K.seen out.old) (K.seen out.new)) }
{
    pieces_join();
    while leveller.pending() > 0 {
        leveller.level();
        match write_all(out, leveller.piece()) {
            Ok(()) => {}
            Err(failed) => return Err(failed),
        }
    }
    Ok(())
}

/// A law: what was made is a front of what is to be made.
pub(crate) fn levels_are_fronts()
    ensures { LevelsAreFronts }
{}

/// A law: what was made between two pieces of data.
pub(crate) fn stretches_are_whole()
    ensures { StretchesAreWhole }
{}
