// The space of a beam, and the beam that is made of it.
ghost use Rattle.std.specs.Prelude.{◌≡◌, ◌∷◌, [], Some, IfOk};
ghost use Rattle.psr_base.specs.Told.{Told};
ghost use Rattle.ring_words.specs.Shape.{IsRing};
ghost use Rattle.beam_set.specs.Beam.{IsBeamSpace, IsBeamReady, BeamBegins, engines_held, engines_in, feeder_in};
ghost use Rattle.session_readers.specs.Banks.{engines_of};

use crate::beam::Beam;
use arrayvec::ArrayVec;
use dada_header::Header;
use disk_feeder::FeederSpace;
use psr_base::Memory;
use ring_words::RingShape;
use search_engine::Engine;
use search_session::{Bank, LoneSpace};
use std::alloc::Global;

/// All memory of a beam except that of its feeder: its rings, with the first header sealed, and its engine.
#[derive(Drop)]
pub struct BeamSpace {
    lone: LoneSpace,
}

// The bank that has one engine.
fn bank_of(alloc: Global, engine: Engine) -> Result<Bank, Memory>
    ensures { IfOk result (λ bank. engines_of bank ≡ Some engine ∷ []) }
{
    let mut engines = ArrayVec::new();
    engines.push(Some(engine));
    match Box::new(alloc, engines) {
        Ok(engines) => Ok(Bank { engines }),
        Err(_memory) => Err(Memory),
    }
}

impl BeamSpace {
    /// Takes all memory of a beam except that of its feeder, for rings of this shape, which have one reader, and seals
    /// the header. The engine is the beam's one engine.
    pub fn reserve(
        alloc: Global,
        engine: Engine,
        shape: RingShape,
        header: &Header,
    ) -> Result<BeamSpace, Memory>
        requires ring { IsRing shape }
        requires alone { shape.readers ≡ 1 }
        ensures { IfOk result (IsBeamSpace engine shape header.now) }
    {
        let bank = bank_of(alloc, engine)?;
        let lone = LoneSpace::reserve(alloc, bank, shape, header)?;
        Ok(BeamSpace { lone })
    }

    /// The beam of this space and of a feeder at rest whose first header was accepted. It takes no memory.
    pub fn beam<'a>(self, feeder: FeederSpace<'a>) -> Beam<'a>
        requires ready { (told : Told) × IsBeamReady told self feeder }
        ensures begins { (told : Told) → IsBeamReady told self feeder.entry
            → BeamBegins told result }
        ensures feeder { feeder_in result ≡ feeder.entry }
        ensures engine { engines_in result ≡ engines_held self }
    {
        Beam {
            lone: self.lone.session(feeder),
        }
    }
}
