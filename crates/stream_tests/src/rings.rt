// Both rings of a case of a feeder or a recorder.
ghost use Rattle.std.specs.Prelude.{◌≡◌, [], IfSome};
ghost use Rattle.ring_words.specs.Shape.{IsRing};
ghost use Rattle.dada_hdu.specs.Passes.{WritesBoth, ReadsBoth, data_shape};
ghost use Rattle.disk_feeder.specs.Turns.{sealed_headers, sealed_blocks};

use dada_hdu::{Hdu, HduReader, HduWriter, RingShape};
use std::alloc::Global;

/// Both rings, of which nothing was sealed, and the passes of their writer and of their reader.
#[derive(Drop)]
pub(crate) struct Rings {
    pub(crate) hdu: Hdu,
    pub(crate) pass: HduWriter,
    pub(crate) reader: HduReader,
    ghost writes: { WritesBoth hdu pass },
    ghost reads: { ReadsBoth hdu reader },
    ghost no_header: { sealed_headers pass ≡ [] },
    ghost no_block: { sealed_blocks pass ≡ [] },
}

pub(crate) fn open_rings(alloc: Global, shape: RingShape) -> Option<Rings>
    requires { IsRing shape }
    ensures { IfSome result (λ r. data_shape r.hdu ≡ shape) }
{
    let Ok((hdu, pass, mut readers)) = Hdu::open(alloc, shape) else {
        return None;
    };
    let reader = readers.remove(0)?;
    Some(Rings { hdu, pass, reader })
}
