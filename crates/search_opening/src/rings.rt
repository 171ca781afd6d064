// The rings of a run.
ghost use Rattle.std.specs.Prelude.{◌≡◌, ◌+◌, ◌*◌, ◌^◌, ◌≤◌, IfOk};
ghost use Rattle.ring_words.specs.Shape.{IsRing};
ghost use Rattle.search_opening.specs.Rings.{run_shape as run_shape_of, AreOpened};

use arrayvec::ArrayVec;
use dada_hdu::{Hdu, HduReader, HduWriter};
use dada_header::Header;
use psr_base::Memory;
use ring_words::{MOST_READERS, RingShape};
use std::alloc::Global;

/// The shape of a run's data ring. At most `max_bytes` data bytes, in `transfers` transfers, are sealed in blocks of
/// `size` bytes. All its blocks together have at most 2^48 + 2^28 bytes.
pub fn run_shape(buffers: u32, size: u32, readers: u32, max_bytes: u64, transfers: u32) -> RingShape
    requires buffers { (2 ≤ buffers) × (buffers ≤ 64) }
    requires size { (1 ≤ size) × (size ≤ 2 ^ 24) }
    requires readers { (1 ≤ readers) × (readers ≤ 8) }
    requires limit { max_bytes ≤ 2 ^ 48 }
    requires few { transfers ≤ 8 }
    ensures shape { result ≡ run_shape_of buffers size readers max_bytes transfers }
    ensures ring { IsRing result }
    ensures total { size * result.max_blocks ≤ 2 ^ 48 + 2 ^ 28 }
{
    RingShape {
        buffers,
        size,
        readers,
        max_blocks: max_bytes / u64::from(size) + u64::from(transfers) + 1,
    }
}

/// Opens the rings of a run and seals the first header. No reader has read it yet.
pub(crate) fn open_rings(
    alloc: Global,
    shape: RingShape,
    header: &Header,
) -> Result<(Hdu, HduWriter, ArrayVec<Option<HduReader>, MOST_READERS>), Memory>
    requires { IsRing shape }
    ensures { IfOk result (λ r. AreOpened shape header.now r.0 r.1 r.2.items) }
{
    let (hdu, mut writer, readers) = Hdu::open(alloc, shape)?;
    // The first block of a ring finds room.
    let _sealed = hdu.write_header(&mut writer, header);
    Ok((hdu, writer, readers))
}
