//! The space of a lone session, and the session that is made of it.
ghost use Rattle.std.specs.Prelude.{◌≡◌, IfOk};
ghost use Rattle.psr_base.specs.Told.{Told};
ghost use Rattle.ring_words.specs.Shape.{IsRing};
ghost use Rattle.search_session.specs.Lone.{AreLoneRings, IsLoneSpace, IsLoneReady, LoneBegins, bank_in, lone_bank, lone_feeder};

use crate::lone::LoneSession;
use crate::resting::RestingFeed;
use crate::staff::shard_of;
use arrayvec::ArrayVec;
use dada_hdu::{HEADER_SPACE, Hdu, HduReader, HduWriter};
use dada_header::Header;
use disk_feeder::FeederSpace;
use psr_base::Memory;
use ring_words::{MOST_READERS, RingShape};
use session_readers::Bank;
use std::alloc::Global;

// Opens rings of this shape and seals the first header. No reader has read.
fn open_rings(
    alloc: Global,
    shape: RingShape,
    header: &Header,
) -> Result<(Hdu, HduWriter, ArrayVec<Option<HduReader>, MOST_READERS>), Memory>
    requires { IsRing shape }
    ensures { IfOk result (λ r. AreLoneRings shape header.now r.0 r.1 r.2.items) }
{
    let (hdu, mut writer, readers) = Hdu::open(alloc, shape)?;
    // The first block of a ring finds room.
    let _sealed = hdu.write_header(&mut writer, header);
    Ok((hdu, writer, readers))
}

/// The space of a lone session: the rings, with the first header sealed, their one reader, the bank of its shard, and
/// the space that the shard reads headers to. It is all memory of the session except that of its feeder.
#[derive(Drop)]
pub struct LoneSpace {
    hdu: Hdu,
    writer: HduWriter,
    reader: HduReader,
    bank: Bank,
    bytes: Vec<u8>,
}

impl LoneSpace {
    /// Takes all space, for rings of this shape, which have one reader, and seals the header.
    pub fn reserve(
        alloc: Global,
        bank: Bank,
        shape: RingShape,
        header: &Header,
    ) -> Result<LoneSpace, Memory>
        requires ring { IsRing shape }
        requires alone { shape.readers ≡ 1 }
        ensures { IfOk result (IsLoneSpace bank shape header.now) }
    {
        let (hdu, writer, mut readers) = open_rings(alloc, shape, header)?;
        let bytes = vec![in alloc; 0u8; HEADER_SPACE as usize]?;
        let Some(reader) = readers.remove(0) else {
            unreachable!()
        };
        Ok(LoneSpace {
            hdu,
            writer,
            reader,
            bank,
            bytes,
        })
    }

    /// The session of this space and a feeder at rest whose first headers were accepted.
    pub fn session<'a>(self, feeder: FeederSpace<'a>) -> LoneSession<'a>
        requires ready { (told : Told) × IsLoneReady told self feeder }
        ensures begins { (told : Told) → IsLoneReady told self feeder.entry
            → LoneBegins told result }
        ensures feeder { lone_feeder result ≡ feeder.entry }
        ensures bank { lone_bank result ≡ bank_in self }
    {
        let LoneSpace {
            hdu,
            writer,
            reader,
            bank,
            bytes,
        } = self;
        let shard = shard_of(&hdu, bank, reader, bytes, 0);
        let feed = RestingFeed {
            part: feeder,
            pass: writer,
            turns: 0,
            end: None,
        };
        LoneSession { hdu, feed, shard }
    }
}
