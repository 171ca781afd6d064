// The space of a stage, and the stage that is made of it.
ghost use Rattle.std.specs.Prelude.{◌≡◌, ◌≤◌, ◌<◌, All, IfOk, IsSomeAnd, length, vec_len};
ghost use Rattle.ring_words.specs.Shape.{IsRing};
ghost use Rattle.search_session.specs.Stages.{StageOn, IsEmptyHand};

use crate::rings::open_rings;
use arrayvec::ArrayVec;
use dada_hdu::{HEADER_SPACE, Hdu, HduReader, HduWriter};
use dada_header::Header;
use dada_recorder::Recorder;
use disk_feeder::Feeder;
use psr_base::{Files, Inputs, Memory};
use ring_words::{MOST_READERS, RingShape};
use search_model::MOST_SHARDS;
use search_session::{Bank, Hand, Stage};
use std::alloc::Global;

// The number of bytes of a shard's space: room for a header, and also for a block of data if the rings have other
// readers, so that the shard can copy the block and give it back before it searches it.
fn space_size(shape: RingShape) -> u32
    ensures header { 65537 ≤ result }
    ensures block { 1 < shape.readers → shape.size ≤ result }
{
    if shape.readers > 1 {
        HEADER_SPACE.max(shape.size)
    } else {
        HEADER_SPACE
    }
}

// `count` spaces of `size` bytes.
fn open_spaces(
    alloc: Global,
    count: usize,
    size: u32,
) -> Result<ArrayVec<Option<Vec<u8>>, MOST_SHARDS>, Memory>
    requires few { count ≤ 7 }
    requires size { 65537 ≤ size }
    ensures count { IfOk result (λ spaces. length spaces.items ≡ count) }
    ensures room { IfOk result (λ spaces.
        All (λ slot. IsSomeAnd slot (λ space. 65537 ≤ vec_len space)) spaces.items) }
{
    let mut spaces = ArrayVec::new();
    for _space in 0..count {
        let space = vec![in alloc; 0u8; size as usize]?;
        spaces.push(Some(space));
    }
    Ok(spaces)
}

// `count` empty hands.
fn open_hands<'a, I: Inputs, F: Files>(
    alloc: Global,
    count: u32,
) -> Result<Vec<Hand<'a, I, F>>, Memory>
    ensures count { IfOk result (λ hands. length hands.items ≡ count) }
    ensures empty { IfOk result (λ hands. All IsEmptyHand hands.items) }
{
    let mut hands = Vec::new(alloc);
    for _hand in 0..count {
        hands.push(Hand::empty())?;
    }
    Ok(hands)
}

/// The space of a stage: the rings, with the first header sealed, the banks, a space for each, and the hands. It is all
/// memory of a session except that of its feeder and its recorder.
#[derive(Drop)]
pub struct StageSpace<'a, I, F> {
    hdu: Hdu,
    writer: HduWriter,
    readers: ArrayVec<Option<HduReader>, MOST_READERS>,
    banks: ArrayVec<Option<Bank>, MOST_SHARDS>,
    spaces: ArrayVec<Option<Vec<u8>>, MOST_SHARDS>,
    hands: Vec<Hand<'a, I, F>>,
}

impl<'a, I: Inputs, F: Files> StageSpace<'a, I, F> {
    ghost use Rattle.search_opening.specs.Space.{IsSpaceOf, banks_in, hands_in, AreStaged};

    /// Takes all space, and seals the header: for rings of this shape, for these banks, which may be none, and for
    /// `hands` hands.
    pub fn reserve(
        alloc: Global,
        banks: ArrayVec<Option<Bank>, MOST_SHARDS>,
        shape: RingShape,
        header: &Header,
        hands: u32,
    ) -> Result<StageSpace<'a, I, F>, Memory>
        requires ring { IsRing shape }
        requires hands { 1 ≤ hands }
        ensures space { IfOk result (λ space. IsSpaceOf banks shape header.now space) }
        ensures hands { IfOk result (λ space. hands_in space ≡ hands) }
    {
        let (hdu, writer, readers) = open_rings(alloc, shape, header)?;
        let spaces = open_spaces(alloc, banks.len(), space_size(shape))?;
        let hands = open_hands(alloc, hands)?;
        Ok(StageSpace {
            hdu,
            writer,
            readers,
            banks,
            spaces,
            hands,
        })
    }

    /// The stage of a session with this feeder, and with this recorder if there is one.
    pub fn stage(self, feeder: Feeder<'a, I>, recorder: Option<Recorder<'a, F>>) -> Stage<'a, I, F>
        requires { AreStaged I.told I.is_open F.is_open self feeder recorder }
        ensures on { StageOn I.told I.is_open F.is_open result }
        ensures feeder { result.feeder ≡ feeder.entry }
        ensures recorder { result.recorder ≡ recorder.entry }
        ensures banks { result.banks ≡ banks_in self.entry }
    {
        let StageSpace {
            hdu,
            writer,
            readers,
            banks,
            spaces,
            hands,
        } = self;
        Stage {
            feeder,
            banks,
            recorder,
            hdu,
            writer,
            readers,
            spaces,
            hands,
        }
    }
}
