//! The parts of a session before its first turn.
use crate::hand::Hand;
use arrayvec::ArrayVec;
use dada_hdu::{Hdu, HduReader, HduWriter};
use dada_recorder::Recorder;
use disk_feeder::Feeder;
use ring_words::MOST_READERS;
use search_model::MOST_SHARDS;
use session_readers::Bank;

/// The parts of a session before its first turn. Each slot is `Some`, and the hands are empty.
#[derive(Drop)]
pub struct Stage<'a, I, F> {
    /// The feeder, before its first turn.
    pub feeder: Feeder<'a, I>,
    /// Bank s has the engines of shard s.
    pub banks: ArrayVec<Option<Bank>, MOST_SHARDS>,
    /// The recorder, if there is one.
    pub recorder: Option<Recorder<'a, F>>,
    /// Both rings.
    pub hdu: Hdu,
    /// The feeder's pass.
    pub writer: HduWriter,
    /// Reader s is that of shard s; the one after those of the banks is the recorder's, if there is one.
    pub readers: ArrayVec<Option<HduReader>, MOST_READERS>,
    /// Shard s reads to space s, which has room for at least 65537 bytes. If it has room for a block, each block that
    /// ends past the engine's chunk is copied there, and given back before it is searched.
    pub spaces: ArrayVec<Option<Vec<u8>>, MOST_SHARDS>,
    /// The hands that the actors come to.
    pub hands: Vec<Hand<'a, I, F>>,
}
