//! A feeder that takes turns.
ghost use Rattle.std.specs.Prelude.{◌≡◌, None};

use dada_hdu::{Hdu, HduWriter};
use disk_feeder::{FeedEnd, FeedTurn, Feeder};
use psr_base::Inputs;
use session_readers::pause;

/// The feeder of a session, and the pass by which it seals.
#[derive(Drop)]
pub struct FeedActor<'a, I> {
    /// What reads the files.
    pub part: Feeder<'a, I>,
    /// Its pass of both rings.
    pub pass: HduWriter,
    /// How many turns it took. The count stops at the largest u64.
    pub turns: u64,
    /// How it ended, once it has.
    pub end: Option<FeedEnd>,
}

impl<'a, I: Inputs> FeedActor<'a, I> {
    ghost use Rattle.search_session.specs.Feeds.{FeedOn, FeedMoved};

    /// Takes one turn: it seals one block, or finds the ring full and pauses.
    pub fn turn(&mut self, hdu: &Hdu)
        requires on { FeedOn I.told I.is_open hdu.now self.old }
        requires running { self.old.end ≡ None }
        ensures on { FeedOn I.told I.is_open hdu.now self.new }
        ensures moved { FeedMoved I.told I.is_calm I.faults 1 self.old self.new }
    {
        self.turns = self.turns.saturating_add(1);
        match self.part.turn(hdu, &mut self.pass) {
            FeedTurn::Moved => {}
            FeedTurn::Waiting { .. } => pause(),
            FeedTurn::Ended(end) => self.end = Some(end),
        }
    }

    // Whether a turn may seal a block at this moment: the data ring has room for one.
    pub(crate) fn could_move(&self, hdu: &Hdu) -> bool {
        self.end.is_none() && hdu.has_room(&self.pass)
    }
}
