//! A feeder that takes turns and rests between them.
use dada_hdu::{Hdu, HduWriter};
use disk_feeder::{FeedEnd, FeedTurn, FeederSpace};
use psr_base::Inputs;
use session_readers::pause;

/// The feeder of a session to which inputs are lent at each turn; otherwise it is as `FeedActor`.
#[derive(Drop)]
pub(crate) struct RestingFeed<'a> {
    pub(crate) part: FeederSpace<'a>,
    pub(crate) pass: HduWriter,
    pub(crate) turns: u64,
    pub(crate) end: Option<FeedEnd>,
}

impl<'a> RestingFeed<'a> {
    ghost use Rattle.search_session.specs.Feeds.{FeedOn, FeedMoved};
    ghost use Rattle.search_session.specs.Lone.{feed_over};

    /// Takes one turn, unless the feeder ended: it seals one block, or finds the ring full and pauses.
    pub(crate) fn turn<I: Inputs>(&mut self, inputs: &mut I, hdu: &Hdu)
        requires on { FeedOn I.told I.is_open hdu.now (feed_over inputs.old self.old) }
        ensures on { FeedOn I.told I.is_open hdu.now (feed_over inputs.new self.new) }
        ensures moved { FeedMoved I.told I.is_calm I.faults 1 (feed_over inputs.old self.old)
            (feed_over inputs.new self.new) }
    {
        if self.end.is_some() {
            return;
        }
        self.turns = self.turns.saturating_add(1);
        match self.part.turn(inputs, hdu, &mut self.pass) {
            FeedTurn::Moved => {}
            FeedTurn::Waiting { .. } => pause(),
            FeedTurn::Ended(end) => self.end = Some(end),
        }
    }
}
