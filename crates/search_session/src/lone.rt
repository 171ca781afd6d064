//! A session of one feeder and one shard, which take turns in one thread.
ghost use Rattle.std.specs.Prelude.{◌≡◌, ◌↔◌, [], ◌∷◌, Some, IsTrue};
ghost use Rattle.psr_base.specs.Told.{Told};
ghost use Rattle.session_readers.specs.Shards.{ShardOn, ShardMoved};
ghost use Rattle.search_session.specs.Lone.{LoneOn, LoneMoved, LoneBegins, HasLoneEnded, HasFileOpen};
ghost use Rattle.search_session.specs.LoneEnds.{IsLoneEnd, LoneAnswers};

use crate::gate::Gate;
use crate::resting::RestingFeed;
use arrayvec::ArrayVec;
use dada_hdu::{Hdu, HduEnded, HduFinished, order_is_enough};
use disk_feeder::FeedEnd;
use psr_base::Inputs;
use ring_ends::Finished;
use session_readers::{Bank, ShardActor};
use std::sync::Wait;
// A law: it does nothing when it runs, and the proofs use what it ensures.
use crate::lone_laws::lone_sessions_end;
use ring_words::MOST_READERS;

/// A session of one feeder and one shard, without hands: they take turns one after another in the thread that drives
/// it, so that a block that is sealed is read in the turn that sealed it. No turn waits. It holds no inputs: they are
/// lent to it at each turn, always the same inputs.
#[derive(Drop)]
pub struct LoneSession<'a> {
    pub(crate) hdu: Hdu,
    pub(crate) feed: RestingFeed<'a>,
    pub(crate) shard: ShardActor,
}

/// How a lone session ended.
#[derive(Drop)]
pub struct LoneEnd {
    /// How the feeder ended.
    pub feed: FeedEnd,
    /// The engines of the shard.
    pub bank: Bank,
    /// What went through the data ring.
    pub blocks: Finished,
}

// Takes a turn of a shard, unless it ended.
fn turn_shard(shard: &mut ShardActor, hdu: &Hdu)
    requires on { ShardOn hdu.now shard.old }
    ensures on { ShardOn hdu.now shard.new }
    ensures moved { ShardMoved 1 shard.old shard.new }
{
    if shard.ended {
        return;
    }
    shard.turn(hdu);
}

// The readers of rings with one reader.
fn one_reader(reader: HduEnded) -> ArrayVec<Option<HduEnded>, MOST_READERS>
    ensures { result.items ≡ Some reader ∷ [] }
{
    let mut readers = ArrayVec::new();
    readers.push(Some(reader));
    readers
}

impl<'a> LoneSession<'a> {
    /// Whether both the feeder and the shard ended.
    pub fn has_ended(&self) -> bool
        ensures { IsTrue result ↔ HasLoneEnded self.now }
    {
        self.feed.end.is_some() && self.shard.ended
    }

    /// Takes one turn: the feeder seals one block from the inputs, or finds the ring full, and then the shard reads one
    /// block, each unless it ended. `gate` is called with `actor` and the number of the turn, until both ended. Answers
    /// whether both ended.
    pub fn turn<I: Inputs, G: Gate>(&mut self, inputs: &mut I, gate: &G, actor: u32) -> bool
        requires on { LoneOn (I.told inputs.old) self.old }
        requires file { HasFileOpen I.is_open inputs.old self.old }
        ensures on { LoneOn (I.told inputs.new) self.new }
        ensures file { HasFileOpen I.is_open inputs.new self.new }
        ensures moved { LoneMoved I.told I.is_calm I.faults 1 inputs.old self.old
            inputs.new self.new }
        ensures ended { IsTrue result ↔ HasLoneEnded self.new }
    {
        if self.has_ended() {
            return true;
        }
        gate.pass(actor, self.shard.turns);
        self.feed.turn(inputs, &self.hdu);
        turn_shard(&mut self.shard, &self.hdu);
        self.has_ended()
    }

    /// Takes `turns` turns, or fewer if both ended. Answers whether both did.
    pub fn drive<I: Inputs, G: Gate>(
        &mut self,
        inputs: &mut I,
        gate: &G,
        actor: u32,
        turns: u32,
    ) -> bool
        requires on { LoneOn (I.told inputs.old) self.old }
        requires file { HasFileOpen I.is_open inputs.old self.old }
        ensures on { LoneOn (I.told inputs.new) self.new }
        ensures file { HasFileOpen I.is_open inputs.new self.new }
        ensures moved { LoneMoved I.told I.is_calm I.faults turns inputs.old self.old
            inputs.new self.new }
        ensures ended { IsTrue result ↔ HasLoneEnded self.new }
    {
        for _turn in 0..turns {
            if self.turn(inputs, gate, actor) {
                return true;
            }
        }
        self.has_ended()
    }

    /// Ends a session whose feeder and shard have ended: its engines come back. `lone_sessions_end` says what it came
    /// to since its first turn.
    pub fn close(self) -> LoneEnd
        requires on { (told : Told) × LoneOn told self }
        requires ended { HasLoneEnded self }
        ensures { IsLoneEnd self.entry result }
    {
        order_is_enough();
        let LoneSession { hdu, feed, shard } = self;
        let RestingFeed {
            part: _,
            pass,
            turns: _,
            end,
        } = feed;
        let Some(feed) = end else { unreachable!() };
        let ShardActor {
            part,
            pass: reader,
            ..
        } = shard;
        let HduFinished { header: _, blocks } = hdu.finish(pass, one_reader(reader));
        LoneEnd {
            feed,
            bank: part,
            blocks,
        }
    }
}

/// Drives a lone session from its first turn until its feeder and its shard have ended, which no clause promises, and
/// ends it.
pub fn run_alone<I: Inputs, G: Gate, R: Wait>(
    rt: &R,
    mut session: LoneSession<'_>,
    inputs: &mut I,
    gate: &G,
    actor: u32,
) -> LoneEnd
    requires begins { LoneBegins (I.told inputs.old) session }
    requires file { HasFileOpen I.is_open inputs.old session }
    ensures { LoneAnswers I.told I.is_calm I.faults session.entry inputs.old inputs.new result }
{
    lone_sessions_end::<I>();
    for _turn in rt.forever() {
        if session.turn(inputs, gate, actor) {
            return session.close();
        }
    }
    unreachable!()
}
