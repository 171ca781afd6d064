//! A hand: actors that take turns one after another, in a thread of their own.
ghost use Rattle.std.specs.Prelude.{◌≡◌, ◌↔◌, true, None, [], IfSome, IsSome, IsTrue};
ghost use Rattle.search_session.specs.Feeds.{FeedOn, FeedMoved};
ghost use Rattle.session_readers.specs.Shards.{IsRetired, ShardOn, ShardMoved};
ghost use Rattle.session_readers.specs.Records.{RecordOn, RecordMoved};

use crate::feed::FeedActor;
use crate::gate::Gate;
use crate::waiting::Watch;
use arrayvec::ArrayVec;
use dada_hdu::Hdu;
use psr_base::{Files, Inputs};
use search_model::MOST_SHARDS;
use session_readers::{RecordActor, ShardActor, pause};
use std::thread::Threads;
use std::time::{Clock, Duration};
use std::{mem, thread};

/// The number by which a gate knows the feeder; shard s is actor s + 1.
const FEEDER: u32 = 0;

/// The number by which a gate knows the recorder.
const RECORDER: u32 = 8;

/// How often a hand looks for a block or for room, unless it finds earlier that all hands wait in vain. Together its
/// looks take longer than a turn of a shard should.
const LOOKS: u32 = 100_000;

/// After this many looks a hand sleeps before each further one. Until then a look takes about a microsecond, and the
/// hand keeps its core, which another hand may want.
const LOOKS_AWAKE: u32 = 50;

/// How many microseconds a hand sleeps before such a look. The system adds some 50.
const NAP: u64 = 20;

// Rests before a look of a hand that waits.
fn rest<C: Clock>(clock: &C, look: u32) {
    if look < LOOKS_AWAKE {
        pause();
    } else {
        thread::sleep(clock, Duration::from_micros(NAP));
    }
}

/// The actors that one thread drives. Each shard is `Some`.
#[derive(Drop)]
pub struct Hand<'a, I, F> {
    /// The feeder, if this thread drives it.
    pub feeder: Option<FeedActor<'a, I>>,
    /// The shards that this thread drives.
    pub shards: ArrayVec<Option<ShardActor>, MOST_SHARDS>,
    /// The recorder, if this thread drives it.
    pub recorder: Option<RecordActor<'a, F>>,
}

// Takes a turn of the feeder of a slot, unless it ended.
fn turn_feeder<I: Inputs, G: Gate>(slot: &mut Option<FeedActor<'_, I>>, hdu: &Hdu, gate: &G)
    requires { IfSome slot.old (FeedOn I.told I.is_open hdu.now) }
    ensures on { IfSome slot.new (FeedOn I.told I.is_open hdu.now) }
    ensures moved { SlotMoved (FeedMoved I.told I.is_calm I.faults 1) slot.old slot.new }
{
    let Some(feeder) = slot else { return };
    if feeder.end.is_some() {
        return;
    }
    gate.pass(FEEDER, feeder.turns);
    feeder.turn(hdu);
}

// Takes a turn of the shard of a slot, unless it ended.
fn turn_shard<G: Gate>(slot: &mut Option<ShardActor>, hdu: &Hdu, gate: &G)
    requires { IfSome slot.old (ShardOn hdu.now) }
    ensures on { IfSome slot.new (ShardOn hdu.now) }
    ensures moved { SlotMoved (ShardMoved 1) slot.old slot.new }
{
    let Some(shard) = slot else { return };
    if shard.ended {
        return;
    }
    gate.pass(shard.pass.number() + 1, shard.turns);
    shard.turn(hdu);
}

// Takes a turn of each shard that has not ended.
fn turn_shards<G: Gate>(slots: &mut [Option<ShardActor>], hdu: &Hdu, gate: &G)
    requires { ShardsOn hdu.now slots.old }
    ensures on { ShardsOn hdu.now slots.new }
    ensures moved { ShardsMoved 1 slots.old slots.new }
{
    for place in 0..slots.len() {
        turn_shard(&mut slots[place], hdu, gate);
    }
}

// Takes a turn of the recorder of a slot, unless it ended.
fn turn_recorder<F: Files, G: Gate>(slot: &mut Option<RecordActor<'_, F>>, hdu: &Hdu, gate: &G)
    requires { IfSome slot.old (RecordOn F.is_open hdu.now) }
    ensures on { IfSome slot.new (RecordOn F.is_open hdu.now) }
    ensures moved { SlotMoved (RecordMoved F.seen 1) slot.old slot.new }
{
    let Some(recorder) = slot else { return };
    if recorder.end.is_some() {
        return;
    }
    gate.pass(RECORDER, recorder.turns);
    recorder.turn(hdu);
}

// Retires the recorder of a slot, if it ended.
fn retire_recorder<F: Files>(slot: &mut Option<RecordActor<'_, F>>, hdu: &Hdu)
    requires { IfSome slot.old (RecordOn F.is_open hdu.now) }
    ensures on { IfSome slot.new (RecordOn F.is_open hdu.now) }
    ensures moved { SlotMoved (RecordMoved F.seen 0) slot.old slot.new }
    ensures retired { IfSome slot.new (λ x. IsSome x.end → IsRetired x.pass) }
{
    let Some(recorder) = mem::replace(slot, None) else {
        return;
    };
    let _none = mem::replace(slot, Some(recorder.retired(hdu)));
}

// Retires the shard of a slot, if it ended.
fn retire_shard(slot: &mut Option<ShardActor>, hdu: &Hdu)
    requires { IfSome slot.old (ShardOn hdu.now) }
    ensures on { IfSome slot.new (ShardOn hdu.now) }
    ensures moved { SlotMoved (ShardMoved 0) slot.old slot.new }
    ensures retired { IfSome slot.new (λ x. x.ended ≡ true → IsRetired x.pass) }
{
    let Some(shard) = mem::replace(slot, None) else {
        return;
    };
    *slot = Some(shard.retired(hdu));
}

// Retires each shard that ended.
fn retire_shards(slots: &mut [Option<ShardActor>], hdu: &Hdu)
    requires { ShardsOn hdu.now slots.old }
    ensures on { ShardsOn hdu.now slots.new }
    ensures moved { ShardsMoved 0 slots.old slots.new }
    ensures retired { ShardsRetired slots.new }
{
    for place in 0..slots.len() {
        retire_shard(&mut slots[place], hdu);
    }
}

// Whether the shard of a slot ended, if there is one.
fn shard_ended(slot: &Option<ShardActor>) -> bool
    ensures { IsTrue result ↔ IfSome slot.now (λ x. x.ended ≡ true) }
{
    match slot {
        Some(shard) => shard.ended,
        None => true,
    }
}

// Whether all shards ended.
fn shards_ended(slots: &[Option<ShardActor>]) -> bool
    ensures { IsTrue result ↔ ShardsEnded slots.now }
{
    for place in 0..slots.len() {
        if !shard_ended(&slots[place]) {
            return false;
        }
    }
    true
}

// Whether a turn of the shard of a slot may read a block at this moment.
fn shard_could_move(slot: &Option<ShardActor>, hdu: &Hdu) -> bool
    requires { IfSome slot.now (ShardOn hdu.now) }
{
    match slot {
        Some(shard) => shard.could_move(hdu),
        None => false,
    }
}

// Whether a turn of some shard may read a block at this moment.
fn shards_could_move(slots: &[Option<ShardActor>], hdu: &Hdu) -> bool
    requires { ShardsOn hdu.now slots.now }
{
    for place in 0..slots.len() {
        if shard_could_move(&slots[place], hdu) {
            return true;
        }
    }
    false
}

ghost use Rattle.search_session.specs.Hands.{SlotMoved, ShardsOn, ShardsMoved, ShardsRetired, ShardsEnded};

impl<'a, I: Inputs, F: Files> Hand<'a, I, F> {
    ghost use Rattle.search_session.specs.Hands.{HandOn, HandMoved, HandRetired, HandEnded};

    /// A hand without actors.
    pub fn empty() -> Hand<'a, I, F>
        ensures feeder { result.feeder ≡ None }
        ensures shards { result.shards.items ≡ [] }
        ensures recorder { result.recorder ≡ None }
    {
        Hand {
            feeder: None,
            shards: ArrayVec::new(),
            recorder: None,
        }
    }

    // Takes a turn of each actor that has not ended.
    fn turn<G: Gate>(&mut self, hdu: &Hdu, gate: &G)
        requires { HandOn I.told I.is_open F.is_open hdu.now self.old }
        ensures on { HandOn I.told I.is_open F.is_open hdu.now self.new }
        ensures moved { HandMoved I.told I.is_calm I.faults F.seen 1 self.old self.new }
    {
        turn_feeder(&mut self.feeder, hdu, gate);
        turn_shards(self.shards.as_mut_slice(), hdu, gate);
        turn_recorder(&mut self.recorder, hdu, gate);
    }

    // Takes `turns` turns of each actor, fewer of one that ends. Before each turn but the first it waits for what
    // others are about to seal or to clear, until it has waited in vain. The hand is at place `place` of its round.
    pub(crate) fn drive<G: Gate, R: Threads + Clock>(
        &mut self,
        rt: &R,
        hdu: &Hdu,
        turns: u32,
        gate: &G,
        place: usize,
        watch: &Watch,
    )
        requires { HandOn I.told I.is_open F.is_open hdu.now self.old }
        ensures on { HandOn I.told I.is_open F.is_open hdu.now self.new }
        ensures moved { HandMoved I.told I.is_calm I.faults F.seen turns self.old self.new }
    {
        watch.begin(place);
        let mut waits = true;
        for turn in 0..turns {
            if waits && turn > 0 {
                waits = self.has_ended() || self.waits_for_work(rt, hdu, place, watch);
            }
            self.turn(hdu, gate);
        }
        watch.end(place);
    }

    // Whether a turn of an actor may write or read a block at this moment.
    fn could_move(&self, hdu: &Hdu) -> bool
        requires { HandOn I.told I.is_open F.is_open hdu.now self.now }
    {
        self.feeder_could_move(hdu)
            || shards_could_move(self.shards.as_slice(), hdu)
            || self.recorder_could_move(hdu)
    }

    // Waits until an actor could move, unless all hands wait in vain. Answers whether an actor could move.
    fn waits_for_work<R: Threads + Clock>(
        &self,
        rt: &R,
        hdu: &Hdu,
        place: usize,
        watch: &Watch,
    ) -> bool
        requires { HandOn I.told I.is_open F.is_open hdu.now self.now }
    {
        if self.could_move(hdu) {
            return true;
        }
        watch.leave();
        let found = self.looks_for_work(rt, hdu, place, watch);
        watch.come_back();
        found
    }

    // Looks for work, as a hand that is not at work does. Answers whether an actor could move.
    fn looks_for_work<R: Threads + Clock>(
        &self,
        rt: &R,
        hdu: &Hdu,
        place: usize,
        watch: &Watch,
    ) -> bool
        requires { HandOn I.told I.is_open F.is_open hdu.now self.now }
    {
        let mut note = None;
        for look in 0..LOOKS {
            rest(rt, look);
            if self.could_move(hdu) {
                return true;
            }
            watch.ask_for_unbegun(rt, look);
            if watch.is_in_vain(place, &mut note) {
                return false;
            }
        }
        false
    }

    // Retires each shard that ended, and the recorder if it ended.
    pub(crate) fn retire(&mut self, hdu: &Hdu)
        requires { HandOn I.told I.is_open F.is_open hdu.now self.old }
        ensures on { HandOn I.told I.is_open F.is_open hdu.now self.new }
        ensures moved { HandMoved I.told I.is_calm I.faults F.seen 0 self.old self.new }
        ensures retired { HandRetired self.new }
    {
        retire_shards(self.shards.as_mut_slice(), hdu);
        retire_recorder(&mut self.recorder, hdu);
    }

    // Whether the feeder ended, if there is one.
    fn feeder_ended(&self) -> bool
        ensures { IsTrue result ↔ IfSome self.now.feeder (λ f. IsSome f.end) }
    {
        match &self.feeder {
            Some(feeder) => feeder.end.is_some(),
            None => true,
        }
    }

    // Whether the recorder ended, if there is one.
    fn recorder_ended(&self) -> bool
        ensures { IsTrue result ↔ IfSome self.now.recorder (λ x. IsSome x.end) }
    {
        match &self.recorder {
            Some(recorder) => recorder.end.is_some(),
            None => true,
        }
    }

    // Whether all actors ended.
    pub(crate) fn has_ended(&self) -> bool
        ensures { IsTrue result ↔ HandEnded self.now }
    {
        self.feeder_ended() && self.recorder_ended() && shards_ended(self.shards.as_slice())
    }

    // Whether a turn of the feeder may seal a block at this moment.
    fn feeder_could_move(&self, hdu: &Hdu) -> bool {
        match &self.feeder {
            Some(feeder) => feeder.could_move(hdu),
            None => false,
        }
    }

    // Whether a turn of the recorder may read a block at this moment.
    fn recorder_could_move(&self, hdu: &Hdu) -> bool
        requires { HandOn I.told I.is_open F.is_open hdu.now self.now }
    {
        match &self.recorder {
            Some(recorder) => recorder.could_move(hdu),
            None => false,
        }
    }
}
