//! The actors of a session leave their hands.
ghost use Rattle.std.specs.Prelude.{◌≡◌, ℕ, ◌<◌, ◌≤◌, Some, length, slice_get};
ghost use Rattle.session_readers.specs.Shards.{shard_number};
ghost use Rattle.search_session.specs.Gathering.{is_numbered, HasNumber, GivesShard, GivesRecorder, recorder_in};
ghost use Rattle.search_session.specs.Stages.{HasShard, LeavesHand, GivesFeeder, AreGathered};

use crate::feed::FeedActor;
use crate::hand::Hand;
use arrayvec::ArrayVec;
use search_model::MOST_SHARDS;
use session_readers::{RecordActor, ShardActor};
use std::mem;

// Whether the shard of a slot has this number.
fn has_number(slot: &Option<ShardActor>, number: u32) -> bool
    ensures { result ≡ is_numbered number slot.now }
{
    match slot {
        Some(shard) => shard.pass.number() == number,
        None => false,
    }
}

// Where the shard with this number is.
fn place_of(slots: &[Option<ShardActor>], number: u32) -> usize
    requires { HasNumber slots.now number }
    ensures within { result < length slots.now }
    ensures there { (x : _) × (slice_get slots.now result ≡ Some (Some x))
        × (shard_number x ≡ number) }
{
    for place in 0..slots.len() {
        if has_number(&slots[place], number) {
            return place;
        }
    }
    unreachable!()
}

// Takes the shard with this number out of its slot.
fn take_shard(slots: &mut [Option<ShardActor>], number: u32) -> ShardActor
    requires { HasNumber slots.old number }
    ensures { GivesShard slots.old number result slots.new }
{
    let place = place_of(slots, number);
    let Some(shard) = mem::replace(&mut slots[place], None) else {
        unreachable!()
    };
    shard
}

// Takes the feeder out of its hand.
pub(crate) fn take_feeder<'a, I, F>(hands: &mut [Hand<'a, I, F>]) -> FeedActor<'a, I>
    requires { (h : _) × (f : _) × (slice_get hands.old 0 ≡ Some h) × (h.feeder ≡ Some f) }
    ensures { GivesFeeder hands.old result hands.new }
{
    let Some(feeder) = mem::replace(&mut hands[0].feeder, None) else {
        unreachable!()
    };
    feeder
}

// Takes the recorder out of its hand, if there is one.
pub(crate) fn take_recorder<'a, I, F>(hands: &mut [Hand<'a, I, F>]) -> Option<RecordActor<'a, F>>
    requires { 0 < length hands.old }
    ensures gives { GivesRecorder hands.old result hands.new }
    ensures is { result ≡ recorder_in hands.old }
{
    let place = 8 % hands.len();
    mem::replace(&mut hands[place].recorder, None)
}

// Takes the shard with this number out of the hand at a place.
fn take_from<I, F>(hands: &mut [Hand<'_, I, F>], place: usize, number: u32) -> ShardActor
    requires { (h : _) × (slice_get hands.old place ≡ Some h) × HasNumber h.shards.items number }
    ensures { LeavesHand hands.old place number result hands.new }
{
    take_shard(hands[place].shards.as_mut_slice(), number)
}

// Takes `count` shards out of their hands, in order.
pub(crate) fn gather<I, F>(
    hands: &mut [Hand<'_, I, F>],
    count: usize,
) -> ArrayVec<Option<ShardActor>, MOST_SHARDS>
    requires some { 0 < length hands.old }
    requires few { count ≤ 7 }
    requires shards { (s : ℕ) → s < count → HasShard hands.old s }
    ensures { AreGathered hands.old count result.items }
{
    let mut shards = ArrayVec::new();
    for s in 0..count {
        let place = (s + 1) % hands.len();
        shards.push(Some(take_from(hands, place, s as u32)));
    }
    shards
}
