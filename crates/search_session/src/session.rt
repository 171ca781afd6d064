//! A session: rounds until all have ended.
ghost use Rattle.std.specs.Prelude.{◌≡◌, ℕ, ◌*◌, ◌<◌, ◌≤◌, All, Some, None, length, min, slice_get};
ghost use Rattle.disk_feeder.specs.Feeder.{FeederFaultless};
ghost use Rattle.disk_feeder.specs.Turns.{sealed_headers};
ghost use Rattle.search_session.specs.declared.hand.Hand.{Hand as Working};
ghost use Rattle.search_session.specs.declared.feed.FeedActor.{FeedActor as Feeding};
ghost use Rattle.session_readers.specs.declared.shard.ShardActor.{ShardActor as Shard};
ghost use Rattle.session_readers.specs.declared.record.RecordActor.{RecordActor as Recording};
ghost use Rattle.search_session.specs.Hands.{HandOn, HandMoved, HandRetired, HandEnded, EachMoved};
ghost use Rattle.session_readers.specs.Shards.{shard_number};
ghost use Rattle.search_session.specs.Gathering.{recorder_in};
ghost use Rattle.search_session.specs.Stages.{StageOn, IsInHand, transfers_of};
ghost use Rattle.search_session.specs.Books.{AreCounted};
ghost use Rattle.search_session.specs.Ends.{HaveActors, HaveEnginesIn};
ghost use Rattle.search_session.specs.Recorded.{HasNoRecording, RecordedAnswers};
ghost use Rattle.search_session.specs.Sessions.{FeedAnswers, ShardAnswers, IsEndOfFeeder, IsEndOf, IsEndOfRecorder};

use crate::ended::{SessionEnd, finish};
use crate::gate::Gate;
use crate::gathering::{gather, take_feeder, take_recorder};
use crate::hand::Hand;
use crate::rounds::{all_ended, round_and_retire};
use crate::staff::staff;
use crate::stage::Stage;
use crate::waiting::can_start_thread;
use dada_hdu::Hdu;
use psr_base::{Files, Inputs};
use std::sync::Wait;
use std::thread::Threads;
use std::time::Clock;
// Laws: they do nothing when they run, and the proofs use what they ensure.
use dada_recorder::recordings_end;
use disk_feeder::{faults_leave, feeders_end, headers_are_first};
use stream_model::{bytes_are_joined, ends_are_counted, streams_have_transfers};

/// The first round has this many times the turns that a session is given, up to `MOST_TURNS`.
const FIRST: u32 = 16;

/// Each later round has this many times the turns of the one before it. At the end of a round the ring runs empty and
/// new threads begin, which takes some milliseconds.
const GROWTH: u32 = 8;

/// From this many turns on rounds grow no longer: their ends cost little by then. A hand that waited in vain takes the
/// rest of its turns without a wait, each in about the time of a look, so it is soon through.
const LONG_ROUND: u32 = 32_768;

/// The largest number of turns of a round, whatever number a session is given.
const MOST_TURNS: u32 = GROWTH * LONG_ROUND;

/// If some hand finds no thread of its own, this many rounds go on in one thread before threads are tried again.
const SINGLE_ROUNDS: u32 = 1024;

/// The number of turns of a round that tries whether threads can be had again: hands wait only before the second one.
const TRIAL: u32 = 2;

/// How the rounds of a session go on. `turns` is the length of the next threaded round; `single` rounds come before it,
/// in which the hands take one turn each, one after another in one thread.
#[derive(Clone, Copy, Drop)]
struct Pace {
    turns: u32,
    single: u32,
}

// The length of the first round of a session that is given `turns` turns.
fn first_round(turns: u32) -> u32
    ensures { result ≡ min MOST_TURNS (FIRST * turns) }
{
    turns.saturating_mul(FIRST).min(MOST_TURNS)
}

// The length of the round after one of `turns` turns.
fn next_round(turns: u32) -> u32
    ensures short { turns < LONG_ROUND → result ≡ GROWTH * turns }
    ensures long { LONG_ROUND ≤ turns → result ≡ turns }
{
    if turns < LONG_ROUND {
        GROWTH * turns
    } else {
        turns
    }
}

impl Pace {
    // The rounds from a threaded round of `turns` turns on. Without threads, `SINGLE_ROUNDS` rounds on one thread come
    // first.
    fn new(turns: u32, has_threads: bool) -> Pace {
        Pace {
            turns,
            single: if has_threads { 0 } else { SINGLE_ROUNDS },
        }
    }

    // The length of the next round, in turns.
    fn turns_now(&self) -> u32
        ensures beside { self.now.single ≡ 0 → result ≡ self.now.turns }
        ensures single { 0 < self.now.single → result ≡ min 1 self.now.turns }
    {
        if self.single == 0 {
            self.turns
        } else {
            self.turns.min(1)
        }
    }

    // How many threads `hands` hands have in the next round.
    fn threads_now(&self, hands: usize) -> usize
        ensures { 0 < result }
    {
        if self.single == 0 { hands.max(1) } else { 1 }
    }

    // The rounds after the next one. If a hand had no thread of its own in it, the hands go on in one thread for some
    // rounds.
    fn after<R: Threads>(self, rt: &R, had_threads: bool) -> Pace {
        if self.single > 1 {
            return Pace {
                turns: self.turns,
                single: self.single - 1,
            };
        }
        if self.single == 1 {
            return Pace::new(self.turns, can_start_thread(rt));
        }
        if had_threads {
            Pace::new(next_round(self.turns), true)
        } else {
            Pace::new(TRIAL, false)
        }
    }
}

// The rounds of a session of `hands` hands, the first of `turns` turns.
fn first_pace<R: Threads>(rt: &R, hands: usize, turns: u32) -> Pace {
    Pace::new(turns, hands <= 1 || can_start_thread(rt))
}

// Drives rounds until all actors have ended, the first of `turns` turns. After each round the writer no longer waits
// for those that ended.
fn run_rounds<I: Inputs + Send, F: Files + Send, G: Gate + Sync, R: Threads + Wait + Clock + Sync>(
    rt: &R,
    hands: &mut [Hand<'_, I, F>],
    hdu: &Hdu,
    turns: u32,
    gate: &G,
)
    requires { All (HandOn I.told I.is_open F.is_open hdu.now) hands.old }
    ensures on { All (HandOn I.told I.is_open F.is_open hdu.now) hands.new }
    ensures ended { All HandEnded hands.new }
    ensures retired { All HandRetired hands.new }
    ensures moved { (n : ℕ) × EachMoved (HandMoved I.told I.is_calm I.faults F.seen n)
        hands.old hands.new }
{
    let mut pace = first_pace(rt, hands.len(), turns);
    for _round in rt.forever() {
        let now = pace.turns_now();
        let threads = pace.threads_now(hands.len());
        let had_threads = round_and_retire(rt, hands, hdu, now, gate, threads);
        if all_ended(hands) {
            return;
        }
        pace = pace.after(rt, had_threads);
    }
    unreachable!()
}

// Ends a session whose actors have all ended.
fn end_session<'a, I: Inputs, F: Files>(
    hdu: Hdu,
    hands: &mut [Hand<'a, I, F>],
    shards: usize,
) -> SessionEnd<'a, I, F>
    requires on { All (HandOn I.told I.is_open F.is_open hdu) hands.old }
    requires ended { All HandEnded hands.old }
    requires actors { HaveActors hdu hands.old shards }
    ensures feeder { (h : Working I F) (f : Feeding I) → slice_get hands.old 0 ≡ Some h
        → h.feeder ≡ Some f → IsEndOfFeeder result f }
    ensures counted { (transfers : ℕ) → HaveEnginesIn hands.old shards transfers
        → AreCounted shards transfers result.books.items result.spectra.items }
    ensures shards { (s : ℕ) → s < shards → (x : Shard) × IsInHand hands.old x
        × (shard_number x ≡ s) × IsEndOf result s x }
    ensures recorder { (h : Working I F) (f : Feeding I) (x : Recording F)
        → slice_get hands.old 0 ≡ Some h → h.feeder ≡ Some f → recorder_in hands.old ≡ Some x
        → IsEndOfRecorder result shards (sealed_headers f.pass) x }
    ensures no_recorder { recorder_in hands.old ≡ None → HasNoRecording result }
{
    let feeder = take_feeder(hands);
    let recorder = take_recorder(hands);
    let shards = gather(hands, shards);
    finish(hdu, feeder, shards, recorder)
}

/// Drives a stage to its end, and answers how each part ended. Rounds follow one another until all have ended, which no
/// clause promises; with no turns they never do. The first round has `16 * turns` turns, but at most 262144. Each later
/// one has eight times as many as the one before it, until one has 32768 or more. No clause of this call says how many
/// turns there are, since no result rests on it. After each round the writer no longer waits for the shards that ended,
/// nor for the recorder if it ended. If a hand finds no thread of its own, the next 1024 rounds go on in one thread,
/// with one turn each, and then threads are tried again.
pub fn run_session<
    'a,
    I: Inputs + Send,
    F: Files + Send,
    G: Gate + Sync,
    R: Threads + Wait + Clock + Sync,
>(rt: &R, stage: Stage<'a, I, F>, turns: u32, gate: &G) -> SessionEnd<'a, I, F>
    requires stage { StageOn I.told I.is_open F.is_open stage }
    requires faultless { FeederFaultless stage.feeder }
    ensures feed { FeedAnswers I.told I.is_calm I.faults stage.entry.feeder result }
    ensures shards { ShardAnswers (transfers_of stage.entry) stage.entry.banks.items result }
    ensures recorded { RecordedAnswers F.is_open F.seen stage.entry.feeder stage.entry.recorder
        (length stage.entry.banks.items) result }
{
    feeders_end::<I>();
    headers_are_first::<I>();
    faults_leave::<I>();
    recordings_end();
    bytes_are_joined();
    ends_are_counted();
    streams_have_transfers();
    let shards = stage.banks.len();
    let (hdu, mut hands) = staff(stage);
    run_rounds(rt, hands.as_mut_slice(), &hdu, first_round(turns), gate);
    end_session(hdu, hands.as_mut_slice(), shards)
}
