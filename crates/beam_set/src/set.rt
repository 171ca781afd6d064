// A set of beams, from their first turns to their ends.
ghost use Rattle.std.specs.Prelude.{◌≡◌, ◌*◌, ◌<◌, ◌≤◌, ℕ, All};
ghost use Rattle.beam_set.specs.Sets.{EachPair, PairsMoved, SlotOn, SlotMoved, HasSlotEnded, CanClose, IsSlotEnd, AreSetEnds, SetBegins, SetAnswers};

use crate::beam::{Beam, MOST_BEAMS};
use crate::ended::BeamEnd;
use crate::rounds::{all_ended, drive_from};
use arrayvec::ArrayVec;
use psr_base::Inputs;
use search_session::Gate;
use std::sync::Wait;
use std::thread;
use std::thread::Threads;
// Laws: they do nothing when they run, and the proofs use what they ensure.
use search_model::one_shard_is_all;
use search_session::{lone_sessions_end, lone_turns_add};

/// A round of so many turns goes on to the end of nearly all data.
const WHOLE_ROUND: u32 = u32::MAX;

/// Each round has so many times the turns of the one before it. At the end of a round threads end and begin.
const GROWTH: u32 = 8;

/// From so many turns on rounds grow no longer: their ends cost little by then.
const LONG_ROUND: u32 = 32_768;

// Whether so many threads can be had at this moment. They do nothing.
fn can_start_threads<R: Threads>(rt: &R, count: usize) -> bool {
    if count == 0 {
        return true;
    }
    match thread::spawn(rt, || ()) {
        Ok(started) => {
            let others = can_start_threads(rt, count - 1);
            started.join(rt);
            others
        }
        Err(_none) => false,
    }
}

// The turns of the first round. Where each beam can have a thread, none is to wait for another one at the end of a
// round: a program that writes to the pipes of all beams in turn would wait for the one that waits.
fn first_round<R: Threads>(rt: &R, beams: usize, turns: u32) -> u32
    ensures { turns ≤ result }
{
    if can_start_threads(rt, beams.saturating_sub(1)) {
        WHOLE_ROUND
    } else {
        turns
    }
}

// The turns of the round after one of so many.
fn next_round(turns: u32) -> u32
    requires { 1 ≤ turns }
    ensures some { 1 ≤ result }
    ensures short { turns < LONG_ROUND → result ≡ GROWTH * turns }
    ensures long { LONG_ROUND ≤ turns → result ≡ turns }
{
    if turns < LONG_ROUND {
        GROWTH * turns
    } else {
        turns
    }
}

// Rounds until all beams have ended, the first of so many turns where not every beam can have a thread.
fn run_rounds<I: Inputs + Send, G: Gate + Sync, R: Threads + Wait + Sync>(
    rt: &R,
    gate: &G,
    turns: u32,
    beams: &mut ArrayVec<Option<Beam<'_>>, MOST_BEAMS>,
    inputs: &mut [I],
)
    requires turns { 1 ≤ turns }
    requires on { EachPair (SlotOn I.told I.is_open) beams.old.items inputs.old }
    ensures on { EachPair (SlotOn I.told I.is_open) beams.new.items inputs.new }
    ensures ended { All HasSlotEnded beams.new.items }
    ensures moved { (n : ℕ) × PairsMoved (SlotMoved I.told I.is_calm I.faults n)
        inputs.old beams.old.items inputs.new beams.new.items }
{
    lone_turns_add::<I>();
    let mut now = first_round(rt, beams.len(), turns);
    for _round in rt.forever() {
        drive_from(rt, gate, 0, now, beams, inputs);
        if all_ended(beams.as_slice()) {
            return;
        }
        now = next_round(now);
    }
    unreachable!()
}

// The end of the beam of a slot.
fn close_slot(slot: Option<Beam<'_>>) -> Option<BeamEnd>
    requires { CanClose slot }
    ensures { IsSlotEnd slot.entry result }
{
    match slot {
        Some(beam) => Some(beam.close()),
        None => None,
    }
}

// The ends of all beams, at their places.
fn close_all(
    mut beams: ArrayVec<Option<Beam<'_>>, MOST_BEAMS>,
) -> ArrayVec<Option<BeamEnd>, MOST_BEAMS>
    requires { All CanClose beams.items }
    ensures { AreSetEnds beams.entry.items result.items }
{
    let mut ends = ArrayVec::new();
    for _place in 0..beams.len() {
        ends.push(close_slot(beams.remove(0)));
    }
    ends
}

/// Drives a set of beams, each over the inputs at its place, until all have ended, and answers how each ended. In each
/// round the beams take turns beside each other, each so many as the round has, fewer only where it ended. Where each
/// beam can have a thread, the first round has 4294967295 turns, so that no beam waits for another one before that.
/// Else the first round has `turns`, and each later one eight times as many as the one before it, until one has 32768
/// or more. No clause of this call says how many, since no result rests on it. The gate knows a beam by its place: no
/// clause says that either. What comes of a beam rests on its own inputs alone: that another beam stops changes nothing
/// in it. Inputs past the beams stand. It takes no memory but what the system takes for a thread. It may wait.
pub fn run_set<'a, I: Inputs + Send, G: Gate + Sync, R: Threads + Wait + Sync>(
    rt: &R,
    mut beams: ArrayVec<Option<Beam<'a>>, MOST_BEAMS>,
    inputs: &mut [I],
    turns: u32,
    gate: &G,
) -> ArrayVec<Option<BeamEnd>, MOST_BEAMS>
    requires turns { 1 ≤ turns }
    requires begins { SetBegins I.told I.is_open beams.items inputs.old }
    ensures { SetAnswers I.told I.is_calm I.faults beams.entry.items inputs.old inputs.new
        result.items }
{
    one_shard_is_all();
    lone_sessions_end::<I>();
    run_rounds(rt, gate, turns, &mut beams, inputs);
    close_all(beams)
}
