//! A round: hands that run at the same time.
ghost use Rattle.std.specs.Prelude.{◌↔◌, ◌<◌, All, IsTrue};
ghost use Rattle.search_session.specs.Hands.{HandOn, HandMoved, HandRetired, HandEnded, EachMoved};

use crate::gate::Gate;
use crate::hand::Hand;
use crate::waiting::Watch;
use dada_hdu::Hdu;
use psr_base::{Files, Inputs};
use std::thread::{Threads, for_each_mut};
use std::time::Clock;

// Drives each hand, in at most `threads` threads: each of its actors takes `turns` turns, fewer only if it ends.
// Answers whether no hand was found to wait for one that had no thread of its own.
fn drive_hands<I: Inputs + Send, F: Files + Send, G: Gate + Sync, R: Threads + Clock + Sync>(
    rt: &R,
    hands: &mut [Hand<'_, I, F>],
    hdu: &Hdu,
    turns: u32,
    gate: &G,
    threads: usize,
) -> bool
    requires on { All (HandOn I.told I.is_open F.is_open hdu.now) hands.old }
    requires threads { 0 < threads }
    ensures on { All (HandOn I.told I.is_open F.is_open hdu.now) hands.new }
    ensures moved { EachMoved (HandMoved I.told I.is_calm I.faults F.seen turns)
        hands.old hands.new }
{
    let watch = Watch::new(hands.len());
    for_each_mut(
        rt,
        hands,
        threads,
        &|place: usize, hand: &mut Hand<'_, I, F>|
            requires { HandOn I.told I.is_open F.is_open hdu.now hand.old }
            ensures { HandOn I.told I.is_open F.is_open hdu.entry.now hand.new
                × HandMoved I.told I.is_calm I.faults F.seen turns hand.old hand.new }
        { hand.drive(rt, hdu, turns, gate, place, &watch) },
    );
    !watch.found_absent()
}

/// Drives each hand in a thread of its own: each of its actors takes `turns` turns, fewer only if it ends. No turn
/// waits. Between its turns a hand none of whose actors could move waits until one could, until it is found that all
/// hands wait for each other, or until it has looked a hundred thousand times; after a wait in vain it waits no more in
/// that round. A hand that has waited for some looks sleeps between the further ones. A hand that has ended does not
/// wait. If no thread can be had, hands run one after another, and none waits for long.
pub fn round<'a, I: Inputs + Send, F: Files + Send, G: Gate + Sync, R: Threads + Clock + Sync>(
    rt: &R,
    hands: &mut [Hand<'a, I, F>],
    hdu: &Hdu,
    turns: u32,
    gate: &G,
)
    requires { All (HandOn I.told I.is_open F.is_open hdu.now) hands.old }
    ensures on { All (HandOn I.told I.is_open F.is_open hdu.now) hands.new }
    ensures moved { EachMoved (HandMoved I.told I.is_calm I.faults F.seen turns)
        hands.old hands.new }
{
    let threads = hands.len().max(1);
    drive_hands(rt, hands, hdu, turns, gate, threads);
}

// Retires each shard that ended, and the recorder if it ended.
fn retire_ended<I: Inputs, F: Files>(hands: &mut [Hand<'_, I, F>], hdu: &Hdu)
    requires { All (HandOn I.told I.is_open F.is_open hdu.now) hands.old }
    ensures on { All (HandOn I.told I.is_open F.is_open hdu.now) hands.new }
    ensures moved { EachMoved (HandMoved I.told I.is_calm I.faults F.seen 0) hands.old hands.new }
    ensures retired { All HandRetired hands.new }
{
    for place in 0..hands.len() {
        hands[place].retire(hdu);
    }
}

/// Drives one round, in at most `threads` threads. After it the writer no longer waits for any shard that ended, nor
/// for the recorder if it ended. Answers whether no hand was found to wait for one that had no thread of its own.
pub(crate) fn round_and_retire<
    I: Inputs + Send,
    F: Files + Send,
    G: Gate + Sync,
    R: Threads + Clock + Sync,
>(rt: &R, hands: &mut [Hand<'_, I, F>], hdu: &Hdu, turns: u32, gate: &G, threads: usize) -> bool
    requires on { All (HandOn I.told I.is_open F.is_open hdu.now) hands.old }
    requires threads { 0 < threads }
    ensures on { All (HandOn I.told I.is_open F.is_open hdu.now) hands.new }
    ensures moved { EachMoved (HandMoved I.told I.is_calm I.faults F.seen turns)
        hands.old hands.new }
    ensures retired { All HandRetired hands.new }
{
    let had_threads = drive_hands(rt, hands, hdu, turns, gate, threads);
    retire_ended(hands, hdu);
    had_threads
}

/// Whether all actors ended.
pub(crate) fn all_ended<I: Inputs, F: Files>(hands: &[Hand<'_, I, F>]) -> bool
    ensures { IsTrue result ↔ All HandEnded hands.now }
{
    for place in 0..hands.len() {
        if !hands[place].has_ended() {
            return false;
        }
    }
    true
}
