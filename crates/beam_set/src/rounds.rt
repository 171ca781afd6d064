// A round: the beams of a set take turns at the same time.
ghost use Rattle.std.specs.Prelude.{◌≡◌, ◌↔◌, ◌+◌, ◌++◌, ◌<◌, ◌≤◌, All, IsTrue, length};
ghost use Rattle.std.specs.Thread.{IsSend, IsSync};
ghost use Rattle.beam_set.specs.Sets.{EachPair, PairsMoved, SlotOn, SlotMoved, HasSlotEnded};

use crate::beam::{Beam, MOST_BEAMS};
use arrayvec::ArrayVec;
use psr_base::Inputs;
use search_session::Gate;
use std::mem;
use std::thread::{Threads, join_mut};

// Takes `turns` turns of a beam, or fewer if it ended.
fn drive_slot<I: Inputs, G: Gate>(
    gate: &G,
    number: u32,
    turns: u32,
    slot: &mut Option<Beam<'_>>,
    inputs: &mut I,
)
    requires { SlotOn I.told I.is_open slot.old inputs.old }
    ensures on { SlotOn I.told I.is_open slot.new inputs.new }
    ensures moved { SlotMoved I.told I.is_calm I.faults turns inputs.old slot.old
        inputs.new slot.new }
{
    let Some(beam) = slot else { unreachable!() };
    beam.drive(inputs, gate, number, turns);
}

// Whether a beam ended.
fn slot_ended(slot: &Option<Beam<'_>>) -> bool
    ensures { IsTrue result ↔ HasSlotEnded slot.now }
{
    match slot {
        Some(beam) => beam.has_ended(),
        None => true,
    }
}

/// Whether all beams ended.
pub(crate) fn all_ended(beams: &[Option<Beam<'_>>]) -> bool
    ensures { IsTrue result ↔ All HasSlotEnded beams.now }
{
    for place in 0..beams.len() {
        if !slot_ended(&beams[place]) {
            return false;
        }
    }
    true
}

// Takes `turns` turns of the first of some beams, if there is one.
fn drive_first<I: Inputs, G: Gate>(
    gate: &G,
    first: u32,
    turns: u32,
    beams: &mut [Option<Beam<'_>>],
    inputs: &mut [I],
)
    requires few { length beams.old ≤ 1 }
    requires on { EachPair (SlotOn I.told I.is_open) beams.old inputs.old }
    ensures on { EachPair (SlotOn I.told I.is_open) beams.new inputs.new }
    ensures moved { PairsMoved (SlotMoved I.told I.is_calm I.faults turns) inputs.old beams.old
        inputs.new beams.new }
{
    if beams.is_empty() {
        return;
    }
    drive_slot(gate, first, turns, &mut beams[0], &mut inputs[0]);
}

// Takes the first `count` beams out of others.
fn take_front<'a>(
    beams: &mut ArrayVec<Option<Beam<'a>>, MOST_BEAMS>,
    count: usize,
) -> ArrayVec<Option<Beam<'a>>, MOST_BEAMS>
    requires few { count ≤ 7 }
    requires there { count ≤ length beams.old.items }
    ensures all { result.items ++ beams.new.items ≡ beams.old.items }
    ensures count { length result.items ≡ count }
{
    let mut front = ArrayVec::new();
    for _place in 0..count {
        front.push(beams.remove(0));
    }
    front
}

// Takes the later half of some beams out of them.
fn split<'a>(
    beams: &mut ArrayVec<Option<Beam<'a>>, MOST_BEAMS>,
) -> ArrayVec<Option<Beam<'a>>, MOST_BEAMS>
    requires { 2 ≤ length beams.old.items }
    ensures all { beams.new.items ++ result.items ≡ beams.old.items }
    ensures some { 0 < length beams.new.items }
    ensures rest { 0 < length result.items }
{
    let front = take_front(beams, beams.len() / 2);
    mem::replace(beams, front)
}

// Appends beams to others.
fn append<'a>(
    beams: &mut ArrayVec<Option<Beam<'a>>, MOST_BEAMS>,
    mut rest: ArrayVec<Option<Beam<'a>>, MOST_BEAMS>,
)
    requires { length beams.old.items + length rest.items ≤ 7 }
    ensures { beams.new.items ≡ beams.old.items ++ rest.entry.items }
{
    for _place in 0..rest.len() {
        beams.push(rest.remove(0));
    }
}

/// Takes `turns` turns of each beam, or fewer if it ended, over the inputs at its place. The halves of the beams do so
/// at the same time, and so do their halves. The gate is called with `first` for the first beam, and with the numbers
/// that follow for the others.
#[cycle(halves)]
pub(crate) fn drive_from<I: Inputs + Send, G: Gate + Sync, R: Threads + Sync>(
    rt: &R,
    gate: &G,
    first: u32,
    turns: u32,
    beams: &mut ArrayVec<Option<Beam<'_>>, MOST_BEAMS>,
    inputs: &mut [I],
)
    requires { EachPair (SlotOn I.told I.is_open) beams.old.items inputs.old }
    ensures on { EachPair (SlotOn I.told I.is_open) beams.new.items inputs.new }
    ensures moved { PairsMoved (SlotMoved I.told I.is_calm I.faults turns)
        inputs.old beams.old.items inputs.new beams.new.items }
{
    if beams.len() < 2 {
        drive_first(gate, first, turns, beams.as_mut_slice(), inputs);
        return;
    }
    let mut rest = split(beams);
    let (front, back) = inputs.split_at_mut(beams.len());
    drive_halves(rt, gate, first, turns, beams, front, &mut rest, back);
    append(beams, rest);
}

// Drives both halves of some beams, at the same time.
#[cycle(halves)]
fn drive_halves<I: Inputs + Send, G: Gate + Sync, R: Threads + Sync>(
    rt: &R,
    gate: &G,
    first: u32,
    turns: u32,
    left: &mut ArrayVec<Option<Beam<'_>>, MOST_BEAMS>,
    left_inputs: &mut [I],
    right: &mut ArrayVec<Option<Beam<'_>>, MOST_BEAMS>,
    right_inputs: &mut [I],
)
    requires some { (0 < length left.old.items) × (0 < length right.old.items) }
    requires left { EachPair (SlotOn I.told I.is_open) left.old.items left_inputs.old }
    requires right { EachPair (SlotOn I.told I.is_open) right.old.items right_inputs.old }
    ensures left_on { EachPair (SlotOn I.told I.is_open) left.new.items left_inputs.new }
    ensures left_moved { PairsMoved (SlotMoved I.told I.is_calm I.faults turns)
        left_inputs.old left.old.items left_inputs.new left.new.items }
    ensures right_on { EachPair (SlotOn I.told I.is_open) right.new.items right_inputs.new }
    ensures right_moved { PairsMoved (SlotMoved I.told I.is_calm I.faults turns)
        right_inputs.old right.old.items right_inputs.new right.new.items }
{
    let middle = first.wrapping_add(left.len() as u32);
    let mut one = ||
        requires { IsSync R.row × IsSync G.row × IsSend I.row
            × EachPair (SlotOn I.told I.is_open) left.now.items left_inputs.now }
        ensures { EachPair (SlotOn I.told I.is_open) left.exit.now.items left_inputs.exit.now
            × PairsMoved (SlotMoved I.told I.is_calm I.faults turns)
            left_inputs.entry.now left.entry.now.items left_inputs.exit.now left.exit.now.items }
    { drive_from(rt, gate, first, turns, left, left_inputs) };
    let mut other = ||
        requires { IsSync R.row × IsSync G.row × IsSend I.row
            × EachPair (SlotOn I.told I.is_open) right.now.items right_inputs.now }
        ensures { EachPair (SlotOn I.told I.is_open) right.exit.now.items right_inputs.exit.now
            × PairsMoved (SlotMoved I.told I.is_calm I.faults turns)
            right_inputs.entry.now right.entry.now.items right_inputs.exit.now right.exit.now.items }
    { drive_from(rt, gate, middle, turns, right, right_inputs) };
    join_mut(rt, &mut one, &mut other);
}
