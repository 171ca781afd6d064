// Whole runs.
use crate::cases::check_all;
use crate::files::FILES;
use crate::plain::{inputs_of_all, text_of_all};
use crate::rows::{REFUSED, SEARCHED, STOPPED};
use crate::running::{all_inputs, run_past, words_of};
use crate::sets::run_three;
use arrayvec::ArrayVec;
use beam_set::{BeamEnd, MOST_BEAMS};
use disk_feeder::FeedEnd;
use meeting_gate::{Meeting, TurnCount};
use run_cases::{ENOUGH, Ended, Limits, NEVER};
use search_model::Candidate;
use search_session::{Gate, NoGate};
use std::alloc::Global;
use std::sync::Wait;
use std::test::Fail;
use std::thread::Threads;

#[test]
fn beams_end_as_their_words_and_files_say(rt: HostRuntime) -> Result<(), Fail> {
    for table in [SEARCHED, STOPPED, REFUSED] {
        check_all(&rt, rt.alloc(), table)?;
    }
    Ok(())
}

// Runs these files as beams, with calls that fail.
fn run_limited<R: Threads + Wait + Sync>(
    rt: &R,
    alloc: Global,
    line: &str,
    limits: &Limits,
) -> Result<Ended, Fail> {
    let words = words_of(alloc, "0 2", line)?;
    let mut inputs = all_inputs(alloc, line, limits)?;
    run_past(rt, alloc, words.as_slice(), &mut inputs, limits, &NoGate)
}

// ---- at the same time

// Whether the beams of these numbers meet, each of which waits for the other.
fn do_meet<R: Threads + Wait + Sync>(
    rt: &R,
    alloc: Global,
    line: &str,
    one: u32,
    other: u32,
) -> Result<bool, Fail> {
    let words = words_of(alloc, "0 2", line)?;
    let mut inputs = all_inputs(alloc, line, &ENOUGH)?;
    let meeting = Meeting::of(one, other);
    let ended = run_past(rt, alloc, words.as_slice(), &mut inputs, &ENOUGH, &meeting)?;
    Ok(ended.status == 0 && meeting.both_met())
}

#[test]
fn beams_run_beside_each_other(rt: HostRuntime) -> Result<(), Fail> {
    let two = "--size 1 --turns 1 pulse pulse";
    let three = "pulse zeros pulse";
    let seven = "pulse zeros pulse pulse pulse pulse pulse";
    for (line, one, other) in [
        (two, 0, 1),
        (three, 0, 2),
        (three, 1, 2),
        (seven, 0, 6),
        (seven, 2, 5),
        (seven, 3, 4),
    ] {
        assert!(rt;
            do_meet(&rt, rt.alloc(), line, one, other)?,
            "{line} {one} {other}"
        );
    }
    Ok(())
}

#[test]
fn turns_of_each_beam_are_told(rt: HostRuntime) -> Result<(), Fail> {
    let alloc = rt.alloc();
    let line = "--size 1 --turns 2 pulse zeros pulse pulse pulse pulse pulse";
    let words = words_of(alloc, "0 2", line)?;
    let mut inputs = all_inputs(alloc, line, &ENOUGH)?;
    let count = TurnCount::new();
    let ended = run_past(&rt, alloc, words.as_slice(), &mut inputs, &ENOUGH, &count)?;
    assert!(rt; ended.status == 0 && count.took_turns(&[0, 1, 2, 3, 4, 5, 6]));
    Ok(())
}

// ---- a set of three beams

// How three beams with one pulse each end, if a call of one of them fails.
fn ends_of<G: Gate + Sync, R: Threads + Wait + Sync>(
    rt: &R,
    alloc: Global,
    failing: usize,
    call: u64,
    gate: &G,
) -> Result<ArrayVec<Option<BeamEnd>, MOST_BEAMS>, Fail> {
    let mut names = Vec::new(alloc);
    names.push(String::from_str(alloc, "pulse")?)?;
    let names = names.as_slice();
    let mut calls = [NEVER; 3];
    calls[failing % 3] = call;
    let one = FILES.inputs_for(alloc, "pulse", calls[0])?;
    let two = FILES.inputs_for(alloc, "pulse", calls[1])?;
    let three = FILES.inputs_for(alloc, "pulse", calls[2])?;
    run_three(rt, alloc, names, one, two, three, gate)
}

// Whether a beam read all of its data, and found exactly their pulse.
fn has_pulse(end: &Option<BeamEnd>) -> bool {
    let Some(end) = end else {
        return false;
    };
    let pulse = Candidate::Pulse {
        end: 1,
        delay: 1,
        width: 1,
        sum: 30,
    };
    let is_whole = end.feed == FeedEnd::Whole { bytes: 6 } && end.spectra == 3;
    is_whole && end.book.count() == 1 && end.book.kept() == [pulse].as_slice()
}

// Whether the inputs of a beam failed.
fn has_failed(end: &Option<BeamEnd>) -> bool {
    match end {
        Some(end) => end.feed == FeedEnd::ReadFault,
        None => false,
    }
}

// Whether one of three beams failed, and the others found what they find without that.
fn has_failed_alone(ends: &[Option<BeamEnd>], failing: usize) -> bool {
    for (k, end) in ends.iter().enumerate() {
        let is_so = if k == failing {
            has_failed(end)
        } else {
            has_pulse(end)
        };
        if !is_so {
            return false;
        }
    }
    ends.len() == 3
}

#[test]
fn a_beam_that_fails_changes_no_other(rt: HostRuntime) -> Result<(), Fail> {
    // After two calls that read the header, one reads each byte, and one finds the end.
    for failing in 0..3 {
        for call in 2..9 {
            let ends = ends_of(&rt, rt.alloc(), failing, call, &NoGate)?;
            assert!(rt;
                has_failed_alone(ends.as_slice(), failing),
                "{failing} {call}"
            );
        }
    }
    Ok(())
}

#[test]
fn beams_of_a_set_run_beside_each_other(rt: HostRuntime) -> Result<(), Fail> {
    for (one, other) in [(0, 1), (0, 2), (1, 2)] {
        let meeting = Meeting::of(one, other);
        let ends = ends_of(&rt, rt.alloc(), 0, NEVER, &meeting)?;
        assert!(rt; meeting.both_met() && has_failed_alone(ends.as_slice(), 3));
    }
    Ok(())
}

// ---- calls that fail

const SEVEN: &str = "pulse zeros later pulse train empty pulse";

// How many calls are made of the inputs of a beam: one opens the file, and the others read.
fn call_count(beam: u64) -> u64 {
    if beam == 5 { 3 } else { 4 }
}

// Whether a run of seven beams is answered if a call of one of them fails.
fn is_answered<R: Threads + Wait + Sync>(
    rt: &R,
    alloc: Global,
    beam: u64,
    input: u64,
) -> Result<bool, Fail> {
    let limits = Limits {
        beam,
        input,
        ..ENOUGH
    };
    let ended = run_limited(rt, alloc, SEVEN, &limits)?;
    if input < call_count(beam) {
        Ok(
            ended.status == 6
                && ended.text.is_empty()
                && ended.notes.as_slice() == b"read fault\n".as_slice(),
        )
    } else {
        Ok(ended.status == 0 && ended.notes.is_empty())
    }
}

#[test]
fn a_call_of_a_beam_that_fails_is_answered(rt: HostRuntime) -> Result<(), Fail> {
    for beam in 0..7 {
        for input in 0..5 {
            assert!(rt;
                is_answered(&rt, rt.alloc(), beam, input)?,
                "{beam} {input}"
            );
        }
    }
    Ok(())
}

#[test]
fn an_output_that_fails_has_the_front_of_the_text(rt: HostRuntime) -> Result<(), Fail> {
    let whole = run_limited(&rt, rt.alloc(), "pulse later", &ENOUGH)?;
    let whole = whole.text.as_slice();
    assert!(rt; whole.len() == 80);
    for step in 0..21 {
        let limits = Limits {
            out_room: 4 * step,
            ..ENOUGH
        };
        let ended = run_limited(&rt, rt.alloc(), "pulse later", &limits)?;
        let is_front = whole.starts_with(ended.text.as_slice());
        let status = if step < 20 { 10 } else { 0 };
        assert!(rt; is_front && ended.status == status, "{step}: {ended}");
    }
    Ok(())
}

// ---- marks

#[test]
fn marks_are_those_of_the_definition(rt: HostRuntime) -> Result<(), Fail> {
    let alloc = rt.alloc();
    let line = "--size 5 beam beam beam beam beam beam beam";
    let (mut marked, mut others) = (0_u64, 0_u64);
    for within in 0..4 {
        for more in 1..7 {
            let numbers = format!(in alloc; "{within} {more}")?;
            let words = words_of(alloc, numbers.as_str(), line)?;
            let mut inputs = inputs_of_all(alloc)?;
            let ended = run_past(&rt, alloc, words.as_slice(), &mut inputs, &ENOUGH, &NoGate)?;
            let wanted = text_of_all(alloc, within, more)?;
            let is = ended.text.as_slice() == wanted.lines.as_bytes();
            assert!(rt; is, "{within} {more}: {ended}");
            marked = marked.wrapping_add(wanted.marked);
            others = others.wrapping_add(wanted.others);
        }
    }
    assert!(rt; marked > 100 && others > 100, "{marked} {others}");
    Ok(())
}
