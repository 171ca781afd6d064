// Observations that are cut anywhere, and inputs and outputs of which each call fails.
use crate::level::files::{bytes_of, header_of, inputs_for, line_of};
use crate::level::running::level;
use psr_base::MemInputs;
use run_cases::{ENOUGH, Ended, Limits, fields_of};
use std::alloc::Global;
use std::process::Abort;
use std::sync::Wait;
use std::test::Fail;

/// The size of each header.
const HEADER: usize = 4096;

// A file on each line, the arguments after it, and the file that is written.
const LEVELLED: &str = "
drift    | --spectra 8                                | drift.out
signed   | --spectra 5 --signed                       | signed.out
averaged | --spectra 3 --average 4 --fast             | fast.out
flash    | --spectra 18 --mask 1 --clip 1.5 --zero-dm | both.out
";

// Inputs with the file of a line in two: `front` ends behind this data byte, `back` has the others.
fn parts_of(
    alloc: Global,
    file: &'static str,
    whole: &[u8],
    cut: usize,
) -> Result<MemInputs, Fail> {
    let offset = format!(in alloc; "OBS_OFFSET {cut};")?;
    let end = cut.saturating_add(HEADER).min(whole.len());
    let mut back = header_of(alloc, file, offset.as_str())?;
    back.extend_from_slice(&whole[end..])?;
    let mut inputs = MemInputs::open(alloc, &[])?;
    inputs.put("front", &whole[..end])?;
    inputs.put("back", back.as_slice())?;
    Ok(inputs)
}

// The file of a line, cut at each of its data bytes, gives what it gives whole.
fn check_cuts<R: Wait + Abort>(rt: &R, alloc: Global, line: &'static str) -> Result<(), Fail> {
    let [name, words, output, ..] = fields_of(line);
    let Some(file) = line_of(name) else {
        return Err("there is no such file".into());
    };
    let whole = bytes_of(alloc, name)?;
    let wanted = bytes_of(alloc, output)?;
    let words = format!(in alloc; "front back {words}")?;
    for cut in 0..whole.len().saturating_sub(HEADER) {
        let mut inputs = parts_of(alloc, file, whole.as_slice(), cut)?;
        let ended = level(rt, alloc, words.as_str(), &mut inputs, &ENOUGH)?;
        let is = ended.status == 0 && ended.text.as_slice() == wanted.as_slice();
        assert!(rt; is, "{name}, cut at {cut}");
    }
    Ok(())
}

#[test]
fn files_may_be_cut_anywhere(rt: HostRuntime) -> Result<(), Fail> {
    for line in LEVELLED.lines() {
        if !line.is_empty() {
            check_cuts(&rt, rt.alloc(), line)?;
        }
    }
    Ok(())
}

const WORDS: &str = "drift --spectra 8";

/// How many bytes are written of one of its stretches.
const STRETCH: usize = 32;

fn level_limited<R: Wait>(rt: &R, alloc: Global, limits: &Limits) -> Result<Ended, Fail> {
    let mut inputs = inputs_for(alloc, WORDS, limits.input)?;
    level(rt, alloc, WORDS, &mut inputs, limits)
}

// Whether a run with too little room for its output ended so: what was written by then is a front of the file.
fn is_broken(ended: &Ended, wanted: &[u8]) -> bool {
    ended.status == 10 && wanted.starts_with(ended.text.as_slice())
}

// Whether a run whose inputs failed ended so: nothing was written, or the header and whole stretches.
fn is_unread(ended: &Ended, wanted: &[u8]) -> bool {
    let out = ended.text.as_slice();
    ended.status == 6 && wanted.starts_with(out) && out.len() % STRETCH == 0
}

#[test]
fn an_output_that_is_full_has_a_front_of_the_file(rt: HostRuntime) -> Result<(), Fail> {
    let wanted = bytes_of(rt.alloc(), "drift.out")?;
    for room in HEADER..wanted.len() {
        let mut limits = ENOUGH;
        limits.out_room = room as u64;
        let ended = level_limited(&rt, rt.alloc(), &limits)?;
        let is = is_broken(&ended, wanted.as_slice()) && ended.text.len() >= HEADER;
        assert!(rt; is, "room for {room} bytes: {}", ended.status);
    }
    Ok(())
}

// Of a run of whose inputs or output this call fails: whether it ended as it must, and whether it failed.
fn ends_at_call<R: Wait>(
    rt: &R,
    alloc: Global,
    wanted: &[u8],
    limits: &Limits,
) -> Result<(bool, bool), Fail> {
    let ended = level_limited(rt, alloc, limits)?;
    let is_whole = ended.status == 0 && ended.text.as_slice() == wanted;
    let has_failed = if limits.out < ENOUGH.out {
        is_broken(&ended, wanted)
    } else {
        is_unread(&ended, wanted)
    };
    Ok((is_whole || has_failed, has_failed))
}

#[test]
fn a_call_that_fails_is_answered(rt: HostRuntime) -> Result<(), Fail> {
    let wanted = bytes_of(rt.alloc(), "drift.out")?;
    let mut count: u32 = 0;
    for call in 0..10 {
        let mut inputs = ENOUGH;
        inputs.input = call;
        let mut out = ENOUGH;
        out.out = call;
        for limits in [inputs, out] {
            let (is, has_failed) = ends_at_call(&rt, rt.alloc(), wanted.as_slice(), &limits)?;
            assert!(rt; is, "call {call} fails");
            count = count.saturating_add(u32::from(has_failed));
        }
    }
    assert!(rt; count >= 6, "{count} calls that fail");
    Ok(())
}
