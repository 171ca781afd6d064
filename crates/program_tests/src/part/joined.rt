// An observation that is searched in two parts gives the text of one search.
use crate::part::files::FILES;
use crate::part::running::run_words;
use psr_base::MemInputs;
use run_cases::{ENOUGH, before_last_line, made_observation, search_text, words_of};
use std::alloc::Global;
use std::process::Abort;
use std::sync::Wait;
use std::test::Fail;
use std::thread::Threads;
use std::time::Clock;

// The text of the part until this spectrum, from a checkpoint on, if its search ended with its text.
fn part_text<R: Wait>(
    rt: &R,
    alloc: Global,
    until: &str,
    check: &str,
    search: &str,
    inputs: &mut MemInputs,
) -> Result<Option<Vec<u8>>, Fail> {
    let first = format!(in alloc; "{until} {check}")?;
    let words = words_of(alloc, first.as_str(), search)?;
    let ended = run_words(rt, alloc, words.as_slice(), inputs, &ENOUGH)?;
    if ended.status != 0 {
        return Ok(None);
    }
    Ok(Some(ended.text))
}

// The lines of the part up to a cut, and the text of the part from its last line on.
fn joined_text<R: Wait>(
    rt: &R,
    alloc: Global,
    cut: &str,
    until: &str,
    search: &str,
    inputs: &mut MemInputs,
) -> Result<Option<Vec<u8>>, Fail> {
    let Some(mut text) = part_text(rt, alloc, cut, "new", search, inputs)? else {
        return Ok(None);
    };
    let bytes = text.as_slice();
    let kept = before_last_line(bytes).min(bytes.len());
    inputs.put("check", &bytes[kept..])?;
    let Some(rest) = part_text(rt, alloc, until, "check", search, inputs)? else {
        return Ok(None);
    };
    text.truncate(kept);
    text.extend_from_slice(rest.as_slice())?;
    Ok(Some(text))
}

// Whether the whole and both parts at each cut end with status 0, and the parts give the text of the whole, which has a
// pulse.
fn are_joined<R: Threads + Wait + Clock + Sync>(
    rt: &R,
    alloc: Global,
    cuts: &[&str],
    until: &str,
    search: &str,
    inputs: &mut MemInputs,
) -> Result<bool, Fail> {
    let words = words_of(alloc, search, "")?;
    let Some(whole) = search_text(rt, alloc, words.as_slice(), inputs)? else {
        return Ok(false);
    };
    for cut in cuts {
        let Some(text) = joined_text(rt, alloc, cut, until, search, inputs)? else {
            return Ok(false);
        };
        if text.as_slice() != whole.as_slice() {
            return Ok(false);
        }
    }
    Ok(whole.as_slice().starts_with(b"PULSE "))
}

// ---- 64 channels and 2000 spectra, cut within chunks and between them

const MAKE: &str = "--number 1 --nchan 64 --spectra 2000";

// The narrowest boxes, and the widest.
const SEARCHES: [&str; 2] = [
    "made --mean 16 --sd 2.828 --max-delay 64 --max-candidates 1000000 --widths 1",
    "made --mean 16 --sd 2.828 --max-delay 64 --max-candidates 1000000 --widths 32",
];

fn check_cut<R: Threads + Wait + Clock + Sync + Abort>(
    rt: &R,
    alloc: Global,
    cut: &str,
    until: &str,
) -> Result<(), Fail> {
    let mut inputs = made_observation(alloc, MAKE, 0)?;
    for search in SEARCHES {
        let is = are_joined(rt, alloc, &[cut], until, search, &mut inputs)?;
        assert!(rt; is, "{cut}, {search}");
    }
    Ok(())
}

#[test]
fn parts_join_behind_the_first_spectrum(rt: HostRuntime) -> Result<(), Fail> {
    check_cut(&rt, rt.alloc(), "1", "2000")
}

#[test]
fn parts_join_early(rt: HostRuntime) -> Result<(), Fail> {
    check_cut(&rt, rt.alloc(), "137", "281474976710656")
}

#[test]
fn parts_join_between_two_chunks(rt: HostRuntime) -> Result<(), Fail> {
    check_cut(&rt, rt.alloc(), "1024", "2001")
}

#[test]
fn parts_join_before_the_last_spectrum(rt: HostRuntime) -> Result<(), Fail> {
    check_cut(&rt, rt.alloc(), "1999", "2000")
}

// ---- four channels and 12 spectra in each layout of their samples

// The lines of a header on each line.
const LAYOUTS: &str = "
NCHAN 4;NBIT 8;NPOL 1;TSAMP 64;FREQ 1400;BW -200;
NCHAN 4;NBIT 8;NPOL 1;TSAMP 64;FREQ 1400;BW 200;
NCHAN 4;NBIT 8;NPOL 2;TSAMP 64;FREQ 1400;BW -200;
NCHAN 4;NBIT 8;NPOL 2;TSAMP 64;FREQ 1400;BW 200;
NCHAN 4;NBIT 16;NPOL 1;TSAMP 64;FREQ 1400;BW -200;
NCHAN 4;NBIT 16;NPOL 1;TSAMP 64;FREQ 1400;BW 200;
NCHAN 4;NBIT 16;NPOL 2;TSAMP 64;FREQ 1400;BW -200;
NCHAN 4;NBIT 16;NPOL 2;TSAMP 64;FREQ 1400;BW 200;
";

// Nearly every box of two widths is detected.
const ALL: &str =
    "layout --mean 1 --sd 2 --snr 1 --max-delay 2 --widths 2 --size 512 --buffers 2 --chunk 4";

// Behind the first spectrum, within a chunk, and before the last spectrum.
const CUTS: [&str; 3] = ["1", "6", "11"];

// How many bytes 12 spectra have under such a header.
fn data_bytes(lines: &str) -> u32 {
    match (lines.contains("NBIT 16"), lines.contains("NPOL 2")) {
        (false, false) => 48,
        (true, true) => 192,
        _ => 96,
    }
}

// An observation with these header lines, whose bytes are neither even nor in order.
fn observation_of(alloc: Global, lines: &str) -> Result<MemInputs, Fail> {
    let mut bytes = FILES.header_of(alloc, lines)?;
    let mut value = 7_u8;
    for _byte in 0..data_bytes(lines) {
        value = value.wrapping_mul(29).wrapping_add(113);
        bytes.push(value)?;
    }
    let mut inputs = MemInputs::open(alloc, &[])?;
    inputs.put("layout", bytes.as_slice())?;
    Ok(inputs)
}

#[test]
fn parts_join_in_each_layout(rt: HostRuntime) -> Result<(), Fail> {
    let alloc = rt.alloc();
    for lines in LAYOUTS.lines() {
        if lines.is_empty() {
            continue;
        }
        let mut inputs = observation_of(alloc, lines)?;
        let is = are_joined(&rt, alloc, &CUTS, "12", ALL, &mut inputs)?;
        assert!(rt; is, "{lines}");
    }
    Ok(())
}
