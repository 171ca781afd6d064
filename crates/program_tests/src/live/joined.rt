// The text against those of psr_search and psr_part, over an observation that is made.
use crate::live::running::{run_words, without_checks};
use psr_base::MemInputs;
use psr_part::run_part_in_memory;
use run_cases::{ENOUGH, made_observation, search_text, words_of};
use std::alloc::Global;
use std::process::Abort;
use std::sync::Wait;
use std::test::Fail;
use std::thread::Threads;
use std::time::Clock;

const SEARCH: &str =
    "made --mean 16 --sd 2.828 --snr 6 --max-delay 64 --max-candidates 1000000 --widths 32";

// The text in parts, from a checkpoint on.
fn live_text<R: Wait>(
    rt: &R,
    alloc: Global,
    first: &str,
    inputs: &mut MemInputs,
) -> Result<Vec<u8>, Fail> {
    let words = words_of(alloc, first, SEARCH)?;
    Ok(run_words(rt, alloc, words.as_slice(), inputs, &ENOUGH)?.text)
}

// The text of the part from a checkpoint on that has all spectra.
fn part_text<R: Wait>(rt: &R, alloc: Global, inputs: &mut MemInputs) -> Result<Vec<u8>, Fail> {
    let words = words_of(alloc, "281474976710656 check", SEARCH)?;
    let (mut out, mut notes) = ENOUGH.sinks(alloc)?;
    let _ran = run_part_in_memory(rt, alloc, words.as_slice(), inputs, &mut out, &mut notes);
    Ok(Vec::from_slice(alloc, out.body())?)
}

// Whether psr_live, in other parts too, and psr_part go on from each CHECK line of a text.
fn goes_on<R: Wait>(
    rt: &R,
    alloc: Global,
    every: &str,
    text: &[u8],
    inputs: &mut MemInputs,
) -> Result<bool, Fail> {
    let first = format!(in alloc; "{every} check")?;
    let mut line = Vec::new(alloc);
    for (i, byte) in text.iter().enumerate() {
        line.push(*byte)?;
        if *byte == b'\n' {
            if line.as_slice().starts_with(b"CHECK ") {
                inputs.put("check", line.as_slice())?;
                let rest = &text[(i + 1).min(text.len())..];
                let live = live_text(rt, alloc, first.as_str(), inputs)?;
                let other = live_text(rt, alloc, "1536 check", inputs)?;
                let part = part_text(rt, alloc, inputs)?;
                let plain = without_checks(alloc, rest)?;
                let plain_other = without_checks(alloc, other.as_slice())?;
                if live.as_slice() != rest
                    || part.as_slice() != plain.as_slice()
                    || plain_other.as_slice() != plain.as_slice()
                {
                    return Ok(false);
                }
            }
            line.truncate(0);
        }
    }
    Ok(true)
}

// The text of an observation in parts, which is that of the whole search without its CHECK lines.
fn check<R: Threads + Wait + Clock + Sync + Abort>(
    rt: &R,
    alloc: Global,
    every: &str,
    inputs: &mut MemInputs,
) -> Result<Vec<u8>, Fail> {
    let words = words_of(alloc, SEARCH, "")?;
    let Some(whole) = search_text(rt, alloc, words.as_slice(), inputs)? else {
        return Err("no text of a search".into());
    };
    let first = format!(in alloc; "{every} new")?;
    let text = live_text(rt, alloc, first.as_str(), inputs)?;
    let plain = without_checks(alloc, text.as_slice())?;
    assert!(rt; plain.as_slice() == whole.as_slice(), "parts of {every}");
    Ok(text)
}

// The same, and from each CHECK line on.
fn check_lines<R: Threads + Wait + Clock + Sync + Abort>(
    rt: &R,
    alloc: Global,
    make: &str,
    every: &str,
) -> Result<(), Fail> {
    let mut inputs = made_observation(alloc, make, 0)?;
    let text = check(rt, alloc, every, &mut inputs)?;
    assert!(rt; text.as_slice().starts_with(b"PULSE "), "no pulse");
    let on = goes_on(rt, alloc, every, text.as_slice(), &mut inputs)?;
    assert!(rt; on, "{make}, parts of {every}: from a CHECK line");
    Ok(())
}

#[test]
fn parts_of_512_are_the_search(rt: HostRuntime) -> Result<(), Fail> {
    check_lines(
        &rt,
        rt.alloc(),
        "--number 1 --nchan 64 --spectra 1600",
        "512",
    )
}

#[test]
fn parts_of_1024_are_the_search(rt: HostRuntime) -> Result<(), Fail> {
    check_lines(
        &rt,
        rt.alloc(),
        "--number 1 --nchan 16 --spectra 2048",
        "1024",
    )
}

// The data stop at each byte of the spectrum that begins a part.
#[test]
fn data_may_end_at_any_byte(rt: HostRuntime) -> Result<(), Fail> {
    for less in 0..17 {
        let mut inputs = made_observation(rt.alloc(), "--number 1 --nchan 16 --spectra 513", less)?;
        check(&rt, rt.alloc(), "512", &mut inputs)?;
    }
    Ok(())
}
