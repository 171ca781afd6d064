// Whole runs.
use crate::mask::cases::check_all;
use crate::mask::files::FILES;
use crate::mask::four::{inputs_of, layout_of, mask_text};
use crate::mask::plain::text_without;
use crate::mask::rows::RUNS;
use crate::mask::running::{run_over, words_of};
use run_cases::{ENOUGH, Ended, NEVER, push_words, search_text};
use std::alloc::Global;
use std::sync::Wait;
use std::test::Fail;
use std::thread::Threads;
use std::time::Clock;

#[test]
fn runs_end_as_their_words_and_files_say(rt: HostRuntime) -> Result<(), Fail> {
    check_all(&rt, rt.alloc(), &RUNS)
}

// The status of a run with few arguments, so that there may be no file among them.
fn status_of<R: Wait>(rt: &R, alloc: Global, line: &str) -> Result<u8, Fail> {
    let mut words = Vec::new(alloc);
    push_words(alloc, &mut words, line)?;
    let mut inputs = FILES.inputs_for(alloc, line, NEVER)?;
    let ended = run_over(rt, alloc, words.as_slice(), &mut inputs, &ENOUGH)?;
    Ok(ended.status)
}

#[test]
fn fewer_than_two_words_are_refused(rt: HostRuntime) -> Result<(), Fail> {
    for line in ["", "psr_mask", "psr_mask 0", "psr_mask --mean"] {
        assert!(rt; status_of(&rt, rt.alloc(), line)? == 2, "{line}");
    }
    Ok(())
}

// ---- every mask of four channels

const FOUR: &str = "--mean 25 --sd 6 --snr 2 --max-delay 2 --widths 2 --buffers 2";

const FOLDED: &str = "--fold-max 2 --fold-rows 1 --fold-step 1 four";

// How many bytes a block has, and how many spectra are searched at a time. A spectrum has 4, 8 or 16 bytes.
const CUTS: [&str; 5] = [
    "--size 1 --chunk 1",
    "--size 3 --chunk 4",
    "--size 7 --chunk 5",
    "--size 16 --chunk 2",
    "--size 512 --chunk 64",
];

// How the data of a run are cut.
fn cut_of(layout: u32, mask: u32) -> &'static str {
    let number = layout.wrapping_add(mask) % 5;
    CUTS.get(number as usize).copied().unwrap_or("")
}

// Whether the run with a mask writes the text of plain sums.
fn is_plain<R: Wait>(rt: &R, alloc: Global, number: u32, mask: u32) -> Result<bool, Fail> {
    let layout = layout_of(number);
    let named = mask_text(alloc, layout, mask)?;
    let mut words = words_of(alloc, named.as_str(), FOUR, cut_of(number, mask))?;
    push_words(alloc, &mut words, FOLDED)?;
    let mut inputs = inputs_of(alloc, layout)?;
    let ended = run_over(rt, alloc, words.as_slice(), &mut inputs, &ENOUGH)?;
    let wanted = text_without(alloc, mask)?;
    Ok(ended.status == 0 && ended.text.as_slice() == wanted.lines.as_bytes())
}

#[test]
fn every_mask_of_four_channels_gives_its_plain_sums(rt: HostRuntime) -> Result<(), Fail> {
    for number in 0..8 {
        for mask in 0..15 {
            let is = is_plain(&rt, rt.alloc(), number, mask)?;
            assert!(rt; is, "layout {number}, mask {mask}");
        }
    }
    Ok(())
}

// ---- no mask

// How the run with the mask `none` ends, and the text of a search of all channels.
fn run_both<R: Threads + Wait + Clock + Sync>(
    rt: &R,
    alloc: Global,
    number: u32,
) -> Result<(Ended, Vec<u8>), Fail> {
    let mut words = words_of(alloc, "none", FOUR, cut_of(number, 0))?;
    push_words(alloc, &mut words, FOLDED)?;
    let mut inputs = inputs_of(alloc, layout_of(number))?;
    let ended = run_over(rt, alloc, words.as_slice(), &mut inputs, &ENOUGH)?;
    let mut plain = Vec::new(alloc);
    push_words(alloc, &mut plain, "psr_search")?;
    push_words(alloc, &mut plain, FOUR)?;
    push_words(alloc, &mut plain, cut_of(number, 1))?;
    push_words(alloc, &mut plain, FOLDED)?;
    match search_text(rt, alloc, plain.as_slice(), &mut inputs)? {
        Some(text) => Ok((ended, text)),
        None => Err("no text of a search".into()),
    }
}

#[test]
fn with_no_channel_masked_all_are_searched(rt: HostRuntime) -> Result<(), Fail> {
    for number in 0..8 {
        let (masked, plain) = run_both(&rt, rt.alloc(), number)?;
        assert!(rt;
            plain.len() > 100 && masked.text.as_slice() == plain.as_slice(),
            "layout {number}: {masked}"
        );
    }
    Ok(())
}
