// A call of the inputs or of the output fails.
use crate::live::files::inputs_for;
use crate::live::running::run_words;
use run_cases::{ENOUGH, Ended, Limits, before_last_line, words_of};
use std::alloc::Global;
use std::process::Abort;
use std::sync::Wait;
use std::test::Fail;

const SEARCH: &str = "--mean 1 --sd 2 --snr 7 --max-delay 1 --widths 1 --size 100";

// A run with this checkpoint, and these faults.
fn run<R: Wait>(rt: &R, alloc: Global, check: &[u8], limits: &Limits) -> Result<Ended, Fail> {
    let mut inputs = inputs_for(alloc, limits.input)?;
    inputs.put("last", check)?;
    let words = words_of(alloc, "512 last four", SEARCH)?;
    run_words(rt, alloc, words.as_slice(), &mut inputs, limits)
}

// Whether what a read fault left, and then the text from its last line on, is the whole text with one CHECK line more,
// or the same one.
fn goes_on<R: Wait>(rt: &R, alloc: Global, left: &[u8], whole: &[u8]) -> Result<bool, Fail> {
    if left.is_empty() {
        return Ok(true);
    }
    let kept = before_last_line(left).min(left.len());
    let rest = run(rt, alloc, &left[kept..], &ENOUGH)?;
    let mut text = Vec::from_slice(alloc, &left[..kept])?;
    text.extend_from_slice(rest.text.as_slice())?;
    if text.as_slice() == whole {
        return Ok(true);
    }
    text.truncate(0);
    text.extend_from_slice(left)?;
    text.extend_from_slice(rest.text.as_slice())?;
    Ok(text.as_slice() == whole)
}

#[test]
fn nothing_is_lost_at_a_read_fault(rt: HostRuntime) -> Result<(), Fail> {
    let alloc = rt.alloc();
    let first = b"CHECK 0 0\n";
    let whole = run(&rt, alloc, first, &ENOUGH)?;
    assert!(rt; whole.status == 0, "all calls: {}", whole.status);
    let mut faults: u32 = 0;
    for k in 0..60 {
        let limits = Limits { input: k, ..ENOUGH };
        let ended = run(&rt, alloc, first, &limits)?;
        if ended.status == 6 {
            faults = faults.saturating_add(1);
            let is = goes_on(&rt, alloc, ended.text.as_slice(), whole.text.as_slice())?;
            assert!(rt; is, "call {k}");
        } else {
            assert!(rt; ended.status == 0, "call {k}: {}", ended.status);
        }
    }
    assert!(rt; 40 <= faults, "{faults} calls");
    Ok(())
}

#[test]
fn an_output_that_fails_has_a_front(rt: HostRuntime) -> Result<(), Fail> {
    let alloc = rt.alloc();
    let first = b"CHECK 0 0\n";
    let whole = run(&rt, alloc, first, &ENOUGH)?;
    for k in 0..7 {
        let limits = Limits { out: k, ..ENOUGH };
        let ended = run(&rt, alloc, first, &limits)?;
        let is = whole.text.as_slice().starts_with(ended.text.as_slice());
        assert!(rt; ended.status == 10 && is, "call {k}: {}", ended.status);
    }
    for room in 0..whole.text.len() {
        let limits = Limits {
            out_room: room as u64,
            ..ENOUGH
        };
        let ended = run(&rt, alloc, first, &limits)?;
        let is = whole.text.as_slice().starts_with(ended.text.as_slice());
        assert!(rt; ended.status == 10 && is, "room {room}: {}", ended.status);
    }
    Ok(())
}
