// Runs of other programs than the tested one.
use crate::limits::ENOUGH;
use crate::lines::words_of;
use psr_base::{MemFiles, MemInputs};
use psr_make::run_make;
use psr_search::run_in_memory;
use search_session::NoGate;
use std::alloc::Global;
use std::sync::Wait;
use std::test::Fail;
use std::thread::Threads;
use std::time::Clock;

/// Inputs that hold the observation that psr_make makes by these arguments, under the name `made`, but for this many
/// bytes at its end.
pub fn made_observation(alloc: Global, make: &str, less: usize) -> Result<MemInputs, Fail> {
    let words = words_of(alloc, make, "made")?;
    let mut files = MemFiles::open(alloc, 1, 5_000_000, &[])?;
    let (_out, mut notes) = ENOUGH.sinks(alloc)?;
    let mut inputs = MemInputs::open(alloc, &[])?;
    if run_make(alloc, words.as_slice(), &mut files, &mut notes) == 0 && files.count() == 1 {
        let bytes = files.body(0);
        inputs.put("made", &bytes[..bytes.len().saturating_sub(less)])?;
    }
    Ok(inputs)
}

/// The text of a search by psr_search with these words over these inputs, if it ended with its text.
pub fn search_text<R: Threads + Wait + Clock + Sync>(
    rt: &R,
    alloc: Global,
    words: &[String],
    inputs: &mut MemInputs,
) -> Result<Option<Vec<u8>>, Fail> {
    let mut made = MemFiles::open(alloc, 0, 0, &[])?;
    let (mut out, mut notes) = ENOUGH.sinks(alloc)?;
    let ran = run_in_memory(
        rt, alloc, words, inputs, &mut made, &mut out, &mut notes, &NoGate,
    );
    if ran.status != 0 {
        return Ok(None);
    }
    Ok(Some(Vec::from_slice(alloc, out.body())?))
}
