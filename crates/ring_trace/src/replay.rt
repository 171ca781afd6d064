// Replaying a trace line by line.
ghost use Rattle.std.specs.Prelude.{◌≡◌, ℕ, true, false, IfOk};
ghost use Rattle.ring_core.specs.Machine as machine;
ghost use Rattle.ring_trace.specs.Text.{trace_lines};
ghost use Rattle.ring_trace.specs.Events.{AsksFor};
ghost use Rattle.ring_trace.specs.Trace.{IsWhole, IsCut};
ghost use Rattle.ring_trace.specs.Replay.{IsStep, IsReplayed, ReplaysSome};

use crate::answers::line_of;
use crate::lines::{event, ring_line};
use crate::text::first_line;
use psr_base::Memory;
use ring_core::Core;
use std::alloc::{AllocError, Global};

/// The output, and whether it answers all lines, or only those before the first malformed one.
#[derive(Drop)]
pub(crate) struct Answers {
    pub(crate) text: Vec<u8>,
    pub(crate) is_whole: bool,
}

/// Answers one line. Returns false if the line is no event.
fn answer(
    core: &mut Core,
    line: &[u8],
    readers: u32,
    text: &mut Vec<u8>,
) -> Result<bool, AllocError>
    ensures asked { IfOk result (λ asked. asked ≡ true
        → IsStep readers line.now core.old core.new text.old.items text.new.items) }
    ensures none { IfOk result (λ asked. asked ≡ false
        → (event : machine.Event ℕ) → ¬ AsksFor readers line.now event) }
    ensures core { IfOk result (λ asked. asked ≡ false → core.new ≡ core.old) }
    ensures text { IfOk result (λ asked. asked ≡ false → text.new.items ≡ text.old.items) }
{
    let Some(event) = event(line, readers) else {
        return Ok(false);
    };
    let line = line_of(core.apply(event));
    text.extend_from_slice(line.as_bytes())?;
    Ok(true)
}

/// Answers the lines one after another, up to the first that is no event.
fn answer_all(
    alloc: Global,
    core: &mut Core,
    lines: &[u8],
    readers: u32,
) -> Result<Answers, AllocError>
    ensures whole { IfOk result (λ answers. answers.is_whole ≡ true
        → IsReplayed readers core.old (trace_lines lines.now) core.new answers.text.items) }
    ensures cut { IfOk result (λ answers. answers.is_whole ≡ false
        → ReplaysSome readers core.old (trace_lines lines.now) core.new answers.text.items) }
{
    let mut text = Vec::new(alloc);
    let mut rest = lines;
    while !rest.is_empty() {
        let (line, after) = first_line(rest);
        if !answer(core, line, readers, &mut text)? {
            return Ok(Answers {
                text,
                is_whole: false,
            });
        }
        rest = after;
    }
    Ok(Answers {
        text,
        is_whole: true,
    })
}

/// Replays the trace in a file.
pub(crate) fn replay(alloc: Global, file: &[u8]) -> Result<Answers, Memory>
    ensures whole { IfOk result (λ answers. answers.is_whole ≡ true
        → IsWhole file.now answers.text.items) }
    ensures cut { IfOk result (λ answers. answers.is_whole ≡ false
        → IsCut file.now answers.text.items) }
{
    let nothing = Answers {
        text: Vec::new(alloc),
        is_whole: false,
    };
    if file.is_empty() {
        return Ok(nothing);
    }
    let (first, rest) = first_line(file);
    let Some(shape) = ring_line(first) else {
        return Ok(nothing);
    };
    let Ok(mut core) = Core::open(alloc, shape) else {
        return Err(Memory);
    };
    match answer_all(alloc, &mut core, rest, shape.readers) {
        Ok(answers) => Ok(answers),
        Err(_) => Err(Memory),
    }
}
