// The lines of a trace: the first one describes the ring, each other one is an event.
ghost use Rattle.std.specs.Prelude.{◌≡◌, ◌≢◌, ℕ, ◌<◌, ◌++◌, List, IfSome, IfNone};
ghost use Rattle.ring_core.specs.Machine as machine;
ghost use Rattle.ring_core.specs.State.{event_of};
ghost use Rattle.ring_core.specs.declared.Shape.{Shape};
ghost use Rattle.ring_trace.specs.Text.{Lacks};
ghost use Rattle.ring_trace.specs.Events.{IsNumbered, ShapeInRange, IsRingLine, AsksFor, ring_text};

use crate::text::{number, split_at_first};
use ring_core::{Event, Shape};

/// The rest of a text that begins with `front`.
fn after<'a>(text: &'a [u8], front: &[u8]) -> Option<&'a [u8]>
    ensures some { IfSome result (λ rest. text.now ≡ front.now ++ rest.now) }
    ensures none { IfNone result ((rest : List ℕ) → text.now ≢ front.now ++ rest) }
{
    text.strip_prefix(front)
}

/// The number after `word` and one space.
fn numbered(line: &[u8], word: &[u8]) -> Option<u64>
    ensures some { IfSome result (λ n. IsNumbered word.now line.now n) }
    ensures none { IfNone result ((n : ℕ) → ¬ IsNumbered word.now line.now n) }
{
    let Some(rest) = after(line, word) else {
        return None;
    };
    let Some(digits) = after(rest, b" ") else {
        return None;
    };
    number(digits)
}

/// The texts of the three numbers in the line of the ring.
fn ring_words(line: &[u8]) -> Option<(&[u8], &[u8], &[u8])>
    ensures words { IfSome result (λ words. line.now
        ≡ ring_text words.0.now words.1.now words.2.now) }
    ensures first { IfSome result (λ words. Lacks 32 words.0.now) }
    ensures second { IfSome result (λ words. Lacks 32 words.1.now) }
    ensures none { IfNone result ((buffers readers blocks : List ℕ)
        → Lacks 32 buffers → Lacks 32 readers → line.now ≢ ring_text buffers readers blocks) }
{
    let Some(rest) = after(line, b"ring ") else {
        return None;
    };
    let Some((buffers, rest)) = split_at_first(rest, b' ') else {
        return None;
    };
    match split_at_first(rest, b' ') {
        Some((readers, blocks)) => Some((buffers, readers, blocks)),
        None => None,
    }
}

/// The shape with these measures, if they are in their ranges.
fn shape(buffers: u64, readers: u64, max_blocks: u64) -> Option<Shape>
    ensures some { IfSome result (λ shape. ShapeInRange shape
        × (shape.buffers ≡ buffers) × (shape.readers ≡ readers) × (shape.max_blocks ≡ max_blocks)) }
    ensures none { IfNone result ((shape : Shape) → ShapeInRange shape
        → shape.buffers ≡ buffers → shape.readers ≡ readers → shape.max_blocks ≢ max_blocks) }
{
    let few = (2..=64).contains(&buffers) && (1..=8).contains(&readers);
    if few && (1..=1048576).contains(&max_blocks) {
        Some(Shape {
            buffers: buffers as u32,
            readers: readers as u32,
            max_blocks,
        })
    } else {
        None
    }
}

/// The shape of the ring that the first line of a trace describes.
pub(crate) fn ring_line(line: &[u8]) -> Option<Shape>
    ensures some { IfSome result (λ shape. IsRingLine line.now shape) }
    ensures none { IfNone result ((shape : Shape) → ¬ IsRingLine line.now shape) }
{
    let Some((buffers, readers, blocks)) = ring_words(line) else {
        return None;
    };
    let Some(buffers) = number(buffers) else {
        return None;
    };
    let Some(readers) = number(readers) else {
        return None;
    };
    let Some(blocks) = number(blocks) else {
        return None;
    };
    shape(buffers, readers, blocks)
}

/// The reader after `word` and one space, if it is below `readers`.
fn reader(line: &[u8], word: &[u8], readers: u32) -> Option<u32>
    ensures some { IfSome result (λ i. (IsNumbered word.now line.now i) × (i < readers)) }
    ensures none { IfNone result ((i : ℕ) → IsNumbered word.now line.now i → ¬ (i < readers)) }
{
    match numbered(line, word) {
        Some(i) if i < readers as u64 => Some(i as u32),
        _ => None,
    }
}

/// The event of a line.
pub(crate) fn event(line: &[u8], readers: u32) -> Option<Event>
    ensures some { IfSome result (λ event. AsksFor readers line.now (event_of event)) }
    ensures none { IfNone result ((event : machine.Event ℕ) → ¬ AsksFor readers line.now event) }
{
    if line == b"take".as_slice() {
        return Some(Event::WriterTake);
    }
    if let Some(label) = numbered(line, b"seal") {
        return Some(Event::Seal(label));
    }
    if let Some(i) = reader(line, b"look", readers) {
        return Some(Event::Look(i));
    }
    if let Some(i) = reader(line, b"read", readers) {
        return Some(Event::ReaderTake(i));
    }
    if let Some(i) = reader(line, b"give", readers) {
        return Some(Event::Give(i));
    }
    if let Some(i) = reader(line, b"clear", readers) {
        return Some(Event::Clear(i));
    }
    if let Some(i) = reader(line, b"retire", readers) {
        return Some(Event::Retire(i));
    }
    if let Some(i) = reader(line, b"detach", readers) {
        return Some(Event::Detach(i));
    }
    if let Some(i) = reader(line, b"attach", readers) {
        return Some(Event::Attach(i));
    }
    None
}
