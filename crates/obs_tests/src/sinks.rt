// Sinks in memory and of the system, written through their trait.
use crate::fakes::{Streams, Takes};
use crate::lines::{call_of, words_of};
use psr_base::{CalmSink, Failed, MemSink, RealSink, Sink, write_all, write_to_memory};
use std::alloc::Global;
use std::test::Fail;

// A sink that takes one byte at a time.
#[derive(Drop)]
struct Drip<S>(S);

impl<S: Sink> Sink for Drip<S> {
    ghost use Rattle.std.specs.Prelude.{None};

    ghost seen = { λ sink. record { written = None; room = None; faults = (S.seen sink.0).faults } };

    fn write(&mut self, bytes: &[u8]) -> Result<usize, Failed> {
        let n = bytes.len().min(1);
        self.0.write(&bytes[..n])
    }
}

// Writes "ab", then "cd", then "e", up to the first that fails.
fn write_in_steps<S: Sink>(sink: &mut S) -> Result<(), Failed> {
    for piece in ["ab", "cd", "e"] {
        write_all(sink, piece.as_bytes())?;
    }
    Ok(())
}

// ---- in memory

// Each line: the sink, its room, the call that fails (99: none), how the writing ends, and what the sink then has.
const IN_MEMORY: &str = "
held 5 0 failed
held 5 1 failed ab
held 5 2 failed abcd
held 5 3 ok abcde
held 0 99 failed
held 1 99 failed
held 2 99 failed ab
held 4 99 failed abcd
held 5 99 ok abcde
drip 5 0 failed
drip 5 1 failed a
drip 5 2 failed ab
drip 5 3 failed abc
drip 5 5 ok abcde
";

// Whether writing in steps ends as the answer says.
fn ends_so<S: Sink>(sink: &mut S, answer: &str) -> bool {
    write_in_steps(sink).is_ok() == (answer == "ok")
}

// Whether the sink of a line ends with the bytes of the line.
fn is_met(alloc: Global, line: &'static str) -> bool {
    let [kind, room, failing, answer, wanted] = words_of(line);
    let room = room.parse::<u32>().unwrap_or(0);
    let Ok(mut sink) = MemSink::open(alloc, u64::from(room), &[call_of(failing)]) else {
        return false;
    };
    if kind == "drip" {
        let mut drip = Drip(sink);
        return ends_so(&mut drip, answer) && drip.0.body() == wanted.as_bytes();
    }
    ends_so(&mut sink, answer) && sink.body() == wanted.as_bytes()
}

#[test]
fn a_sink_holds_what_was_written_before_it_failed(rt: HostRuntime) {
    for line in IN_MEMORY.lines() {
        assert!(rt; line.is_empty() || is_met(rt.alloc(), line), "{line}");
    }
    assert!(rt; write_in_steps(&mut CalmSink::new()).is_ok());
}

// Pieces for a sink with room for five bytes, of which call 1 fails, and whether each piece is taken.
const PIECES: &str = "ab:ok, c:failed, cde:ok, :ok, f:failed";

// Whether exactly the pieces marked `ok` are taken, and the sink then has their bytes.
fn are_taken(alloc: Global, pieces: &'static str) -> bool {
    let Ok(mut sink) = MemSink::open(alloc, 5, &[1]) else {
        return false;
    };
    for piece in pieces.split(',') {
        let (text, answer) = piece.split_once(':').unwrap_or((piece, ""));
        let is_ok = write_to_memory(&mut sink, text.trim().as_bytes()).is_ok();
        if is_ok != (answer == "ok") {
            return false;
        }
    }
    sink.body() == b"abcde".as_slice()
}

#[test]
fn a_sink_in_memory_takes_what_it_has_room_for(rt: HostRuntime) {
    assert!(rt; are_taken(rt.alloc(), PIECES));
}

// ---- streams

// Each line: how many bytes a stream takes at once, and what it has taken in the end.
const STREAMS: &str = "
closed nothing
0 nothing
1 whole
2 whole
5 whole
9 whole
";

fn takes_of(word: &str) -> Takes {
    match word.parse::<usize>() {
        Ok(most) => Some(most),
        Err(_) => None,
    }
}

// Whether the streams have taken this output and these notes.
fn took(streams: &Streams, output: &str, notes: &str) -> bool {
    let (Ok(given), Ok(noted)) = (streams.output(), streams.notes()) else {
        return false;
    };
    given.as_slice() == output.as_bytes() && noted.as_slice() == notes.as_bytes()
}

// Whether the stream of a line takes each byte once, or nothing.
fn is_written(alloc: Global, line: &'static str) -> bool {
    let [takes, wanted, ..] = words_of(line);
    let wanted = if wanted == "whole" { "ab\ncde" } else { "" };
    let streams = Streams::new(alloc, takes_of(takes));
    let mut out = RealSink::out(&streams);
    let is_ok = write_all(&mut out, b"ab\ncde").is_ok();
    is_ok == !wanted.is_empty() && write_all(&mut out, b"").is_ok() && took(&streams, wanted, "")
}

#[test]
fn a_stream_gets_each_byte_once(rt: HostRuntime) {
    for line in STREAMS.lines() {
        assert!(rt; line.is_empty() || is_written(rt.alloc(), line), "{line}");
    }
}

// Whether UTF-8 is taken exactly if the stream is open, and other bytes never are.
fn is_text_taken<S: Sink>(notes: &mut S, is_open: bool) -> bool {
    write_all(notes, b"ab\n").is_ok() == is_open
        && write_all(notes, b"\xff").is_err()
        && write_all(notes, "c\u{e9}d".as_bytes()).is_ok() == is_open
}

// Whether the notes get the whole text.
fn is_noted(alloc: Global, takes: Takes, wanted: &str) -> bool {
    let streams = Streams::new(alloc, takes);
    is_text_taken(&mut RealSink::notes(&streams), takes.is_some()) && took(&streams, "", wanted)
}

#[test]
fn notes_get_the_whole_text(rt: HostRuntime) {
    assert!(rt; is_noted(rt.alloc(), None, ""));
    assert!(rt; is_noted(rt.alloc(), Some(1), "ab\nc\u{e9}d"));
}

#[test]
fn the_systems_streams_take_text(rt: HostRuntime) -> Result<(), Fail> {
    write_all(&mut RealSink::out(&rt), b"to the output\n")?;
    write_all(&mut RealSink::notes(&rt), b"to the notes\n")?;
    Ok(())
}
