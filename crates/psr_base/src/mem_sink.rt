// A sink in memory.
ghost use Rattle.std.specs.Prelude.{◌≤◌, vec_len, vec_capacity};

use crate::calls::Calls;
use crate::faults::{Failed, Memory};
use crate::sink::Sink;
use std::alloc::Global;

/// A sink in memory, with room for a fixed number of bytes. Chosen calls fail.
#[derive(Drop)]
pub struct MemSink {
    body: Vec<u8>,
    room: usize,
    calls: Calls,
    ghost reserved: { room ≤ vec_capacity body },
    ghost within: { vec_len body ≤ room },
}

impl MemSink {
    ghost use Rattle.std.specs.Prelude.{◌≡◌, [], IfOk};
    ghost use Rattle.psr_base.specs.InMemory.{body_of, free_room, sink_calls};

    /// No bytes yet, and memory for `room` bytes. The calls of `write` are numbered from 0; those whose number is in
    /// `fail` fail.
    pub fn open(alloc: Global, room: u64, fail: &[u64]) -> Result<MemSink, Memory>
        ensures empty { IfOk result (λ sink. body_of sink ≡ []) }
        ensures room { IfOk result (λ sink. free_room sink ≡ room) }
        ensures calls { IfOk result (λ sink.
            sink_calls sink ≡ record { fail = fail.now; number = 0; faults = 0 }) }
    {
        let room = room as usize;
        Ok(MemSink {
            body: Vec::with_capacity(alloc, room)?,
            room,
            calls: Calls::none(alloc, fail)?,
        })
    }

    /// The bytes that were written.
    pub fn body(&self) -> &[u8]
        ensures { result.now ≡ body_of self.now }
    {
        self.body.as_slice()
    }
}

impl Sink for MemSink {
    ghost use Rattle.std.specs.Prelude.{◌≡◌, ◌≤◌, ◌-◌, ◌↔◌, ◌++◌, length, IsOk, IfOk, OnOk, OnErr};
    ghost use Rattle.psr_base.specs.Count.{FailsNext, after_call, after_fault};
    ghost use Rattle.psr_base.specs.InMemory.{body_of, free_room, sink_calls, sink_seen};

    ghost seen = { sink_seen };

    fn write(&mut self, bytes: &[u8]) -> Result<usize, Failed>
        ensures answer { IsOk result
            ↔ ((length bytes.now ≤ free_room self.old) × ¬ FailsNext (sink_calls self.old)) }
        ensures whole { IfOk result (λ n. n ≡ length bytes.now) }
        ensures written { OnOk result (body_of self.new ≡ body_of self.old ++ bytes.now) }
        ensures room { OnOk result (free_room self.new ≡ free_room self.old - length bytes.now) }
        ensures called { OnOk result (sink_calls self.new ≡ after_call (sink_calls self.old)) }
        ensures unchanged { OnErr result (body_of self.new ≡ body_of self.old) }
        ensures room_stays { OnErr result (free_room self.new ≡ free_room self.old) }
        ensures failed { OnErr result (sink_calls self.new ≡ after_fault (sink_calls self.old)) }
        ensures count { (sink_calls self.old).faults ≤ (sink_calls self.new).faults }
    {
        self.calls.begin()?;
        if bytes.len() > self.room - self.body.len() {
            return Err(self.calls.fault());
        }
        match self.body.extend_from_slice(bytes) {
            Ok(()) => Ok(bytes.len()),
            Err(_) => Err(self.calls.fault()),
        }
    }
}
