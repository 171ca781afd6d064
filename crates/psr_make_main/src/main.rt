//! `psr_make`: makes an observation of noise and dispersed pulses from a number.
#![tactic(auto)]

use psr_base::{NoWords, RealFiles, RealSink, Sink, TakenStreams, command_words, write_all};
use psr_make::{Stop, run_make};
use std::env;
use std::process::ExitCode;

// Tells why there is no observation.
fn end<E: Sink>(stop: Stop, notes: &mut E) -> ExitCode {
    let _ = write_all(notes, stop.note().as_bytes());
    ExitCode::from(stop.status())
}

fn main(rt: HostRuntime) -> ExitCode {
    let _streams = TakenStreams::take(&rt);
    let mut notes = RealSink::notes(&rt);
    let words = match command_words(env::args(&rt), rt.alloc()) {
        Ok(words) => words,
        Err(NoWords::Refused) => return end(Stop::Words, &mut notes),
        Err(NoWords::Memory) => return end(Stop::Memory, &mut notes),
    };
    let mut files = RealFiles::new(&rt);
    let status = run_make(rt.alloc(), words.as_slice(), &mut files, &mut notes);
    ExitCode::from(status)
}
