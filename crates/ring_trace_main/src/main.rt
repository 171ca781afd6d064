//! Replays the trace in a file, and writes the answers to the standard output.
#![tactic(auto)]

use psr_base::{NoWords, RealInputs, RealSink, TakenStreams, command_words};
use ring_trace::{Stop, run_trace};
use std::env;
use std::process::ExitCode;

fn main(rt: HostRuntime) -> ExitCode {
    let _streams = TakenStreams::take(&rt);
    let words = match command_words(env::args(&rt), rt.alloc()) {
        Ok(words) => words,
        Err(NoWords::Refused) => return ExitCode::from(Stop::Words.status()),
        Err(NoWords::Memory) => return ExitCode::from(Stop::Memory.status()),
    };
    let mut inputs = RealInputs::new(&rt);
    let mut out = RealSink::out(&rt);
    let status = run_trace(rt.alloc(), words.as_slice(), &mut inputs, &mut out);
    ExitCode::from(status)
}
