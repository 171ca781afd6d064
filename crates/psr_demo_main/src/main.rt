//! `psr_demo`: makes the observation of a number, searches it in memory, and sums up what was found.
#![tactic(auto)]

use psr_base::{NoWords, RealSink, TakenStreams, command_words};
use psr_demo::{Stop, run_demo};
use search_session::NoGate;
use std::env;
use std::process::ExitCode;

fn main(rt: HostRuntime) -> ExitCode {
    let _streams = TakenStreams::take(&rt);
    let words = match command_words(env::args(&rt), rt.alloc()) {
        Ok(words) => words,
        Err(NoWords::Refused) => return ExitCode::from(Stop::Words.status()),
        Err(NoWords::Memory) => return ExitCode::from(Stop::Memory.status()),
    };
    let mut out = RealSink::out(&rt);
    let mut notes = RealSink::notes(&rt);
    let status = run_demo(
        &rt,
        rt.alloc(),
        words.as_slice(),
        &mut out,
        &mut notes,
        &NoGate,
    );
    ExitCode::from(status)
}
