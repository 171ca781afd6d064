//! `psr_beams`: searches several beams of one observation at the same time, and marks the pulses that too many of them
//! have.
#![tactic(auto)]

use psr_base::{RealInputs, RealSink, TakenStreams};
use psr_beams::run_beams;
use run_outcome::words_or_status;
use search_session::NoGate;
use std::env;
use std::process::ExitCode;

fn main(rt: HostRuntime) -> ExitCode {
    let _streams = TakenStreams::take(&rt);
    let mut notes = RealSink::notes(&rt);
    let words = match words_or_status(env::args(&rt), rt.alloc(), &mut notes) {
        Ok(words) => words,
        Err(status) => return ExitCode::from(status),
    };
    let mut inputs = [
        RealInputs::new(&rt),
        RealInputs::new(&rt),
        RealInputs::new(&rt),
        RealInputs::new(&rt),
        RealInputs::new(&rt),
        RealInputs::new(&rt),
        RealInputs::new(&rt),
    ];
    let mut out = RealSink::out(&rt);
    ExitCode::from(run_beams(
        &rt,
        rt.alloc(),
        words.as_slice(),
        &mut inputs,
        &mut out,
        &mut notes,
        &NoGate,
    ))
}
