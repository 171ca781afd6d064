//! `psr_search`: searches files in the DADA form for dispersed pulses and folded periods.
#![tactic(auto)]

use psr_base::{RealFiles, RealInputs, RealSink, TakenStreams};
use psr_search::run;
use run_outcome::words_or_status;
use search_session::NoGate;
use std::env;
use std::process::ExitCode;

fn main(rt: HostRuntime) -> ExitCode {
    let _streams = TakenStreams::take(&rt);
    let mut notes = RealSink::notes(&rt);
    let words = match words_or_status(env::args(&rt), rt.alloc(), &mut notes) {
        Ok(words) => words,
        Err(status) => return ExitCode::from(status),
    };
    let mut inputs = RealInputs::new(&rt);
    let mut files = RealFiles::new(&rt);
    let mut out = RealSink::out(&rt);
    let ran = run(
        &rt,
        rt.alloc(),
        words.as_slice(),
        &mut inputs,
        &mut files,
        &mut out,
        &mut notes,
        &NoGate,
    );
    ExitCode::from(ran.status)
}
