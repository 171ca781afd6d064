//! `psr_part`: searches a part of an observation, from a checkpoint on.
#![tactic(auto)]

use psr_base::{RealInputs, RealSink, TakenStreams};
use psr_part::run_part;
use run_outcome::words_or_status;
use std::env;
use std::process::ExitCode;

fn main(rt: HostRuntime) -> ExitCode {
    let _streams = TakenStreams::take(&rt);
    let mut notes = RealSink::notes(&rt);
    let words = match words_or_status(env::args(&rt), rt.alloc(), &mut notes) {
        Ok(words) => words,
        Err(status) => return ExitCode::from(status),
    };
    let mut inputs = RealInputs::new(&rt);
    let mut out = RealSink::out(&rt);
    let ran = run_part(
        &rt,
        rt.alloc(),
        words.as_slice(),
        &mut inputs,
        &mut out,
        &mut notes,
    );
    ExitCode::from(ran.status)
}
