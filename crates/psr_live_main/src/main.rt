//! `psr_live`: searches a stream, and prints part after part as soon as its spectra are searched.
#![tactic(auto)]

use psr_base::{RealInputs, RealSink, TakenStreams};
use psr_live::run_live;
use run_outcome::words_or_status;
use std::env;
use std::process::ExitCode;

fn main(rt: HostRuntime) -> ExitCode {
    let _streams = TakenStreams::take(&rt);
    let mut notes = RealSink::notes(&rt);
    let words = match words_or_status(env::args(&rt), rt.alloc(), &mut notes) {
        Ok(words) => words,
        Err(status) => return ExitCode::from(status),
    };
    let mut inputs = RealInputs::new(&rt);
    let mut out = RealSink::out(&rt);
    let status = run_live(
        &rt,
        rt.alloc(),
        words.as_slice(),
        &mut inputs,
        &mut out,
        &mut notes,
    );
    ExitCode::from(status)
}
