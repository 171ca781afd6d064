// Each use on values that are known from outside.
use crate::calls::{ask, is_pulse, plain_sum, unshifted};
use crate::folding::folded;
use crate::headers::{Refused, dispersion};
use crate::ring::hand_on;
use crate::search::found;
use crate::transform::dedispersed;
use dada_header::{Header, HeaderFault};
use obs_plan::{Key, ObsFault, Observation};
use psr_base::Memory;
use ring_core::{Answer, Core, Shape};
use search_model::{Candidate, Search};
use std::alloc::Global;

// The bytes of a header with these lines.
fn header(text: &[u8]) -> [u8; 4096] {
    let mut bytes = [0; 4096];
    for (place, byte) in bytes.iter_mut().zip(text.iter()) {
        *place = *byte;
    }
    bytes
}

// The Vela pulsar has a dispersion measure of 67.97 pc/cm^3, by which it comes 89.2 ms later at 1182 MHz than at 1582:
// that is 1393 spectra of 64 us, rounded down.
#[test]
fn the_dispersion_of_vela(rt: HostRuntime) {
    let band = header(b"NCHAN 1024\nNBIT 8\nTSAMP 64\nFREQ 1382\nBW -400\n");
    let found = dispersion(rt.alloc(), &band, 1393);
    assert!(rt; found == Ok(67_951));
    let without = header(b"NCHAN 1024\nNBIT 8\nTSAMP 64\nFREQ 1382\n");
    let missing = Refused::Observation(ObsFault::Missing(Key::Bw));
    assert!(rt; dispersion(rt.alloc(), &without, 1393) == Err(missing));
    let short = Refused::Header(HeaderFault::Short { had: 3 });
    assert!(rt; dispersion(rt.alloc(), b"abc", 1393) == Err(short));
}

#[test]
fn bytes_go_through_a_ring(rt: HostRuntime) {
    let mut into = [0; 8];
    let used = hand_on(rt.alloc(), b"pulsar", &mut into);
    assert!(rt; used == Some(6) && into.as_slice() == b"pulsar\0\0".as_slice());
}

// Pulses that are 3 1/3 values apart, in rows of 3 values, fall on one phase of trial 1 of 4 rows.
#[test]
fn a_period_between_two_whole_ones(rt: HostRuntime) -> Result<(), Memory> {
    let series = [5, 0, 0, 5, 0, 0, 0, 5, 0, 0, 5, 0];
    let profile = folded(rt.alloc(), &series, 3, 2, 1)?;
    assert!(rt; profile.as_slice() == [20, 0, 0].as_slice());
    Ok(())
}

// A pulse that comes one spectrum later in the lower one of two channels.
#[test]
fn a_pulse_is_dedispersed(rt: HostRuntime) -> Result<(), Memory> {
    let edges = [1_500_000, 1_400_000, 1_300_000];
    let rows = [10, 0, 0, 0, 20, 0];
    let sums = dedispersed(rt.alloc(), &edges, &rows, 3, 1)?;
    assert!(rt; sums.as_slice() == [0, 30, 20].as_slice());
    Ok(())
}

// A search for the pulse of `a_pulse_is_dedispersed`, above a mean of 1.
const SEARCH: Search = Search {
    min_delay: 0,
    max_delay: 1,
    widest: 1,
    fold_min: 2,
    fold_max: 0,
    fold_rows: 6,
    fold_step: 1,
    chunk: 256,
    shards: 1,
    max_candidates: 8,
    mean: 1000,
    sd: 2000,
    snr: 700,
};

// The first candidate of that search and the number of all, if there is memory.
fn candidates(alloc: Global) -> Option<(Candidate, u64)> {
    let bytes = header(b"NCHAN 2\nNBIT 8\nTSAMP 64\nFREQ 1400\nBW -200\n");
    let header = Header::read(alloc, &bytes).ok()?;
    let observation = Observation::of(alloc, &header).ok()?;
    if !SEARCH.in_range() {
        return None;
    }
    let book = found(alloc, &observation, &SEARCH, 0, &[10, 0, 0, 20, 0, 0]).ok()?;
    let first = book.kept().first().copied()?;
    Some((first, book.count()))
}

#[test]
fn a_pulse_is_found(rt: HostRuntime) {
    let pulse = Candidate::Pulse {
        end: 1,
        delay: 1,
        width: 1,
        sum: 30,
    };
    assert!(rt; candidates(rt.alloc()) == Some((pulse, 1)));
}

// 100 samples of mean 16 have the sum 1600, whose deviation is 28.28; 7 of these are 197.96.
#[test]
fn small_crates_are_called(rt: HostRuntime) -> Result<(), Memory> {
    assert!(rt; is_pulse(1798, 100) && !is_pulse(1797, 100));
    let edges = [1_500_000, 1_400_000, 1_300_000];
    let sum = plain_sum(rt.alloc(), &edges, &[10, 0, 0, 20, 0, 0], 1, 1)?;
    assert!(rt; sum == 30);
    let series = [5, 0, 0, 5, 0, 0, 0, 5, 0, 0, 5, 0];
    assert!(rt; unshifted(&series, 3, 2, 0) == 10);
    Ok(())
}

#[test]
fn a_ring_is_empty_at_first(rt: HostRuntime) {
    let shape = Shape {
        buffers: 2,
        readers: 1,
        max_blocks: 1,
    };
    let answer = Core::open(rt.alloc(), shape).map(|mut core| ask(&mut core, 0));
    assert!(rt; answer == Ok(Answer::Empty { number: 0 }));
}
