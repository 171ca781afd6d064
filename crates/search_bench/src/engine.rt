//! Measures searches of 1024 channels that look like noise, with delays from 0 to 1024 spectra.

ghost use Rattle.std.specs.Prelude.{◌≡◌, ◌≤◌, ◌^◌, false, length, IfOk, vec_len};
ghost use Rattle.search_model.specs.Search.{SettingsInRange};

use dada_header::Header;
use obs_plan::Observation;
use psr_base::Memory;
use search_engine::Engine;
use search_model::Search;
use std::alloc::Global;
use std::io;
use std::rt::Clock;
use std::time::Instant;

const HEADER: &str = "HDR_SIZE 4096
NCHAN 1024
NBIT 8
NPOL 1
NDIM 1
TSAMP 64
FREQ 1382
BW -400
OBS_OFFSET 0
";

// The number of spectra that are made. They are fed again and again.
const MADE: usize = 256;

/// A search.
#[derive(Clone, Copy)]
pub struct Work {
    /// How many spectra are searched.
    pub spectra: u32,
    /// The widest box, in path sums.
    pub widest: u32,
    /// The longest period that is folded; the shortest is 2.
    pub periods: u32,
    /// The maximum number of spectra of a chunk.
    pub chunk: u32,
}

/// The work of the arguments SPECTRA WIDEST PERIODS CHUNK, or `None` if they are not of this form. CHUNK is 256 by
/// default.
pub fn work_of(words: &[String]) -> Option<Work> {
    let (spectra, widest, periods, chunk) = match words {
        [spectra, widest, periods] => (spectra, widest, periods, 256),
        [spectra, widest, periods, chunk] => (
            spectra,
            widest,
            periods,
            chunk.as_str().parse().ok()?,
        ),
        _ => return None,
    };
    Some(Work {
        spectra: spectra.as_str().parse().ok()?,
        widest: widest.as_str().parse().ok()?,
        periods: periods.as_str().parse().ok()?,
        chunk,
    })
}

/// Does the work, and prints what was found; if `timed`, also how long it took.
pub fn show<R: AllocGlobal + Print + Clock>(rt: &R, work: Work, timed: bool) -> io::Result<()> {
    let start = Instant::now(rt)?;
    let wanted = settings(work);
    if !wanted.in_range() || work.spectra > 1 << 22 {
        return println!(rt; "numbers out of range");
    }
    match search(rt.alloc(), &wanted, work.spectra) {
        Some(found) => println!(rt;
            "{} candidates in {} spectra",
            found.candidates, found.spectra
        )?,
        None => println!(rt; "no search")?,
    }
    if timed {
        let nanos = start.elapsed(rt)?.as_nanos();
        println!(rt; "{nanos} ns in all")?;
    }
    Ok(())
}

// The number of candidates that a search found, and of spectra that it searched.
#[derive(Clone, Copy)]
struct Found {
    candidates: u64,
    spectra: u64,
}

// Samples with a mean of 16.5 and a standard deviation of 2.87.
fn noise(alloc: Global, count: usize) -> Result<Vec<u8>, Memory>
    ensures { IfOk result (λ v. vec_len v ≡ count) }
{
    let mut samples = Vec::with_capacity(alloc, count)?;
    let mut state: u32 = 13;
    for done in 0..count {
        state = state.wrapping_mul(1664525).wrapping_add(1013904223);
        samples.push(12 + (state >> 24) as u8 % 10)?;
    }
    Ok(samples)
}

fn observation(alloc: Global) -> Option<Observation> {
    let mut bytes = Vec::from_slice(alloc, HEADER.as_bytes()).ok()?;
    bytes.resize(4096, 0).ok()?;
    let header = Header::read(alloc, bytes.as_slice()).ok()?;
    Observation::of(alloc, &header).ok()
}

fn settings(work: Work) -> Search {
    Search {
        min_delay: 0,
        max_delay: 1024,
        widest: work.widest,
        fold_min: 2,
        fold_max: work.periods,
        fold_rows: 5,
        fold_step: 17,
        chunk: work.chunk,
        shards: 1,
        max_candidates: 1000000,
        mean: 16500,
        sd: 2872,
        snr: 1200,
    }
}

// Feeds the samples again and again until `spectra` spectra were fed.
fn feed(engine: &mut Engine, samples: &[u8], spectra: u32)
    requires running { engine.old.has_ended ≡ false }
    requires fresh { engine.old.fed ≡ 0 }
    requires few { length samples.now ≤ 2 ^ 18 }
    ensures { engine.new.has_ended ≡ false }
{
    for turn in 0..spectra / MADE as u32 {
        engine.feed(samples);
    }
}

fn search(alloc: Global, wanted: &Search, spectra: u32) -> Option<Found>
    requires { SettingsInRange wanted.now }
{
    let obs = observation(alloc)?;
    let Ok(samples) = noise(alloc, MADE * 1024) else {
        return None;
    };
    let mut engine = Engine::open(alloc, &obs, wanted, 0).ok()?;
    feed(&mut engine, samples.as_slice(), spectra);
    engine.end();
    let spectra = engine.spectra();
    Some(Found {
        candidates: engine.into_book().count(),
        spectra,
    })
}
