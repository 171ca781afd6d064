// Searches of some channels against direct sums, and of a part against the plain search.
ghost use Rattle.std.specs.Prelude.{ℕ, ◌+◌, ◌≤◌, ◌<◌, IsTrue, length, slice_index};
ghost use Rattle.search_model.specs.Search.{SettingsInRange};

use crate::direct_sums::{Row, Samples, list_pulses, rows};
use crate::made::{fields_of, observation};
use crate::whole::{feed_cut, lengths_of, noise};
use candidate_book::Book;
use obs_plan::Observation;
use psr_base::Memory;
use search_engine::{Engine, PlanFault, Scope};
use search_model::{Candidate, Search};
use std::alloc::Global;

const FALLING_BYTES: &str = "HDR_SIZE 4096
NCHAN 5
NBIT 8
NPOL 1
TSAMP 64
FREQ 1400
BW -200
";

const RISING_BYTES: &str = "HDR_SIZE 4096
NCHAN 5
NBIT 8
NPOL 2
TSAMP 64
FREQ 1400
BW 200
";

const FALLING_WORDS: &str = "HDR_SIZE 4096
NCHAN 5
NBIT 16
NPOL 2
TSAMP 64
FREQ 1400
BW -200
";

const RISING_WORDS: &str = "HDR_SIZE 4096
NCHAN 5
NBIT 16
NPOL 1
TSAMP 64
FREQ 1400
BW 200
";

const CHANNELS: usize = 5;

const SPECTRA: usize = 90;

// Boxes of up to 4 spectra; nothing is folded.
const SEARCH: Search = Search {
    min_delay: 0,
    max_delay: 9,
    widest: 4,
    fold_min: 3,
    fold_max: 2,
    fold_rows: 1,
    fold_step: 1,
    chunk: 16,
    shards: 1,
    max_candidates: 100000,
    mean: 31500,
    sd: 18000,
    snr: 100,
};

fn header_of(name: &str) -> &'static str {
    match name {
        "falling 8" => FALLING_BYTES,
        "rising 8" => RISING_BYTES,
        "falling 16" => FALLING_WORDS,
        _ => RISING_WORDS,
    }
}

// The marks of channels: `x` for each that is masked.
fn marks_of(alloc: Global, word: &str) -> Result<Vec<bool>, Memory> {
    let mut marks = Vec::new(alloc);
    for letter in word.as_bytes() {
        marks.push(*letter == b'x')?;
    }
    Ok(marks)
}

fn is_marked(marks: &[bool], channel: usize) -> bool {
    marks.get(channel).copied().unwrap_or(false)
}

// The samples, with 0 in masked channels.
fn without(alloc: Global, samples: &[u8], marks: &[bool]) -> Result<Vec<u8>, Memory> {
    let mut kept = Vec::new(alloc);
    for (i, sample) in samples.iter().enumerate() {
        kept.push(if is_marked(marks, i % CHANNELS) {
            0
        } else {
            *sample
        })?;
    }
    Ok(kept)
}

// Appends the bytes of a sample: its polarisations, whose values add up to it.
fn push_sample(
    bytes: &mut Vec<u8>,
    observation: &Observation,
    sample: u8,
    masked: bool,
) -> Result<(), Memory> {
    let half = if observation.npol() == 2 {
        sample / 2
    } else {
        0
    };
    for q in 0..observation.npol() {
        let value = if q == 0 {
            sample.wrapping_sub(half)
        } else {
            half
        };
        bytes.push(if masked { 251 } else { value })?;
        if observation.nbit() == 16 {
            bytes.push(if masked { 7 } else { 0 })?;
        }
    }
    Ok(())
}

// The data bytes of samples. Masked channels have large samples instead.
fn data_of(
    alloc: Global,
    observation: &Observation,
    samples: &[u8],
    marks: &[bool],
) -> Result<Vec<u8>, Memory> {
    let mut bytes = Vec::new(alloc);
    for i in 0..samples.len() {
        let place = i % CHANNELS;
        let channel = if observation.falling() {
            place
        } else {
            CHANNELS - 1 - place
        };
        let at = i - place;
        let sample = samples.get(at.wrapping_add(channel)).copied().unwrap_or(0);
        push_sample(&mut bytes, observation, sample, is_marked(marks, channel))?;
    }
    Ok(bytes)
}

// The path sums of each delay over the samples of `spectra` spectra.
fn rows_of(
    alloc: Global,
    observation: &Observation,
    samples: &[u8],
    spectra: usize,
) -> Result<Vec<Row>, Memory> {
    let samples = Samples {
        channels: CHANNELS,
        bytes: samples,
        edges: observation.edges(),
    };
    rows(alloc, samples, &SEARCH, spectra)
}

// How many kept cells lie on the path of each delay: its path sum, if all samples of kept channels are 1.
fn counts_of(alloc: Global, observation: &Observation, marks: &[bool]) -> Result<Vec<u32>, Memory> {
    let ones = [1_u8; 50];
    let ones = without(alloc, &ones, marks)?;
    let mut counts = Vec::new(alloc);
    for row in rows_of(alloc, observation, ones.as_slice(), 10)?.as_slice() {
        counts.push(row.sums.as_slice().last().copied().unwrap_or(0))?;
    }
    Ok(counts)
}

// The candidates of samples, by direct sums.
fn direct(
    alloc: Global,
    observation: &Observation,
    samples: &[u8],
    counts: &[u32],
) -> Result<Vec<Candidate>, Memory> {
    let mut rows = rows_of(alloc, observation, samples, SPECTRA)?;
    for row in rows.as_mut_slice() {
        row.cells = counts.get(row.delay as usize).copied().unwrap_or(0);
    }
    let mut list = Vec::new(alloc);
    list_pulses(&mut list, &SEARCH, rows.as_slice(), SPECTRA as u32)?;
    Ok(list)
}

// Bytes that look random, up to 63.
fn low_noise(alloc: Global, count: usize) -> Result<Vec<u8>, Memory> {
    let mut samples = noise(alloc, count)?;
    for sample in samples.as_mut_slice() {
        *sample /= 4;
    }
    Ok(samples)
}

// What an engine finds in bytes that are fed in pieces of these lengths, over and over. `None` if it counts the wrong
// number of spectra.
fn found(mut engine: Engine, bytes: &[u8], lengths: &[usize]) -> Option<Book> {
    feed_cut(&mut engine, bytes, lengths);
    if !engine.has_ended() {
        engine.end();
    }
    let spectra = engine.whole_spectra();
    let book = engine.into_book();
    if spectra == SPECTRA as u64 {
        Some(book)
    } else {
        None
    }
}

// Whether no path has more cells than it can have.
fn fit(counts: &[u32], channels: u32) -> bool
    ensures { IsTrue result → (d : ℕ) → slice_index counts.now d ≤ channels + d }
{
    for d in 0..counts.len() {
        if u64::from(counts[d]) > u64::from(channels) + d as u64 {
            return false;
        }
    }
    true
}

// An engine over some of the channels.
fn open_channels(
    alloc: Global,
    observation: &Observation,
    search: &Search,
    marks: Vec<bool>,
    counts: Vec<u32>,
) -> Result<Engine, PlanFault>
    requires range { SettingsInRange search.now }
    requires shard { 0 < search.now.shards }
    requires marks { length marks.items ≤ observation.now.channels }
    requires counts { (d : ℕ) → slice_index counts.items d ≤ observation.now.channels + d }
{
    let scope = Scope::of_channels(marks, counts);
    Engine::open_for(alloc, observation, search, 0, scope)
}

// What the search of some channels finds, or `None` if it can't be opened.
fn find_kept(
    alloc: Global,
    observation: &Observation,
    marks: Vec<bool>,
    counts: Vec<u32>,
    bytes: &[u8],
    lengths: &[usize],
) -> Option<Book> {
    let search = SEARCH;
    if !search.in_range() || marks.len() > observation.channels() as usize {
        return None;
    }
    if !fit(counts.as_slice(), observation.channels()) {
        return None;
    }
    match open_channels(alloc, observation, &search, marks, counts) {
        Ok(engine) => found(engine, bytes, lengths),
        Err(_) => None,
    }
}

// Whether the search of some channels finds these candidates.
fn finds(
    alloc: Global,
    observation: &Observation,
    marks: Vec<bool>,
    counts: Vec<u32>,
    bytes: &[u8],
    lengths: &[usize],
    wanted: &[Candidate],
) -> bool {
    match find_kept(alloc, observation, marks, counts, bytes, lengths) {
        Some(book) => book.kept() == wanted,
        None => false,
    }
}

// The direct candidates of the channels that are kept.
fn direct_of(
    alloc: Global,
    observation: &Observation,
    samples: &[u8],
    marks: &[bool],
    counts: &[u32],
) -> Result<Vec<Candidate>, Memory> {
    let kept = without(alloc, samples, marks)?;
    direct(alloc, observation, kept.as_slice(), counts)
}

// Whether the search of some channels finds exactly the direct candidates of these channels.
fn finds_kept(
    alloc: Global,
    observation: &Observation,
    marks: Vec<bool>,
    lengths: &[usize],
) -> Result<bool, Memory> {
    let samples = low_noise(alloc, SPECTRA * CHANNELS)?;
    let bytes = data_of(alloc, observation, samples.as_slice(), marks.as_slice())?;
    let counts = counts_of(alloc, observation, marks.as_slice())?;
    let wanted = direct_of(
        alloc,
        observation,
        samples.as_slice(),
        marks.as_slice(),
        counts.as_slice(),
    )?;
    let found = finds(
        alloc,
        observation,
        marks,
        counts,
        bytes.as_slice(),
        lengths,
        wanted.as_slice(),
    );
    Ok(found && wanted.len() >= 50)
}

// On each line: an observation, the marks of its channels, and the lengths of the pieces that are fed, over and over.
const MASKS: &str = "falling 8 | .x..x | 1000
falling 8 | ..... | 7 1
falling 8 | xx.x | 3
rising 8 | x..x. | 11 2
rising 8 | ....x | 163
falling 16 | .x.x. | 1 19
rising 16 | ..x.. | 10 7
rising 16 | x | 64";

fn line_is_met(alloc: Global, line: &'static str) -> Result<bool, Memory> {
    let [name, marks, lengths] = fields_of(line);
    let marks = marks_of(alloc, marks)?;
    let lengths = lengths_of(alloc, lengths)?;
    match observation(alloc, header_of(name)) {
        Some(observed) => finds_kept(alloc, &observed, marks, lengths.as_slice()),
        None => Ok(false),
    }
}

#[test]
fn masked_channels_are_not_searched(rt: HostRuntime) -> Result<(), Memory> {
    for line in MASKS.lines() {
        assert!(rt; line_is_met(rt.alloc(), line)?, "{line}");
    }
    Ok(())
}

// Whether a candidate is a pulse that ends within a part.
fn ends_within(candidate: &Candidate, place: u32, until: u32) -> bool {
    match *candidate {
        Candidate::Pulse { end, .. } => u64::from(place) <= end && end < u64::from(until),
        Candidate::Fold { .. } => false,
    }
}

// Whether `part` has exactly those candidates of `all` that end within a part.
fn is_part_of(part: &[Candidate], all: &[Candidate], place: u32, until: u32) -> bool {
    let mut next = 0_usize;
    for candidate in all {
        if ends_within(candidate, place, until) {
            if part.get(next) != Some(candidate) {
                return false;
            }
            next = next.wrapping_add(1);
        }
    }
    next == part.len()
}

// An engine over a part.
fn open_part(
    alloc: Global,
    observation: &Observation,
    search: &Search,
    place: u32,
    until: u32,
) -> Result<Engine, PlanFault>
    requires range { SettingsInRange search.now }
    requires shard { 0 < search.now.shards }
{
    let first = place.saturating_sub(search.max_delay + search.widest);
    let scope = Scope::of_part(
        observation.channels(),
        u64::from(first),
        u64::from(place),
        u64::from(until),
    );
    Engine::open_for(alloc, observation, search, 0, scope)
}

// What the search of the whole observation finds.
fn find_all(alloc: Global, observation: &Observation, bytes: &[u8]) -> Option<Book> {
    let search = SEARCH;
    if !search.in_range() {
        return None;
    }
    match Engine::open(alloc, observation, &search, 0) {
        Ok(engine) => found(engine, bytes, &[20000]),
        Err(_) => None,
    }
}

// What the search of a part finds.
fn find_part(
    alloc: Global,
    observation: &Observation,
    place: u32,
    until: u32,
    bytes: &[u8],
    lengths: &[usize],
) -> Option<Book> {
    let search = SEARCH;
    if !search.in_range() {
        return None;
    }
    match open_part(alloc, observation, &search, place, until) {
        Ok(engine) => found(engine, bytes, lengths),
        Err(_) => None,
    }
}

// Whether the search of a part finds exactly those of the candidates `all` that lie in the part.
fn finds_part_of(
    alloc: Global,
    observation: &Observation,
    place: u32,
    until: u32,
    bytes: &[u8],
    lengths: &[usize],
    all: &[Candidate],
) -> bool {
    match find_part(alloc, observation, place, until, bytes, lengths) {
        Some(book) => all.len() > 100 && is_part_of(book.kept(), all, place, until),
        None => false,
    }
}

// Whether the search of a part finds exactly that part of what the search of the whole observation finds.
fn finds_part(
    alloc: Global,
    observation: &Observation,
    place: u32,
    until: u32,
    lengths: &[usize],
) -> Result<bool, Memory> {
    let samples = low_noise(alloc, SPECTRA * CHANNELS + 3)?;
    let bytes = samples.as_slice();
    match find_all(alloc, observation, bytes) {
        Some(book) => Ok(finds_part_of(
            alloc,
            observation,
            place,
            until,
            bytes,
            lengths,
            book.kept(),
        )),
        None => Ok(false),
    }
}

// On each line: the first spectrum at which pulses of the part end, the spectrum before which it stops, and the lengths
// of the pieces that are fed, over and over.
const PARTS: &str = "0 90 | 20000
0 1 | 1
1 40 | 7
13 14 | 5 60
14 80 | 3 64 1
40 60 | 449
40 60 | 4
89 4000 | 31
95 99 | 100";

fn part_is_met(alloc: Global, line: &'static str) -> Result<bool, Memory> {
    let [ends, lengths, _] = fields_of(line);
    let (place, until) = ends.split_once(' ').unwrap_or((ends, ""));
    let place = place.parse::<u32>().unwrap_or(0);
    let until = until.parse::<u32>().unwrap_or(0);
    let lengths = lengths_of(alloc, lengths)?;
    match observation(alloc, FALLING_BYTES) {
        Some(observed) => finds_part(alloc, &observed, place, until, lengths.as_slice()),
        None => Ok(false),
    }
}

#[test]
fn a_part_is_that_of_the_whole_list(rt: HostRuntime) -> Result<(), Memory> {
    for line in PARTS.lines() {
        assert!(rt; part_is_met(rt.alloc(), line)?, "{line}");
    }
    Ok(())
}
