// Whole searches against direct sums.
ghost use Rattle.std.specs.Prelude.{◌<◌};
ghost use Rattle.search_model.specs.Search.{SettingsInRange};

use crate::direct_folds::{is_folded, list_delay};
use crate::direct_sums::{Row, Samples, list_pulses, rows};
use crate::made::{TWO_CHANNELS, fields_of, observation};
use candidate_book::Book;
use obs_plan::Observation;
use psr_base::Memory;
use search_engine::{Engine, PlanFault};
use search_model::{Candidate, Search};
use std::alloc::Global;

const MANY_CHANNELS: &str = "HDR_SIZE 4096
NCHAN 37
NBIT 8
NPOL 1
NDIM 1
TSAMP 64
FREQ 1400
BW -200
OBS_OFFSET 0
";

const CHANNELS: u32 = 37;

const SPECTRA: u32 = 300;

// Boxes of all widths, and folds of every 17th delay from 5 on, of the periods 2 to 9 and up to 8 rows.
const SEARCH: Search = Search {
    min_delay: 5,
    max_delay: 90,
    widest: 32,
    fold_min: 2,
    fold_max: 9,
    fold_rows: 3,
    fold_step: 17,
    chunk: 256,
    shards: 1,
    max_candidates: 100000,
    mean: 127500,
    sd: 73900,
    snr: 250,
};

// Bytes that look like noise.
pub fn noise(alloc: Global, count: usize) -> Result<Vec<u8>, Memory> {
    let mut bytes = Vec::new(alloc);
    let mut state: u32 = 14;
    for _byte in 0..count {
        state = state.wrapping_mul(1664525).wrapping_add(1013904223);
        bytes.push((state >> 24) as u8)?;
    }
    Ok(bytes)
}

// Feeds a piece, if the engine can take it.
fn feed_piece(engine: &mut Engine, piece: &[u8]) {
    if !engine.has_ended() && engine.fed() <= 1 << 40 && piece.len() <= 1 << 20 {
        engine.feed(piece);
    }
}

// Feeds bytes in pieces of these lengths, over and over.
pub fn feed_cut(engine: &mut Engine, bytes: &[u8], lengths: &[usize]) {
    let mut rest = bytes;
    for turn in 0..bytes.len() {
        let length = lengths.get(turn % lengths.len().max(1)).copied();
        let (piece, after) = rest.split_at(length.unwrap_or(1).min(rest.len()));
        feed_piece(engine, piece);
        rest = after;
    }
}

/// What a search found, and in how many spectra.
#[derive(Drop)]
struct Found {
    book: Book,
    spectra: u64,
}

// Searches bytes that are fed in pieces of these lengths, over and over.
fn searched(
    alloc: Global,
    observation: &Observation,
    search: &Search,
    shard: u32,
    bytes: &[u8],
    lengths: &[usize],
) -> Result<Found, PlanFault>
    requires range { SettingsInRange search.now }
    requires shard { shard < search.now.shards }
{
    let mut engine = Engine::open(alloc, observation, search, shard)?;
    feed_cut(&mut engine, bytes, lengths);
    if !engine.has_ended() {
        engine.end();
    }
    let spectra = engine.spectra();
    Ok(Found {
        book: engine.into_book(),
        spectra,
    })
}

// Lists the detected folds of all delays.
fn list_folds(list: &mut Vec<Candidate>, search: &Search, rows: &[Row]) -> Result<(), Memory> {
    for row in rows {
        let series = row.sums.as_slice().get(row.delay as usize..).unwrap_or(&[]);
        if is_folded(search, row.delay) {
            list_delay(list, search, series, row.delay, row.cells)?;
        }
    }
    Ok(())
}

// All candidates of a search of bytes.
fn list_all(
    alloc: Global,
    observation: &Observation,
    search: &Search,
    bytes: &[u8],
) -> Result<Vec<Candidate>, Memory> {
    let samples = Samples {
        channels: CHANNELS as usize,
        bytes,
        edges: observation.edges(),
    };
    let rows = rows(alloc, samples, search, SPECTRA as usize)?;
    let mut list = Vec::new(alloc);
    list_pulses(&mut list, search, rows.as_slice(), SPECTRA)?;
    list_folds(&mut list, search, rows.as_slice())?;
    Ok(list)
}

fn delay_of(candidate: &Candidate) -> u32 {
    match candidate {
        Candidate::Pulse { delay, .. } => *delay,
        Candidate::Fold { delay, .. } => *delay,
    }
}

// The candidates of the delays from `first` up to, but without, `end`.
fn of_delays(
    alloc: Global,
    list: &[Candidate],
    first: u32,
    end: u32,
) -> Result<Vec<Candidate>, Memory> {
    let mut some = Vec::new(alloc);
    for candidate in list {
        let delay = delay_of(candidate);
        if first <= delay && delay < end {
            some.push(*candidate)?;
        }
    }
    Ok(some)
}

// The smallest delay of a shard.
fn shard_start(search: &Search, shard: u32) -> u32 {
    let delays = search
        .max_delay
        .wrapping_sub(search.min_delay)
        .wrapping_add(1);
    let before = shard.wrapping_mul(delays).checked_div(search.shards);
    search.min_delay.wrapping_add(before.unwrap_or(0))
}

// Whether a search of a shard found the direct candidates of its delays.
fn agrees(
    alloc: Global,
    found: &Found,
    search: &Search,
    shard: u32,
    direct: &[Candidate],
) -> Result<bool, Memory> {
    let first = shard_start(search, shard);
    let end = shard_start(search, shard.wrapping_add(1));
    let wanted = of_delays(alloc, direct, first, end)?;
    let book = &found.book;
    let counts = found.spectra == u64::from(SPECTRA) && book.count() == wanted.len() as u64;
    Ok(counts && book.kept() == wanted.as_slice())
}

// Whether a shard of a search finds the direct candidates of its delays, if the bytes are fed in pieces of these
// lengths.
fn shard_agrees(
    alloc: Global,
    observation: &Observation,
    search: &Search,
    shard: u32,
    bytes: &[u8],
    lengths: &[usize],
    direct: &[Candidate],
) -> Result<bool, Memory>
    requires range { SettingsInRange search.now }
    requires shard { shard < search.now.shards }
{
    match searched(alloc, observation, search, shard, bytes, lengths) {
        Ok(found) => agrees(alloc, &found, search, shard, direct),
        Err(_) => Err(Memory),
    }
}

// Whether all shards of a search find the direct candidates of their delays.
fn all_agree(
    alloc: Global,
    observation: &Observation,
    search: &Search,
    bytes: &[u8],
    lengths: &[usize],
    direct: &[Candidate],
) -> Result<bool, Memory>
    requires { SettingsInRange search.now }
{
    for shard in 0..search.shards {
        if !shard_agrees(alloc, observation, search, shard, bytes, lengths, direct)? {
            return Ok(false);
        }
    }
    Ok(true)
}

// On each line: the chunk, the number of shards, and the lengths of the pieces that are fed, over and over.
const CUTS: &str = "
256 1 | 20000
1 1 | 1
7 2 | 37 1 36 38
64 5 | 1000 3
299 7 | 4096
65536 3 | 11099 5
";

pub fn lengths_of(alloc: Global, words: &str) -> Result<Vec<usize>, Memory> {
    let mut lengths = Vec::new(alloc);
    for word in words.split_whitespace() {
        lengths.push(word.parse::<usize>().unwrap_or(0))?;
    }
    Ok(lengths)
}

// Whether all shards of the search of a line find the direct candidates of their delays.
fn is_direct(
    alloc: Global,
    observation: &Observation,
    bytes: &[u8],
    direct: &[Candidate],
    line: &'static str,
) -> Result<bool, Memory> {
    let [numbers, lengths, _] = fields_of(line);
    let (chunk, shards) = numbers.split_once(' ').unwrap_or((numbers, ""));
    let search = Search {
        chunk: chunk.parse::<u32>().unwrap_or(0),
        shards: shards.parse::<u32>().unwrap_or(0),
        ..SEARCH
    };
    if !search.in_range() {
        return Ok(false);
    }
    let lengths = lengths_of(alloc, lengths)?;
    all_agree(
        alloc,
        observation,
        &search,
        bytes,
        lengths.as_slice(),
        direct,
    )
}

// The first line whose search does not find the direct candidates, or `None`.
fn first_wrong(alloc: Global) -> Result<Option<&'static str>, Memory> {
    let Some(observed) = observation(alloc, MANY_CHANNELS) else {
        return Ok(Some("no observation"));
    };
    // The last spectrum is not whole.
    let bytes = noise(alloc, 300 * 37 + 20)?;
    let direct = list_all(alloc, &observed, &SEARCH, bytes.as_slice())?;
    let (bytes, direct) = (bytes.as_slice(), direct.as_slice());
    if direct.len() <= 1000 {
        return Ok(Some("few candidates"));
    }
    for line in CUTS.lines() {
        if !line.is_empty() && !is_direct(alloc, &observed, bytes, direct, line)? {
            return Ok(Some(line));
        }
    }
    Ok(None)
}

#[test]
fn all_candidates_are_the_direct_ones(rt: HostRuntime) -> Result<(), Memory> {
    let wrong = first_wrong(rt.alloc())?;
    assert!(rt; wrong.is_none(), "{wrong:?}");
    Ok(())
}

// The folds among candidates.
fn folds_among(alloc: Global, candidates: &[Candidate]) -> Option<Vec<Candidate>> {
    let mut folds = Vec::new(alloc);
    for candidate in candidates {
        if matches!(candidate, Candidate::Fold { .. }) {
            folds.push(*candidate).ok()?;
        }
    }
    Some(folds)
}

// The folds of a search of one delay, in two channels, with periods from `fold_min` up to 2.
fn folds_of(
    alloc: Global,
    observation: &Observation,
    fold_min: u32,
    bytes: &[u8],
) -> Option<Vec<Candidate>> {
    let search = Search {
        min_delay: 0,
        max_delay: 0,
        fold_min,
        fold_max: 2,
        fold_rows: 1,
        mean: 0,
        sd: 1000,
        snr: 200,
        ..SEARCH
    };
    if !search.in_range() {
        return None;
    }
    match searched(alloc, observation, &search, 0, bytes, &[3]) {
        Ok(found) => folds_among(alloc, found.book.kept()),
        Err(_) => None,
    }
}

// Whether a search finds these folds.
fn has_folds(
    alloc: Global,
    observation: &Observation,
    fold_min: u32,
    bytes: &[u8],
    wanted: &[Candidate],
) -> bool {
    match folds_of(alloc, observation, fold_min, bytes) {
        Some(folds) => folds.as_slice() == wanted,
        None => false,
    }
}

// A fold of two rows.
const fn fold(trial: u32, phase: u32, sum: u32) -> Candidate {
    Candidate::Fold {
        delay: 0,
        period: 2,
        halvings: 1,
        trial,
        phase,
        sum,
    }
}

// Whether two rows are folded exactly if the series and the periods have room for them.
fn are_folded(alloc: Global) -> bool {
    let folds = [fold(0, 0, 4), fold(0, 1, 6), fold(1, 0, 5), fold(1, 1, 5)];
    let bytes = [1, 0, 2, 0, 3, 0, 4, 0];
    match observation(alloc, TWO_CHANNELS) {
        Some(observed) => {
            has_folds(alloc, &observed, 2, &bytes, &folds)
                && has_folds(alloc, &observed, 2, &bytes[..7], &[])
                && has_folds(alloc, &observed, 3, &bytes, &[])
        }
        None => false,
    }
}

#[test]
fn two_rows_are_folded_where_they_fit(rt: HostRuntime) {
    assert!(rt; are_folded(rt.alloc()));
}
