// Path sums and boxes as they are defined: a path is halved down to each edge, and its cells are added one by one.
use detect_rule::Rule;
use psr_base::Memory;
use search_model::{Candidate, Search};
use std::alloc::Global;

/// The samples of `channels` channels, a byte each, spectrum by spectrum, and the edges of the channels in kHz. Both go
/// from the highest frequency down.
#[derive(Clone, Copy)]
pub struct Samples<'a> {
    pub channels: usize,
    pub bytes: &'a [u8],
    pub edges: &'a [u32],
}

// The square of an edge; 0 past the last.
fn square_of(edges: &[u32], k: usize) -> u128 {
    match edges.get(k) {
        Some(edge) => u128::from(*edge).wrapping_mul(u128::from(*edge)),
        None => 0,
    }
}

// The part above the edge `mid` of a delay between the edges `lo` and `hi`: by the squares of the wavelengths, rounded.
fn split(edges: &[u32], lo: usize, mid: usize, hi: usize, d: u32) -> u32 {
    let high = square_of(edges, lo);
    let middle = square_of(edges, mid);
    let low = square_of(edges, hi);
    let part = high.wrapping_sub(middle).wrapping_mul(low);
    let whole = high.wrapping_sub(low).wrapping_mul(middle);
    let twice = part.wrapping_mul(2).wrapping_mul(u128::from(d));
    let share = twice.wrapping_add(whole).checked_div(whole.wrapping_mul(2));
    u32::try_from(share.unwrap_or(0)).unwrap_or(0)
}

// The delay at an edge on the path of delay `d`.
fn delay_at(samples: Samples<'_>, d: u32, edge: usize) -> u32 {
    let (mut lo, mut hi) = (0, samples.channels);
    let (mut start, mut d) = (0_u32, d);
    for _halving in 0..12 {
        if hi.saturating_sub(lo) < 2 {
            break;
        }
        let mid = lo + (hi - lo) / 2;
        let upper = split(samples.edges, lo, mid, hi, d);
        if edge <= mid {
            hi = mid;
            d = upper;
        } else {
            lo = mid;
            start = start.wrapping_add(upper);
            d = d.wrapping_sub(upper);
        }
    }
    if edge >= hi {
        start.wrapping_add(d)
    } else {
        start
    }
}

// The delays at all edges.
fn path(alloc: Global, samples: Samples<'_>, d: u32) -> Result<Vec<u32>, Memory> {
    let mut delays = Vec::new(alloc);
    for edge in 0..samples.edges.len() {
        delays.push(delay_at(samples, d, edge))?;
    }
    Ok(delays)
}

// The sample of a channel in spectrum `t`; 0 before the first spectrum.
fn sample(samples: Samples<'_>, channel: usize, t: usize) -> u32 {
    let Some(first) = t.checked_mul(samples.channels) else {
        return 0;
    };
    match samples.bytes.get(first.saturating_add(channel)) {
        Some(byte) => u32::from(*byte),
        None => 0,
    }
}

// The sum of the cells of a channel between two delays, on a path that begins at spectrum `start`.
fn cells_of(samples: Samples<'_>, channel: usize, from: u32, to: u32, start: usize) -> u32 {
    let mut total: u32 = 0;
    for e in from..to.wrapping_add(1).max(from) {
        let t = start.wrapping_add(e as usize);
        total = total.wrapping_add(sample(samples, channel, t));
    }
    total
}

// The sum along a path of delay `d` that ends at spectrum `u`.
fn path_sum(samples: Samples<'_>, path: &[u32], d: u32, u: usize) -> u32 {
    let start = u.wrapping_sub(d as usize);
    let mut total: u32 = 0;
    let mut from = 0;
    for (edge, to) in path.iter().enumerate() {
        if edge > 0 {
            total = total.wrapping_add(cells_of(samples, edge - 1, from, *to, start));
        }
        from = *to;
    }
    total
}

// The sums of delay `d` that end at each of the first `spectra` spectra.
fn sums_of(
    alloc: Global,
    samples: Samples<'_>,
    d: u32,
    spectra: usize,
) -> Result<Vec<u32>, Memory> {
    let path = path(alloc, samples, d)?;
    let mut row = Vec::new(alloc);
    for u in 0..spectra {
        row.push(path_sum(samples, path.as_slice(), d, u))?;
    }
    Ok(row)
}

/// The path sums of one delay.
#[derive(Drop)]
pub struct Row {
    /// The delay, in spectra.
    pub delay: u32,
    /// How many cells each path sum adds up.
    pub cells: u32,
    /// The path sums, by the spectrum at which they end.
    pub sums: Vec<u32>,
}

/// The rows of the delays of a search.
pub fn rows(
    alloc: Global,
    samples: Samples<'_>,
    search: &Search,
    spectra: usize,
) -> Result<Vec<Row>, Memory> {
    let mut rows = Vec::new(alloc);
    for delay in search.min_delay..search.max_delay.saturating_add(1) {
        let sums = sums_of(alloc, samples, delay, spectra)?;
        let channels = u32::try_from(samples.channels).unwrap_or(0);
        let cells = channels.wrapping_add(delay);
        rows.push(Row { delay, cells, sums })?;
    }
    Ok(rows)
}

// The sum of the `width` path sums up to the one that ends at `end`. `None` if the first of them ends before the delay.
fn box_sum(row: &Row, end: u32, width: u32) -> Option<u32> {
    let begin = end.checked_add(1)?.checked_sub(width)?;
    if begin < row.delay {
        return None;
    }
    let mut total: u32 = 0;
    for k in begin as usize..(begin as usize).saturating_add(width as usize) {
        total = total.wrapping_add(row.sums.get(k).copied().unwrap_or(0));
    }
    Some(total)
}

/// Whether a sum of `cells` cells is detected. None is if a number is out of its range.
pub fn is_detected(search: &Search, sum: u32, cells: u64) -> bool {
    if search.mean > 200000000 || search.sd > 200000000 || search.snr > 100000 {
        return false;
    }
    if cells > 1 << 26 {
        return false;
    }
    let rule = Rule {
        mean: search.mean,
        sd: search.sd,
        snr: search.snr,
    };
    rule.detected(u64::from(sum), cells)
}

// Lists the detected boxes of a row that end at a spectrum, by width.
fn list_boxes(
    list: &mut Vec<Candidate>,
    search: &Search,
    row: &Row,
    end: u32,
) -> Result<(), Memory> {
    for width in [1_u32, 2, 4, 8, 16, 32] {
        let cells = u64::from(width).saturating_mul(u64::from(row.cells));
        if let Some(sum) = box_sum(row, end, width) {
            if width <= search.widest && is_detected(search, sum, cells) {
                list.push(Candidate::Pulse {
                    end: u64::from(end),
                    delay: row.delay,
                    width,
                    sum,
                })?;
            }
        }
    }
    Ok(())
}

/// Lists the detected boxes: by end, then by delay, then by width.
pub fn list_pulses(
    list: &mut Vec<Candidate>,
    search: &Search,
    rows: &[Row],
    spectra: u32,
) -> Result<(), Memory> {
    for end in 0..spectra {
        for row in rows {
            list_boxes(list, search, row, end)?;
        }
    }
    Ok(())
}
