// The masked text of four channels by plain sums, cell by cell.
use crate::mask::four::{CHANNELS, SAMPLES, SPECTRA};
use std::alloc::Global;
use std::test::Fail;

// The spectra after which the edges of four channels from 1500 down to 1300 MHz are passed, by delay.
const PATHS: [[usize; 5]; 3] = [[0, 0, 0, 0, 0], [0, 0, 0, 0, 1], [0, 0, 1, 1, 2]];

// The dispersion measures of these delays.
const MEASURES: [&str; 3] = ["0.000", "0.104", "0.209"];

/// Whether channel `c` is masked, from the highest frequency on: the bit of the mask.
pub(crate) fn is_masked(mask: u32, c: usize) -> bool {
    match c {
        0 => mask % 2 == 1,
        1 => mask / 2 % 2 == 1,
        2 => mask / 4 % 2 == 1,
        _ => mask / 8 % 2 == 1,
    }
}

// The sample of a channel; 0 if there is none.
fn sample(c: usize, t: usize) -> u64 {
    let place = t.wrapping_mul(CHANNELS).wrapping_add(c);
    u64::from(SAMPLES.get(place).copied().unwrap_or(0))
}

// The delay at an edge.
fn delay_at(d: usize, edge: usize) -> usize {
    match PATHS.get(d) {
        Some(path) => path.get(edge).copied().unwrap_or(0),
        None => 0,
    }
}

// The path sum of a delay that ends at a spectrum, over the channels that are kept, and how many cells it adds up.
fn path_sum(mask: u32, d: usize, u: usize) -> (u64, u64) {
    let mut sum: u64 = 0;
    let mut cells: u64 = 0;
    for c in 0..CHANNELS {
        if !is_masked(mask, c) {
            for e in delay_at(d, c)..delay_at(d, c + 1).wrapping_add(1) {
                let t = u.wrapping_sub(d).wrapping_add(e);
                sum = sum.wrapping_add(sample(c, t));
                cells = cells.wrapping_add(1);
            }
        }
    }
    (sum, cells)
}

// Whether a sum is detected at mean 25, deviation 6 and a threshold of 2.
fn is_detected(sum: u64, cells: u64) -> bool {
    let mean = cells.wrapping_mul(25);
    let excess = sum.wrapping_sub(mean);
    sum >= mean && excess.wrapping_mul(excess) >= cells.wrapping_mul(144)
}

/// A text that grows line by line.
#[derive(Drop)]
pub(crate) struct Text {
    pub(crate) lines: String,
    pulses: u32,
    folds: u32,
}

impl Text {
    // Appends the box of a width that ends at a spectrum, if it is detected.
    fn pulse(
        &mut self,
        alloc: Global,
        mask: u32,
        u: usize,
        d: usize,
        width: usize,
    ) -> Result<(), Fail> {
        if u.wrapping_add(1) < d.wrapping_add(width) {
            return Ok(());
        }
        let (mut sum, mut cells) = (0_u64, 0_u64);
        for less in 0..width {
            let (one, more) = path_sum(mask, d, u.wrapping_sub(less));
            sum = sum.wrapping_add(one);
            cells = cells.wrapping_add(more);
        }
        if is_detected(sum, cells) {
            let measure = MEASURES.get(d).copied().unwrap_or("");
            let line = format!(in alloc; "PULSE {u} {d} {measure} {width} {sum} {cells}\n")?;
            self.lines.push_str(line.as_str())?;
            self.pulses = self.pulses.wrapping_add(1);
        }
        Ok(())
    }

    // Appends the fold of period 2 over two rows, if it is detected.
    fn fold(
        &mut self,
        alloc: Global,
        mask: u32,
        d: usize,
        trial: usize,
        phase: usize,
    ) -> Result<(), Fail> {
        let second = if trial == phase { 2 } else { 3 };
        let (first, cells) = path_sum(mask, d, d.wrapping_add(phase));
        let (other, more) = path_sum(mask, d, d.wrapping_add(second));
        let sum = first.wrapping_add(other);
        let cells = cells.wrapping_add(more);
        if is_detected(sum, cells) {
            let measure = MEASURES.get(d).copied().unwrap_or("");
            let line = format!(in alloc; "FOLD {d} {measure} 2 2 {trial} {phase} {sum} {cells}\n")?;
            self.lines.push_str(line.as_str())?;
            self.folds = self.folds.wrapping_add(1);
        }
        Ok(())
    }

    // Appends all boxes, by end, delay and width.
    fn all_pulses(&mut self, alloc: Global, mask: u32) -> Result<(), Fail> {
        for u in 0..SPECTRA {
            for d in 0..3 {
                self.pulse(alloc, mask, u, d, 1)?;
                self.pulse(alloc, mask, u, d, 2)?;
            }
        }
        Ok(())
    }

    // Appends all folds, by delay, trial and phase.
    fn all_folds(&mut self, alloc: Global, mask: u32) -> Result<(), Fail> {
        for d in 0..3 {
            for trial in 0..2 {
                self.fold(alloc, mask, d, trial, 0)?;
                self.fold(alloc, mask, d, trial, 1)?;
            }
        }
        Ok(())
    }
}

/// The text of a search of boxes of up to two spectra and of folds of period 2, up to delay 2, without the channels of
/// a mask.
pub(crate) fn text_without(alloc: Global, mask: u32) -> Result<Text, Fail> {
    let mut text = Text {
        lines: String::new(alloc),
        pulses: 0,
        folds: 0,
    };
    text.all_pulses(alloc, mask)?;
    text.all_folds(alloc, mask)?;
    let line = format!(in alloc; "END {} {} {SPECTRA}\n", text.pulses, text.folds)?;
    text.lines.push_str(line.as_str())?;
    Ok(text)
}
