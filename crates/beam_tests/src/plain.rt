// The text of seven beams of two channels by plain sums, and which of their pulses are marked by the definition: for
// each pulse, all pulses of all beams are looked at.
use crate::files::FILES;
use psr_base::MemInputs;
use std::alloc::Global;
use std::test::Fail;

/// How many beams there are.
pub(crate) const BEAMS: u64 = 7;

/// How many spectra each has.
const SPECTRA: u64 = 24;

// A sample from 0 to 15, each a different one: the multiplier and the shifts are those of a common mixing of bits.
fn sample(beam: u64, t: u64, c: u64) -> u8 {
    let number = beam
        .wrapping_mul(1000)
        .wrapping_add(t.wrapping_mul(2))
        .wrapping_add(c);
    let mixed = number.wrapping_add(1).wrapping_mul(0x9e37_79b9_7f4a_7c15);
    let mixed = (mixed ^ (mixed >> 30)).wrapping_mul(0xbf58_476d_1ce4_e5b9);
    ((mixed >> 40) % 16) as u8
}

/// Inputs that hold the observation of a beam, under the name `beam`.
fn inputs_of(alloc: Global, beam: u64) -> Result<MemInputs, Fail> {
    let mut bytes = FILES.header_of(alloc, "@")?;
    for t in 0..SPECTRA {
        bytes.push(sample(beam, t, 0))?;
        bytes.push(sample(beam, t, 1))?;
    }
    let mut inputs = MemInputs::open(alloc, &[])?;
    inputs.put("beam", bytes.as_slice())?;
    Ok(inputs)
}

/// The inputs of all beams: each holds another file under one name.
pub(crate) fn inputs_of_all(alloc: Global) -> Result<[MemInputs; 7], Fail> {
    Ok([
        inputs_of(alloc, 0)?,
        inputs_of(alloc, 1)?,
        inputs_of(alloc, 2)?,
        inputs_of(alloc, 3)?,
        inputs_of(alloc, 4)?,
        inputs_of(alloc, 5)?,
        inputs_of(alloc, 6)?,
    ])
}

// The path sum of delay 0 or 1 that ends at a spectrum, and how many cells it adds up.
fn path_sum(beam: u64, d: u64, u: u64) -> (u64, u64) {
    let last = u64::from(sample(beam, u, 1));
    if d == 0 {
        return (last.wrapping_add(u64::from(sample(beam, u, 0))), 2);
    }
    let before = u.wrapping_sub(1);
    let first = u64::from(sample(beam, before, 0));
    let middle = u64::from(sample(beam, before, 1));
    (last.wrapping_add(first).wrapping_add(middle), 3)
}

// Whether the path sum of a delay that ends at a spectrum is detected at mean 1, deviation 2 and a threshold of 7.
fn is_detected(beam: u64, d: u64, u: u64) -> bool {
    if u < d || u >= SPECTRA {
        return false;
    }
    let (sum, cells) = path_sum(beam, d, u);
    let excess = sum.wrapping_sub(cells);
    sum >= cells && excess.wrapping_mul(excess) >= cells.wrapping_mul(196)
}

// Whether a beam has a pulse whose end differs from a spectrum by at most `within`.
fn has_near(beam: u64, end: u64, within: u64) -> bool {
    for u in 0..SPECTRA {
        let is_pulse = is_detected(beam, 0, u) || is_detected(beam, 1, u);
        if is_pulse && u.abs_diff(end) <= within {
            return true;
        }
    }
    false
}

// Whether a pulse with this end is marked.
fn is_marked(end: u64, within: u64, more: u64) -> bool {
    let mut count: u64 = 0;
    for beam in 0..BEAMS {
        if has_near(beam, end, within) {
            count = count.wrapping_add(1);
        }
    }
    count > more
}

/// A text that grows line by line, and how many of its lines are those of marked pulses, and of others.
#[derive(Drop)]
pub(crate) struct Text {
    pub(crate) lines: String,
    pub(crate) marked: u64,
    pub(crate) others: u64,
}

impl Text {
    // Appends the line of a pulse.
    fn pulse(
        &mut self,
        alloc: Global,
        beam: u64,
        d: u64,
        u: u64,
        marked: bool,
    ) -> Result<(), Fail> {
        let (sum, cells) = path_sum(beam, d, u);
        let word = if marked { "RFI" } else { "PULSE" };
        let measure = if d == 0 { "0.000" } else { "0.104" };
        let line = format!(in alloc; "{word} {u} {d} {measure} 1 {sum} {cells}\n")?;
        self.lines.push_str(line.as_str())?;
        if marked {
            self.marked = self.marked.wrapping_add(1);
        } else {
            self.others = self.others.wrapping_add(1);
        }
        Ok(())
    }

    // Appends the text of a beam.
    fn beam(&mut self, alloc: Global, beam: u64, within: u64, more: u64) -> Result<(), Fail> {
        let head = format!(in alloc; "BEAM {beam}\n")?;
        self.lines.push_str(head.as_str())?;
        let before = self.marked.wrapping_add(self.others);
        for u in 0..SPECTRA {
            let marked = is_marked(u, within, more);
            for d in 0..2 {
                if is_detected(beam, d, u) {
                    self.pulse(alloc, beam, d, u, marked)?;
                }
            }
        }
        let count = self.marked.wrapping_add(self.others).wrapping_sub(before);
        let end = format!(in alloc; "END {count} 0 {SPECTRA}\n")?;
        self.lines.push_str(end.as_str())?;
        Ok(())
    }
}

/// The text of all beams.
pub(crate) fn text_of_all(alloc: Global, within: u64, more: u64) -> Result<Text, Fail> {
    let mut text = Text {
        lines: String::new(alloc),
        marked: 0,
        others: 0,
    };
    for beam in 0..BEAMS {
        text.beam(alloc, beam, within, more)?;
    }
    Ok(text)
}
