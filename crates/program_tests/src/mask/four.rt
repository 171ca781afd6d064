// An observation of four channels in each layout of its samples.
use crate::mask::files::FILES;
use crate::mask::plain::is_masked;
use psr_base::MemInputs;
use std::alloc::Global;
use std::test::Fail;

/// How many channels there are.
pub(crate) const CHANNELS: usize = 4;

/// How many spectra there are.
pub(crate) const SPECTRA: usize = 12;

/// The samples, spectrum by spectrum, each from the highest frequency on.
pub(crate) const SAMPLES: [u8; 48] = [
    20, 60, 9, 25, 41, 3, 4, 52, 34, 6, 23, 37, 3, 58, 32, 13, 2, 5, 27, 26, 4, 15, 5, 35, 27, 3,
    52, 36, 7, 60, 14, 40, 40, 37, 60, 3, 36, 37, 25, 3, 14, 2, 35, 54, 8, 18, 26, 9,
];

/// How samples lie in a file.
#[derive(Clone, Copy)]
pub(crate) struct Layout {
    pub(crate) is_falling: bool,
    pub(crate) is_wide: bool,
    pub(crate) is_double: bool,
}

/// All layouts: falling and rising bands, 8 and 16 bits, one and two polarisations.
pub(crate) fn layout_of(number: u32) -> Layout {
    Layout {
        is_falling: number % 2 == 0,
        is_wide: number / 2 % 2 == 1,
        is_double: number / 4 % 2 == 1,
    }
}

// The header of a layout.
fn lines_of(layout: Layout) -> &'static str {
    match (layout.is_falling, layout.is_wide, layout.is_double) {
        (true, false, false) => "NCHAN 4;NBIT 8;NPOL 1;TSAMP 64;FREQ 1400;BW -200;",
        (true, false, true) => "NCHAN 4;NBIT 8;NPOL 2;TSAMP 64;FREQ 1400;BW -200;",
        (true, true, false) => "NCHAN 4;NBIT 16;NPOL 1;TSAMP 64;FREQ 1400;BW -200;",
        (true, true, true) => "NCHAN 4;NBIT 16;NPOL 2;TSAMP 64;FREQ 1400;BW -200;",
        (false, false, false) => "NCHAN 4;NBIT 8;NPOL 1;TSAMP 64;FREQ 1400;BW 200;",
        (false, false, true) => "NCHAN 4;NBIT 8;NPOL 2;TSAMP 64;FREQ 1400;BW 200;",
        (false, true, false) => "NCHAN 4;NBIT 16;NPOL 1;TSAMP 64;FREQ 1400;BW 200;",
        (false, true, true) => "NCHAN 4;NBIT 16;NPOL 2;TSAMP 64;FREQ 1400;BW 200;",
    }
}

// Appends a value of one polarisation.
fn push_value(bytes: &mut Vec<u8>, layout: Layout, value: u8) -> Result<(), Fail> {
    bytes.push(value)?;
    if layout.is_wide {
        bytes.push(0)?;
    }
    Ok(())
}

// Appends a sample, which is the sum of the values of its polarisations.
fn push_sample(bytes: &mut Vec<u8>, layout: Layout, sample: u8) -> Result<(), Fail> {
    if layout.is_double {
        push_value(bytes, layout, sample / 3)?;
        return push_value(bytes, layout, sample.wrapping_sub(sample / 3));
    }
    push_value(bytes, layout, sample)
}

// The place in a file of channel `c` from the highest frequency, and the other way round.
fn turned(layout: Layout, c: usize) -> usize {
    if layout.is_falling {
        c
    } else {
        CHANNELS.wrapping_sub(1).wrapping_sub(c)
    }
}

/// Inputs that hold the observation in a layout, under the name `four`.
pub(crate) fn inputs_of(alloc: Global, layout: Layout) -> Result<MemInputs, Fail> {
    let mut bytes = FILES.header_of(alloc, lines_of(layout))?;
    for t in 0..SPECTRA {
        for place in 0..CHANNELS {
            let at = t.wrapping_mul(CHANNELS).wrapping_add(turned(layout, place));
            push_sample(&mut bytes, layout, SAMPLES.get(at).copied().unwrap_or(0))?;
        }
    }
    let mut inputs = MemInputs::open(alloc, &[])?;
    inputs.put("four", bytes.as_slice())?;
    Ok(inputs)
}

/// The text of a mask, whose channels count from the highest frequency, in the order of a file.
pub(crate) fn mask_text(alloc: Global, layout: Layout, mask: u32) -> Result<String, Fail> {
    let mut text = String::new(alloc);
    for c in 0..CHANNELS {
        if is_masked(mask, c) {
            let place = turned(layout, c);
            let item = format!(in alloc; "{place}")?;
            if !text.is_empty() {
                text.push_str(",")?;
            }
            text.push_str(item.as_str())?;
        }
    }
    if text.is_empty() {
        text.push_str("none")?;
    }
    Ok(text)
}
