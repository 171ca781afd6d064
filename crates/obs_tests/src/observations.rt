// Observations of headers, and later headers.
use crate::lines::words_of;
use dada_header::Header;
use obs_plan::{Key, ObsFault, Observation};
use std::alloc::Global;

// The lines of a header that is accepted. If a keyword has two fields, the first counts, so lines before these replace
// them. Here and below a `;` ends a line; the one at the beginning ends the last line before these.
const PLAIN: &str =
    ";HDR_SIZE 4096;NCHAN 2;NBIT 8;NPOL 1;NDIM 1;TSAMP 64;FREQ 1400;BW -200;OBS_OFFSET 0;";

// Each line: the lines before the plain ones, and the first refusal.
const REFUSED: &str = "
NCHAN 1 | out_of_range NCHAN
NCHAN 4097 | out_of_range NCHAN
NCHAN -2 | out_of_range NCHAN
NCHAN two | bad_number NCHAN
NCHAN 0;NBIT x | out_of_range NCHAN
NBIT 4;TSAMP 6.4e1 | out_of_profile NBIT
NBIT 12 | out_of_profile NBIT
NBIT 1000000000000000000000000000000 | out_of_profile NBIT
NPOL 3 | out_of_profile NPOL
NPOL 0.9 | out_of_profile NPOL
NDIM 2;BW 0 | out_of_profile NDIM
TSAMP 6.4e1 | bad_number TSAMP
TSAMP 0.0009 | out_of_range TSAMP
TSAMP 1073741.825 | out_of_range TSAMP
FREQ 0.000999 | out_of_range FREQ
FREQ 16000.000001 | out_of_range FREQ
FREQ -1400 | out_of_range FREQ
BW 0.0000009 | out_of_range BW
BW 2799.998001 | out_of_range BW
FREQ 16000;BW 1554.434 | out_of_range BW
BW 1000000000000000000000000000000 | out_of_range BW
BW -0.001999;OBS_OFFSET x | bad_number OBS_OFFSET
OBS_OFFSET -1 | out_of_range OBS_OFFSET
OBS_OFFSET 1000000000000001 | out_of_range OBS_OFFSET
BW -0.001999 | too_narrow 1999 2
BW 0.001999 | too_narrow 1999 2
NCHAN 4096;BW 4.095999 | too_narrow 4095999 4096
NCHAN 2 3;NCHAN;NBIT\t#;NBIT + | bad_number NBIT
";

// Each line: all lines of a header, and the first refusal, or `accepted`.
const WHOLE: &str = "
| missing NCHAN
NBIT 4;nchan 2; | missing NCHAN
NCHAN 2;TSAMP x; | missing NBIT
NCHAN 2;NBIT 8; | missing TSAMP
NCHAN 2;NBIT 8;TSAMP 64; | missing FREQ
NCHAN 2;NBIT 8;TSAMP 64;FREQ 1400; | missing BW
NCHAN 2;NBIT 8;TSAMP 64;FREQ 1400;BW -200; | accepted
BW -200;FREQ 1400;TSAMP 64;NBIT 16.9;NCHAN 2.9 | accepted
";

// Each line: the lines before the plain ones in a later header, and its offset or the fault.
const LATER: &str = "
| 0
OBS_OFFSET 4.9 | 4
OBS_OFFSET 1000000000000000 | 1000000000000000
TSAMP 64.0009;BW -0200.0000001 | 0
NCHAN 3 | differs NCHAN
NBIT 16;NCHAN 2 | differs NBIT
NPOL 2 | differs NPOL
NDIM x | differs NDIM
TSAMP 64.001 | differs TSAMP
FREQ 1400.000001;BW 200 | differs FREQ
BW 200 | differs BW
BW -1000000000000000000000000000000 | differs BW
BW 200;OBS_OFFSET x | differs BW
NCHAN;NCHAN 0 | differs NCHAN
OBS_OFFSET x | bad_number OBS_OFFSET
OBS_OFFSET -1 | out_of_range OBS_OFFSET
OBS_OFFSET 1000000000000001 | out_of_range OBS_OFFSET
OBS_OFFSET 1000000000000000000000000000000 | out_of_range OBS_OFFSET
";

// ---- headers

// The header with these lines and then `more`.
fn header_of(alloc: Global, lines: &str, more: &str) -> Option<Header> {
    let mut bytes = Vec::new(alloc);
    for part in [lines, more] {
        for byte in part.bytes() {
            bytes.push(if byte == b';' { b'\n' } else { byte }).ok()?;
        }
    }
    bytes.resize(4096, 0).ok()?;
    Header::read(alloc, bytes.as_slice()).ok()
}

// The observation of a header with these lines before the plain ones.
fn observation_of(alloc: Global, lines: &str) -> Option<Observation> {
    let header = header_of(alloc, lines, PLAIN)?;
    Observation::of(alloc, &header).ok()
}

fn key_of(name: &str) -> Option<Key> {
    match name {
        "NCHAN" => Some(Key::Nchan),
        "NBIT" => Some(Key::Nbit),
        "NPOL" => Some(Key::Npol),
        "NDIM" => Some(Key::Ndim),
        "TSAMP" => Some(Key::Tsamp),
        "FREQ" => Some(Key::Freq),
        "BW" => Some(Key::Bw),
        "OBS_OFFSET" => Some(Key::ObsOffset),
        _ => None,
    }
}

// The fault `TooNarrow` of a width in Hz and a number of channels, as `1999 2`.
fn narrow_of(numbers: &str) -> Option<ObsFault> {
    let (bw, nchan) = numbers.split_once(' ')?;
    Some(ObsFault::TooNarrow {
        bw: bw.parse::<u64>().ok()?,
        nchan: nchan.parse::<u32>().ok()?,
    })
}

// The fault of a text: its name, and a keyword or numbers.
fn fault_of(text: &str) -> Option<ObsFault> {
    let (word, rest) = text.split_once(' ')?;
    if word == "too_narrow" {
        return narrow_of(rest);
    }
    let key = key_of(rest)?;
    match word {
        "missing" => Some(ObsFault::Missing(key)),
        "bad_number" => Some(ObsFault::BadNumber(key)),
        "out_of_profile" => Some(ObsFault::OutOfProfile(key)),
        "out_of_range" => Some(ObsFault::OutOfRange(key)),
        "differs" => Some(ObsFault::Differs(key)),
        _ => None,
    }
}

// ---- refusals

// The two fields of a line.
fn fields_of(line: &str) -> (&str, &str) {
    let (lines, wanted) = line.split_once('|').unwrap_or((line, ""));
    (lines.trim(), wanted.trim())
}

// Whether the header of a line, with `more` after it, is refused or accepted as the line says.
fn is_judged(alloc: Global, line: &str, more: &str) -> bool {
    let (lines, wanted) = fields_of(line);
    let Some(header) = header_of(alloc, lines, more) else {
        return false;
    };
    match Observation::of(alloc, &header) {
        Ok(_) => wanted == "accepted",
        Err(fault) => fault_of(wanted) == Some(fault),
    }
}

#[test]
fn the_first_refusal_is_told(rt: HostRuntime) {
    for line in REFUSED.lines() {
        assert!(rt;
            line.is_empty() || is_judged(rt.alloc(), line, PLAIN),
            "{line}"
        );
    }
}

#[test]
fn a_keyword_is_missing(rt: HostRuntime) {
    for line in WHOLE.lines() {
        assert!(rt;
            line.is_empty() || is_judged(rt.alloc(), line, ""),
            "{line}"
        );
    }
}

// Whether a later header gives the wanted offset or fault.
fn is_later(first: &Observation, later: &Header, wanted: &str) -> bool {
    match first.profile().later_offset(later) {
        Ok(offset) => wanted.parse::<u64>() == Ok(offset),
        Err(fault) => fault_of(wanted) == Some(fault),
    }
}

// Whether the later header of a line, with `more` after it, gives the offset or fault of the line.
fn is_met(alloc: Global, line: &str, more: &str) -> bool {
    let (lines, wanted) = fields_of(line);
    let Some(first) = observation_of(alloc, "") else {
        return false;
    };
    match header_of(alloc, lines, more) {
        Some(later) => is_later(&first, &later, wanted),
        None => false,
    }
}

#[test]
fn a_later_header_differs(rt: HostRuntime) {
    for line in LATER.lines() {
        assert!(rt;
            line.is_empty() || is_met(rt.alloc(), line, PLAIN),
            "{line}"
        );
    }
    assert!(rt; is_met(rt.alloc(), "NCHAN 2;NBIT 8; | differs TSAMP", ""));
}

// ---- values

const WIDE: &str = "NCHAN 1024.9;NBIT 16.9;NPOL 2;TSAMP 64.0009;FREQ 1382;BW -400;OBS_OFFSET 12";

const RISING: &str = "BW 200;OBS_OFFSET -0.9";

// Each line: the header, then a number `k` and edge `k` in kHz, or a delay and its dispersion measure in thousandths of
// pc/cm^3.
const VALUES: &str = "
wide edge 0 1582000
wide edge 1024 1182000
wide edge 1025 none
rising edge 0 1500000
rising edge 1 1400000
rising edge 2 1300000
rising edge 3 none
wide dm 0 0
wide dm 512 24975
rising dm 1 104
";

// Whether an observation has the wanted edge, or the wanted dispersion measure.
fn has(observation: &Observation, what: &str, number: u32, wanted: &str) -> bool {
    if what == "dm" {
        return wanted.parse::<u64>() == Ok(observation.dm(number.min(8192)));
    }
    match observation.edges().get(number as usize) {
        Some(edge) => wanted.parse::<u32>() == Ok(*edge),
        None => wanted == "none",
    }
}

// Whether the observation of a line has the value of the line.
fn has_value(alloc: Global, line: &'static str) -> bool {
    let [name, what, number, wanted, ..] = words_of(line);
    let Ok(number) = number.parse::<u32>() else {
        return false;
    };
    let lines = if name == "wide" { WIDE } else { RISING };
    match observation_of(alloc, lines) {
        Some(observation) => has(&observation, what, number, wanted),
        None => false,
    }
}

#[test]
fn edges_and_delays_have_their_values(rt: HostRuntime) {
    for line in VALUES.lines() {
        assert!(rt; line.is_empty() || has_value(rt.alloc(), line), "{line}");
    }
}

// The channels of a spectrum, the bits and polarisations of a sample, and the greatest sample.
fn shape_of(observation: &Observation) -> (u32, u32, u32, u32) {
    (
        observation.channels(),
        observation.nbit(),
        observation.npol(),
        observation.max_sample(),
    )
}

// The time from one spectrum to the next, the bytes before those of the file, whether the band falls, and its width.
fn place_of(observation: &Observation) -> (u64, u64, bool, i64) {
    (
        observation.tsamp_ns(),
        observation.obs_offset(),
        observation.falling(),
        observation.profile().bw_hz,
    )
}

// Whether a header with these lines before the plain ones has this shape and place.
fn are_read(
    alloc: Global,
    lines: &str,
    shape: (u32, u32, u32, u32),
    place: (u64, u64, bool, i64),
) -> bool {
    match observation_of(alloc, lines) {
        Some(observation) => shape_of(&observation) == shape && place_of(&observation) == place,
        None => false,
    }
}

#[test]
fn numbers_are_read_in_their_units(rt: HostRuntime) {
    let plain = (64000, 0, true, -200_000_000);
    let wide = (64000, 12, true, -400_000_000);
    let rising = (64000, 0, false, 200_000_000);
    assert!(rt; are_read(rt.alloc(), "", (2, 8, 1, 255), plain));
    assert!(rt; are_read(rt.alloc(), WIDE, (1024, 16, 2, 131070), wide));
    assert!(rt; are_read(rt.alloc(), RISING, (2, 8, 1, 255), rising));
}
