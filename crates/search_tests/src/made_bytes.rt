// The bytes of observations, by checksums that another program made, and as headers are read.
use dada_header::Header;
use obs_plan::Observation;
use psr_make::{MakeSpec, make_bytes};
use std::alloc::Global;
use std::test::Fail;

/// The bytes of an observation whose fields lie in their ranges.
pub(crate) fn bytes_of(alloc: Global, spec: &MakeSpec) -> Option<Vec<u8>> {
    if !spec.in_range() {
        return None;
    }
    match make_bytes(alloc, spec) {
        Ok(bytes) => Some(bytes),
        Err(_) => None,
    }
}

// The number, the channels, spectra, delay, period, height, bits and polarisations; how many bytes there are, and their
// checksum. In the fourth pulses overlap, and a cell that several of them pass is raised once; then there are a pulse
// that just reaches the foot, and one that doesn't; then no spectra, and the largest number of channels.
const OBSERVATIONS: &str = "
0 64 4096 64 256 2 8 1 | 266240 6ceaca1801464b76
1 64 4096 64 256 2 8 1 | 266240 b854e17c1b218a47
0 64 4096 64 256 0 8 1 | 266240 d46d7aee756835a6
0 2 20 3 1 200 8 1 | 4136 d49a90650b023425
0 5 41 40 3 2 16 1 | 4506 29322daa3288ac67
0 5 40 40 3 2 8 1 | 4296 ea2490be98f56aae
0 2 0 64 256 2 8 1 | 4096 67f43dca3ad71a05
0 4096 3 0 1 1 8 1 | 16384 3b032b9d51b5d14e
0 37 300 90 41 3 8 2 | 26296 21c753cca08606da
9223372036854775807 3 50 17 5 7 16 2 | 4696 60cbcfa7d9d0d6b7
9223372036854775808 64 4096 64 256 2 8 1 | out of range
0 1 4096 64 256 2 8 1 | out of range
0 4097 4096 64 256 2 8 1 | out of range
0 64 1048577 64 256 2 8 1 | out of range
0 64 4096 8193 256 2 8 1 | out of range
0 64 4096 64 0 2 8 1 | out of range
0 64 4096 64 1048577 2 8 1 | out of range
0 64 4096 64 256 201 8 1 | out of range
0 64 4096 64 256 2 12 1 | out of range
0 64 4096 64 256 2 8 3 | out of range
";

// The observation of eight numbers.
fn spec_of(text: &str) -> Option<MakeSpec> {
    let (number, rest) = text.split_once(' ')?;
    let mut numbers = [0; 7];
    for (i, word) in rest.split_whitespace().enumerate() {
        if i < numbers.len() {
            numbers[i] = word.parse::<u32>().ok()?;
        }
    }
    let [channels, spectra, delay, period, height, nbit, npol] = numbers;
    Some(MakeSpec {
        number: number.parse::<u64>().ok()?,
        channels,
        spectra,
        delay,
        period,
        height,
        nbit,
        npol,
    })
}

// The checksum FNV-1a of 64 bits.
fn checksum(bytes: &[u8]) -> u64 {
    let mut sum = 0xcbf2_9ce4_8422_2325_u64;
    for byte in bytes {
        sum = (sum ^ u64::from(*byte)).wrapping_mul(0x0000_0100_0000_01b3);
    }
    sum
}

// Whether the number and the checksum of bytes are as wanted.
fn have_sum(bytes: &[u8], wanted: &str) -> bool {
    let (count, sum) = wanted.split_once(' ').unwrap_or((wanted, ""));
    count.parse::<usize>() == Ok(bytes.len()) && u64::from_str_radix(sum, 16) == Ok(checksum(bytes))
}

// Whether the observation of a line is made as the line says.
fn is_made(alloc: Global, line: &str) -> bool {
    let (numbers, wanted) = line.split_once(" | ").unwrap_or((line, ""));
    let Some(spec) = spec_of(numbers) else {
        return false;
    };
    match bytes_of(alloc, &spec) {
        Some(bytes) => have_sum(bytes.as_slice(), wanted),
        None => wanted == "out of range",
    }
}

#[test]
fn bytes_are_those_of_another_program(rt: HostRuntime) {
    for line in OBSERVATIONS.lines() {
        assert!(rt; line.is_empty() || is_made(rt.alloc(), line), "{line}");
    }
}

// ---- headers

// The header of an observation's bytes.
fn header_of(alloc: Global, spec: &MakeSpec) -> Result<Header, Fail> {
    let Some(bytes) = bytes_of(alloc, spec) else {
        return Err("no bytes".into());
    };
    Ok(Header::read(alloc, bytes.as_slice())?)
}

// Whether an observation has the channels, bits and polarisations that were asked for.
fn has_shape(observation: &Observation, spec: &MakeSpec) -> bool {
    observation.channels() == spec.channels
        && observation.nbit() == spec.nbit
        && observation.npol() == spec.npol
}

// Whether an observation begins a stream of falling bands between these edges, of 64 microseconds each.
fn has_place(observation: &Observation) -> bool {
    observation.tsamp_ns() == 64000
        && observation.obs_offset() == 0
        && observation.falling()
        && observation.edges().first() == Some(&1582000)
        && observation.edges().last() == Some(&1182000)
}

// Whether the header gives the observation of eight numbers.
fn is_told(alloc: Global, numbers: &str) -> Result<bool, Fail> {
    let Some(spec) = spec_of(numbers) else {
        return Ok(false);
    };
    let header = header_of(alloc, &spec)?;
    let observation = Observation::of(alloc, &header)?;
    Ok(header.size() == 4096 && has_shape(&observation, &spec) && has_place(&observation))
}

#[test]
fn the_header_tells_the_observation(rt: HostRuntime) -> Result<(), Fail> {
    for numbers in ["0 2 1 0 1 0 8 1", "0 4096 1 0 1 0 16 2"] {
        assert!(rt; is_told(rt.alloc(), numbers)?, "{numbers}");
    }
    Ok(())
}
