// The files that runs read: two channels of 8 bits, and pulses of delay 1.
use psr_base::MemInputs;
use run_cases::{fields_of, push_lines};
use std::alloc::Global;
use std::test::Fail;

const HEADER: &str = "HDR_SIZE 4096;NCHAN 2;NBIT 8;TSAMP 64;FREQ 1400;BW -200;";

// A file on each line: its name; its text after `=`, or what stands in its header besides; how many data bytes it has;
// and the spectra with which its pulses end.
const FILES: &str = "
at_511   | | 1024 | 511
at_511b  | | 1025 | 511
after    | | 1026 | 511
at_512   | | 1026 | 512
four     | | 4096 | 511 513 1023 1300
two      | | 1026 | 100 200
nothing  | | 0 |
front    | OBS_OFFSET 0; | 1026 | 511
back     | OBS_OFFSET 1026; | 2 |
far      | OBS_OFFSET 1030; | 2 |
check    | =CHECK 512 0;
check_a  | =CHECK 511 7;
check_b  | =CHECK 513 1;
check_c  | =CHECK 514 0;
check_d  | =CHECK 0 0;
check_e  | =CHECK 281474976710656 0;
check_f  | =CHECK 281474976710655 0;
no_line  | =CHECK 512;
";

// Sets the byte at a place, if it is there.
fn set(bytes: &mut Vec<u8>, place: usize, value: u8) {
    if place < bytes.len() {
        bytes[place] = value;
    }
}

// Data bytes in which a pulse ends with each of these spectra.
fn push_data(bytes: &mut Vec<u8>, count: usize, ends: &str) -> Result<(), Fail> {
    bytes.resize(4096, 0)?;
    for _ in 0..count {
        bytes.push(0)?;
    }
    for word in ends.split_whitespace() {
        let end = usize::from(word.parse::<u16>()?);
        set(bytes, 4094 + 2 * end, 10);
        set(bytes, 4097 + 2 * end, 20);
    }
    Ok(())
}

// The bytes of the file of a line.
fn bytes_in(alloc: Global, fields: [&'static str; 7]) -> Result<Vec<u8>, Fail> {
    let [_, lines, count, ends, ..] = fields;
    let mut bytes = Vec::new(alloc);
    if let Some(text) = lines.strip_prefix('=') {
        push_lines(&mut bytes, text)?;
        return Ok(bytes);
    }
    push_lines(&mut bytes, HEADER)?;
    push_lines(&mut bytes, lines)?;
    push_data(&mut bytes, usize::from(count.parse::<u16>()?), ends)?;
    Ok(bytes)
}

/// Inputs that hold all files of the table, and of whose calls the one with this number fails.
pub(crate) fn inputs_for(alloc: Global, failing: u64) -> Result<MemInputs, Fail> {
    let mut inputs = MemInputs::open(alloc, &[failing])?;
    for line in FILES.lines() {
        let fields = fields_of(line);
        if !fields[0].is_empty() {
            inputs.put(fields[0], bytes_in(alloc, fields)?.as_slice())?;
        }
    }
    Ok(inputs)
}
