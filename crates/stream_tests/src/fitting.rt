// Which headers fit a recording.
use crate::lines::{fields_of, word_of};
use crate::recording::header_of;
use dada_recorder::fits;
use std::alloc::{AllocError, Global};
use std::test::Fail;

// The lines of a header, with `;` for the end of a line; the size of files and the limit of bytes, both in bytes; the
// answer; and up to how many bytes a comment fills the header's text: the three changes need room.
const FITTING: &str = "
UTC_START 2024-01-02-03:04:05;OBS_OFFSET 0; | 1000 1000 | fits | 4021
UTC_START 2024-01-02-03:04:05;OBS_OFFSET 0; | 1000 1000 | overfull_4096_4096 | 4022
UTC_START 2024-01-02-03:04:05;OBS_OFFSET 0; | 1000 1000 | fits | 100
UTC_START 2024-01-02-03:04:05; | 1 1000000 | fits
UTC_START 2024-01-02-03:04:05; | 1 1000001 | too_many_files
NBIT 8; | 1 1000001 | no_time
UTC_START 2024-01-02-03:04; | 1 1000001 | bad_time
UTC_START 2024-01-02-03:04:05Z; | 1 1 | bad_time
UTC_START 2024-01-02T03:04:05; | 1 1 | bad_time
UTC_START 2024-01-02-03:04:0x; | 1 1 | bad_time
UTC_START 9999-99-99-99:99:99; | 1 1 | fits
";

// Lines that a comment at their end fills to `len` bytes, if they are fewer.
fn filled(alloc: Global, lines: &str, len: usize) -> Result<String, AllocError> {
    let mut text = String::new(alloc);
    for sign in lines.chars() {
        text.push(if sign == ';' { '\n' } else { sign })?;
    }
    if text.len() < len {
        text.push('#')?;
        for _more in text.len() + 1..len {
            text.push('-')?;
        }
        text.push('\n')?;
    }
    Ok(text)
}

// Whether the header of a line is answered as the line says.
fn is_answered(alloc: Global, line: &'static str) -> Result<bool, Fail> {
    let [lines, numbers, wanted, len, ..] = fields_of(line);
    let (file_size, max_bytes) = numbers.split_once(' ').unwrap_or((numbers, ""));
    let file_size = file_size.parse::<u32>()?;
    let max_bytes = u64::from(max_bytes.parse::<u32>()?);
    if file_size < 1 {
        return Ok(false);
    }
    let text = filled(alloc, lines, len.parse::<usize>().unwrap_or(0))?;
    let mut header = header_of(alloc, text.as_str())?;
    Ok(
        match fits(&mut header, 0, u64::from(file_size), max_bytes) {
            Ok(()) => wanted == "fits",
            Err(fault) => wanted == word_of(fault),
        },
    )
}

#[test]
fn the_first_cause_is_told(rt: HostRuntime) -> Result<(), Fail> {
    for line in FITTING.lines() {
        assert!(rt; line.is_empty() || is_answered(rt.alloc(), line)?, "{line}");
    }
    Ok(())
}

// Whether a header that is accepted is that of file 0.
fn is_that_of_file_0(alloc: Global) -> Result<bool, Fail> {
    let mut header = header_of(alloc, "UTC_START 2024-01-02-03:04:05\nFILE_NUMBER 7\n")?;
    Ok(
        fits(&mut header, 12, 34, 56).is_ok()
            && header.get("OBS_OFFSET") == Some("0000000000000012")
            && header.get("FILE_NUMBER") == Some("000000")
            && header.get("FILE_SIZE") == Some("0000000000000034")
            && header.get("UTC_START") == Some("2024-01-02-03:04:05"),
    )
}

#[test]
fn an_accepted_header_is_that_of_file_0(rt: HostRuntime) -> Result<(), Fail> {
    assert!(rt; is_that_of_file_0(rt.alloc())?);
    Ok(())
}
