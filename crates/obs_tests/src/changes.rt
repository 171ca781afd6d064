// Changes of the fields of a header.
use crate::lines::{bytes_of, fields_of};
use dada_header::{Header, SetFault};
use std::alloc::Global;
use std::test::Fail;

// Each line: a text, the new value of a field, and the changed text. If the new value is longer, it is in a line at the
// end.
const CHANGES: &str = "
 | 1 | BW 1;
BW -200; | 1 | BW 1   ;
BW -200; | -400 | BW -400;
BW 1#MHz;BWA 2 | -400 | ,,,,#MHz;BWA 2;BW -400;
BW 1;BW -200; | -400 | ,,,,;       ;BW -400;
BW -200;BW 1; | -4 | BW -4  ;BW 1;
BW;\tBW  5 MHz#BW 6; | 7 | BW;\tBW  7 MHz#BW 6;
BW;\tBW  5 MHz#BW 6; | 70 | BW;          #BW 6;BW 70;
# BW 1;BW#1; | 2 | # BW 1;BW#1;BW 2;
HDR_SIZE 4096;NCHAN 2;NBIT 8;NPOL 1;NDIM 1;TSAMP 64;FREQ 1400;BW -200;UTC_START 2024-01-02-03:04:05;OBS_OFFSET 0; \
    | 0000000000000002 \
    | HDR_SIZE 4096;NCHAN 2;NBIT 8;NPOL 1;NDIM 1;TSAMP 64;FREQ 1400;BW -200;UTC_START 2024-01-02-03:04:05;\
            ,           ;OBS_OFFSET 0000000000000002;
";

// Sets OBS_OFFSET if the value has sixteen digits, otherwise BW. Returns the keyword that was set.
fn set_field(header: &mut Header, value: &str) -> Result<&'static str, SetFault> {
    match value {
        "0000000000000002" => {
            header.set("OBS_OFFSET", "0000000000000002")?;
            return Ok("OBS_OFFSET");
        }
        "1" => header.set("BW", "1")?,
        "2" => header.set("BW", "2")?,
        "7" => header.set("BW", "7")?,
        "-4" => header.set("BW", "-4")?,
        "70" => header.set("BW", "70")?,
        _ => header.set("BW", "-400")?,
    }
    Ok("BW")
}

fn header_of(alloc: Global, text: &str) -> Result<Header, Fail> {
    let bytes = bytes_of(alloc, 0, text, 4096)?;
    Ok(Header::read(alloc, bytes.as_slice())?)
}

// Whether the first text of a line is changed into its second one.
fn is_changed(alloc: Global, line: &'static str) -> Result<bool, Fail> {
    let [text, value, wanted, ..] = fields_of(line);
    let mut header = header_of(alloc, text)?;
    let after = bytes_of(alloc, 0, wanted, 4096)?;
    let key = set_field(&mut header, value)?;
    Ok(header.bytes() == after.as_slice() && header.get(key) == Some(value))
}

#[test]
fn a_field_is_set_where_it_stands_or_at_the_end(rt: HostRuntime) -> Result<(), Fail> {
    for line in CHANGES.lines() {
        assert!(rt;
            line.is_empty() || is_changed(rt.alloc(), line)?,
            "{line:?}"
        );
    }
    Ok(())
}

// ---- the lines of a recorded file

// Makes the three changes of the header of a recorded file.
fn change_for_a_file(header: &mut Header) -> Result<(), SetFault> {
    header.set("OBS_OFFSET", "0000000000000002")?;
    header.set("FILE_NUMBER", "000000")?;
    header.set("FILE_SIZE", "0000000000000004")
}

// A header whose text is `len` bytes long: the line of OBS_OFFSET, a comment, and the last line feed.
fn header_of_length(alloc: Global, len: usize) -> Result<Header, Fail> {
    let mut bytes = b"OBS_OFFSET 0\n#".to_vec(alloc)?;
    bytes.resize(len.saturating_sub(1), b'.')?;
    bytes.push(b'\n')?;
    bytes.resize(4096, 0)?;
    Ok(Header::read(alloc, bytes.as_slice())?)
}

// Whether the three changes of a header with a text of `len` bytes give `wanted`, and the header can be read again
// after them.
fn is_answered(alloc: Global, len: usize, wanted: Result<(), SetFault>) -> Result<bool, Fail> {
    let mut header = header_of_length(alloc, len)?;
    let answer = change_for_a_file(&mut header);
    let again = Header::read(alloc, header.bytes())?;
    Ok(
        answer == wanted
            && header.get("FILE_NUMBER") == Some("000000")
            && header.get("FILE_SIZE").is_some() == wanted.is_ok()
            && again.bytes() == header.bytes(),
    )
}

#[test]
fn three_lines_of_a_file_need_74_bytes(rt: HostRuntime) -> Result<(), Fail> {
    let full = SetFault::Overfull {
        need: 4096,
        size: 4096,
    };
    assert!(rt; is_answered(rt.alloc(), 4021, Ok(()))?);
    assert!(rt; is_answered(rt.alloc(), 4022, Err(full))?);
    Ok(())
}
