// Texts of headers with the values that they give, and bytes with their sizes or refusals.
use crate::lines::{bytes_of, fields_of};
use dada_header::{Header, HeaderFault};
use std::alloc::Global;
use std::test::Fail;

// Each line: a text, a keyword, and the value of its first field, or `-` if there is none.
const VALUES: &str = "
NCHAN 2; | NCHAN | 2
NCHAN 2 | NCHAN | 2
NCHAN\t2; | NCHAN | 2
NCHAN 2\r; | NCHAN | 2
,\tNCHAN\x0b2\x0c; | NCHAN | 2
NCHAN   2 channels; | NCHAN | 2
NCHAN 2#two; | NCHAN | 2
NCHAN#x 2; | NCHAN | -
NCHAN#x 2; | NCHAN#x | -
# NCHAN 2;NCHAN 3; | NCHAN | 3
NCHAN # 2;NCHAN 3; | NCHAN | 3
NCHAN;NCHAN 3; | NCHAN | 3
NCHAN 2;NCHAN 3; | NCHAN | 2
NCHANS 4;NCHAN 5 | NCHAN | 5
NCHA 4;NCHAN 5 | NCHAN | 5
nchan 2; | NCHAN | -
NCHAN 2\0;NBIT 8; | NCHAN | 2
NCHAN 2\0;NBIT 8; | NBIT | -
 | NCHAN | -
;;NCHAN 2;; | NCHAN | 2
NCHAN \x7f; | NCHAN | \x7f
NCHAN \x01\x02; | NCHAN | \x01\x02
NCHAN 2\rNBIT 8; | NBIT | -
BW -200 MHz # width; | BW | -200
SOURCE \"a b\"; | SOURCE | \"a
NCHAN 2; | | -
NCHAN 2; | NCHAN 2 | -
NCHAN 2; | 2 | -
UTC_START 2024-01-02-03:04:05;            ;OBS_OFFSET 0000000000000002; | UTC_START | 2024-01-02-03:04:05
";

// Each line: a text, the number of bytes, the size of the header or its first refusal, and the place of the text if it
// isn't 0. The line of HDR_SIZE is looked for in the first 4096 bytes, and a line that is cut off there counts as it
// is.
const SIZES: &str = "
 | 0 | short 0
 | 4095 | short 4095
 | 4096 | size 4096
 | 4097 | size 4096
HDR_SIZE 4095; | 4096 | bad_size
HDR_SIZE 4096; | 4096 | size 4096
HDR_SIZE 04096; | 4096 | size 4096
HDR_SIZE +4096; | 4096 | size 4096
HDR_SIZE 4096.9; | 4096 | size 4096
HDR_SIZE 4095.9; | 4096 | bad_size
HDR_SIZE -4096; | 4096 | bad_size
HDR_SIZE 1e3; | 4096 | bad_size
HDR_SIZE 8192; | 4096 | short 4096
HDR_SIZE 8192; | 8192 | size 8192
HDR_SIZE 65536; | 65535 | short 65535
HDR_SIZE 65536; | 65536 | size 65536
HDR_SIZE 65537; | 70000 | bad_size
HDR_SIZE 1000000000000000000000; | 4096 | bad_size
HDR_SIZE;HDR_SIZE 8192; | 8192 | size 8192
HDR_SIZE 4096;HDR_SIZE 8192; | 8192 | size 4096
#HDR_SIZE 8192; | 8192 | size 4096
\0HDR_SIZE 8192; | 8192 | size 4096
NCHAN \u{e9}; | 4096 | not_text 6
NCHAN 2\0^; | 4096 | size 4096
^ | 4095 | short 4095
HDR_SIZE 1e3;^ | 4096 | bad_size
HDR_SIZE\t8192; | 8192 | size 8192
HDR_SIZE 8192\r; | 8192 | size 8192
,\tHDR_SIZE\x0b8192\x0c; | 8192 | size 8192
HDR_SIZE 8192\rHDR_SIZE 4096; | 8192 | size 8192
HDR_SIZE 8192 4096; | 8192 | size 8192
HDR_SIZE 8192 | 8192 | size 8192
HDR_SIZE#x 8192; | 8192 | size 4096
HDR_SIZE 8192#x; | 8192 | size 8192
HDR_SIZE 81#92; | 8192 | bad_size
HDR_SIZE # 4096;HDR_SIZE 8192; | 8192 | size 8192
HDR_SIZES 8192; | 8192 | size 4096
hdr_size 8192; | 8192 | size 4096
HDR_SIZE .; | 4096 | bad_size
NCHAN \x7f; | 4096 | size 4096
@NCHAN 2; | 4096 | not_text 0
HDR_SIZE 8192;^ | 4096 | short 4096
HDR_SIZE 8192 | 8192 | size 8192 | 4083
HDR_SIZE 81920 | 8192 | size 8192 | 4083
HDR_SIZE 8192 | 8192 | bad_size | 4084
HDR_SIZE 8192 | 8192 | bad_size | 4086
HDR_SIZE 8192 | 8192 | size 4096 | 4087
HDR_SIZE 8192 | 8192 | size 4096 | 4096
^ | 4096 | not_text 4095 | 4095
^ | 4097 | size 4096 | 4096
";

// Whether the text of a line gives the value of the line, and the header has the bytes that it was read from.
fn gives_value(alloc: Global, line: &'static str) -> bool {
    let [text, key, wanted, ..] = fields_of(line);
    let Ok(bytes) = bytes_of(alloc, 0, text, 4096) else {
        return false;
    };
    let Ok(header) = Header::read(alloc, bytes.as_slice()) else {
        return false;
    };
    header.get(key).unwrap_or("-") == wanted
        && (header.bytes().starts_with(bytes.as_slice()) || text.contains('\0'))
}

#[test]
fn the_first_field_with_a_keyword_gives_its_value(rt: HostRuntime) {
    for line in VALUES.lines() {
        assert!(rt;
            line.is_empty() || gives_value(rt.alloc(), line),
            "{line:?}"
        );
    }
}

// The size of a header or its refusal, as a name and a number.
fn answer_of(answer: Result<Header, HeaderFault>) -> (&'static str, usize) {
    match answer {
        Ok(header) => ("size", header.size()),
        Err(HeaderFault::Short { had }) => ("short", had),
        Err(HeaderFault::BadSize) => ("bad_size", 0),
        Err(HeaderFault::NotText { place }) => ("not_text", place),
        Err(HeaderFault::Memory) => ("memory", 0),
    }
}

// Whether the bytes of a line give the size or the refusal of the line.
fn is_answered(alloc: Global, line: &'static str) -> bool {
    let [text, count, wanted, place] = fields_of(line);
    let place = place.parse::<u32>().unwrap_or(0) as usize;
    let count = count.parse::<u32>().unwrap_or(0) as usize;
    let Ok(bytes) = bytes_of(alloc, place, text, count) else {
        return false;
    };
    let (answer, number) = answer_of(Header::read(alloc, bytes.as_slice()));
    let (wanted, wanted_number) = wanted.split_once(' ').unwrap_or((wanted, "0"));
    answer == wanted && Ok(number) == wanted_number.parse::<usize>()
}

#[test]
fn bytes_have_a_size_or_their_first_refusal(rt: HostRuntime) {
    for line in SIZES.lines() {
        assert!(rt;
            line.is_empty() || is_answered(rt.alloc(), line),
            "{line:?}"
        );
    }
}

// Whether a header that is read again has these bytes, and keeps them when other bytes are refused.
fn is_read_again(header: &mut Header, bytes: &[u8]) -> Result<bool, Fail> {
    header.read_again(bytes)?;
    let fault = header.read_again(b"NCHAN 3\n");
    Ok(
        fault == Err(HeaderFault::Short { had: 8 })
            && header.get("NCHAN") == Some("2")
            && header.bytes() == bytes,
    )
}

// Whether a header that is copied from another has the bytes of that one.
fn is_copied(alloc: Global, header: &mut Header, bytes: &[u8]) -> Result<bool, Fail> {
    header.copy_from(&Header::read(alloc, bytes)?);
    Ok(header.bytes() == bytes)
}

#[test]
fn a_header_takes_the_place_of_another(rt: HostRuntime) -> Result<(), Fail> {
    let large = bytes_of(rt.alloc(), 0, "HDR_SIZE 8192;NCHAN 2;", 8192)?;
    let small = bytes_of(rt.alloc(), 0, "NCHAN 4;", 4096)?;
    let mut header = Header::blank(rt.alloc())?;
    let is_blank = header.size() == 4096;
    let is_large = is_read_again(&mut header, large.as_slice())?;
    let is_small = is_copied(rt.alloc(), &mut header, small.as_slice())?;
    assert!(rt; is_blank && is_large && is_small);
    Ok(())
}
