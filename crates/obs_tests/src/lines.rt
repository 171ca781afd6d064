// Tables of cases as texts, with one case on a line.
use std::alloc::{AllocError, Global};

// The number of a call that is never made.
const NEVER: u64 = 99;

/// The words of a line. Missing words are empty.
pub(crate) fn words_of(line: &'static str) -> [&'static str; 5] {
    let mut words = [""; 5];
    for (i, word) in line.split_whitespace().enumerate() {
        if i < words.len() {
            words[i] = word;
        }
    }
    words
}

/// The number of the call that fails, or of one that is never made if there is no number.
pub(crate) fn call_of(number: &str) -> u64 {
    number.parse::<u64>().unwrap_or(NEVER)
}

/// The fields of a line, which are separated by `|`. Missing fields are empty.
pub(crate) fn fields_of(line: &'static str) -> [&'static str; 4] {
    let mut fields = [""; 4];
    for (i, field) in line.split('|').enumerate() {
        if i < fields.len() {
            fields[i] = field.trim();
        }
    }
    fields
}

// The byte that a character of a text stands for: a line feed, a space at an end of the text, or a byte that isn't
// ASCII.
fn byte_of(sign: u8) -> u8 {
    match sign {
        b';' => b'\n',
        b',' => b' ',
        b'^' => 0xff,
        b'@' => 0x80,
        _ => sign,
    }
}

/// The bytes of a header with `count` bytes: lines up to `place`, the text, and NUL after it.
pub(crate) fn bytes_of(
    alloc: Global,
    place: usize,
    text: &str,
    count: usize,
) -> Result<Vec<u8>, AllocError> {
    let mut bytes = Vec::new(alloc);
    if place > 0 {
        bytes.push(b'#')?;
        bytes.resize(place, b'\n')?;
    }
    for sign in text.bytes() {
        bytes.push(byte_of(sign))?;
    }
    bytes.resize(count, 0)?;
    Ok(bytes)
}
