// Fields, lines, data and words.
use std::alloc::Global;
use std::test::Fail;

/// The fields of a line of a table, divided by `|`. Missing ones are empty.
pub fn fields_of(line: &'static str) -> [&'static str; 7] {
    let mut fields = [""; 7];
    for (i, field) in line.split('|').enumerate() {
        if i < fields.len() {
            fields[i] = field.trim();
        }
    }
    fields
}

/// Appends lines, each ended by `;`.
pub fn push_lines(bytes: &mut Vec<u8>, lines: &str) -> Result<(), Fail> {
    for byte in lines.bytes() {
        bytes.push(if byte == b';' { b'\n' } else { byte })?;
    }
    Ok(())
}

/// Whether these are the bytes of the lines, each ended by `;`.
pub fn has_lines(alloc: Global, bytes: &[u8], lines: &str) -> Result<bool, Fail> {
    let mut wanted = Vec::new(alloc);
    push_lines(&mut wanted, lines)?;
    Ok(bytes == wanted.as_slice())
}

/// How many bytes come before the last line of a text.
pub fn before_last_line(text: &[u8]) -> usize {
    let mut start = 0;
    for (i, byte) in text.iter().enumerate() {
        if *byte == b'\n' && i + 1 < text.len() {
            start = i + 1;
        }
    }
    start
}

/// Appends data, as `10 0 9*0`, where 9*0 are nine zeros.
pub fn push_data(bytes: &mut Vec<u8>, data: &str) -> Result<(), Fail> {
    for word in data.split_whitespace() {
        let (count, value) = word.split_once('*').unwrap_or(("1", word));
        let value = value.parse::<u8>()?;
        for _ in 0..count.parse::<u32>()? {
            bytes.push(value)?;
        }
    }
    Ok(())
}

/// Appends the words of a line.
pub fn push_words(alloc: Global, words: &mut Vec<String>, line: &str) -> Result<(), Fail> {
    for word in line.split_whitespace() {
        words.push(String::from_str(alloc, word)?)?;
    }
    Ok(())
}

/// A program's name, and the arguments of two lines.
pub fn words_of(alloc: Global, first: &str, more: &str) -> Result<Vec<String>, Fail> {
    let mut words = Vec::new(alloc);
    for line in ["psr", first, more] {
        push_words(alloc, &mut words, line)?;
    }
    Ok(words)
}
