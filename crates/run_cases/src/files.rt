// The files that runs read.
use crate::limits::NEVER;
use crate::lines::{fields_of, push_data, push_lines};
use psr_base::{Inputs, MemInputs};
use std::alloc::Global;
use std::test::Fail;

/// A file on each line: its name; the lines of its header, or its whole text after `=`; its data, in which 9*0 are nine
/// zeros; how long it is without its data, if not 4096 bytes; and up to how many bytes a comment fills its text. A `;`
/// ends a line of a header or a text.
#[derive(Clone, Copy)]
pub struct FileTable {
    /// What the lines of a header begin with if they have `front`. If it is empty all have it.
    pub mark: &'static str,
    /// The lines that stand for `mark`.
    pub front: &'static str,
    pub files: &'static str,
}

/// A name that no run reads.
pub const NO_FILE: &str = "";

// The number of a field, or `other` if it is empty.
fn number_or(field: &str, other: usize) -> Result<usize, Fail> {
    if field.is_empty() {
        return Ok(other);
    }
    Ok(field.parse::<usize>()?)
}

impl FileTable {
    // Appends the lines of a header.
    fn push_header(&self, bytes: &mut Vec<u8>, lines: &str) -> Result<(), Fail> {
        match lines.strip_prefix(self.mark) {
            Some(more) => {
                push_lines(bytes, self.front)?;
                push_lines(bytes, more)
            }
            None => push_lines(bytes, lines),
        }
    }

    /// The bytes of a header with these lines, 4096 in all.
    pub fn header_of(&self, alloc: Global, lines: &str) -> Result<Vec<u8>, Fail> {
        let mut bytes = Vec::new(alloc);
        self.push_header(&mut bytes, lines)?;
        bytes.resize(4096, 0)?;
        Ok(bytes)
    }

    // The bytes of the file of a line.
    fn bytes_in(&self, alloc: Global, fields: [&'static str; 7]) -> Result<Vec<u8>, Fail> {
        let [_, lines, data, size, filled, ..] = fields;
        let mut bytes = Vec::new(alloc);
        if let Some(text) = lines.strip_prefix('=') {
            push_lines(&mut bytes, text)?;
            return Ok(bytes);
        }
        self.push_header(&mut bytes, lines)?;
        if !filled.is_empty() {
            bytes.resize(number_or(filled, 0)?.saturating_sub(1), b'#')?;
            bytes.push(b'\n')?;
        }
        bytes.resize(number_or(size, 4096)?, 0)?;
        push_data(&mut bytes, data)?;
        Ok(bytes)
    }

    /// The bytes of the file of a name, if there is one.
    pub fn bytes_of(&self, alloc: Global, name: &str) -> Result<Option<Vec<u8>>, Fail> {
        for line in self.files.lines() {
            let fields = fields_of(line);
            if fields[0] == name {
                return Ok(Some(self.bytes_in(alloc, fields)?));
            }
        }
        Ok(None)
    }

    /// Inputs that hold the files that the words name, whose call with this number fails.
    pub fn inputs_for(&self, alloc: Global, words: &str, failing: u64) -> Result<MemInputs, Fail> {
        let mut inputs = MemInputs::open(alloc, &[failing])?;
        inputs.put(NO_FILE, &[])?;
        for word in words.split_whitespace() {
            if let Some(bytes) = self.bytes_of(alloc, word)? {
                inputs.put(word, bytes.as_slice())?;
            }
        }
        Ok(inputs)
    }
}

/// How many calls were made of inputs that hold NO_FILE, and of which call NEVER fails.
pub fn calls_of(inputs: &mut MemInputs) -> u64 {
    for more in 0..NEVER {
        if inputs.open(NO_FILE).is_err() {
            return NEVER - more;
        }
    }
    0
}
