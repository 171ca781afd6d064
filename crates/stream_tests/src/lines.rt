// Tables as text, a case on each line, with fields divided by `|`, and recordings in words.
use dada_recorder::{RecordEnd, RecordFault};

/// The fields of a line. Missing ones are empty.
pub(crate) fn fields_of(line: &'static str) -> [&'static str; 5] {
    let mut fields = [""; 5];
    for (i, field) in line.split('|').enumerate() {
        if i < fields.len() {
            fields[i] = field.trim();
        }
    }
    fields
}

/// Parts a text at the first place of a sign, if there is one.
pub(crate) fn parts_of(text: &'static str, sign: char) -> (&'static str, &'static str) {
    let text = text.trim();
    let (front, back) = text.split_once(sign).unwrap_or((text, ""));
    (front.trim(), back.trim())
}

/// A refusal in a word.
pub(crate) fn word_of(fault: RecordFault) -> &'static str {
    match fault {
        RecordFault::NotHeader(_) => "no_header",
        RecordFault::NoUtc => "no_time",
        RecordFault::BadUtc => "bad_time",
        RecordFault::Overfull {
            need: 4096,
            size: 4096,
        } => "overfull_4096_4096",
        RecordFault::Overfull { .. } => "overfull",
        RecordFault::TooManyFiles => "too_many_files",
    }
}

/// How a recording ended, in a word and a number.
pub(crate) fn words_of(end: RecordEnd) -> (&'static str, u64) {
    match end {
        RecordEnd::Whole { files } => ("whole", u64::from(files)),
        RecordEnd::Cut { files } => ("cut", u64::from(files)),
        RecordEnd::FileFault => ("file_fault", 0),
        RecordEnd::BadHeader(fault) => (word_of(fault), 0),
        RecordEnd::TooLong { limit } => ("too_long", limit),
    }
}
