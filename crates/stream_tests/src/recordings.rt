// What is recorded, and how that ends.
use crate::lines::{fields_of, parts_of, words_of};
use crate::recording::{Case, record};
use dada_hdu::Mark;
use dada_header::Header;
use dada_recorder::RecordEnd;
use psr_base::{MemFiles, RealFiles, RealInputs, read_file};
use std::alloc::Global;
use std::fs;
use std::test::Fail;

// The data, and those of a second transfer after `+`; the numbers that differ from those of the sample; how the
// recording ends; and the files, each with its data; `-` is a file without a header.
const RECORDINGS: &str = "
abcdef | | whole 2 | first abcd, second ef
abcdef | size 1 | whole 2 | first abcd, second ef
abcdef | size 8 | whole 2 | first abcd, second ef
abcdef | file_size 6 | whole 1 | first abcdef
abcdef | file_size 100 | whole 1 | first abcdef
abcdef | file_size 3 | whole 2 | first abc, at_3 def
 | | whole 1 | first
abcdefghi | offset 90, file_size 6 | whole 2 | at_90 abcdef, at_96 ghi
abcdef + gh | | whole 3 | first abcd, second ef, third gh
abcdefgh | cut | cut 2 | first abcd, second ef
 | cut | cut 1 | first
abcdef + gh | cut | cut 3 | first abcd, second ef, third
abcdef | max_bytes 5 | too_long 5 | first abc
abcdef | max_bytes 0 | too_long 0 | first
abcdef | max_bytes 5, call 3 | file_fault | first abc
abcdef + untimed gh | | no_time | first abcd, second ef
abcdef | max_bytes 4000001 | too_many_files
abcdef | call 0 | file_fault
abcdef | call 1 | file_fault | first -
abcdef | call 2 | file_fault | first
abcdef | call 3 | file_fault | first abc
abcdef | call 4 | file_fault | first abcd
abcdef | call 5 | file_fault | first abcd
abcdef | call 6 | file_fault | first abcd, second -
abcdef | call 7 | file_fault | first abcd, second
abcdef | call 8 | file_fault | first abcd, second ef
abcdef | call 9 | whole 2 | first abcd, second ef
abcdef | files 1 | file_fault | first abcd
abcdef | bytes 8197 | file_fault | first abcd, second
abcdef | bytes 4000 | file_fault | first -
abcdef | files 0 | file_fault
";

// Six bytes, of which a file has four, through blocks of three.
const SAMPLE: Case = Case {
    first: "abcdef",
    second: None,
    last: Mark::End,
    offset: 0,
    size: 3,
    file_size: 4,
    max_bytes: 1000,
};

// The lines of a second header.
const LATER: &str = "UTC_START 2024-01-02-03:05:00\nNBIT 8\n";

const UNTIMED: &str = "NBIT 8\n";

// The names of the sample's files.
const FIRST: &str = "2024-01-02-03:04:05_0000000000000000.000000.dada";

const SECOND: &str = "2024-01-02-03:04:05_0000000000000004.000001.dada";

fn name_of(word: &str) -> &'static str {
    match word {
        "first" => FIRST,
        "second" => SECOND,
        "at_3" => "2024-01-02-03:04:05_0000000000000003.000001.dada",
        "at_90" => "2024-01-02-03:04:05_0000000000000090.000000.dada",
        "at_96" => "2024-01-02-03:04:05_0000000000000096.000001.dada",
        _ => "2024-01-02-03:05:00_0000000000000007.000000.dada",
    }
}

// What a line records: the case, the call of the files that fails, and how much room there is.
#[derive(Clone, Copy)]
struct Line {
    case: Case,
    call: u64,
    files: u32,
    bytes: u64,
}

impl Line {
    fn of(data: &'static str) -> Line {
        let (first, later) = parts_of(data, '+');
        let second = match later.strip_prefix("untimed ") {
            Some(data) => Some((UNTIMED, data)),
            None if later.is_empty() => None,
            None => Some((LATER, later)),
        };
        Line {
            case: Case {
                first,
                second,
                ..SAMPLE
            },
            call: 100,
            files: 4,
            bytes: 100_000,
        }
    }

    // Sets what is named by each word of `size 3, cut`, and answers whether each has a name.
    fn set_all(&mut self, settings: &'static str) -> bool {
        for setting in settings.split(',') {
            let (name, number) = parts_of(setting, ' ');
            if !self.set(name, number.parse::<u32>().unwrap_or(0)) {
                return false;
            }
        }
        true
    }

    fn set(&mut self, name: &str, number: u32) -> bool {
        let n = u64::from(number);
        match name {
            "" => {}
            "cut" => self.case.last = Mark::Cut,
            "offset" => self.case.offset = n,
            "size" => self.case.size = number,
            "file_size" => self.case.file_size = n,
            "max_bytes" => self.case.max_bytes = n,
            "call" => self.call = n,
            "files" => self.files = number,
            "bytes" => self.bytes = n,
            _ => return false,
        }
        true
    }
}

// Whether a recording ended as `whole 2` says.
fn ends_so(end: RecordEnd, wanted: &'static str) -> bool {
    let (word, number) = words_of(end);
    let (wanted, wanted_number) = parts_of(wanted, ' ');
    word == wanted && number == u64::from(wanted_number.parse::<u32>().unwrap_or(0))
}

// Whether `body` is a header of 4096 bytes and the data.
fn has_data(body: &[u8], data: &str) -> bool {
    if data == "-" {
        return body.is_empty();
    }
    body.len() >= 4096 && &body[4096..] == data.as_bytes()
}

// Whether these files, and no others, were made in this order, as `first abcd, second ef`.
fn are_files(files: &MemFiles, wanted: &'static str) -> bool {
    if wanted.is_empty() {
        return files.count() == 0;
    }
    let mut rest = wanted.split(',');
    for i in 0..files.count() {
        let Some(file) = rest.next() else {
            return false;
        };
        let (word, data) = parts_of(file, ' ');
        if files.name(i) != name_of(word) || !has_data(files.body(i), data) {
            return false;
        }
    }
    rest.next().is_none()
}

// Whether a recording ends, and leaves files, as its line says.
fn is_met(alloc: Global, text: &'static str) -> Result<bool, Fail> {
    let [data, settings, end, wanted, ..] = fields_of(text);
    let mut line = Line::of(data);
    if !line.set_all(settings) {
        return Ok(false);
    }
    let mut files = MemFiles::open(alloc, line.files, line.bytes, &[line.call])?;
    match record(alloc, &mut files, line.case)? {
        Some(ended) => Ok(ends_so(ended, end) && are_files(&files, wanted)),
        None => Ok(false),
    }
}

#[test]
fn recordings_end_and_leave_files_as_their_lines_say(rt: HostRuntime) -> Result<(), Fail> {
    for line in RECORDINGS.lines() {
        assert!(rt; line.is_empty() || is_met(rt.alloc(), line)?, "{line}");
    }
    Ok(())
}

// ---- files of the system

// How the sample is recorded in files of the system.
fn record_really(rt: &HostRuntime) -> Result<Option<RecordEnd>, Fail> {
    record(rt.alloc(), &mut RealFiles::new(rt), SAMPLE)
}

// Whether a file has these data, and its header these fields.
fn is_read_back(
    rt: &HostRuntime,
    name: &str,
    data: &str,
    offset: &str,
    number: &str,
) -> Result<bool, Fail> {
    let body = read_file(rt.alloc(), &mut RealInputs::new(rt), name, 10_000)?;
    let header = Header::read(rt.alloc(), body.as_slice())?;
    Ok(
        has_data(body.as_slice(), data)
            && header.get("OBS_OFFSET") == Some(offset)
            && header.get("FILE_NUMBER") == Some(number)
            && header.get("FILE_SIZE") == Some("0000000000000004")
            && header.get("NBIT") == Some("8"),
    )
}

#[test]
fn real_files_are_read_back(rt: HostRuntime) -> Result<(), Fail> {
    for name in [FIRST, SECOND] {
        let _removed = fs::remove_file(&rt, name);
    }
    assert!(rt; record_really(&rt)? == Some(RecordEnd::Whole { files: 2 }));
    // The names are there now.
    assert!(rt; record_really(&rt)? == Some(RecordEnd::FileFault));
    assert!(rt; is_read_back(&rt, FIRST, "abcd", "0000000000000000", "000000")?);
    assert!(rt; is_read_back(&rt, SECOND, "ef", "0000000000000004", "000001")?);
    fs::remove_file(&rt, FIRST)?;
    fs::remove_file(&rt, SECOND)?;
    Ok(())
}
