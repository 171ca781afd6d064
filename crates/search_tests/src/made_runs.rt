// Whole runs that make an observation, over files in memory and for real.
use crate::made_bytes::bytes_of;
use psr_base::{Files, MemFiles, MemSink, Memory, RealFiles};
use psr_make::{MakeSpec, run_make};
use run_cases::fields_of;
use std::alloc::Global;
use std::fs;
use std::test::Fail;

// The arguments of a run, the program's name first; the call that fails, of the file's creation, its header, its data
// and its end, and the room, if they matter; the status and the line to the notes; and how many bytes the file has
// then.
const RUNS: &str = "
psr_make --spectra 0 a | | 0 | 4096
psr_make a --spectra=0 --nbit 16 --npol 2 | | 0 | 4096
psr_make --spectra 0 -- a | | 0 | 4096
psr_make | | 2 words refused | no file
psr_make --spectra 0 | | 2 words refused | no file
psr_make --spectra 0 a b | | 2 words refused | no file
psr_make --spectra 0 --spectra 0 a | | 2 words refused | no file
psr_make --help | | 2 words refused | no file
psr_make --version | | 2 words refused | no file
psr_make --spec 0 a | | 2 words refused | no file
psr_make --spectra -1 a | | 2 words refused | no file
psr_make --nchan 1 a | | 2 option --nchan refused | no file
psr_make --nchan 4097 a | | 2 option --nchan refused | no file
psr_make --nchan=+8 a | | 2 option --nchan refused | no file
psr_make --number 9223372036854775808 a | | 2 option --number refused | no file
psr_make --number 00000000000000000001 a | | 2 option --number refused | no file
psr_make --spectra 1048577 a | | 2 option --spectra refused | no file
psr_make --delay 8193 a | | 2 option --delay refused | no file
psr_make --period 0 a | | 2 option --period refused | no file
psr_make --height=201 a | | 2 option --height refused | no file
psr_make --npol 3 --nbit 9 a | | 2 option --nbit refused | no file
psr_make --npol 3 --nbit 8 a | | 2 option --npol refused | no file
psr_make --nchan 2 --spectra 20 --delay 3 --period 5 made | 9 4136 | 0 | 4136
psr_make --nchan 2 --spectra 20 --delay 3 --period 5 made | 0 4136 | 11 record fault | no file
psr_make --nchan 2 --spectra 20 --delay 3 --period 5 made | 1 4136 | 11 record fault | 0
psr_make --nchan 2 --spectra 20 --delay 3 --period 5 made | 2 4136 | 11 record fault | 4096
psr_make --nchan 2 --spectra 20 --delay 3 --period 5 made | 3 4136 | 11 record fault | 4136
psr_make --nchan 2 --spectra 20 --delay 3 --period 5 made | 9 4135 | 11 record fault | 4096
psr_make --nchan 2 --spectra 20 --delay 3 --period 5 made | 9 4095 | 11 record fault | 0
";

// The observation that is named `made`: 4096 bytes of header and 40 of data.
const SMALL: MakeSpec = MakeSpec {
    number: 0,
    channels: 2,
    spectra: 20,
    delay: 3,
    period: 5,
    height: 2,
    nbit: 8,
    npol: 1,
};

// ---- a run

// How a run ended, and the line to the notes.
#[derive(Drop)]
struct Ended {
    status: u8,
    notes: Vec<u8>,
}

fn list_of(alloc: Global, line: &str) -> Result<Vec<String>, Memory> {
    let mut list = Vec::new(alloc);
    for word in line.split_whitespace() {
        list.push(String::from_str(alloc, word)?)?;
    }
    Ok(list)
}

// Makes an observation by the arguments of a line.
fn run<F: Files>(alloc: Global, line: &str, files: &mut F) -> Result<Ended, Memory>
    requires { ¬ F.is_open files.old }
{
    let words = list_of(alloc, line)?;
    let mut notes = MemSink::open(alloc, 100, &[])?;
    let status = run_make(alloc, words.as_slice(), files, &mut notes);
    Ok(Ended {
        status,
        notes: Vec::from_slice(alloc, notes.body())?,
    })
}

// Whether a run ended as `2 words refused` says.
fn ends_so(ended: &Ended, wanted: &str) -> bool {
    let (status, note) = wanted.split_once(' ').unwrap_or((wanted, ""));
    let notes = ended.notes.as_slice();
    let is_noted = match notes.split_last() {
        Some((last, front)) => *last == b'\n' && front == note.as_bytes(),
        None => note.is_empty(),
    };
    is_noted && status.parse::<u8>() == Ok(ended.status)
}

// ---- in memory

// Whether there is one file, named as the arguments say, of `count` bytes, or none.
fn is_left(files: &MemFiles, words: &str, count: &str) -> bool {
    if count == "no file" {
        return files.count() == 0;
    }
    let name = if words.ends_with(" made") {
        "made"
    } else {
        "a"
    };
    files.count() == 1 && files.name(0) == name && count.parse::<usize>() == Ok(files.body(0).len())
}

// Whether a file that is named `made` is a front of the small observation.
fn is_front(alloc: Global, files: &MemFiles) -> bool {
    if files.count() == 0 || files.name(0) != "made" {
        return true;
    }
    match bytes_of(alloc, &SMALL) {
        Some(whole) => whole.as_slice().starts_with(files.body(0)),
        None => false,
    }
}

// Whether the run of a line ends, and leaves a file, as the line says.
fn is_met(alloc: Global, line: &'static str) -> Result<bool, Memory> {
    let [words, limits, wanted, count, ..] = fields_of(line);
    let (call, room) = limits.split_once(' ').unwrap_or(("9", "5000"));
    let call = call.parse::<u64>().unwrap_or(9);
    let room = room.parse::<u32>().unwrap_or(0);
    let mut files = MemFiles::open(alloc, 1, u64::from(room), &[call])?;
    let ended = run(alloc, words, &mut files)?;
    Ok(ends_so(&ended, wanted) && is_left(&files, words, count) && is_front(alloc, &files))
}

#[test]
fn runs_end_and_leave_a_file_as_their_lines_say(rt: HostRuntime) {
    for line in RUNS.lines() {
        assert!(rt;
            line.is_empty() || is_met(rt.alloc(), line) == Ok(true),
            "{line}"
        );
    }
}

// ---- for real

// Whether a run over the files of the system ends as wanted.
fn ends_really(rt: &HostRuntime, words: &str, wanted: &str) -> bool {
    match run(rt.alloc(), words, &mut RealFiles::new(rt)) {
        Ok(ended) => ends_so(&ended, wanted),
        Err(_) => false,
    }
}

// Whether a file of the system holds these bytes.
fn is_held(rt: &HostRuntime, name: &str, bytes: &[u8]) -> bool {
    match fs::read(rt, name) {
        Ok(held) => held.as_slice() == bytes,
        Err(_) => false,
    }
}

// Whether a file of the system holds the small observation.
fn is_small(rt: &HostRuntime, name: &str) -> bool {
    match bytes_of(rt.alloc(), &SMALL) {
        Some(whole) => is_held(rt, name, whole.as_slice()),
        None => false,
    }
}

#[test]
fn a_real_file_is_made_new_or_stays(rt: HostRuntime) -> Result<(), Fail> {
    let over_old = "psr_make --spectra 0 make_test_old";
    let new = "psr_make --nchan 2 --spectra 20 --delay 3 --period 5 make_test_new";
    fs::write(&rt, "make_test_old", b"kept".as_slice())?;
    assert!(rt; ends_really(&rt, over_old, "11 record fault"));
    assert!(rt; ends_really(&rt, new, "0"));
    assert!(rt; is_held(&rt, "make_test_old", b"kept") && is_small(&rt, "make_test_new"));
    fs::remove_file(&rt, "make_test_old")?;
    fs::remove_file(&rt, "make_test_new")?;
    Ok(())
}
