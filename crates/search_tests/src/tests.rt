// Whole searches and recordings.
ghost use Rattle.std.specs.Prelude.{IfOk, IsTrue};
ghost use Rattle.psr_base.specs.InMemory.{IsMaking};

use crate::cases::{check_all, has_files};
use crate::files::FILES;
use crate::recordings::RECORDINGS;
use crate::running::Program::{Record, Search};
use crate::running::{Program, run_past};
use crate::searches::SEARCHES;
use band_paths::{edge_delays, path_sum};
use detect_rule::Rule;
use meeting_gate::{Meeting, TurnCount};
use psr_base::{CalmFiles, CalmInputs, CalmSink, MemFiles, MemInputs, MemSink};
use psr_record::run_record;
use psr_search::{run, run_in_memory};
use run_cases::{ENOUGH, Ended, Limits, NEVER, made_observation, words_of};
use search_session::NoGate;
use std::alloc::Global;
use std::sync::Wait;
use std::test::Fail;
use std::thread::Threads;
use std::time::Clock;

const PULSES: &str = "--mean 1 --sd 2 --snr 7 --max-delay 1 --widths 1";

const BOTH: &str = "OBS 0\nPULSE 1 1 0.104 1 30 3\nEND 1 0 3\nOBS 1\nEND 0 0 1\n";

const TEXT: &str = "PULSE 1 1 0.104 1 30 3\nEND 1 0 3\n";

#[test]
fn searches_end_as_their_words_and_files_say(rt: HostRuntime) -> Result<(), Fail> {
    check_all(&rt, rt.alloc(), &SEARCHES)
}

#[test]
fn recordings_end_as_their_words_and_files_say(rt: HostRuntime) -> Result<(), Fail> {
    check_all(&rt, rt.alloc(), &RECORDINGS)
}

// Whether two actors of a run meet, each of whom waits for the other.
fn do_meet<R: Threads + Wait + Clock + Sync>(
    rt: &R,
    alloc: Global,
    program: Program,
    words: &str,
    actor: u32,
) -> Result<bool, Fail> {
    let mut inputs = FILES.inputs_for(alloc, "pulse", NEVER)?;
    let words = words_of(alloc, words, "pulse")?;
    let meeting = Meeting::of(0, actor);
    let (ended, _made) = run_past(
        rt,
        alloc,
        program,
        words.as_slice(),
        &mut inputs,
        &ENOUGH,
        &meeting,
    )?;
    Ok(ended.status == 0 && meeting.both_met())
}

#[test]
fn hands_run_beside_each_other(rt: HostRuntime) -> Result<(), Fail> {
    let searching = "--mean 1 --sd 2 --max-delay 1 --hands 2 --size 4 --turns 1";
    let recorded = "--mean 1 --sd 2 --max-delay 1 --hands 3 --size 4 --turns 1 --record";
    let recording = "--file-size 4 --max-bytes 1000 --hands 3 --turns 1";
    // The program, its words, and the actor that a feeder meets: a shard or a recorder.
    let meetings = [
        (Search, searching, 1),
        (Search, recorded, 8),
        (Record, recording, 8),
    ];
    for (program, words, actor) in meetings {
        assert!(rt; do_meet(&rt, rt.alloc(), program, words, actor)?, "{words}");
    }
    Ok(())
}

// Whether exactly these actors of a run take turns, and the gate is called with each turn's number.
fn take_turns<R: Threads + Wait + Clock + Sync>(
    rt: &R,
    alloc: Global,
    program: Program,
    words: &str,
    actors: &[u32],
) -> Result<bool, Fail> {
    let mut inputs = FILES.inputs_for(alloc, "pulse", NEVER)?;
    let words = words_of(alloc, words, "pulse")?;
    let count = TurnCount::new();
    let (ended, _made) = run_past(
        rt,
        alloc,
        program,
        words.as_slice(),
        &mut inputs,
        &ENOUGH,
        &count,
    )?;
    Ok(ended.status == 0 && count.took_turns(actors))
}

#[test]
fn turns_of_each_actor_are_told(rt: HostRuntime) -> Result<(), Fail> {
    let alone = "--mean 1 --sd 2 --max-delay 1 --size 4 --turns 1";
    let shared = "--mean 1 --sd 2 --max-delay 1 --size 4 --turns 2 --shards 2 --hands 3 --record";
    let recording = "--file-size 4 --max-bytes 1000 --hands 2 --turns 1";
    // 0 is the feeder, 1 and 2 are shards, and 8 is the recorder.
    assert!(rt; take_turns(&rt, rt.alloc(), Search, alone, &[0, 1])?);
    assert!(rt; take_turns(&rt, rt.alloc(), Search, shared, &[0, 1, 2, 8])?);
    assert!(rt; take_turns(&rt, rt.alloc(), Record, recording, &[0, 8])?);
    Ok(())
}

// ---- files that were made are read again

// Runs a program over these inputs, with enough room for files of large observations.
fn run_over<R: Threads + Wait + Clock + Sync>(
    rt: &R,
    alloc: Global,
    program: Program,
    words: &[String],
    inputs: &mut MemInputs,
    file: u64,
) -> Result<(Ended, MemFiles), Fail> {
    let limits = Limits {
        file,
        file_room: 5_000_000,
        ..ENOUGH
    };
    run_past(rt, alloc, program, words, inputs, &limits, &NoGate)
}

// Puts the files that were made under the names 0, 1, 2 and so on.
fn feed_back(alloc: Global, made: &MemFiles, inputs: &mut MemInputs) -> Result<(), Fail> {
    for i in 0..made.count() {
        inputs.put(format!(in alloc; "{i}")?.as_str(), made.body(i))?;
    }
    Ok(())
}

// How a search of what a recording makes ends.
fn search_recorded<R: Threads + Wait + Clock + Sync>(
    rt: &R,
    alloc: Global,
    recording: &str,
    searching: &str,
    inputs: &mut MemInputs,
) -> Result<Ended, Fail> {
    let words = words_of(alloc, "--max-bytes 1000", recording)?;
    let (_recorded, made) = run_over(rt, alloc, Record, words.as_slice(), inputs, NEVER)?;
    feed_back(alloc, &made, inputs)?;
    let words = words_of(alloc, PULSES, searching)?;
    let (ended, _none) = run_over(rt, alloc, Search, words.as_slice(), inputs, NEVER)?;
    Ok(ended)
}

#[test]
fn recorded_files_give_the_same_text(rt: HostRuntime) -> Result<(), Fail> {
    let mut inputs = FILES.inputs_for(rt.alloc(), "pulse next", NEVER)?;
    // The arguments of a recording, those of a search of its files, and the text. Each records files of the ones
    // before.
    let cases = [
        ("--file-size 4 pulse", "0 1", TEXT),
        ("--file-size 6 0 1", "0", TEXT),
        ("--file-size 1 0", "0 1 2 3 4 5", TEXT),
        ("--file-size 6 pulse + next", "0 + 1", BOTH),
    ];
    for (recording, searching, wanted) in cases {
        let ended = search_recorded(&rt, rt.alloc(), recording, searching, &mut inputs)?;
        assert!(rt;
            ended.text.as_slice() == wanted.as_bytes(),
            "{recording}: {ended}"
        );
    }
    Ok(())
}

// Runs a program that may record into files of which none is open. Answers whether it ended with 0, in which case none
// is open then either.
fn record_more<R: Threads + Wait + Clock + Sync>(
    rt: &R,
    alloc: Global,
    program: Program,
    options: &str,
    names: &str,
    inputs: &mut MemInputs,
    made: &mut MemFiles,
) -> Result<bool, Fail>
    requires closed { ¬ IsMaking made.old }
    ensures closed { IfOk result (λ whole. IsTrue whole → ¬ IsMaking made.new) }
{
    let words = words_of(alloc, options, names)?;
    let (mut out, mut notes) = ENOUGH.sinks(alloc)?;
    let words = words.as_slice();
    match program {
        Search => {
            let ran = run_in_memory(
                rt, alloc, words, inputs, made, &mut out, &mut notes, &NoGate,
            );
            Ok(ran.status == 0)
        }
        Record => {
            let ran = run_record(rt, alloc, words, inputs, made, &mut notes, &NoGate);
            Ok(ran.status == 0)
        }
    }
}

#[test]
fn files_are_recorded_one_after_another(rt: HostRuntime) -> Result<(), Fail> {
    let alloc = rt.alloc();
    let mut inputs = FILES.inputs_for(alloc, "pulse next", NEVER)?;
    let mut made = MemFiles::open(alloc, ENOUGH.files, ENOUGH.file_room, &[])?;
    let small = "--file-size 4 --max-bytes 1000";
    if !record_more(&rt, alloc, Record, small, "pulse", &mut inputs, &mut made)? {
        return Err("the first recording".into());
    }
    let searching = "--mean 1 --sd 2 --snr 7 --max-delay 1 --widths 1 --record";
    if !record_more(
        &rt,
        alloc,
        Search,
        searching,
        "next",
        &mut inputs,
        &mut made,
    )? {
        return Err("the recording of a search".into());
    }
    // The names are there already.
    let again = record_more(&rt, alloc, Record, small, "pulse", &mut inputs, &mut made)?;
    let files = "first 10 0 0 20, second 0 0, next 0 0";
    assert!(rt; !again && has_files(alloc, &made, files)?);
    Ok(())
}

// ---- an observation of 4 MB, as a user makes, searches and records it

const MAKE: &str = "--number 1 --nchan 1024 --spectra 4096 --delay 256 --period 512 --height 1";

const SEARCH: &str = "--mean 16 --sd 2.828 --max-delay 512 --max-candidates 1000000";

const RECORD: &str = "--shards 4 --hands 3 --record --file-size 1500000 made";

// Whether files of these numbers of bytes were made, and no others.
fn has_sizes(made: &MemFiles, sizes: &[usize]) -> bool {
    if made.count() as usize != sizes.len() {
        return false;
    }
    for i in 0..made.count() {
        if made.body(i).len() != sizes[i as usize] {
            return false;
        }
    }
    true
}

// Whether a search with these arguments ends with this status and this text.
fn searches_so<R: Threads + Wait + Clock + Sync>(
    rt: &R,
    alloc: Global,
    words: &str,
    inputs: &mut MemInputs,
    file: u64,
    status: u8,
    text: &[u8],
) -> Result<bool, Fail> {
    let words = words_of(alloc, SEARCH, words)?;
    let (ended, _made) = run_over(rt, alloc, Search, words.as_slice(), inputs, file)?;
    Ok(ended.status == status && ended.text.as_slice() == text)
}

// How a search of the observation ends that records it in three files, which are put back into the inputs.
fn search_observation<R: Threads + Wait + Clock + Sync>(
    rt: &R,
    alloc: Global,
    inputs: &mut MemInputs,
) -> Result<Ended, Fail> {
    let words = words_of(alloc, SEARCH, RECORD)?;
    let (ended, made) = run_over(rt, alloc, Search, words.as_slice(), inputs, NEVER)?;
    if !has_sizes(&made, &[1_504_096, 1_504_096, 1_198_400]) {
        return Err("other files".into());
    }
    feed_back(alloc, &made, inputs)?;
    Ok(ended)
}

#[test]
fn an_observation_is_made_searched_and_recorded(rt: HostRuntime) -> Result<(), Fail> {
    let mut inputs = made_observation(rt.alloc(), MAKE, 0)?;
    let ended = search_observation(&rt, rt.alloc(), &mut inputs)?;
    let text = ended.text.as_slice();
    assert!(rt;
        text.starts_with(b"PULSE ") && text.ends_with(b" 0 4096\n"),
        "{ended}"
    );
    // One shard and one hand; the recorded files; and a call of the files that fails.
    for (words, file, status) in [("made", NEVER, 0), ("0 1 2", NEVER, 0), (RECORD, 2, 11)] {
        let is = searches_so(&rt, rt.alloc(), words, &mut inputs, file, status, text)?;
        assert!(rt; is, "{words}");
    }
    Ok(())
}

#[test]
fn calm_objects_are_searched_to_the_end(rt: HostRuntime) -> Result<(), Fail> {
    let alloc = rt.alloc();
    let words = words_of(alloc, PULSES, "0")?;
    let mut inputs = CalmInputs::open(alloc)?;
    if let Some(bytes) = FILES.bytes_of(alloc, "pulse")? {
        inputs.put("0", bytes.as_slice())?;
    }
    let mut out = MemSink::open(alloc, 1000, &[])?;
    let ran = run(
        &rt,
        alloc,
        words.as_slice(),
        &mut inputs,
        &mut CalmFiles::new(),
        &mut out,
        &mut CalmSink::new(),
        &NoGate,
    );
    assert!(rt; ran.status == 0 && out.body() == TEXT.as_bytes());
    Ok(())
}

// ---- parts

#[test]
fn paths_of_two_channels_and_their_sums(rt: HostRuntime) -> Result<(), Fail> {
    let alloc = rt.alloc();
    let edges = [1_500_000, 1_400_000, 1_300_000];
    let samples = [10, 0, 0, 20, 0, 0];
    // Each delay with its path, and the sums that end at the three spectra.
    let cases: [(u32, [u32; 3], [u64; 3]); 5] = [
        (0, [0, 0, 0], [10, 20, 0]),
        (1, [0, 0, 1], [0, 30, 20]),
        (2, [0, 1, 2], [0, 30, 30]),
        (3, [0, 1, 3], [0, 20, 30]),
        (4, [0, 2, 4], [0, 20, 30]),
    ];
    for (d, path, sums) in cases {
        let delays = edge_delays(alloc, &edges, d)?;
        assert_eq!(rt; delays.as_slice(), path.as_slice());
        for u in 0..3 {
            assert_eq!(rt; path_sum(&samples, 2, delays.as_slice(), u), sums[u]);
        }
    }
    Ok(())
}

#[test]
fn equality_is_detected_and_one_less_is_not(rt: HostRuntime) {
    let rule = Rule {
        mean: 0,
        sd: 1000,
        snr: 200,
    };
    assert!(rt; rule.detected(4, 4));
    assert!(rt; !rule.detected(3, 4));
}
