// Traces with their answers, and faults of the file and of the output.
use psr_base::{MemInputs, MemSink, Memory};
use ring_trace::run_trace;
use std::alloc::Global;

// Each line: a trace, the exit status, and the answers that were written, or `none`. A `;` ends a line of a trace or of
// answers.
const TRACES: &str = "
 | 3 | none
; | 3 | none
ring 2 2 8 | 0 | none
ring 2 2 8;look 2 | 3 | none
ring 2 1 1;take;seal 5;take; | 0 | taken 0;sealed 0;spent 1;
ring 2 1 1;take | 0 | taken 0;
ring 2  1 1;take | 3 | none
ring 2 1 1 ;take | 3 | none
ring 1 1 1; | 3 | none
ring 65 1 1; | 3 | none
ring 2 0 1; | 3 | none
ring 2 9 1; | 3 | none
ring 2 1 0; | 3 | none
ring 64 8 1048576; | 0 | none
ring 2 1 1048577; | 3 | none
ring 2 1 1;take;;seal 5; | 3 | taken 0;
ring 2 1 1;take;seal  5; | 3 | taken 0;
ring 2 1 1;take;seal; | 3 | taken 0;
ring 2 1 1;take;seal +5; | 3 | taken 0;
ring 2 1 1;take;seal 00000000000000000005;read 0 | 0 | taken 0;sealed 0;got 0 5;
ring 2 1 1;take;seal 000000000000000000005; | 3 | taken 0;
ring 2 1 1;take;seal 18446744073709551615;read 0 | 0 | taken 0;sealed 0;got 0 18446744073709551615;
ring 2 1 1;take;seal 18446744073709551616; | 3 | taken 0;
ring 2 1 4;attach 0;detach 0;read 0;attach 0;read 0; | 0 | refused;detached;refused;attached 0;empty 0;
";

// Each line: the arguments, the size of the trace in bytes (0: a trace of two lines), the call of the inputs that fails
// or `none`, the room for answers in bytes, and the exit status.
const FAULTS: &str = "
ring_trace | 0 none 100 2
ring_trace trace trace | 0 none 100 2
ring_trace other | 0 none 100 6
ring_trace trace | 0 0 100 6
ring_trace trace | 0 2 100 6
ring_trace trace | 1048576 none 100 3
ring_trace trace | 1048577 none 100 8
ring_trace trace | 0 none 8 0
ring_trace trace | 0 none 7 10
";

#[derive(Drop)]
struct Ran {
    status: u8,
    answers: Vec<u8>,
}

// Runs the program on a file `trace` in memory. The calls of the inputs in `fail` fail, and there is room for `room`
// bytes of answers.
fn run_on(alloc: Global, words: &str, file: &[u8], fail: &[u64], room: u64) -> Result<Ran, Memory> {
    let mut names = Vec::new(alloc);
    for word in words.split(' ') {
        names.push(String::from_str(alloc, word)?)?;
    }
    let mut inputs = MemInputs::open(alloc, fail)?;
    inputs.put("trace", file)?;
    let mut out = MemSink::open(alloc, room, &[])?;
    let status = run_trace(alloc, names.as_slice(), &mut inputs, &mut out);
    let answers = Vec::from_slice(alloc, out.body())?;
    Ok(Ran { status, answers })
}

// The bytes of a text in which each `;` is a line feed.
fn lines_of(alloc: Global, text: &str) -> Option<Vec<u8>> {
    let mut bytes = Vec::new(alloc);
    for byte in text.bytes() {
        bytes.push(if byte == b';' { b'\n' } else { byte }).ok()?;
    }
    Some(bytes)
}

// Whether the trace of a line gives the status and the answers of the line.
fn is_answered(alloc: Global, line: &str) -> Option<bool> {
    let (file, rest) = line.split_once(" | ")?;
    let (status, answers) = rest.split_once(" | ")?;
    let file = lines_of(alloc, file)?;
    let wanted = lines_of(alloc, if answers == "none" { "" } else { answers })?;
    let ran = run_on(alloc, "ring_trace trace", file.as_slice(), &[], 100).ok()?;
    Some(status.parse::<u8>() == Ok(ran.status) && ran.answers.as_slice() == wanted.as_slice())
}

#[test]
fn traces_are_answered(rt: HostRuntime) {
    for line in TRACES.lines() {
        assert!(rt;
            line.is_empty() || is_answered(rt.alloc(), line) == Some(true),
            "{line}"
        );
    }
}

// A trace of `size` bytes.
fn trace_of(alloc: Global, size: usize) -> Option<Vec<u8>> {
    if size == 0 {
        return lines_of(alloc, "ring 2 1 1;take;");
    }
    vec![in alloc; b'x'; size].ok()
}

// Whether the run of a line ends with the status of the line.
fn ends_so(alloc: Global, line: &str) -> Option<bool> {
    let (words, rest) = line.split_once(" | ")?;
    let mut numbers = rest.split(' ');
    let file = trace_of(alloc, numbers.next()?.parse::<usize>().ok()?)?;
    let fail = numbers.next()?.parse::<u64>();
    let room = numbers.next()?.parse::<u64>().ok()?;
    let status = numbers.next()?.parse::<u8>();
    let ran = match fail {
        Ok(call) => run_on(alloc, words, file.as_slice(), &[call], room),
        Err(_) => run_on(alloc, words, file.as_slice(), &[], room),
    };
    Some(status == Ok(ran.ok()?.status))
}

#[test]
fn faults_have_their_status(rt: HostRuntime) {
    for line in FAULTS.lines() {
        assert!(rt;
            line.is_empty() || ends_so(rt.alloc(), line) == Some(true),
            "{line}"
        );
    }
}
