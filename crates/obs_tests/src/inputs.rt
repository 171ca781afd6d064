// Files in memory and of the system, read through their trait.
use crate::lines::call_of;
use psr_base::{
    CalmInputs, DataFault, Failed, Inputs, MemInputs, Memory, RealInputs, fill, read_from_memory,
    read_to_end,
};
use std::alloc::Global;
use std::fs;
use std::test::Fail;

// Inputs that give one byte at a time.
#[derive(Drop)]
struct Trickle<I>(I);

impl<I: Inputs> Inputs for Trickle<I> {
    ghost use Rattle.psr_base.specs.Told.{nothing_told};

    ghost told = { λ _. nothing_told };

    ghost is_open = { λ inputs. I.is_open inputs.0 };

    ghost is_calm = { λ _. ⊥ };

    ghost faults = { λ inputs. I.faults inputs.0 };

    fn open(&mut self, name: &str) -> Result<(), Failed> {
        self.0.open(name)
    }

    fn read(&mut self, into: &mut [u8]) -> Result<usize, Failed> {
        self.0.read(&mut into[..1])
    }
}

// Each line: the inputs and the call that fails, then each step with its result. The last step shows that they go on
// after a failure.
const IN_MEMORY: &str = "
held 0 | read a b: failed; read a b: abcde
held 1 | read a b: failed; read a b: abcde
held 2 | read a b: failed; read a b: abcde
held 3 | read a b: failed; read a b: abcde
held 4 | read a b: failed; read a b: abcde
trickle 0 | read a b: failed
trickle 1 | read a b: failed
trickle 2 | read a b: failed
trickle 3 | read a b: failed
trickle 4 | read a b: failed
trickle 5 | read a b: failed
trickle 6 | read a b: failed
trickle 7 | read a b: failed
trickle 8 | read a b: abcde
held | open c: failed; open _: failed; open b:
held | rest 0 0: 0 bytes; rest 1 0: too long; rest 20000 20000: 20000 bytes; rest 20000 19999: too long
held | rest 8192 8192: 8192 bytes; rest 8193 8192: too long
calm | read a c: abcde; byte a: a; byte b: ; byte c: ; byte _: ; byte a: a
";

// Steps for inputs whose call 2 fails: that opens the second file, and then reads it.
const WHOLE: &str = "c 9: failed; a 9: failed; a 9: abcde; a 4: too long; b 0:";

// Steps for files of the system. One of them is opened more often than a process may have files open.
const REAL: &str =
    "read outside_test_a outside_test_b: abcde; often outside_test_a: ; byte outside_test_a: a;\
    byte outside_test_b: ; byte outside_test_c: failed; byte .: failed";

// ---- steps

// Reads two bytes of one file and then its rest, and opens another.
fn read_in_steps<I: Inputs>(
    alloc: Global,
    inputs: &mut I,
    name: &str,
    other: &str,
) -> Result<Vec<u8>, DataFault> {
    inputs.open(name)?;
    let mut two = [0; 2];
    let n = fill(inputs, &mut two)?;
    let rest = read_to_end(alloc, inputs, 5)?;
    inputs.open(other)?;
    let mut all = Vec::from_slice(alloc, &two[..n])?;
    all.extend_from_slice(rest.as_slice())?;
    Ok(all)
}

// The first byte of the file, if it has one.
fn read_byte<I: Inputs>(alloc: Global, inputs: &mut I, name: &str) -> Result<Vec<u8>, DataFault> {
    inputs.open(name)?;
    let mut byte = [0];
    let n = fill(inputs, &mut byte)?;
    Ok(Vec::from_slice(alloc, &byte[..n])?)
}

// Opens a name `times` times, each time in place of the one before.
fn open_often<I: Inputs>(inputs: &mut I, name: &str, times: u32) -> Result<(), Failed> {
    for _ in 0..times {
        inputs.open(name)?;
    }
    Ok(())
}

// Splits a text at the first `sign`, if there is one.
fn parts_of(text: &'static str, sign: char) -> (&'static str, &'static str) {
    let (front, back) = text.split_once(sign).unwrap_or((text, ""));
    (front.trim(), back.trim())
}

// The bytes that a step gives. `_` stands for the empty name.
fn bytes_of<I: Inputs>(
    alloc: Global,
    inputs: &mut I,
    step: &'static str,
) -> Result<Vec<u8>, DataFault> {
    let (verb, names) = parts_of(step, ' ');
    let (name, other) = parts_of(names, ' ');
    let name = if name == "_" { "" } else { name };
    match verb {
        "read" => return read_in_steps(alloc, inputs, name, other),
        "byte" => return read_byte(alloc, inputs, name),
        "often" => open_often(inputs, name, 70000)?,
        _ => inputs.open(name)?,
    }
    if verb == "rest" {
        return read_to_end(alloc, inputs, other.parse::<usize>().unwrap_or(0));
    }
    Ok(Vec::new(alloc))
}

// Whether a result is as wanted: these bytes, a number of bytes, or a fault.
fn is_wanted(given: &Result<Vec<u8>, DataFault>, wanted: &str) -> bool {
    match given {
        Ok(bytes) => match wanted.strip_suffix(" bytes") {
            Some(count) => count.parse::<usize>().unwrap_or(usize::MAX) == bytes.len(),
            None => bytes.as_slice() == wanted.as_bytes(),
        },
        Err(DataFault::Failed) => wanted == "failed",
        Err(DataFault::TooLong) => wanted == "too long",
        Err(DataFault::Memory) => false,
    }
}

// Whether each step gives the result that stands after it.
fn are_met<I: Inputs>(alloc: Global, inputs: &mut I, steps: &'static str) -> bool {
    for step in steps.split(';') {
        let (step, wanted) = parts_of(step, ':');
        if !is_wanted(&bytes_of(alloc, inputs, step), wanted) {
            return false;
        }
    }
    true
}

// ---- inputs

// Puts a file of `number` bytes under the name `number`.
fn put_bytes(alloc: Global, inputs: &mut MemInputs, number: &str) -> Result<(), Memory> {
    let bytes = vec![in alloc; 7u8; number.parse::<usize>().unwrap_or(0)]?;
    inputs.put(number, bytes.as_slice())
}

// The files `a`, which is put twice, `b`, and files whose names are their sizes in bytes. Call `failing` fails.
fn held_files(alloc: Global, failing: u64) -> Result<MemInputs, Memory> {
    let mut inputs = MemInputs::open(alloc, &[failing])?;
    inputs.put("a", b"old")?;
    inputs.put("b", b"")?;
    inputs.put("a", b"abcde")?;
    for number in ["0", "1", "8192", "8193", "20000"] {
        put_bytes(alloc, &mut inputs, number)?;
    }
    Ok(inputs)
}

fn calm_files(alloc: Global) -> Result<CalmInputs, Memory> {
    let mut inputs = CalmInputs::open(alloc)?;
    inputs.put("a", b"old")?;
    inputs.put("b", b"")?;
    inputs.put("a", b"abcde")?;
    Ok(inputs)
}

// Whether each step gives the result that stands after it, with calm inputs.
fn is_calm_met(alloc: Global, steps: &'static str) -> bool {
    match calm_files(alloc) {
        Ok(mut inputs) => are_met(alloc, &mut inputs, steps),
        Err(_) => false,
    }
}

// Whether the steps of a line give their results, with inputs of which one call fails.
fn is_met(alloc: Global, line: &'static str) -> bool {
    let (inputs, steps) = parts_of(line, '|');
    let (kind, failing) = parts_of(inputs, ' ');
    if kind == "calm" {
        return is_calm_met(alloc, steps);
    }
    let Ok(mut held) = held_files(alloc, call_of(failing)) else {
        return false;
    };
    if kind == "held" {
        return are_met(alloc, &mut held, steps);
    }
    are_met(alloc, &mut Trickle(held), steps)
}

#[test]
fn files_in_memory_are_read(rt: HostRuntime) {
    for line in IN_MEMORY.lines() {
        assert!(rt; line.is_empty() || is_met(rt.alloc(), line), "{line}");
    }
}

// Whether reading whole files, each with a limit, gives the results that stand after them.
fn are_whole(alloc: Global, files: &'static str) -> bool {
    let Ok(mut inputs) = held_files(alloc, 2) else {
        return false;
    };
    for file in files.split(';') {
        let (file, wanted) = parts_of(file, ':');
        let (name, limit) = parts_of(file, ' ');
        let limit = limit.parse::<usize>().unwrap_or(0);
        if !is_wanted(&read_from_memory(alloc, &mut inputs, name, limit), wanted) {
            return false;
        }
    }
    true
}

#[test]
fn a_file_in_memory_is_read_by_its_name(rt: HostRuntime) {
    assert!(rt; are_whole(rt.alloc(), WHOLE));
}

#[test]
fn real_files_are_read_and_closed(rt: HostRuntime) -> Result<(), Fail> {
    fs::write(&rt, "outside_test_a", b"abcde".as_slice())?;
    fs::write(&rt, "outside_test_b", b"".as_slice())?;
    let is_read = are_met(rt.alloc(), &mut RealInputs::new(&rt), REAL);
    fs::remove_file(&rt, "outside_test_a")?;
    fs::remove_file(&rt, "outside_test_b")?;
    assert!(rt; is_read);
    Ok(())
}
