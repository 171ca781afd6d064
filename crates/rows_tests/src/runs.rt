// All sums of runs against direct ones.
ghost use Rattle.std.specs.Prelude.{IfSome};
ghost use Rattle.rows_tests.specs.Ready.{IsShape};

use crate::fed::{Fed, Shape};
use psr_base::Memory;
use std::alloc::Global;

// Of each run: the number of channels, the smallest and the greatest delay, and the maximum number of spectra of a
// call; then the calls, each with its spectra: f feeds 32-bit values and F bytes, p passes 32-bit values and P bytes.
// They make rows of 16 and of 32 bits, and nodes of two and three channels at depths above and below those that have a
// slot for each row.
const RUNS: [&str; 9] = [
    "37 5 90 64 f1 F7 p64 f1 P1 p7 f64 p0 F7 P7 p64 F1 f7 P5 f64",
    "2 0 3 2 f2 P2 F2 p2",
    "2 3 6 4 p4 F4 P3 f4 p4",
    "3 6 9 4 p4 F4 p1 P4 f2",
    "5 2 30 8 P8 p8 f8 F8 p3 P8 f8",
    "5 8190 8192 16 f10 P10 p10 F10",
    "300 0 60 16 p16 P16 F2 p16 P9",
    "4095 1 2 2 p2 F2 P2",
    "4096 0 1 1 P1 f1 p1",
];

// The stream has samples of this many spectra; later ones are 0.
const SPECTRA: usize = 300;

fn number_of(word: Option<&str>) -> Option<u32> {
    word?.parse().ok()
}

// The shape of a run.
fn shape_of(line: &str) -> Option<Shape>
    ensures { IfSome result (λ shape.
        IsShape shape.channels shape.first shape.last shape.chunk) }
{
    let mut words = line.split(' ');
    let shape = Shape {
        channels: number_of(words.next())?,
        first: number_of(words.next())?,
        last: number_of(words.next())?,
        chunk: number_of(words.next())?,
    };
    if shape.may_be() { Some(shape) } else { None }
}

// How many sums of a call are wrong.
fn call(alloc: Global, fed: &mut Fed, word: &str) -> Result<Option<u64>, Memory> {
    let Some((way, count)) = word.split_at_checked(1) else {
        return Ok(None);
    };
    let Some(count) = number_of(Some(count)) else {
        return Ok(None);
    };
    let whole = way == "f" || way == "F";
    let in_bytes = way == "F" || way == "P";
    Ok(Some(fed.check(alloc, count, whole, in_bytes)?))
}

// How many sums of the calls of a line are wrong, or `None` if the line has anything but calls.
fn run_calls(alloc: Global, fed: &mut Fed, line: &str) -> Result<Option<u64>, Memory> {
    let mut wrong: u64 = 0;
    for word in line.split(' ').skip(4) {
        let Some(more) = call(alloc, fed, word)? else {
            return Ok(None);
        };
        wrong = wrong.wrapping_add(more);
    }
    Ok(Some(wrong))
}

// How many sums of a run are wrong, or `None` if the line is no run.
fn run(alloc: Global, line: &str) -> Result<Option<u64>, Memory> {
    let Some(shape) = shape_of(line) else {
        return Ok(None);
    };
    match Fed::new(alloc, shape, SPECTRA) {
        Ok(mut fed) => run_calls(alloc, &mut fed, line),
        Err(_) => Err(Memory),
    }
}

#[test]
fn all_sums_are_right(rt: HostRuntime) -> Result<(), Memory> {
    for line in RUNS {
        assert_eq!(rt; run(rt.alloc(), line)?, Some(0), "{line}");
    }
    Ok(())
}
