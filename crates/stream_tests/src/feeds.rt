// Files that are fed, and how that ends.
use crate::feeding::{Case, Fed, feed};
use crate::files::names_of;
use crate::lines::fields_of;
use dada_header::HeaderFault;
use disk_feeder::{FeedEnd, FeedFault, HeaderCause};
use obs_plan::{Key, ObsFault};
use std::alloc::Global;
use std::test::Fail;

// The names that are read, with `+` before a second transfer; the size of a block, the limit of data bytes and the call
// that fails; how the feeder ends, or begins; its trace; and its turns. If no call fails, bytes that come one at a time
// give what bytes that are read whole give.
//
// A file's first calls open it and read its header, in two pieces if that is longer than 4096 bytes. The first files of
// two transfers are opened again: two blocks are full, the third is empty; then one is full, and one byte of the last
// is read before its end is.
//
// The rings have two buffers, and the reader reads after each third turn, the header first. In the last line the block
// that found no room is sealed once there is some, and nothing is read for it again.
const FEEDS: &str = "
six | size 6, max_bytes 6 | whole 6 | Habcdef.E
six | size 1, max_bytes 6 | whole 6 | Ha.b.c.d.e.f.E
six | size 3, max_bytes 9 | whole 6 | Habc.def.E
six | size 4, max_bytes 9 | whole 6 | Habcd.efE
none | size 4, max_bytes 9 | whole 0 | HE
long | size 2, max_bytes 9 | whole 3 | Huv.wE
four at_four | size 3, max_bytes 6 | whole 6 | Habc.dxy.E
four + six | size 3, max_bytes 10 | whole 10 | Habc.dEHabc.def.E
none + four | size 3, max_bytes 4 | whole 4 | HEHabc.dE
four + at_four | size 3, max_bytes 6 | whole 6 | Habc.dEHxyE
six + none | size 6, max_bytes 6 | whole 6 | Habcdef.EHE
four at_twelve | size 3, max_bytes 6 | gap 1 | Habc.C
six + four at_twelve | size 3, max_bytes 12 | gap 2 | Habc.def.EHabc.C
four short | size 2, max_bytes 6 | short | Hab.cd.C
four other | size 8, max_bytes 6 | differs | HC
six | size 2, max_bytes 5 | too_long 5 | Hab.cd.C
six | size 8, max_bytes 5 | too_long 5 | HC
four + six | size 3, max_bytes 9 | too_long 9 | Habc.dEHabc.C
six + four | call 0 | read_fault at first
six + four | call 1 | read_fault at first
six + four | call 2 | read_fault at first
six + four | call 3 | read_fault at first
six + four | call 4 | begun
six four | call 2 | begun
long | call 2 | read_fault at first
long | call 3 | begun
six + gone | call 9 | read_fault at first
six + short | call 9 | short at first
short | call 1 | read_fault at first
six + four | call 4 | read_fault | HC
six + four | call 5 | read_fault | HC
six + four | call 6 | read_fault | HC
six + four | call 7 | read_fault | Habc.C
six + four | call 8 | read_fault | Habc.def.C
six + four | call 9 | read_fault | Habc.def.EHC
six + four | call 10 | read_fault | Habc.def.EHC
six + four | call 11 | read_fault | Habc.def.EHC
six + four | call 12 | read_fault | Habc.def.EHabc.C
six + four | call 13 | read_fault | Habc.def.EHabc.C
six + four | call 14 | whole 10
six gone | call 99 | read_fault | Habc.def.C
six | size 1, call 9 | whole 6 | Ha.b.c.d.e.f.E | MM0000M11M22M33M44E
";

const ONE: &[u32] = &[0];

const TWO: &[u32] = &[0, 1];

// A number that no call has.
const NEVER: u64 = u64::MAX;

// The numbers of a line.
#[derive(Clone, Copy)]
struct Numbers {
    size: u32,
    max_bytes: u64,
    call: u64,
}

impl Numbers {
    // The numbers that are named in `size 3, call 9`, or none if one has another name.
    fn of(settings: &'static str) -> Option<Numbers> {
        let mut numbers = Numbers {
            size: 3,
            max_bytes: 12,
            call: NEVER,
        };
        for setting in settings.split(',') {
            let (name, number) = setting.trim().split_once(' ')?;
            let number = number.parse::<u32>().ok()?;
            match name {
                "size" => numbers.size = number,
                "max_bytes" => numbers.max_bytes = u64::from(number),
                "call" => numbers.call = u64::from(number),
                _ => return None,
            }
        }
        Some(numbers)
    }
}

// Feeds the files of a line.
fn feed_names(
    alloc: Global,
    names: &'static str,
    numbers: Numbers,
    slowly: bool,
) -> Result<Fed, Fail> {
    let list = names_of(alloc, names)?;
    let starts = if names.contains('+') { TWO } else { ONE };
    feed(
        alloc,
        Case {
            names: list.as_slice(),
            starts,
            size: numbers.size,
            max_bytes: numbers.max_bytes,
            fail: &[numbers.call],
            slowly,
        },
    )
}

// The end of a word and a number: `gap 1` is file 1 that begins at 12 in place of 4; `short` is file 1 of 100 bytes;
// `differs` is file 1 of another NCHAN.
fn end_of(word: &str, number: u32) -> FeedEnd {
    match word {
        "whole" => FeedEnd::Whole {
            bytes: u64::from(number),
        },
        "too_long" => FeedEnd::TooLong {
            limit: u64::from(number),
        },
        "gap" => FeedEnd::Gap {
            file: number,
            expected: 4,
            found: 12,
        },
        "short" => FeedEnd::BadHeader {
            file: 1,
            cause: HeaderCause::Text(HeaderFault::Short { had: 100 }),
        },
        "differs" => FeedEnd::BadHeader {
            file: 1,
            cause: HeaderCause::Fields(ObsFault::Differs(Key::Nchan)),
        },
        _ => FeedEnd::ReadFault,
    }
}

// Whether a feeder begins or ends as the line says.
fn ends_so(fed: &Fed, wanted: &'static str) -> bool {
    let short = FeedFault::BadHeader {
        file: 1,
        cause: HeaderFault::Short { had: 100 },
    };
    let (word, number) = wanted.split_once(' ').unwrap_or((wanted, ""));
    match wanted {
        "begun" => fed.begun == Ok(()),
        "read_fault at first" => fed.begun == Err(FeedFault::ReadFault),
        "short at first" => fed.begun == Err(short),
        _ => fed.end == Some(end_of(word, number.parse::<u32>().unwrap_or(0))),
    }
}

// Whether a text is the one that is wanted, or none is wanted.
fn is_so(text: &[u8], wanted: &str) -> bool {
    wanted.is_empty() || text == wanted.as_bytes()
}

// Whether the files of a line are fed as the line says.
fn is_met(alloc: Global, line: &'static str) -> Result<bool, Fail> {
    let [names, settings, end, trace, turns] = fields_of(line);
    let Some(numbers) = Numbers::of(settings) else {
        return Ok(false);
    };
    for slowly in [false, true] {
        if slowly && numbers.call < NEVER {
            return Ok(true);
        }
        let fed = feed_names(alloc, names, numbers, slowly)?;
        let is_traced = is_so(fed.trace.as_slice(), trace) && is_so(fed.turns.as_slice(), turns);
        if !is_traced || !ends_so(&fed, end) {
            return Ok(false);
        }
    }
    Ok(true)
}

#[test]
fn files_are_fed_as_their_lines_say(rt: HostRuntime) -> Result<(), Fail> {
    for line in FEEDS.lines() {
        assert!(rt; line.is_empty() || is_met(rt.alloc(), line)?, "{line}");
    }
    Ok(())
}
