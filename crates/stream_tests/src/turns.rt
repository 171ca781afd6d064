// One thread writes and reads by turns: a table of steps, each with what it answers.
use crate::both::{Both, Seen, open, shape};
use dada_hdu::{Mark, ReadStop, Taken, WriteStop};
use dada_header::Header;
use std::test::Fail;

#[derive(Clone, Copy)]
enum Step {
    WriteHeader,
    ReadHeader,
    ClearHeader,
    /// Writes a full block of this byte.
    Write(u8),
    /// Writes a last block of two bytes.
    End,
    Read,
    Clear,
    Look,
    /// Detaches the reader, and attaches it again.
    Again,
}

fn play(mut both: Both, header: &Header, step: Step) -> (Both, Seen) {
    let seen = match step {
        Step::WriteHeader => both.write_header(header),
        Step::ReadHeader => both.read_header(),
        Step::ClearHeader => both.clear_header(),
        Step::Write(byte) => both.write(byte),
        Step::End => both.end(),
        Step::Read => both.read(),
        Step::Clear => both.clear(),
        Step::Look => both.look(),
        Step::Again => return (both.again(), Seen::Nothing),
    };
    (both, seen)
}

fn took(block: u64, used: u32, mark: Mark, first: u8) -> Seen {
    Seen::Read(Ok(Taken { block, used, mark }), first)
}

fn empty(block: u64, seen: u64, first: u8) -> Seen {
    Seen::Read(Err(ReadStop::Empty { block, seen }), first)
}

fn full(cleared: u64) -> Seen {
    Seen::Wrote(Err(WriteStop::Full { reader: 0, cleared }))
}

// Plays the steps, and answers the number of the first that answered otherwise, or how many there are.
fn play_all(mut both: Both, header: &Header, steps: &[(Step, Seen)]) -> (Both, usize) {
    for (i, (step, wanted)) in steps.iter().enumerate() {
        let (next, seen) = play(both, header, *step);
        both = next;
        if seen != *wanted {
            return (both, i);
        }
    }
    (both, steps.len())
}

#[test]
fn headers_and_data_go_through_rings_of_their_own(rt: HostRuntime) -> Result<(), Fail> {
    let mut header = Header::blank(rt.alloc())?;
    header.set("NCHAN", "2")?;
    let both = open(rt.alloc(), shape(2, 100)).ok_or("memory")?;
    let steps = [
        (Step::ReadHeader, empty(0, 0, 0)),
        (Step::Write(7), Seen::Wrote(Ok(0))),
        (Step::ReadHeader, empty(0, 0, 0)),
        (Step::WriteHeader, Seen::Wrote(Ok(0))),
        (Step::WriteHeader, Seen::Wrote(Ok(1))),
        (Step::WriteHeader, full(0)),
        (Step::Write(8), Seen::Wrote(Ok(1))),
        (Step::Write(9), full(0)),
        (Step::ReadHeader, took(0, 4096, Mark::End, b'N')),
        (Step::Clear, Seen::Nothing),
        (Step::ClearHeader, Seen::Cleared(1)),
        (Step::Write(9), full(0)),
        (Step::Read, took(0, 8, Mark::More, 7)),
        (Step::Clear, Seen::Cleared(1)),
        (Step::End, Seen::Wrote(Ok(2))),
        (Step::Read, took(1, 8, Mark::More, 8)),
        (Step::ReadHeader, took(1, 4096, Mark::End, b'N')),
        (Step::Again, Seen::Nothing),
        (Step::Clear, Seen::Nothing),
        (Step::ClearHeader, Seen::Nothing),
        (Step::Read, took(1, 8, Mark::More, 8)),
        (Step::Clear, Seen::Cleared(2)),
        (Step::Read, took(2, 2, Mark::End, 1)),
        (Step::Clear, Seen::Cleared(3)),
    ];
    let (both, played) = play_all(both, &header, &steps);
    assert_eq!(rt; played, 24);
    assert!(rt; both.reader.number() == 0 && both.reader.header.tries() == 4);
    let finished = both.finish();
    assert!(rt; finished.header.sealed() == 2 && finished.blocks.sealed() == 3);
    Ok(())
}

#[test]
fn a_look_tells_what_a_turn_would_find(rt: HostRuntime) -> Result<(), Fail> {
    let mut header = Header::blank(rt.alloc())?;
    header.set("NCHAN", "2")?;
    let both = open(rt.alloc(), shape(2, 100)).ok_or("memory")?;
    let steps = [
        (Step::Look, Seen::Looked(true, false)),
        (Step::WriteHeader, Seen::Wrote(Ok(0))),
        (Step::Look, Seen::Looked(true, true)),
        (Step::ReadHeader, took(0, 4096, Mark::End, b'N')),
        (Step::ClearHeader, Seen::Cleared(1)),
        (Step::Look, Seen::Looked(true, false)),
        (Step::Write(7), Seen::Wrote(Ok(0))),
        (Step::Write(8), Seen::Wrote(Ok(1))),
        (Step::Look, Seen::Looked(false, true)),
        (Step::Read, took(0, 8, Mark::More, 7)),
        (Step::Clear, Seen::Cleared(1)),
        (Step::Look, Seen::Looked(true, true)),
        (Step::Read, took(1, 8, Mark::More, 8)),
        (Step::Clear, Seen::Cleared(2)),
        (Step::Look, Seen::Looked(true, false)),
    ];
    let (_both, played) = play_all(both, &header, &steps);
    assert_eq!(rt; played, 15);
    Ok(())
}

#[test]
fn a_header_is_read_back(rt: HostRuntime) -> Result<(), Fail> {
    let mut header = Header::blank(rt.alloc())?;
    header.set("NCHAN", "2")?;
    let mut both = open(rt.alloc(), shape(2, 100)).ok_or("memory")?;
    both.write_header(&header);
    both.read_header();
    let again = Header::read(rt.alloc(), both.into.as_slice())?;
    assert!(rt; again.get("NCHAN") == Some("2") && again.bytes() == header.bytes());
    Ok(())
}

#[test]
fn neither_ring_waits_for_a_retired_reader(rt: HostRuntime) -> Result<(), Fail> {
    let header = Header::blank(rt.alloc())?;
    let both = open(rt.alloc(), shape(2, 100)).ok_or("memory")?;
    assert!(rt; both.write_alone(&header, 3) == (3, 3));
    Ok(())
}

#[test]
fn each_ring_carries_so_many_blocks_and_no_more(rt: HostRuntime) -> Result<(), Fail> {
    let header = Header::blank(rt.alloc())?;
    let both = open(rt.alloc(), shape(2, 4)).ok_or("memory")?;
    assert!(rt; both.write_alone(&header, 5) == (4, 4));
    Ok(())
}
