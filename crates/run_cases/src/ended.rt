// What a run leaves.
use dada_recorder::RecordEnd;
use psr_base::MemSink;
use run_outcome::Ran;
use std::alloc::Global;
use std::fmt;
use std::test::Fail;

/// How a run ended, and what it left.
#[derive(Drop)]
pub struct Ended {
    pub status: u8,
    pub text: Vec<u8>,
    pub notes: Vec<u8>,
    /// How many blocks went through its data ring, or none if it had no ring.
    pub blocks: u64,
    /// How its recorder ended, or none if it had no recorder.
    pub recorded: Option<RecordEnd>,
}

impl Ended {
    /// What a run without a ring and a recorder left.
    pub fn of(alloc: Global, status: u8, out: &MemSink, notes: &MemSink) -> Result<Ended, Fail> {
        Ok(Ended {
            status,
            text: Vec::from_slice(alloc, out.body())?,
            notes: Vec::from_slice(alloc, notes.body())?,
            blocks: 0,
            recorded: None,
        })
    }

    /// What a run left that told how it ended.
    pub fn of_ran(alloc: Global, ran: Ran, out: &MemSink, notes: &MemSink) -> Result<Ended, Fail> {
        let Ran {
            status,
            blocks,
            recorded,
        } = ran;
        let mut ended = Ended::of(alloc, status, out, notes)?;
        ended.blocks = match blocks {
            Some(blocks) => blocks.sealed(),
            None => 0,
        };
        ended.recorded = recorded;
        Ok(ended)
    }
}

// Bytes as text, if they are one.
fn shown(bytes: &[u8]) -> &str {
    std::str::from_utf8(bytes).unwrap_or("no text")
}

impl fmt::Display for Ended {
    fn fmt<W: fmt::Write>(&self, f: &mut fmt::Formatter<W>) -> fmt::Result {
        let (text, notes) = (shown(self.text.as_slice()), shown(self.notes.as_slice()));
        write!(
            f,
            "{}, {text}{notes}{} blocks, {:?}",
            self.status, self.blocks, self.recorded
        )
    }
}
