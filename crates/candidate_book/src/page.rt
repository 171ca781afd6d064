// Lines that are collected and written together.
ghost use Rattle.std.specs.Prelude.{◌≡◌, ℕ, ◌≤◌, [], ◌++◌, List, OnOk, length};
ghost use Rattle.psr_base.specs.Written.{SinkSeen, Wrote};
ghost use Rattle.candidate_book.specs.Lines.{Pending, Passed};

use arrayvec::ArrayVec;
use psr_base::{Failed, Sink, write_all};
use std::marker::Model;
// A law: it does nothing when it runs, and the proofs use what it ensures.
use psr_base::pieces_join;

// The largest number of bytes that are collected.
const PAGE: usize = 4096;

/// Lines that are collected to be written together.
#[derive(Drop)]
pub(crate) struct Page {
    bytes: ArrayVec<u8, PAGE>,
}

impl Model for Page {
    ghost use Rattle.std.specs.Prelude.{ℕ, List};

    ghost Value = { List ℕ };

    ghost view = { λ page. page.bytes.items };
}

impl Page {
    /// An empty page.
    pub(crate) fn new() -> Page
        ensures { result ≡ [] }
    {
        Page {
            bytes: ArrayVec::new(),
        }
    }

    /// Adds a line to the page. If there is no room for it, the page is written first.
    pub(crate) fn push<K: Sink>(&mut self, line: &[u8], sink: &mut K) -> Result<(), Failed>
        requires { length line.now ≤ 256 }
        ensures { (text : List ℕ) (first : SinkSeen) → Pending text self.old first (K.seen sink.old)
            → Passed (text ++ line.now) self.new first (K.seen sink.new) result }
    {
        pieces_join();
        if self.bytes.remaining_capacity() < line.len() {
            self.flush(sink)?;
        }
        let _fits = self.bytes.try_extend_from_slice(line);
        Ok(())
    }

    /// Writes the lines of the page, and empties it.
    pub(crate) fn flush<K: Sink>(&mut self, sink: &mut K) -> Result<(), Failed>
        ensures wrote { Wrote self.old (K.seen sink.old) (K.seen sink.new) result }
        ensures empty { OnOk result (self.new ≡ []) }
    {
        write_all(sink, self.bytes.as_slice())?;
        self.bytes.clear();
        Ok(())
    }
}
