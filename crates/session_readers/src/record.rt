//! A recorder that takes turns.
ghost use Rattle.std.specs.Prelude.{◌≡◌, None, IsSome};

use crate::pausing::pause;
use crate::reading::{has_next, retire};
use dada_hdu::{Hdu, HduEnded};
use dada_recorder::{RecordEnd, RecordTurn, Recorder};
use psr_base::Files;

/// The recorder of a session, as one that takes turns.
#[derive(Drop)]
pub struct RecordActor<'a, F> {
    /// The recorder.
    pub part: Recorder<'a, F>,
    /// The reader of both rings by which it clears blocks.
    pub pass: HduEnded,
    /// How many turns it took, at most `u64::MAX`.
    pub turns: u64,
    /// How it ended, once it has.
    pub end: Option<RecordEnd>,
}

impl<'a, F: Files> RecordActor<'a, F> {
    ghost use Rattle.session_readers.specs.Shards.{IsRetired};
    ghost use Rattle.session_readers.specs.Records.{RecordOn, RecordMoved};

    /// Takes one turn: records one block and clears it. If it finds none, it pauses.
    pub fn turn(&mut self, hdu: &Hdu)
        requires on { RecordOn F.is_open hdu.now self.old }
        requires running { self.old.end ≡ None }
        ensures on { RecordOn F.is_open hdu.now self.new }
        ensures moved { RecordMoved F.seen 1 self.old self.new }
    {
        self.turns = self.turns.saturating_add(1);
        let HduEnded::Here(reader) = &mut self.pass else {
            unreachable!()
        };
        match self.part.turn(hdu, reader) {
            RecordTurn::Moved => {}
            RecordTurn::Waiting(_) => pause(),
            RecordTurn::Ended(end) => self.end = Some(end),
        }
    }

    /// Whether a turn may read a block at this moment: the recorder has not ended, and a next block lies in either
    /// ring. It is a hint: no clause speaks of the answer.
    pub fn could_move(&self, hdu: &Hdu) -> bool
        requires { RecordOn F.is_open hdu.now self.now }
    {
        self.end.is_none() && has_next(hdu, &self.pass)
    }

    /// The recorder itself; once it ended, the writer of the rings no longer waits for it.
    pub fn retired(self, hdu: &Hdu) -> RecordActor<'a, F>
        requires { RecordOn F.is_open hdu.now self }
        ensures on { RecordOn F.is_open hdu.now result }
        ensures moved { RecordMoved F.seen 0 self.entry result }
        ensures retired { IsSome result.end → IsRetired result.pass }
    {
        if self.end.is_none() {
            return self;
        }
        let RecordActor {
            part,
            pass,
            turns,
            end,
        } = self;
        RecordActor {
            part,
            pass: retire(hdu, pass),
            turns,
            end,
        }
    }
}
