// The first word of the line of a pulse. It is asked for once for all pulses in a row that have one end.
ghost use Rattle.std.specs.Prelude.{◌≡◌};
ghost use Rattle.candidate_book.specs.Asked.{IsAsked, HasWord};

use crate::labels::{LineLabels, PulseWord};
use search_model::Candidate;

/// The first word of the lines of the pulses with one end.
#[derive(Clone, Copy)]
pub(crate) struct Asked {
    end: u64,
    word: PulseWord,
}

impl Asked {
    /// Asks the labels for the word of the pulses that end at spectrum `end`.
    pub(crate) fn at<L: LineLabels>(labels: &L, end: u64) -> Asked
        ensures word { IsAsked (L.word_at labels.now) result }
        ensures end { result.end ≡ end }
    {
        Asked {
            end,
            word: labels.word(end),
        }
    }

    // The word of the pulses that end at spectrum `end`. The labels are asked if that is a new end.
    fn at_end<L: LineLabels>(&mut self, labels: &L, end: u64) -> PulseWord
        requires { IsAsked (L.word_at labels.now) self.old }
        ensures asked { IsAsked (L.word_at labels.now) self.new }
        ensures word { result ≡ L.word_at labels.now end }
    {
        if end == self.end {
            return self.word;
        }
        *self = Asked::at(labels, end);
        self.word
    }

    /// The word of a candidate's line. The labels are asked if it is a pulse with a new end.
    pub(crate) fn of<L: LineLabels>(&mut self, labels: &L, candidate: &Candidate) -> PulseWord
        requires { IsAsked (L.word_at labels.now) self.old }
        ensures asked { IsAsked (L.word_at labels.now) self.new }
        ensures word { HasWord (L.word_at labels.now) candidate.now result }
    {
        match *candidate {
            Candidate::Pulse { end, .. } => self.at_end(labels, end),
            Candidate::Fold { .. } => self.word,
        }
    }
}
