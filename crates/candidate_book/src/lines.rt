// The lines of a candidate list.
ghost use Rattle.std.specs.Prelude.{◌≡◌, ◌+◌, ◌*◌, ◌≤◌, ◌<◌, ◌++◌, codes, decimal, length};
ghost use Rattle.search_model.specs.CandidateText.{thousandths, candidate_line as line_of, end_line as end_line_of};
ghost use Rattle.search_model.specs.Candidates.{cells_of};
ghost use Rattle.candidate_book.specs.Asked.{HasWord};
ghost use Rattle.candidate_book.specs.Conditions.{IsSearched};
ghost use Rattle.candidate_book.specs.Labelled.{labels_with};

use crate::labels::{LineLabels, PulseWord};
use obs_plan::Observation;
use search_model::Candidate;
use text_line::Line;

/// The line of a candidate. `word` is the first word of the line if it is a pulse.
pub(crate) fn candidate_line<L: LineLabels>(
    obs: &Observation,
    labels: &L,
    word: PulseWord,
    candidate: &Candidate,
) -> Line
    requires searched { IsSearched candidate.now }
    requires word { HasWord (L.word_at labels.now) candidate.now word }
    ensures text { result
        ≡ line_of (labels_with obs.now (L.cells_of_delay labels.now) (L.word_at labels.now))
        candidate.now }
    ensures bound { length result ≤ 256 }
{
    let cells = cells(labels, candidate);
    let dm = obs.dm(candidate.delay());
    let mut line = Line::new();
    match *candidate {
        Candidate::Pulse {
            end,
            delay,
            width,
            sum,
        } => {
            line.push_str(word.text());
            line.push_str(" ");
            push_word(&mut line, end);
            push_word(&mut line, u64::from(delay));
            push_thousandths(&mut line, dm);
            push_word(&mut line, u64::from(width));
            push_last_words(&mut line, u64::from(sum), cells);
        }
        Candidate::Fold {
            delay,
            period,
            halvings,
            trial,
            phase,
            sum,
        } => {
            line.push_str("FOLD ");
            push_word(&mut line, u64::from(delay));
            push_thousandths(&mut line, dm);
            push_word(&mut line, u64::from(period));
            push_word(&mut line, 1 << halvings);
            push_word(&mut line, u64::from(trial));
            push_word(&mut line, u64::from(phase));
            push_last_words(&mut line, u64::from(sum), cells);
        }
    }
    line
}

// The number of cells that a candidate adds.
fn cells<L: LineLabels>(labels: &L, candidate: &Candidate) -> u64
    requires { IsSearched candidate.now }
    ensures { result ≡ cells_of (L.cells_of_delay labels.now) candidate.now }
{
    let cells = labels.cells(candidate.delay());
    match *candidate {
        Candidate::Pulse { width, .. } => u64::from(width) * cells,
        Candidate::Fold { halvings, .. } => (1 << halvings) * cells,
    }
}

/// The END line: the number of pulses, of folds, and of spectra that were searched.
pub(crate) fn end_line(pulses: u64, folds: u64, spectra: u64) -> Line
    ensures text { result ≡ end_line_of pulses folds spectra }
    ensures bound { length result ≤ 256 }
{
    let mut line = Line::new();
    line.push_str("END ");
    push_word(&mut line, pulses);
    push_last_words(&mut line, folds, spectra);
    line
}

// Appends a number and a space.
fn push_word(line: &mut Line, number: u64)
    requires { length line.old + 21 ≤ 256 }
    ensures text { line.new ≡ line.old ++ decimal number ++ codes " " }
    ensures bound { length line.new ≤ length line.old + 21 }
{
    line.push_number(number);
    line.push_str(" ");
}

// Appends the last two numbers of a line, and a line feed.
fn push_last_words(line: &mut Line, first: u64, second: u64)
    requires { length line.old + 42 ≤ 256 }
    ensures text { line.new
        ≡ line.old ++ decimal first ++ codes " " ++ decimal second ++ codes "\n" }
    ensures bound { length line.new ≤ length line.old + 42 }
{
    push_word(line, first);
    line.push_number(second);
    line.push_str("\n");
}

// Appends a number of thousandths with a point and three decimals, and a space.
fn push_thousandths(line: &mut Line, number: u64)
    requires { length line.old + 82 ≤ 256 }
    ensures text { line.new ≡ line.old ++ thousandths number ++ codes " " }
    ensures bound { length line.new ≤ length line.old + 82 }
{
    let decimals = number % 1000;
    line.push_number(number / 1000);
    line.push_str(".");
    line.push_number(decimals / 100);
    line.push_number(decimals / 10 % 10);
    line.push_number(decimals % 10);
    line.push_str(" ");
}
